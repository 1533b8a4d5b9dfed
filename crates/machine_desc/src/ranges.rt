//! When ranges of addresses are apart.

ghost use Rattle.std.specs.Prelude.{◌≡◌, ◌+◌};
ghost use Rattle.machine_desc.specs.Ranges as spec;

/// The first address behind the range.
pub fn end_of(at: u64, size: u64) -> u128
    ensures { result ≡ at + size }
{
    u128::from(at) + u128::from(size)
}

/// Whether some address is in both ranges, each given by the address of its first byte and its size in bytes: both
/// ranges of logical addresses, or both of real ones. Ranges that only touch don't meet, and a range without bytes meets
/// none. The sums never wrap.
pub fn ranges_meet(at: u64, size: u64, other_at: u64, other_size: u64) -> bool
    ensures { result ≡ spec.ranges_meet at size other_at other_size }
{
    u128::from(at.max(other_at)) < end_of(at, size).min(end_of(other_at, other_size))
}
