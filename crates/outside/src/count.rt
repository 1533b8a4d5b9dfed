//! Counts of calls and faults.

ghost use Rattle.std.specs.Prelude.{◌≡◌, ◌==◌};
ghost use Rattle.std.specs.List.{list_any};
ghost use Rattle.outside.specs.Fault.{raised};

/// The count after one more: it stands still at the type's end.
pub fn raised(count: u64) -> u64
    ensures { result ≡ raised count }
{
    count.saturating_add(1)
}

/// Whether the number is in the list.
pub fn is_listed(list: &[u64], number: u64) -> bool
    ensures { result ≡ list_any (λ listed. listed == number) list.now }
{
    list.iter().any(|listed| *listed == number)
}
