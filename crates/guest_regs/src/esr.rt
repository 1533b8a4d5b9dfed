//! The bits of the exception syndrome register, each by its weight, and what it tells of an access (Power ISA 2.06, Book III-E,
//! chapter 7).

ghost use Rattle.std.specs.Prelude.{◌≡◌, ℕ, ◌≤◌};
ghost use Rattle.guest_regs.specs.State.{store_syndrome, order_syndrome};

/// PIL: an illegal instruction.
pub const ILLEGAL: u32 = 0x0800_0000;

/// PPR: a privileged instruction, in the problem state.
pub const PRIVILEGED: u32 = 0x0400_0000;

/// PTR: a trap.
pub const TRAP: u32 = 0x0200_0000;

/// ST: the access was a store.
pub const STORE: u32 = 0x0080_0000;

/// BO: the page is little-endian.
pub const BYTE_ORDERING: u32 = 0x0002_0000;

/// What the ESR tells of an access that is a store, ST, and of a load, nothing.
pub fn store_syndrome(store: bool) -> u32
    ensures value { result ≡ store_syndrome store }
    ensures bound { result ≤ 0x0080_0000 }
{
    if store { STORE } else { 0 }
}

/// What the ESR tells of a page whose bytes have the little-endian order, BO, and of another, nothing.
pub fn order_syndrome(little: bool) -> u32
    ensures value { result ≡ order_syndrome little }
    ensures bound { result ≤ 0x0002_0000 }
{
    if little { BYTE_ORDERING } else { 0 }
}
