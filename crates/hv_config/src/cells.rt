//! Cell counts, and the numbers that they say the size of.

ghost use Rattle.std.specs.Prelude.{◌≡◌, ◌≤◌, length};
ghost use Rattle.hv_config.specs.Cells as spec;

use byteorder::{BigEndian, ByteOrder};
use dt_model::{Node, prop, u32_of};

/// How many cells of four bytes an address or a size has (ePAPR 1.1, 2.3.5).
#[derive(Clone, Copy)]
pub enum Cells {
    One,
    Two,
}

/// The count, if it is 1 or 2.
fn counted(count: u32) -> Option<Cells>
    ensures { result ≡ spec.counted count }
{
    if count == 1 {
        Some(Cells::One)
    } else if count == 2 {
        Some(Cells::Two)
    } else {
        None
    }
}

/// The count that a node gives to its children, and `None` where it is no number of 1 or 2. Where it gives none the
/// default counts.
#[tactic(auto, unfolding(crate::specs::Cells::cells_of))]
pub fn cells_of(parent: &Node, name: &[u8], default: Cells) -> Option<Cells>
    ensures { result ≡ spec.cells_of parent.now name.now default }
{
    match prop(parent, name) {
        Some(value) => counted(u32_of(value)?),
        None => Some(default),
    }
}

/// The bytes of a number.
pub fn width(cells: Cells) -> usize
    ensures value { result ≡ spec.width cells }
    ensures some { 4 ≤ result }
    ensures few { result ≤ 8 }
{
    match cells {
        Cells::One => 4,
        Cells::Two => 8,
    }
}

/// The number at the front.
pub fn number_in(cells: Cells, bytes: &[u8]) -> u64
    requires { spec.width cells ≤ length bytes.now }
    ensures { result ≡ spec.number_in cells bytes.now }
{
    match cells {
        Cells::One => BigEndian::read_u32(bytes) as u64,
        Cells::Two => BigEndian::read_u64(bytes),
    }
}
