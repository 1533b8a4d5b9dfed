//! One pass over the slots that invalidates translations.

ghost use Rattle.std.specs.Prelude.{◌≡◌, ◌≤◌, length};
ghost use Rattle.guest_tlb.specs.Invalidation.{invalidated, ended_slots};
ghost use Rattle.guest_tlb.specs.Ending.{test_of};

use crate::ending::Ending;
use arrayvec::ArrayVec;
use mas::Entry;

/// The slots whose translations a change overwrote or invalidated, in rising order.
pub type Dead = ArrayVec<u16, 576>;

/// Invalidates what a change ends.
pub fn invalidate(slots: &mut [Entry], ending: &Ending) -> Dead
    requires { length slots.old ≤ 576 }
    ensures slots { slots.new ≡ invalidated (test_of ending.now) slots.old }
    ensures dead { result.items ≡ ended_slots (test_of ending.now) slots.old }
{
    let mut dead = ArrayVec::new();
    for slot in 0..slots.len() {
        let entry = slots[slot];
        if ending.ends(slot as u16, &entry) {
            slots[slot] = Entry {
                valid: false,
                ..entry
            };
            dead.push(slot as u16);
        }
    }
    dead
}
