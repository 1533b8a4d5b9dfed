//! What the system of a guest can do to its core: its timers, its interrupts and its privileged instructions.
//!
//! It stands on `insn` for the instructions and their fields, on `guest_regs` for the registers, on `mas` and
//! `guest_tlb` for translations, and on the kit's `arrayvec`; its tests, on `outside` for the want of memory. `tick` meets
//! `specs/Clock.antt`, the time base and the decrementer of one step; `deliver` meets `specs/Entry.antt`, the entry
//! of each interrupt; `emulate` meets `specs/Privileged.antt`, the privileged instructions, of which
//! `specs/Tlb.antt` has those on translations. `specs/Laws.antt` says what the definitions mean over whole runs, and what
//! stays through them.
#![tactic(auto)]

mod cause;
mod clock;
mod entry;
mod laws;
mod mmu;
mod privileged;
mod tlb;

pub use cause::Cause;
pub use clock::{is_decrementer_pending, tick};
pub use entry::{are_interrupts_enabled, deliver, may_enter};
pub use laws::{
    changes_keep_the_registers, clocks_keep_time, instructions_keep_the_slots, returns_go_back,
    victims_are_ways,
};
pub use mmu::Mmu;
pub use privileged::emulate;

#[cfg(test)]
mod tests;
