//! One instruction of a core over lent translations and real memory.
//!
//! It stands on `insn` and `insn_alu` for what an instruction does to the registers, on `guest_regs` for
//! the registers, on `mas` for the sizes of pages, on `ground` for real memory and on `arrayvec` for the ranges that were written; its tests,
//! on `outside` for the want of memory. Its definitions: `specs/Pages.antt` (what a page is, and looking one
//! up), `specs/Access.antt` (the pages of an access in order, and its first fault), `specs/Step.antt` (one
//! instruction), `specs/Touches.antt` (the pages that it touches) and `specs/Laws.antt` (one instruction over
//! extents of a larger memory).
#![tactic(auto)]

mod access;
mod answer;
mod cpu;
mod cycle;
mod laws;
mod look;
mod moving;
mod stepping;
mod transfer;

pub use answer::{Hw, Wrote};
pub use cpu::Core;
pub use laws::{
    alike_step_alike, stays_backed, steps_alone, touches_are_few, touches_are_found, tries_settle,
    writes_into_pages,
};
pub use look::{Look, Page};

#[cfg(test)]
mod tests;
