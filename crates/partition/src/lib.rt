//! The machine of one partition, step by step.
//!
//! It stands on `core_step` for one instruction over translations and real memory, on `trap_emulate` for timers,
//! interrupts and privileged instructions, on `guest_tlb` and `mas` for translations, on `guest_regs`, `insn` and
//! `ground` for their types, on `hcall_abi` for hypercalls, on `vpic` for the interrupt controller, on `machine_desc`
//! for descriptions and acts, on `fresh_load` and `memory_areas` for what its memory begins with, on `byte_channel`
//! for ports in memory, on `outside` for the want of memory, and on `arrayvec` for bytes that are sent. For now a
//! partition has one core.
//!
//! The definition that it meets is the machine of a description by itself, in `specs/Machine.antt`, with its step in
//! `specs/Step.antt`, the hypercalls of byte channels in `specs/Channels.antt`, those of the interrupt controller and
//! of doorbells with the external line in `specs/Interrupts.antt`, what a core finds at an address in
//! `specs/Found.antt`, the ends of its channels in `specs/Port.antt`, what a step did in `specs/Act.antt` and its
//! events in `specs/Event.antt`; `specs/Lending.antt` says what a partition stands for with what it is lent.
#![tactic(auto)]

mod acts;
mod channels;
mod clock;
mod copier;
mod cpu;
mod found;
mod handles;
mod interrupts;
mod kind;
mod laws;
mod lone_machine;
mod managing;
mod mem_end;
mod mem_ports;
mod partition;
mod ports;
mod reservations;
mod served;

pub use acts::Acts;
pub use handles::kind_at;
pub use kind::Kind;
pub use laws::{
    interrupts_stay_sound, refusals_are_quiet, restarts_forget, steps_act, translations_stay_sound,
};
pub use lone_machine::LoneMachine;
pub use mem_ports::MemPorts;
pub use partition::Partition;
pub use ports::Ports;
