//! The top call: what the words of the command line mean, from the files that they name to the bytes that
//! are written.
//!
//! It stands on `outside` (files and sinks), `machine_desc` and `partition` (the machine), `dt_model`, `dt_read` and
//! `dt_write` (blobs), `hv_config`, `hv_read` and `config_rules` (configurations and hardware), `guest_tree` (device trees of
//! guests), `elf_image` and `fresh_load` (images), and `script` and `system` (runs). Its contract is the main theorem: the status and the bytes written
//! are those of `outcome`, in `specs/Outcome.antt`, and each other answer has its cause.
#![tactic(auto)]

mod accepting;
mod bare;
mod built_in;
mod check;
mod command;
mod deliver;
mod dtb;
mod gathered;
mod generated;
mod guest;
mod imaging;
mod laws;
mod number;
mod read;
mod refuse;
mod report;
mod run;
mod setup;
mod status;
mod telling;
mod text;
mod top_call;
mod turns;
mod words;

pub use laws::{
    described_partitions_are_joined, described_partitions_are_named, done_runs_print_alone,
};
pub use status::Status;
pub use top_call::topaz;
