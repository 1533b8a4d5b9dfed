//! The program `topaz`: the words after its name are what is asked for, the host's files and standard
//! output are the world. All that it means is the contract of `topaz_run::topaz`.
#![tactic(auto)]

mod exit;
mod words;

use exit::exit_status;
use outside::{HostFiles, HostOut};
use std::process::ExitCode;
use std::rt::{Env, Files};
use topaz_run::topaz;
use words::{NoWords, words};

/// Ends with the exit status of the program.
fn main(rt: HostRuntime) -> ExitCode {
    ExitCode::from(run(&rt))
}

/// Runs the program, and answers its exit status.
fn run<R: Env + Files + Print + AllocGlobal>(rt: &R) -> u8 {
    let words = match words(rt) {
        Ok(words) => words,
        Err(NoWords::Usage) => return exit_status(topaz_run::Status::Usage),
        Err(NoWords::NoMemory) => return exit_status(topaz_run::Status::NoMemory),
    };
    let mut files = HostFiles::new(rt);
    let Ok(mut out) = HostOut::new(rt, rt.alloc()) else {
        return exit_status(topaz_run::Status::NoMemory);
    };
    exit_status(topaz(rt.alloc(), &words, &mut files, &mut out))
}
