//! The host's files.

ghost use Rattle.std.specs.Prelude.{◌≡◌, ℕ, ◌≤◌, false, List, [], Option, None};
ghost use Rattle.outside.specs.Fault.{raised};
ghost use Rattle.outside.specs.Host.{left_of};

use crate::count::raised;
use crate::fault::{Failed, OpenFault};
use crate::files::Files;
use crate::name::Name;
use std::io::{ErrorKind, Read};
use std::marker::Model;
use std::{fs, rt};

/// The host's files, opened for reading. They tell no content. A call that the host refuses counts one
/// fault, but an opening that it refuses for want of memory counts none.
#[derive(Drop)]
pub struct HostFiles<'a, R: rt::Files> {
    rt: &'a R,
    file: Option<R::File>,
    faults: u64,
    asked: Name,
    blamed: Name,
}

impl<'a, R: rt::Files> Model for HostFiles<'a, R> {
    ghost use Rattle.std.specs.Prelude.{is_some};
    ghost use Rattle.outside.specs.Host.{FilesOfHost};

    ghost Value = { FilesOfHost };

    ghost view = { λ h. record { is_open = is_some h.file; faults = h.faults; asked = h.asked; blamed = h.blamed } };
}

impl<'a, R: rt::Files> HostFiles<'a, R> {
    /// The files that the runtime reaches, with none open.
    pub fn new(rt: &'a R) -> HostFiles<'a, R>
        ensures { result ≡ record { is_open = false; faults = 0; asked = []; blamed = [] } }
    {
        HostFiles {
            rt,
            file: None,
            faults: 0,
            asked: Name::empty(),
            blamed: Name::empty(),
        }
    }

    /// Counts a fault, at the name last asked for.
    fn count_fault(&mut self)
        ensures counted { self.new ≡ record self.old { faults = raised self.old.faults; blamed = self.old.asked } }
        ensures rises { self.old.faults ≤ self.new.faults }
    {
        self.faults = raised(self.faults);
        self.blamed = self.asked.copy();
    }
}

impl<'a, R: rt::Files> Files for HostFiles<'a, R> {
    ghost faults = { λ h. h.faults };

    ghost asked = { λ h. h.asked };

    ghost blamed = { λ h. h.blamed };

    ghost content = { λ _. None };

    ghost is_open = { λ h. h.is_open };

    ghost left = { left_of };

    fn open_file(&mut self, name: &str) -> Result<(), OpenFault> {
        self.asked = Name::cut(name.as_bytes());
        self.file = None;
        match fs::open(self.rt, name) {
            Ok(file) => {
                self.file = Some(file);
                Ok(())
            }
            Err(error) => {
                if error.kind() == ErrorKind::OutOfMemory {
                    return Err(OpenFault::NoMemory);
                }
                self.count_fault();
                Err(OpenFault::Failed)
            }
        }
    }

    fn read(&mut self, buf: &mut [u8]) -> Result<usize, Failed> {
        let Some(file) = &mut self.file else {
            return Ok(0);
        };
        match file.read(buf) {
            Ok(count) => Ok(count),
            Err(_) => {
                self.count_fault();
                Err(Failed)
            }
        }
    }
}
