//! The command `guest`.

ghost use Rattle.std.specs.Prelude.{◌≡◌, ◌≢◌, ◌<◌, ◌≤◌, IfErr, IfOk, IfSome, IsErrOf, Contains, length, slice_index_or};
ghost use Rattle.outside.specs.Fault.{Rose};
ghost use Rattle.hv_config.specs.declared.config.PartDef.{PartDef};
ghost use Rattle.dt_model.specs.Fit.{Fits};
ghost use Rattle.dt_model.specs.Canonical.{canonical};
ghost use Rattle.guest_tree.specs.Guest.{guest_blob};
ghost use Rattle.guest_tree.specs.Laws.{largest_blob};
ghost use Rattle.topaz_run.specs.Plan.{outcome_of, needs_of};
ghost use Rattle.topaz_run.specs.Outcome as spec;
ghost use Rattle.topaz_run.specs.Answers.{Meets};

use crate::accepting::read_accepted;
use crate::refuse::refused;
use crate::status::Stop;
use config_rules::Accepted;
use dt_model::Tree;
use dt_write::{WriteFault, write};
use guest_tree::{blobs_are_those_of_the_trees, derive, guest_trees_fit};
use outside::{Bytes, Files, NoMemory};
use std::alloc::Global;

/// Accepts the configuration on the hardware as `check` does, and answers the blob of the guest tree of the partition of
/// that name.
pub fn guest<F: Files>(
    alloc: Global,
    files: &mut F,
    config: &str,
    hw: &str,
    name: &str,
) -> Result<Bytes, Stop>
    ensures answer { IfSome (F.content files.old) (λ content. Meets result (outcome_of content (spec.showing config.now hw.now name.now))) }
    ensures read_fault { IsErrOf result Stop.ReadFault → Rose (F.faults files.old) (F.faults files.new) }
    ensures needed { IsErrOf result Stop.ReadFault → IfSome (F.content files.old) (λ content.
        Contains (needs_of content (spec.showing config.now hw.now name.now)) (F.blamed files.new)) }
    ensures counted { F.faults files.old ≤ F.faults files.new }
{
    let setup = read_accepted(alloc, files, config, hw)?;
    guest_named(alloc, &setup.accepted, name)
}

/// The blob of the guest tree of the partition of that name.
fn guest_named(alloc: Global, accepted: &Accepted, name: &str) -> Result<Bytes, Stop>
    ensures answer { Meets result (spec.guest name.now accepted.now) }
    ensures no_fault { IfErr result (λ stop. stop ≢ Stop.ReadFault) }
{
    match accepted.part_named(name.as_bytes()) {
        Some(part) => Ok(guest_of(alloc, accepted, part)?),
        None => Err(refused(alloc, "Q1", name)),
    }
}

/// The blob of the guest tree of the partition of that number.
pub fn guest_of(alloc: Global, accepted: &Accepted, part: usize) -> Result<Bytes, NoMemory>
    requires { part < length accepted.now.parts }
    ensures value { IfOk result (λ blob. (d : PartDef) → blob ≡ guest_blob accepted.now (slice_index_or accepted.now.parts part d)) }
    ensures small { IfOk result (λ blob. length blob ≤ largest_blob) }
{
    guest_trees_fit();
    blobs_are_those_of_the_trees();
    let _config = accepted.config();
    let tree = derive(alloc, accepted, part)?;
    write_small(alloc, &tree)
}

/// The canonical blob of a tree that is small enough to be written.
fn write_small(alloc: Global, tree: &Tree) -> Result<Bytes, NoMemory>
    requires fits { Fits tree.now }
    requires small { length (canonical tree.now) ≤ largest_blob }
    ensures value { IfOk result (λ blob. blob ≡ canonical tree.now) }
    ensures small { IfOk result (λ blob. length blob ≤ largest_blob) }
{
    match write(alloc, tree) {
        Ok(blob) => Ok(Bytes::from_vec(blob)),
        Err(WriteFault::TooLarge) => unreachable!(),
        Err(WriteFault::NoMemory) => Err(NoMemory),
    }
}
