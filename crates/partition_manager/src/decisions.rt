//! Whether a request goes, or by which status it is refused. An argument is looked at before the state of the partition.

ghost use Rattle.std.specs.Prelude.{◌≡◌};
ghost use Rattle.partition_manager.specs.Decisions as spec;

use crate::decision::Decision;
use crate::naming::{is_entry, names_partition};
use hcall_abi::Status;
use machine_desc::Desc;

/// Tells the caller this status.
fn refused(status: Status) -> Decision
    ensures { result ≡ spec.refused status }
{
    Decision::Refuse(status.code())
}

/// Whether the caller, whose description this is, may start the partition that handle `h` names, at the effective address
/// `entry`. `running` is whether that partition runs, as the caller itself does.
///
/// EINVAL where the handle names no partition, or the entry isn't a multiple of 4 below 64 MiB; then INVALID_STATE where
/// the partition runs.
#[tactic(auto, unfolding(crate::specs::Decisions::decide_start))]
pub fn decide_start(desc: &Desc, h: u32, entry: u32, running: bool) -> Decision
    ensures { result ≡ spec.decide_start desc.now.ports h entry running }
{
    if !names_partition(desc.ports.as_slice(), h) || !is_entry(entry) {
        return refused(Status::InvalidArgument);
    }
    if running {
        return refused(Status::InvalidState);
    }
    Decision::Go
}

/// Whether the caller, whose description this is, may stop the partition that handle `h` names, itself too. `running` is
/// whether that partition runs, as the caller itself does.
///
/// EINVAL where the handle names no partition; then INVALID_STATE where the partition doesn't run.
#[tactic(auto, unfolding(crate::specs::Decisions::decide_stop))]
pub fn decide_stop(desc: &Desc, h: u32, running: bool) -> Decision
    ensures { result ≡ spec.decide_stop desc.now.ports h running }
{
    if !names_partition(desc.ports.as_slice(), h) {
        return refused(Status::InvalidArgument);
    }
    if !running {
        return refused(Status::InvalidState);
    }
    Decision::Go
}

/// Whether the caller, whose description this is, may start the partition anew that handle `h` names, itself too.
/// `running` is whether that partition runs, as the caller itself does.
///
/// EINVAL where the handle names no partition; then INVALID_STATE where the partition doesn't run.
#[tactic(auto, unfolding(crate::specs::Decisions::decide_restart, crate::specs::Decisions::decide_stop))]
pub fn decide_restart(desc: &Desc, h: u32, running: bool) -> Decision
    ensures { result ≡ spec.decide_restart desc.now.ports h running }
{
    // A partition that may be stopped may be started anew, and no other.
    decide_stop(desc, h, running)
}

/// Whether the caller, whose description this is, is told if the partition that handle `h` names runs, itself too.
///
/// EINVAL where the handle names no partition.
#[tactic(auto, unfolding(crate::specs::Decisions::decide_status))]
pub fn decide_status(desc: &Desc, h: u32) -> Decision
    ensures { result ≡ spec.decide_status desc.now.ports h }
{
    if !names_partition(desc.ports.as_slice(), h) {
        return refused(Status::InvalidArgument);
    }
    Decision::Go
}
