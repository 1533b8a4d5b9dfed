//! The hypercalls by which a partition starts, stops, restarts and asks after itself and the partitions that it manages,
//! from registers and ports to a reply and an act.

ghost use Rattle.std.specs.Prelude.{◌≡◌, ◌==◌, [], if◌then◌else◌};
ghost use Rattle.hcall_abi.specs.Reply.{reply_of};
ghost use Rattle.hcall_abi.specs.Status.{own_handle};
ghost use Rattle.partition.specs.Port.{kinds_of};
ghost use Rattle.partition.specs.Act.{act_of};
ghost use Rattle.partition.specs.Interrupts.{granted};
ghost use Rattle.partition.specs.Managing as spec;
ghost use Rattle.partition.specs.Lending.{HasEntry, HasHandle, IsQuiet};

use crate::ports::Ports;
use crate::served::Served;
use arrayvec::ArrayVec;
use guest_regs::Regs;
use hcall_abi::{Reply, Status, is_own};
use machine_desc::{Act, Desc};
use partition_manager::{
    Decision, decide_restart, decide_start, decide_status, decide_stop, is_manage,
};

/// Whether the partition runs that a handle names. The ports are asked of none but a managed one.
fn runs<P: Ports>(desc: &Desc, handle: u32, ports: &P) -> bool
    requires { P.kinds ports.now ≡ kinds_of desc.now.ports }
    ensures { result ≡ spec.runs_at desc.now.ports (P.seen ports.now) handle }
{
    if is_manage(desc.ports.as_slice(), handle) {
        return ports.running(handle);
    }
    true
}

/// The answer to a call that is done, and what it does.
pub fn commanding(act: Act) -> Served
    ensures reply { reply_of result.reply ≡ (granted).reply }
    ensures act { result.act ≡ act }
{
    Served {
        reply: Reply::new(Status::Success),
        act,
    }
}

/// The answer to a call that is refused by the status of this number.
pub fn refusing(status: u32) -> Served
    ensures reply { reply_of result.reply ≡ record { status = status; outs = [] } }
    ensures act { result.act ≡ Act.None }
{
    Served {
        reply: Reply {
            status,
            outs: ArrayVec::new(),
        },
        act: Act::None,
    }
}

/// One act for the caller itself, and one for a partition that it manages.
fn own_or(handle: u32, own: Act, managed: Act) -> Act
    ensures { result ≡ (if handle == own_handle then own else managed) }
{
    if is_own(handle) { own } else { managed }
}

/// Starts the partition r3 at the effective address r4, and has its memory loaded anew unless r5 is 0.
#[tactic(auto, unfolding(crate::specs::Managing::start))]
pub fn start<P: Ports>(desc: &Desc, regs: &Regs, ports: &P) -> Served
    requires kinds { P.kinds ports.now ≡ kinds_of desc.now.ports }
    ensures served { spec.start desc.now.ports regs.now (P.seen ports.now) ≡ record { reply = reply_of result.reply; act = act_of [] result.act } }
    ensures handle { HasHandle (kinds_of desc.now.ports) result.act }
    ensures entry { HasEntry result.act }
    ensures quiet { IsQuiet result.act }
{
    let handle = regs.gpr(3);
    let entry = regs.gpr(4);
    match decide_start(desc, handle, entry, runs(desc, handle, ports)) {
        Decision::Go => commanding(Act::Start {
            h: handle,
            entry,
            load: regs.gpr(5) != 0,
        }),
        Decision::Refuse(status) => refusing(status),
    }
}

/// Stops the partition r3.
#[tactic(auto, unfolding(crate::specs::Managing::stop))]
pub fn stop<P: Ports>(desc: &Desc, regs: &Regs, ports: &P) -> Served
    requires kinds { P.kinds ports.now ≡ kinds_of desc.now.ports }
    ensures served { spec.stop desc.now.ports regs.now (P.seen ports.now) ≡ record { reply = reply_of result.reply; act = act_of [] result.act } }
    ensures handle { HasHandle (kinds_of desc.now.ports) result.act }
    ensures entry { HasEntry result.act }
    ensures quiet { IsQuiet result.act }
{
    let handle = regs.gpr(3);
    match decide_stop(desc, handle, runs(desc, handle, ports)) {
        Decision::Go => commanding(own_or(handle, Act::SelfStop, Act::Stop { h: handle })),
        Decision::Refuse(status) => refusing(status),
    }
}

/// Restarts the partition r3.
#[tactic(auto, unfolding(crate::specs::Managing::restart))]
pub fn restart<P: Ports>(desc: &Desc, regs: &Regs, ports: &P) -> Served
    requires kinds { P.kinds ports.now ≡ kinds_of desc.now.ports }
    ensures served { spec.restart desc.now.ports regs.now (P.seen ports.now) ≡ record { reply = reply_of result.reply; act = act_of [] result.act } }
    ensures handle { HasHandle (kinds_of desc.now.ports) result.act }
    ensures entry { HasEntry result.act }
    ensures quiet { IsQuiet result.act }
{
    let handle = regs.gpr(3);
    match decide_restart(desc, handle, runs(desc, handle, ports)) {
        Decision::Go => commanding(own_or(handle, Act::SelfRestart, Act::Restart { h: handle })),
        Decision::Refuse(status) => refusing(status),
    }
}

/// Tells whether the partition r3 runs.
#[tactic(auto, unfolding(crate::specs::Managing::get_status))]
pub fn get_status<P: Ports>(desc: &Desc, regs: &Regs, ports: &P) -> Served
    requires kinds { P.kinds ports.now ≡ kinds_of desc.now.ports }
    ensures served { spec.get_status desc.now.ports regs.now (P.seen ports.now) ≡ record { reply = reply_of result.reply; act = act_of [] result.act } }
    ensures none { result.act ≡ Act.None }
{
    let handle = regs.gpr(3);
    match decide_status(desc, handle) {
        Decision::Go => Served {
            reply: Reply::with(Status::Success, &[u32::from(runs(desc, handle, ports))]),
            act: Act::None,
        },
        Decision::Refuse(status) => refusing(status),
    }
}
