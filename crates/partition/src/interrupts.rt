//! Interrupts of a partition: which sources are up, the line from the controller to the core, and the hypercalls of the
//! controller and of doorbells (ePAPR 1.1, chapter 7).

ghost use Rattle.std.specs.Prelude.{◌≡◌, ◌<◌, ◌≤◌, Some, max, bit_and, []};
ghost use Rattle.hcall_abi.specs.Reply.{reply_of};
ghost use Rattle.machine_desc.specs.Sound.{IsSound};
ghost use Rattle.partition.specs.Port.{kinds_of, kind_of, kind_at, end_at};
ghost use Rattle.partition.specs.Act.{act_of};
ghost use Rattle.partition.specs.Interrupts as spec;
ghost use Rattle.partition.specs.Lending.{HasEntry, HasHandle, IsQuiet};

use crate::channels::refusal;
use crate::handles::is_send;
use crate::ports::Ports;
use crate::served::Served;
use guest_regs::Regs;
use hcall_abi::{Reply, Status};
use machine_desc::{Act, Desc, Port};
use vpic::{Vpic, has, without_number};

/// What r4 tells where no source is chosen.
const NO_NUMBER: u32 = 0xFFFF;

// ---- the sources

/// How many interrupts a handle has.
fn count_of(port: &Port) -> u8
    ensures count { result ≡ spec.count_of port.now }
    ensures few { result ≤ 2 }
{
    match port {
        Port::Channel { .. } => 2,
        Port::Receive { .. } => 1,
        Port::Send | Port::Manage { .. } => 0,
    }
}

/// How many interrupts the handles have together.
pub fn interrupt_count(desc: &Desc) -> u8
    requires { IsSound desc.now }
    ensures count { result ≡ spec.interrupt_count desc.now.ports }
    ensures few { result ≤ 128 }
{
    let mut count = 0u8;
    for port in desc.ports.as_slice() {
        count += count_of(port);
    }
    count
}

/// A set of this one number, or of none.
fn only_if(up: bool, n: u8) -> u128
    requires { n < 128 }
    ensures { result ≡ spec.only_if up n }
{
    if up { 1 << n } else { 0 }
}

/// The numbers of a handle that are among these and up by their levels. The port is asked of no other.
#[tactic(auto, using(crate::proofs::Among::channel_among))]
fn level_among<P: Ports>(numbers: u128, port: &Port, handle: u32, ports: &P) -> u128
    requires kind { kind_at (P.kinds ports.now) handle ≡ Some (kind_of port.now) }
    requires small { spec.HasNumbersBelow 128 port.now }
    ensures { result ≡ bit_and (spec.level_of port.now (end_at (P.seen ports.now) handle)) numbers }
{
    match port {
        Port::Channel { rx, tx } => {
            only_if(has(numbers, *rx) && ports.waiting(handle) > 0, *rx)
                | only_if(has(numbers, *tx) && ports.room(handle) > 0, *tx)
        }
        Port::Send | Port::Receive { .. } | Port::Manage { .. } => 0,
    }
}

/// These numbers without those of a handle.
fn without_those_of(port: &Port, numbers: u128) -> u128
    requires { spec.HasNumbersBelow 128 port.now }
    ensures { result ≡ spec.without_those_of port.now numbers }
{
    match port {
        Port::Channel { rx, tx } => without_number(without_number(numbers, *rx), *tx),
        Port::Receive { irq } => without_number(numbers, *irq),
        Port::Send | Port::Manage { .. } => numbers,
    }
}

/// The first place from this one on where the handle of one of these numbers may stand.
fn next_place(numbers: u128, place: usize) -> usize
    ensures { result ≡ max place (spec.lowest_place numbers) }
{
    place.max(numbers.trailing_zeros() as usize / 2)
}

/// The numbers that are among these and up by their levels. Handles that have none of them are passed over.
#[tactic(auto, unfolding(crate::specs::Interrupts::levels))]
fn levels_among<P: Ports>(numbers: u128, desc: &Desc, ports: &P) -> u128
    requires sound { IsSound desc.now }
    requires kinds { P.kinds ports.now ≡ kinds_of desc.now.ports }
    ensures { result ≡ bit_and (spec.levels desc.now.ports (P.seen ports.now)) numbers }
{
    let handles = desc.ports.as_slice();
    let mut levels = 0u128;
    let mut left = numbers;
    let mut place = next_place(left, 0);
    while place < handles.len() {
        let port = &handles[place];
        levels |= level_among(left, port, place as u32 + 1, ports);
        left = without_those_of(port, left);
        place = next_place(left, place + 1);
    }
    levels
}

/// Whether the line from the controller to the core is up. No level of a masked source is looked at.
#[tactic(auto, unfolding(crate::specs::Interrupts::is_line_up))]
pub fn is_line_up<P: Ports>(desc: &Desc, vpic: &Vpic, ports: &P) -> bool
    requires sound { IsSound desc.now }
    requires kinds { P.kinds ports.now ≡ kinds_of desc.now.ports }
    ensures { result ≡ spec.is_line_up desc.now.ports vpic.now (P.seen ports.now) }
{
    if vpic.are_all_masked() {
        return false;
    }
    let levels = levels_among(vpic.unmasked(), desc, ports);
    vpic.line(levels).is_some()
}

// ---- doorbells

/// The interrupt of a receive handle.
pub fn bell_at(handles: &[Port], handle: u32) -> Option<u8>
    ensures { result ≡ spec.bell_at handles.now handle }
{
    if handle == 0 {
        return None;
    }
    match handles.get((handle - 1) as usize)? {
        Port::Receive { irq } => Some(*irq),
        _ => None,
    }
}

/// Rings the doorbell that r3 names.
#[tactic(auto, unfolding(crate::specs::Interrupts::doorbell_send))]
pub fn doorbell_send(handles: &[Port], regs: &Regs) -> Served
    ensures served { spec.doorbell_send (kinds_of handles.now) regs.now ≡ record { reply = reply_of result.reply; act = act_of [] result.act } }
    ensures handle { HasHandle (kinds_of handles.now) result.act }
    ensures entry { HasEntry result.act }
    ensures quiet { IsQuiet result.act }
{
    let handle = regs.gpr(3);
    if !is_send(handles, handle) {
        return refusal(Status::InvalidArgument);
    }
    Served {
        reply: Reply::new(Status::Success),
        act: Act::Rang { h: handle },
    }
}

// ---- the calls of the controller

/// The reply to a call that was done, or had an argument out of its range.
fn reply_to(done: bool) -> Reply
    ensures { reply_of result ≡ spec.reply_to done }
{
    if done {
        Reply::new(Status::Success)
    } else {
        Reply::new(Status::InvalidArgument)
    }
}

/// Gives the source r3 the configuration r4, the priority r5 and the destination r6.
#[tactic(auto, unfolding(crate::specs::Interrupts::set_config))]
pub fn set_config(vpic: &mut Vpic, regs: &Regs) -> Reply
    ensures { spec.set_config regs.now vpic.old ≡ record { reply = reply_of result; interrupts = vpic.new } }
{
    reply_to(vpic.set_config(regs.gpr(3), regs.gpr(4), regs.gpr(5), regs.gpr(6)))
}

/// Tells how the source r3 is configured.
#[tactic(auto, unfolding(crate::specs::Interrupts::get_config))]
pub fn get_config(vpic: &Vpic, regs: &Regs) -> Reply
    ensures { spec.get_config regs.now vpic.now ≡ record { reply = reply_of result; interrupts = vpic.now } }
{
    match vpic.get_config(regs.gpr(3)) {
        Some(source) => Reply::with(
            Status::Success,
            &[source.config, source.priority, source.dest],
        ),
        None => Reply::new(Status::InvalidArgument),
    }
}

/// Masks the source r3, or unmasks it where r4 is 0.
#[tactic(auto, unfolding(crate::specs::Interrupts::set_mask))]
pub fn set_mask(vpic: &mut Vpic, regs: &Regs) -> Reply
    ensures { spec.set_mask regs.now vpic.old ≡ record { reply = reply_of result; interrupts = vpic.new } }
{
    reply_to(vpic.set_mask(regs.gpr(3), regs.gpr(4)))
}

/// Tells whether the source r3 is masked.
#[tactic(auto, unfolding(crate::specs::Interrupts::get_mask))]
pub fn get_mask(vpic: &Vpic, regs: &Regs) -> Reply
    ensures { spec.get_mask regs.now vpic.now ≡ record { reply = reply_of result; interrupts = vpic.now } }
{
    match vpic.get_mask(regs.gpr(3)) {
        Some(masked) => Reply::with(Status::Success, &[u32::from(masked)]),
        None => Reply::new(Status::InvalidArgument),
    }
}

/// Takes the source that is chosen into service, and tells its number. It reads no register.
#[tactic(auto, unfolding(crate::specs::Interrupts::acknowledge))]
pub fn acknowledge<P: Ports>(vpic: &mut Vpic, desc: &Desc, ports: &P) -> Reply
    requires sound { IsSound desc.now }
    requires kinds { P.kinds ports.now ≡ kinds_of desc.now.ports }
    ensures { spec.acknowledge (spec.levels desc.now.ports (P.seen ports.now)) vpic.old ≡ record { reply = reply_of result; interrupts = vpic.new } }
{
    let levels = levels_among(vpic.unmasked(), desc, ports);
    let number = match vpic.iack(levels) {
        Some(number) => u32::from(number),
        None => NO_NUMBER,
    };
    Reply::with(Status::Success, &[number])
}

/// Ends the service of the source r3.
#[tactic(auto, unfolding(crate::specs::Interrupts::end_of_interrupt))]
pub fn end_of_interrupt(vpic: &mut Vpic, regs: &Regs) -> Reply
    ensures { spec.end_of_interrupt regs.now vpic.old ≡ record { reply = reply_of result; interrupts = vpic.new } }
{
    reply_to(vpic.eoi(regs.gpr(3)))
}

/// Sets the priority that a source's has to exceed to r3.
#[tactic(auto, unfolding(crate::specs::Interrupts::set_task_priority))]
pub fn set_task_priority(vpic: &mut Vpic, regs: &Regs) -> Reply
    ensures { spec.set_task_priority regs.now vpic.old ≡ record { reply = reply_of result; interrupts = vpic.new } }
{
    reply_to(vpic.set_task(regs.gpr(3)))
}

/// Tells which priority that is.
#[tactic(auto, unfolding(crate::specs::Interrupts::get_task_priority))]
pub fn get_task_priority(vpic: &Vpic) -> Reply
    ensures { spec.get_task_priority vpic.now ≡ record { reply = reply_of result; interrupts = vpic.now } }
{
    Reply::with(Status::Success, &[vpic.task()])
}
