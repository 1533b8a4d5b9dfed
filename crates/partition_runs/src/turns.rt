//! Runs turn by turn: what happens to a machine, and what is seen of it.

use crate::drafts::*;
use core_step::Wrote;
use guest_regs::Regs;
use machine_desc::{Act, State};
use partition::LoneMachine;
use std::alloc::{AllocError, Global};
use std::test::Fail;

/// What happens.
#[derive(Clone, Copy)]
pub enum Turn {
    /// So many steps, of which others see nothing.
    Quiet(u64),
    /// So many steps without an act, which write these ranges of shared extents.
    Shares(u64, &'static [Wrote]),
    /// A step sends these bytes on handle 1, and the other end takes them.
    Sends(&'static [u8]),
    /// A step sends so many bytes there, and the other end takes so many of them.
    Gives(usize, usize),
    /// So many times three quiet steps, and one that sends sixteen bytes, of which none is taken.
    Floods(u32),
    /// A call by its token and r3 to r6, and the status and the values that it answers.
    Call(u32, [u32; 4], u32, &'static [u32]),
    /// A doorbell send on this handle, its status, and the handle whose doorbell then rang.
    Send(u32, u32, Option<u32>),
    /// A call by its token and r3 to r6, what r3 holds behind it, and what it does to a partition.
    Commands(u32, [u32; 4], u32, Command),
    /// A step that does this to a partition.
    Does(Command),
    /// A copy by r3 to r7, what r3 holds behind it, and what it does, in 13 steps.
    Copy([u32; 5], u32, Option<Command>),
    /// The word at this address is this one, in 3 steps.
    Holds(u32, u32),
    /// Reserves this address, in 3 steps.
    Reserve(u32),
    /// Stores there if the reservation holds, behind which the condition register is this, in 2 steps.
    Conclude(u32),
    /// A step that ends the machine.
    Faults,
    /// The doorbell of handle 3 rings.
    Ring,
    /// These bytes come on handle 1.
    Give(&'static [u8]),
    /// Another partition stores in this range, by its extent, its offset there and its length.
    Stored(u32, u32, u32),
    /// Its manager starts it at this entry, and has its memory loaded anew or not.
    Started(u32, bool),
    /// Its manager stops it.
    Stopped,
    /// Its manager restarts it.
    Restarted,
    /// The partition of handle 4 runs now, or doesn't.
    Told(bool),
    /// Nothing, but this is seen.
    See(Seen),
}

/// What a step does to the caller's own partition, or to the one of a handle.
#[derive(Clone, Copy, PartialEq, Eq)]
pub enum Command {
    /// By its handle, its entry, and whether its memory is loaded anew.
    Start(u32, u32, bool),
    Stop(u32),
    Restart(u32),
    /// By its handle and how many bytes there are.
    CopyTo(u32, u32),
    CopyFrom(u32, u32),
    SelfStop,
    SelfRestart,
}

/// What is seen.
#[derive(Clone, Copy)]
pub enum Seen {
    /// These general registers.
    Registers(&'static [(u8, u32)]),
    /// The steps, which are the time base too, DEC and the idle flag, where TSR is 0.
    Clocks(u64, u32, bool),
    /// The steps, which are the time base too, and the PC.
    At(u64, u32),
    /// The steps, and the PC of a manager that begins there: what else a run changes of its registers is as at first, the time
    /// base too.
    Fresh(u64, u32),
    /// The steps.
    Steps(u64),
    /// The idle flag.
    Idle(bool),
    Esr(u32),
    Msr(u32),
    Is(State),
    /// Whether the description says that it begins held.
    Held(bool),
    /// How many bytes wait on handle 1.
    Waits(u16),
}

/// The token of a doorbell send.
const DOORBELL_SEND: u32 = 0x1_000E;

/// The token of a copy.
const COPY: u32 = 0x2_0008;

/// How many instructions a call takes.
const CALL_LEN: u64 = 11;

/// The instructions of a call.
fn call_words(token: u32, args: [u32; 4]) -> [u32; 11] {
    [
        0x3D60_0000 | token >> 16, // lis r11, and so on
        0x616B_0000 | token & 0xFFFF, // ori r11,r11
        0x3C60_0000 | args[0] >> 16, // lis r3
        0x6063_0000 | args[0] & 0xFFFF, // ori r3,r3
        0x3C80_0000 | args[1] >> 16, // lis r4
        0x6084_0000 | args[1] & 0xFFFF, // ori r4,r4
        0x3CA0_0000 | args[2] >> 16, // lis r5
        0x60A5_0000 | args[2] & 0xFFFF, // ori r5,r5
        0x3CC0_0000 | args[3] >> 16, // lis r6
        0x60C6_0000 | args[3] & 0xFFFF, // ori r6,r6
        0x4400_0022, // sc 1
    ]
}

/// Puts a number into r9.
fn address_words(number: u32) -> [u32; 2] {
    [
        0x3D20_0000 | number >> 16, // lis r9
        0x6129_0000 | number & 0xFFFF, // ori r9,r9
    ]
}

/// The instructions of a copy: r7 first, and then a call.
fn put_copy(image: &mut Vec<u32>, args: [u32; 5]) -> Result<(), AllocError> {
    let [source, target, low, high, count] = args;
    image.push(0x3CE0_0000 | count >> 16)?; // lis r7
    image.push(0x60E7_0000 | count & 0xFFFF)?; // ori r7,r7
    image.extend_from_slice(&call_words(COPY, [source, target, low, high]))
}

/// The instructions of what a guest does by itself, if any.
fn put_deed(image: &mut Vec<u32>, turn: Turn) -> Result<(), AllocError> {
    match turn {
        Turn::Copy(args, _, _) => put_copy(image, args)?,
        Turn::Holds(at, _) => {
            image.extend_from_slice(&address_words(at))?;
            image.push(0x8149_0000)?; // lwz r10,0(r9)
        }
        Turn::Reserve(at) => {
            image.extend_from_slice(&address_words(at))?;
            image.push(0x7D40_4828)?; // lwarx r10,0,r9
        }
        Turn::Conclude(_) => {
            image.push(0x7D40_492D)?; // stwcx. r10,0,r9
            image.push(0x7D40_0026)?; // mfcr r10
        }
        _ => {}
    }
    Ok(())
}

/// The image of a guest that does this.
pub fn image_of(alloc: Global, turns: &[Turn]) -> Result<Vec<u32>, AllocError> {
    let mut image = Vec::new(alloc);
    for turn in turns {
        match *turn {
            Turn::Call(token, args, _, _) | Turn::Commands(token, args, _, _) => {
                image.extend_from_slice(&call_words(token, args))?;
            }
            Turn::Send(handle, _, _) => {
                image.extend_from_slice(&call_words(DOORBELL_SEND, [handle, 0, 0, 0]))?;
            }
            _ => put_deed(&mut image, *turn)?,
        }
    }
    Ok(image)
}

/// Whether so many steps write these ranges, and have no act.
fn shares(
    alloc: Global,
    machine: &mut LoneMachine,
    steps: u64,
    ranges: &[Wrote],
) -> Result<bool, Fail> {
    let told = quiet_steps(alloc, machine, steps)?;
    Ok(told.as_slice() == ranges)
}

/// Whether a step sends these bytes, which the other end takes.
fn sends(machine: &mut LoneMachine, sent: &[u8]) -> Result<bool, Fail> {
    match step(machine, 16)?.act {
        Act::Sent { h, bytes } => Ok(h == 1 && bytes.as_slice() == sent),
        _ => Ok(false),
    }
}

/// Whether a step sends so many bytes.
fn gives(machine: &mut LoneMachine, count: usize, taken: usize) -> Result<bool, Fail> {
    match step(machine, taken)?.act {
        Act::Sent { h, bytes } => Ok(h == 1 && bytes.len() == count),
        _ => Ok(false),
    }
}

/// Whether each fourth step sends sixteen bytes.
fn floods(alloc: Global, machine: &mut LoneMachine, times: u32) -> Result<bool, Fail> {
    for _ in 0..times {
        quiet_steps(alloc, machine, 3)?;
        if !gives(machine, 16, 0)? {
            return Ok(false);
        }
    }
    Ok(true)
}

/// The steps of one call, and the handle whose doorbell rang in the last of them.
fn call(alloc: Global, machine: &mut LoneMachine) -> Result<Option<u32>, Fail> {
    quiet_steps(alloc, machine, CALL_LEN - 1)?;
    match step(machine, 0)?.act {
        Act::None | Act::Took { .. } => Ok(None),
        Act::Rang { h } => Ok(Some(h)),
        _ => Err("the call is quiet, or a ring".into()),
    }
}

/// Whether r4 to r8 begin with these values.
fn are_told(regs: &Regs, values: &[u32]) -> bool {
    let told = [
        regs.gpr(4),
        regs.gpr(5),
        regs.gpr(6),
        regs.gpr(7),
        regs.gpr(8),
    ];
    told.iter().zip(values).all(|(is, want)| is == want)
}

/// Whether a call is answered so, and rings this doorbell.
fn answers(
    alloc: Global,
    machine: &mut LoneMachine,
    status: u32,
    values: &[u32],
    rings: Option<u32>,
) -> Result<bool, Fail> {
    let rang = call(alloc, machine)?;
    let regs = registers_of(machine)?;
    Ok(rang == rings && regs.gpr(3) == status && are_told(regs, values))
}

/// What an act does to a partition.
fn command_of(act: &Act) -> Option<Command> {
    match act {
        Act::Start { h, entry, load } => Some(Command::Start(*h, *entry, *load)),
        Act::Stop { h } => Some(Command::Stop(*h)),
        Act::Restart { h } => Some(Command::Restart(*h)),
        Act::CopyTo { h, total } => Some(Command::CopyTo(*h, *total)),
        Act::CopyFrom { h, total } => Some(Command::CopyFrom(*h, *total)),
        Act::SelfStop => Some(Command::SelfStop),
        Act::SelfRestart => Some(Command::SelfRestart),
        _ => None,
    }
}

/// Whether a step does this.
fn does(machine: &mut LoneMachine, command: Command) -> Result<bool, Fail> {
    let acts = step(machine, 0)?;
    Ok(command_of(&acts.act) == Some(command))
}

/// Whether a call does this, and leaves this in r3.
fn commands(
    alloc: Global,
    machine: &mut LoneMachine,
    left: u32,
    command: Command,
) -> Result<bool, Fail> {
    quiet_steps(alloc, machine, CALL_LEN - 1)?;
    let done = does(machine, command)?;
    let regs = registers_of(machine)?;
    Ok(done && regs.gpr(3) == left)
}

/// Whether a copy does this, and leaves this in r3.
fn copies(
    alloc: Global,
    machine: &mut LoneMachine,
    left: u32,
    command: Option<Command>,
) -> Result<bool, Fail> {
    quiet_steps(alloc, machine, CALL_LEN + 1)?;
    let acts = step(machine, 0)?;
    let regs = registers_of(machine)?;
    Ok(command_of(&acts.act) == command && regs.gpr(3) == left)
}

/// Whether r10 is this behind so many quiet steps.
fn brings(alloc: Global, machine: &mut LoneMachine, steps: u64, word: u32) -> Result<bool, Fail> {
    quiet_steps(alloc, machine, steps)?;
    Ok(registers_of(machine)?.gpr(10) == word)
}

/// What a general register of a manager begins with.
fn fresh_value(number: u8) -> u32 {
    match number {
        3 => TREE_AT,
        6 => 0x4550_4150, // "EPAP"
        7 => 0x0400_0000, // the area that is mapped
        _ => 0,
    }
}

/// Whether each general register is as a manager's begins.
fn are_fresh(regs: &Regs) -> bool {
    for number in 0..32u8 {
        if regs.gpr(number) != fresh_value(number) {
            return false;
        }
    }
    true
}

/// Whether those are so, and with them the clocks, the syndrome, the machine state, the idle flag and the reservation.
fn begins(regs: &Regs) -> bool {
    are_fresh(regs)
        && (regs.time(), regs.dec(), regs.tsr(), regs.esr()) == (0, 0, 0, 0)
        && regs.msr() == 0x1000_0000
        && !regs.idle()
        && regs.reserved().is_none()
}

/// Whether a machine shows this.
fn shows(machine: &LoneMachine, seen: Seen) -> Result<bool, Fail> {
    let regs = registers_of(machine)?;
    let steps = machine.steps();
    Ok(match seen {
        Seen::Registers(registers) => first_wrong(regs, registers).is_none(),
        Seen::Clocks(at, dec, idle) => {
            (steps, regs.time(), regs.tsr()) == (at, at, 0)
                && regs.dec() == dec
                && regs.idle() == idle
        }
        Seen::At(at, pc) => (steps, regs.time(), regs.pc()) == (at, at, pc),
        Seen::Fresh(at, pc) => (steps, regs.pc()) == (at, pc) && begins(regs),
        Seen::Steps(at) => steps == at,
        Seen::Idle(idle) => regs.idle() == idle,
        Seen::Esr(esr) => regs.esr() == esr,
        Seen::Msr(msr) => regs.msr() == msr,
        Seen::Is(state) => machine.state() == state,
        Seen::Held(held) => machine.desc().held == held,
        Seen::Waits(count) => waiting(machine) == Some(count),
    })
}

/// Whether what happens between steps can happen.
fn comes(machine: &mut LoneMachine, turn: Turn) -> bool {
    match turn {
        Turn::Ring => try_ring(machine).is_some(),
        Turn::Give(bytes) => try_give(machine, bytes).is_some(),
        Turn::Stored(extent, at, len) => {
            machine.written(&[Wrote { extent, at, len }]);
            true
        }
        Turn::Started(entry, load) => try_start(machine, entry, load).is_some(),
        Turn::Stopped => {
            machine.stop();
            true
        }
        Turn::Restarted => {
            machine.restart();
            true
        }
        Turn::Told(runs) => try_tell(machine, runs).is_some(),
        _ => false,
    }
}

/// Whether a turn goes as it was worked out.
fn goes_right(alloc: Global, machine: &mut LoneMachine, turn: Turn) -> Result<bool, Fail> {
    match turn {
        Turn::Quiet(steps) => shares(alloc, machine, steps, &[]),
        Turn::Shares(steps, ranges) => shares(alloc, machine, steps, ranges),
        Turn::Sends(sent) => sends(machine, sent),
        Turn::Gives(count, taken) => gives(machine, count, taken),
        Turn::Floods(times) => floods(alloc, machine, times),
        Turn::Call(_, _, status, values) => answers(alloc, machine, status, values, None),
        Turn::Send(_, status, rings) => answers(alloc, machine, status, &[], rings),
        Turn::Commands(_, _, left, command) => commands(alloc, machine, left, command),
        Turn::Does(command) => does(machine, command),
        Turn::Copy(_, left, command) => copies(alloc, machine, left, command),
        Turn::Holds(_, word) => brings(alloc, machine, 3, word),
        Turn::Conclude(condition) => brings(alloc, machine, 2, condition),
        Turn::Reserve(_) => shares(alloc, machine, 3, &[]),
        Turn::Faults => Ok(matches!(step(machine, 0)?.act, Act::Faulted)),
        Turn::See(seen) => shows(machine, seen),
        _ => Ok(comes(machine, turn)),
    }
}

/// The first turn of a machine that goes otherwise.
pub fn first_wrong_turn(
    alloc: Global,
    draft: &Draft,
    turns: &[Turn],
) -> Result<Option<usize>, Fail> {
    let mut machine = machine_of(alloc, draft)?;
    for (place, turn) in turns.iter().enumerate() {
        if !goes_right(alloc, &mut machine, *turn)? {
            return Ok(Some(place));
        }
    }
    Ok(None)
}

/// The same, where the image is made of the turns' calls.
pub fn first_wrong_call(alloc: Global, turns: &[Turn]) -> Result<Option<usize>, Fail> {
    let image = image_of(alloc, turns)?;
    first_wrong_turn(alloc, &built_in(image.as_slice()), turns)
}
