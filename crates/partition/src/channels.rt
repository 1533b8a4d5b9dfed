//! The hypercalls of byte channels (ePAPR 1.1, chapter 7, byte channels), from registers and ports to a reply and an act.

ghost use Rattle.std.specs.Prelude.{◌≡◌, ℕ, ◌+◌, ◌≤◌, List, [], Some, None, false, length, take, if◌then◌else◌};
ghost use Rattle.guest_regs.specs.Registers.{gpr_of};
ghost use Rattle.hcall_abi.specs.Reply.{reply_of};
ghost use Rattle.partition.specs.Port.{kinds_of, kind_at, end_at};
ghost use Rattle.partition.specs.Act.{act_of};
ghost use Rattle.partition.specs.Channels as spec;
ghost use Rattle.partition.specs.Lending.{IsLent};

use crate::handles::is_channel;
use crate::kind::Kind;
use crate::ports::Ports;
use crate::served::Served;
use guest_regs::Regs;
use hcall_abi::{Reply, Status, sent_bytes, words_of};
use machine_desc::{Act, Port};

/// The most bytes that one hypercall moves.
const MOST_BYTES: u32 = 16;

/// Answers by a status alone.
pub fn refusal(status: Status) -> Served
    ensures served { spec.refusal status ≡ record { reply = reply_of result.reply; act = act_of [] result.act } }
    ensures quiet { result.act ≡ Act.None }
{
    Served {
        reply: Reply::new(status),
        act: Act::None,
    }
}

/// Whether r3 is no channel's handle, or r4 is more than the registers hold.
fn is_bad_transfer(handles: &[Port], regs: &Regs) -> bool
    ensures value { result ≡ spec.is_bad_transfer (kinds_of handles.now) regs.now }
    ensures channel { result ≡ false → kind_at (kinds_of handles.now) (gpr_of regs.now 3) ≡ Some Kind.Channel }
    ensures few { result ≡ false → gpr_of regs.now 4 ≤ 16 }
{
    !is_channel(handles, regs.gpr(3)) || regs.gpr(4) > MOST_BYTES
}

/// Sends on the channel that r3 names, as many bytes as r4 says or as there is room for.
#[tactic(auto, unfolding(crate::specs::Channels::send))]
pub fn send<P: Ports>(handles: &[Port], regs: &Regs, ports: &mut P) -> Served
    requires kinds { P.kinds ports.old ≡ kinds_of handles.now }
    ensures served { spec.send (kinds_of handles.now) regs.now (P.seen ports.old) ≡ record { reply = reply_of result.reply; act = act_of [] result.act } }
    ensures lent { (memory : List (List ℕ)) → IsLent P.kinds P.seen P.sends P.takes P.copies P.told P.last None memory result.act ports.old ports.new }
{
    if is_bad_transfer(handles, regs) {
        return refusal(Status::InvalidArgument);
    }
    let handle = regs.gpr(3);
    let count = regs.gpr(4);
    let room = ports.room(handle);
    if u32::from(room) < count {
        sending(Status::TryAgain, handle, room, regs, ports)
    } else {
        sending(Status::Success, handle, count as u16, regs, ports)
    }
}

/// Lets the first bytes of r5 to r8 out, which the channel has room for.
fn sending<P: Ports>(status: Status, handle: u32, count: u16, regs: &Regs, ports: &mut P) -> Served
    requires some { count ≤ 16 }
    requires channel { kind_at (P.kinds ports.old) handle ≡ Some Kind.Channel }
    requires room { (end_at (P.seen ports.old) handle).outstanding + count ≤ 256 }
    ensures served { spec.sending status handle count regs.now ≡ record { reply = reply_of result.reply; act = act_of [] result.act } }
    ensures lent { (memory : List (List ℕ)) → IsLent P.kinds P.seen P.sends P.takes P.copies P.told P.last None memory result.act ports.old ports.new }
{
    let reply = Reply::with(status, &[u32::from(count)]);
    let bytes = sent_bytes(regs, count as usize);
    if bytes.is_empty() {
        return Served {
            reply,
            act: Act::None,
        };
    }
    ports.send(handle, bytes.as_slice());
    Served {
        reply,
        act: Act::Sent { h: handle, bytes },
    }
}

/// How many bytes are taken, where so many wait and so many are asked for.
#[tactic(auto, using(crate::proofs::Taking::all_taken, crate::proofs::Taking::some_taken))]
fn taken(waiting: u16, count: u32) -> u16
    requires { count ≤ 16 }
    ensures few { result ≤ 16 }
    ensures there { result ≤ waiting }
    ensures bytes { (bytes : List ℕ) → length bytes ≡ waiting → take result bytes ≡ take count bytes }
    ensures count { (bytes : List ℕ) → length bytes ≡ waiting → length (take count bytes) ≡ result }
{
    if u32::from(waiting) < count {
        waiting
    } else {
        count as u16
    }
}

/// Receives from the channel that r3 names as many bytes as r4 says, or as wait there.
#[tactic(auto, unfolding(crate::specs::Channels::receive))]
pub fn receive<P: Ports>(handles: &[Port], regs: &Regs, ports: &mut P) -> Served
    requires kinds { P.kinds ports.old ≡ kinds_of handles.now }
    ensures served { spec.receive (kinds_of handles.now) regs.now (P.seen ports.old) ≡ record { reply = reply_of result.reply; act = act_of [] result.act } }
    ensures lent { (memory : List (List ℕ)) → IsLent P.kinds P.seen P.sends P.takes P.copies P.told P.last None memory result.act ports.old ports.new }
{
    if is_bad_transfer(handles, regs) {
        return refusal(Status::InvalidArgument);
    }
    let handle = regs.gpr(3);
    let count = taken(ports.waiting(handle), regs.gpr(4));
    receiving(handle, count, ports)
}

/// Takes the first received bytes, so many.
fn receiving<P: Ports>(handle: u32, count: u16, ports: &mut P) -> Served
    requires few { count ≤ 16 }
    requires channel { kind_at (P.kinds ports.old) handle ≡ Some Kind.Channel }
    requires there { count ≤ length (end_at (P.seen ports.old) handle).received }
    ensures served { spec.receiving handle (take count (end_at (P.seen ports.old) handle).received) ≡ record { reply = reply_of result.reply; act = act_of [] result.act } }
    ensures lent { (memory : List (List ℕ)) → IsLent P.kinds P.seen P.sends P.takes P.copies P.told P.last None memory result.act ports.old ports.new }
{
    if count == 0 {
        return Served {
            reply: received(&[]),
            act: Act::None,
        };
    }
    let mut bytes = [0u8; 16];
    let piece = &mut bytes[..count as usize];
    ports.receive(handle, piece);
    Served {
        reply: received(piece),
        act: Act::Took { h: handle, count },
    }
}

/// The reply that hands these bytes over.
fn received(bytes: &[u8]) -> Reply
    requires { length bytes.now ≤ 16 }
    ensures { reply_of result ≡ (spec.receiving 0 bytes.now).reply }
{
    let words = words_of(bytes);
    Reply::with(
        Status::Success,
        &[bytes.len() as u32, words[0], words[1], words[2], words[3]],
    )
}

/// Tells of the channel that r3 names how many bytes wait and how many it takes.
#[tactic(auto, unfolding(crate::specs::Channels::poll))]
pub fn poll<P: Ports>(handles: &[Port], regs: &Regs, ports: &P) -> Served
    requires kinds { P.kinds ports.now ≡ kinds_of handles.now }
    ensures served { spec.poll (kinds_of handles.now) regs.now (P.seen ports.now) ≡ record { reply = reply_of result.reply; act = act_of [] result.act } }
    ensures quiet { result.act ≡ Act.None }
{
    let handle = regs.gpr(3);
    if !is_channel(handles, handle) {
        return refusal(Status::InvalidArgument);
    }
    let counts = [
        u32::from(ports.waiting(handle)),
        u32::from(ports.room(handle)),
    ];
    Served {
        reply: Reply::with(Status::Success, &counts),
        act: Act::None,
    }
}
