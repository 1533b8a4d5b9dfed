//! Traps, special registers, storage control, loads and stores, and what is left to the system.

ghost use Rattle.std.specs.Prelude.{◌≡◌, ℕ, IfSome};
ghost use Rattle.insn_alu.specs.Exec.{invalidate_effect, call_effect, special_read_row, special_write_row, time_row, trap_row, moves_of, storage_of, privileged_of, transfers_of, answered, KeepsUnlessDone, KeepsUnlessAnswered, HasNoAccess, TransfersForMemory};

use crate::access::access_of;
use crate::branches::set_fields;
use crate::effect::Effect;
use crate::fields::{s_of, set_result};
use crate::moves::transfer_by;
use crate::numbers::is_trapped;
use guest_regs::{ReadAnswer, Regs, WriteAnswer, spr_read, spr_write};
use insn::{Insn, Op};

/// Traps where TO asks for it, and else goes on.
#[tactic(auto, unfolding(crate::specs::Exec::trap_row))]
pub fn trap(insn: Insn, regs: &mut Regs, one: u32, other: u32) -> Effect
    ensures executed { trap_row insn.word one other regs.old ≡ answered (Some result) regs.new }
    ensures kept { KeepsUnlessDone result regs.old regs.new }
    ensures access { HasNoAccess (Some result) }
{
    if is_trapped(insn.rt() as u32, one, other) {
        return Effect::Trap;
    }
    regs.advance();
    Effect::Done
}

/// RT takes a special register.
#[tactic(auto, unfolding(crate::specs::Exec::special_read_row))]
fn read_special(insn: Insn, regs: &mut Regs) -> Effect
    ensures executed { special_read_row insn.word regs.old ≡ answered (Some result) regs.new }
    ensures kept { KeepsUnlessDone result regs.old regs.new }
    ensures access { HasNoAccess (Some result) }
{
    match spr_read(regs, insn.spr()) {
        ReadAnswer::Value(value) => {
            set_result(regs, insn.rt(), value);
            Effect::Done
        }
        ReadAnswer::Illegal => Effect::Illegal,
        ReadAnswer::Privileged => Effect::Priv,
    }
}

/// A special register takes (RS).
#[tactic(auto, unfolding(crate::specs::Exec::special_write_row))]
fn write_special(insn: Insn, regs: &mut Regs) -> Effect
    ensures executed { special_write_row insn.word regs.old ≡ answered (Some result) regs.new }
    ensures kept { KeepsUnlessDone result regs.old regs.new }
    ensures access { HasNoAccess (Some result) }
{
    let value = s_of(insn, regs);
    match spr_write(regs, insn.spr(), value) {
        WriteAnswer::Done => {
            regs.advance();
            Effect::Done
        }
        WriteAnswer::Illegal => Effect::Illegal,
        WriteAnswer::Privileged => Effect::Priv,
    }
}

/// RT takes a half of the time base.
#[tactic(auto, unfolding(crate::specs::Exec::time_row))]
fn read_time(insn: Insn, regs: &mut Regs) -> Effect
    ensures executed { time_row insn.word regs.old ≡ answered (Some result) regs.new }
    ensures kept { KeepsUnlessDone result regs.old regs.new }
    ensures access { HasNoAccess (Some result) }
{
    let value = match insn.spr() {
        268 => (regs.time() % 0x1_0000_0000) as u32,
        269 => (regs.time() / 0x1_0000_0000) as u32,
        _ => return Effect::Illegal,
    };
    set_result(regs, insn.rt(), value);
    Effect::Done
}

/// Moves of system registers, and floating point (Power ISA 2.06, Book I, section 3.3.15 and chapter 4).
#[tactic(auto, unfolding(crate::specs::Exec::moves_of))]
pub fn exec_moves(insn: Insn, regs: &mut Regs) -> Option<Effect>
    ensures executed { moves_of insn.op insn.word regs.old ≡ answered result regs.new }
    ensures kept { KeepsUnlessAnswered result regs.old regs.new }
    ensures access { HasNoAccess result }
{
    match insn.op {
        Op::Mtspr => return Some(write_special(insn, regs)),
        Op::Mfspr => return Some(read_special(insn, regs)),
        Op::Mtcrf => set_fields(insn, regs),
        Op::Mfcr => set_result(regs, insn.rt(), regs.cr()),
        Op::FloatingPoint => return Some(Effect::NoFloat),
        _ => return None,
    }
    Some(Effect::Done)
}

/// Storage control, synchronization and the time base (Power ISA 2.06, Book II, chapters 4 and 5).
#[tactic(auto, unfolding(crate::specs::Exec::storage_of))]
pub fn exec_storage(insn: Insn, regs: &mut Regs) -> Option<Effect>
    ensures executed { storage_of insn.op insn.word regs.old ≡ answered result regs.new }
    ensures kept { KeepsUnlessAnswered result regs.old regs.new }
    ensures access { HasNoAccess result }
{
    match insn.op {
        Op::Icbi
        | Op::Icbt
        | Op::Dcba
        | Op::Dcbt
        | Op::Dcbtst
        | Op::Dcbst
        | Op::Dcbf
        | Op::Isync
        | Op::Sync
        | Op::Mbar => regs.advance(),
        Op::Wait => return Some(Effect::Wait),
        Op::Mftb => return Some(read_time(insn, regs)),
        _ => return None,
    }
    Some(Effect::Done)
}

/// A call of the hypervisor, which only the system may make.
fn call(regs: &Regs) -> Effect
    ensures effect { result ≡ call_effect regs.now }
    ensures access { HasNoAccess (Some result) }
{
    if regs.is_user() {
        Effect::Priv
    } else {
        Effect::Hcall
    }
}

/// The invalidation of translations, which has no T of 2.
fn invalidate(insn: Insn, regs: &Regs) -> Effect
    ensures effect { result ≡ invalidate_effect insn.word regs.now }
    ensures access { HasNoAccess (Some result) }
{
    if insn.invalidate_kind() == 2 && !regs.is_user() {
        Effect::Illegal
    } else {
        Effect::Priv
    }
}

/// What only the system may do (Power ISA 2.06, Book III-E, chapters 4 to 6).
#[tactic(auto, unfolding(crate::specs::Exec::privileged_of))]
pub fn exec_privileged(insn: Insn, regs: &Regs) -> Option<Effect>
    ensures executed { privileged_of insn.op insn.word regs.now ≡ answered result regs.now }
    ensures access { HasNoAccess result }
{
    match insn.op {
        Op::Hypercall => Some(call(regs)),
        Op::Tlbilx => Some(invalidate(insn, regs)),
        Op::Rfi
        | Op::Rfci
        | Op::Rfmci
        | Op::Mtmsr
        | Op::Mfmsr
        | Op::Wrtee
        | Op::Wrteei
        | Op::Dcbi
        | Op::Tlbivax
        | Op::Tlbsx
        | Op::Tlbre
        | Op::Tlbsync
        | Op::Tlbwe => Some(Effect::Priv),
        _ => None,
    }
}

/// Loads and stores: the access that they make.
pub fn exec_transfers(insn: Insn, regs: &Regs) -> Option<Effect>
    ensures executed { transfers_of insn.op insn.word regs.now ≡ answered result regs.now }
    ensures transfers { IfSome result (λ effect. TransfersForMemory effect insn.op insn.word regs.now) }
{
    let transfer = transfer_by(insn.op)?;
    Some(Effect::Memory(access_of(transfer, insn, regs)))
}
