//! The access of a load or store, and what completes it.

ghost use Rattle.std.specs.Prelude.{◌≡◌, ℕ, ◌<◌, ◌≤◌, ◌*◌, ◌-◌, ◌+◌, ◌%◌, ◌++◌, length, true, false};
ghost use Rattle.std.specs.Int.{w16, w32, from_be_bytes, from_le_bytes, to_be_bytes, to_le_bytes};
ghost use Rattle.arrayvec.specs.ArrayVec.{array_vec_len};
ghost use Rattle.insn_alu.specs.Completion.{SaysWhether, Finishes};
ghost use Rattle.insn_alu.specs.Transfers.{transfer_of, effective, size_of, form_of, accessed, updated, loaded, filled, reported, finished, stored_bytes, transfer_effect, IsFinishedBy, finished_by, IsStore, stored_by};

use crate::effect::{Access, Form};
use crate::fields::{a_of, b_of, base_of, extended_immediate, replace_field, s_of, summary_of};
use crate::moves::transfer_by;
use crate::transfer::{Addressing, Kind, Transfer};
use arrayvec::ArrayVec;
use guest_regs::{Regs, push_word};
use insn::Insn;

/// The effective address.
#[tactic(auto, unfolding(crate::specs::Transfers::effective))]
fn effective_of(addressing: Addressing, insn: Insn, regs: &Regs) -> u32
    ensures { result ≡ effective addressing insn.word regs.now }
{
    match addressing {
        Addressing::Displaced => base_of(insn, regs).wrapping_add(extended_immediate(insn)),
        Addressing::DisplacedUpdate => a_of(insn, regs).wrapping_add(extended_immediate(insn)),
        Addressing::Indexed => regs.indexed_address(insn.ra(), insn.rb()),
        Addressing::IndexedUpdate => a_of(insn, regs).wrapping_add(b_of(insn, regs)),
    }
}

/// How many bytes are accessed.
fn size_by(kind: Kind, insn: Insn) -> u8
    ensures { result ≡ size_of kind insn.word }
{
    match kind {
        Kind::Byte => 1,
        Kind::Half => 2,
        Kind::SignedHalf => 2,
        Kind::Word => 4,
        Kind::ReversedHalf => 2,
        Kind::ReversedWord => 4,
        Kind::Words => 4 * (32 - insn.rt()),
        Kind::Exclusive => 4,
        Kind::Block => 64,
    }
}

/// The kind of access that is answered.
fn form_by(kind: Kind, store: bool) -> Form
    ensures { result ≡ form_of kind store }
{
    match (kind, store) {
        (Kind::Words, _) => Form::Many,
        (Kind::Exclusive, true) => Form::Conditional,
        (Kind::Exclusive, false) => Form::Reserve,
        (Kind::Block, _) => Form::Zero,
        (_, true) => Form::Store,
        (_, false) => Form::Load,
    }
}

/// The access that a load or store makes.
#[tactic(auto, unfolding(crate::specs::Transfers::accessed))]
pub fn access_of(transfer: Transfer, insn: Insn, regs: &Regs) -> Access
    ensures { result ≡ accessed transfer insn.word regs.now }
{
    let address = effective_of(transfer.addressing, insn, regs);
    let ea = if transfer.kind == Kind::Block {
        address - address % 64
    } else {
        address
    };
    Access {
        ea,
        len: size_by(transfer.kind, insn),
        form: form_by(transfer.kind, transfer.store),
        store: transfer.store,
    }
}

/// RA takes the address of an update form.
fn update(addressing: Addressing, insn: Insn, regs: &mut Regs, address: u32)
    ensures { regs.new ≡ updated addressing insn.word address regs.old }
{
    match addressing {
        Addressing::Displaced | Addressing::Indexed => {}
        Addressing::DisplacedUpdate | Addressing::IndexedUpdate => {
            regs.set_gpr(insn.ra(), address);
        }
    }
}

/// A word, its most significant byte first.
fn word_from(bytes: &[u8]) -> u32
    requires { length bytes.now ≡ 4 }
    ensures { result ≡ from_be_bytes w32 bytes.now }
{
    u32::from_be_bytes([bytes[0], bytes[1], bytes[2], bytes[3]])
}

/// A word, its least significant byte first.
fn reversed_word_from(bytes: &[u8]) -> u32
    requires { length bytes.now ≡ 4 }
    ensures { result ≡ from_le_bytes w32 bytes.now }
{
    u32::from_le_bytes([bytes[0], bytes[1], bytes[2], bytes[3]])
}

/// A halfword, its most significant byte first.
fn half_from(bytes: &[u8]) -> u16
    requires { length bytes.now ≡ 2 }
    ensures { result ≡ from_be_bytes w16 bytes.now }
{
    u16::from_be_bytes([bytes[0], bytes[1]])
}

/// A halfword, its least significant byte first.
fn reversed_half_from(bytes: &[u8]) -> u16
    requires { length bytes.now ≡ 2 }
    ensures { result ≡ from_le_bytes w16 bytes.now }
{
    u16::from_le_bytes([bytes[0], bytes[1]])
}

/// What a load of one register makes of the bytes.
fn value_from(kind: Kind, insn: Insn, bytes: &[u8]) -> u32
    requires { length bytes.now ≡ size_of kind insn.word }
    ensures { result ≡ loaded kind bytes.now }
{
    match kind {
        Kind::Byte => bytes[0] as u32,
        Kind::Half => half_from(bytes) as u32,
        Kind::SignedHalf => (half_from(bytes).cast_signed() as i32).cast_unsigned(),
        Kind::Word => word_from(bytes),
        Kind::ReversedHalf => reversed_half_from(bytes) as u32,
        Kind::ReversedWord => reversed_word_from(bytes),
        Kind::Exclusive => word_from(bytes),
        Kind::Words | Kind::Block => 0,
    }
}

/// The registers from RT to 31 take a word each.
#[tactic(auto, unfolding(crate::specs::Transfers::filled))]
fn fill_words(insn: Insn, regs: &mut Regs, bytes: &[u8])
    requires { length bytes.now ≡ size_of Kind.Words insn.word }
    ensures { regs.new ≡ filled Kind.Words insn.word bytes.now regs.old }
{
    let first = insn.rt();
    for n in first..32 {
        let start = 4 * (n - first) as usize;
        let word = word_from(&bytes[start..start + 4]);
        regs.set_gpr(n, word);
    }
}

/// The registers that a load fills.
#[tactic(auto, unfolding(crate::specs::Transfers::filled))]
fn fill(kind: Kind, insn: Insn, regs: &mut Regs, bytes: &[u8])
    requires { length bytes.now ≡ size_of kind insn.word }
    ensures { regs.new ≡ filled kind insn.word bytes.now regs.old }
{
    match kind {
        Kind::Words => fill_words(insn, regs, bytes),
        _ => {
            let value = value_from(kind, insn, bytes);
            regs.set_gpr(insn.rt(), value);
        }
    }
}

/// CR0 reports whether a conditional store was made.
#[tactic(auto, unfolding(crate::specs::Transfers::reported))]
fn report(kind: Kind, regs: &mut Regs, bytes: &[u8])
    requires { SaysWhether kind bytes.now }
    ensures { regs.new ≡ reported kind bytes.now regs.old }
{
    match kind {
        Kind::Exclusive => {
            let cr = replace_field(regs.cr(), 0, 2 * bytes[0] as u32 + summary_of(regs));
            regs.set_cr(cr);
        }
        _ => {}
    }
}

/// Completes a load or store whose access was made.
#[tactic(auto, unfolding(crate::specs::Transfers::finished))]
fn finish(transfer: Transfer, insn: Insn, regs: &mut Regs, bytes: &[u8])
    requires { Finishes transfer.kind transfer.store insn.word bytes.now }
    ensures { regs.new ≡ finished transfer insn.word bytes.now regs.old }
{
    let address = effective_of(transfer.addressing, insn, regs);
    if transfer.store {
        report(transfer.kind, regs, bytes);
    } else {
        fill(transfer.kind, insn, regs, bytes);
    }
    update(transfer.addressing, insn, regs, address);
    regs.advance();
}

/// Completes a load or store whose access was made: the registers take what a load brings, RA the address of an
/// update form, and the PC goes on. `bytes` has all that a load accessed; for `stwcx.` it is one byte, 1 where it
/// stored and else 0; another store has no use for it.
///
/// `exec` of this instruction and these registers has answered `Effect::Memory`.
#[tactic(auto, using(crate::proofs::Completion::finishes))]
pub fn finish_load(insn: &Insn, regs: &mut Regs, bytes: &[u8])
    requires { IsFinishedBy (transfer_effect (transfer_of insn.now.op) insn.now.word regs.old) bytes.now }
    ensures { regs.new ≡ finished_by (transfer_of insn.now.op) insn.now.word bytes.now regs.old }
{
    if let Some(transfer) = transfer_by(insn.op) {
        finish(transfer, *insn, regs, bytes);
    }
}

/// The words of the registers from RT to 31.
#[tactic(auto, unfolding(crate::specs::Transfers::stored_bytes))]
fn words_of(insn: Insn, regs: &Regs) -> ArrayVec<u8, 128>
    ensures { result.items ≡ stored_bytes Kind.Words insn.word regs.now }
{
    let first = insn.rt();
    let mut bytes = ArrayVec::new();
    for n in first..32 {
        push_word(&mut bytes, regs.gpr(n));
    }
    bytes
}

/// A few bytes, as `stored` gives them.
fn bytes_of(piece: &[u8]) -> ArrayVec<u8, 128>
    requires { length piece.now ≤ 128 }
    ensures { result.items ≡ piece.now }
{
    let mut bytes = ArrayVec::new();
    if bytes.try_extend_from_slice(piece).is_err() {
        unreachable!()
    }
    bytes
}

/// What a store puts into storage.
#[tactic(auto, unfolding(crate::specs::Transfers::stored_bytes))]
fn store_of_kind(kind: Kind, insn: Insn, regs: &Regs) -> ArrayVec<u8, 128>
    ensures { result.items ≡ stored_bytes kind insn.word regs.now }
{
    let word = s_of(insn, regs);
    let half = (word % 0x1_0000) as u16;
    match kind {
        Kind::Byte => bytes_of(&[(word % 0x100) as u8]),
        Kind::Half => bytes_of(&half.to_be_bytes()),
        Kind::SignedHalf => bytes_of(&half.to_be_bytes()),
        Kind::Word => bytes_of(&word.to_be_bytes()),
        Kind::ReversedHalf => bytes_of(&half.to_le_bytes()),
        Kind::ReversedWord => bytes_of(&word.to_le_bytes()),
        Kind::Words => words_of(insn, regs),
        Kind::Exclusive => bytes_of(&word.to_be_bytes()),
        Kind::Block => bytes_of(&[0; 64]),
    }
}

/// The bytes that a store puts into storage, in the order of their addresses. A conditional store has them whether
/// or not it is made.
///
/// `exec` of this instruction and these registers has answered the access of a store.
pub fn stored(insn: &Insn, regs: &Regs) -> ArrayVec<u8, 128>
    requires { IsStore (transfer_effect (transfer_of insn.now.op) insn.now.word regs.now) }
    ensures { result.items ≡ stored_by (transfer_of insn.now.op) insn.now.word regs.now }
{
    match transfer_by(insn.op) {
        Some(transfer) => store_of_kind(transfer.kind, *insn, regs),
        None => ArrayVec::new(),
    }
}
