//! Which loads and stores there are: what they move, and how their address is found.

ghost use Rattle.std.specs.Prelude.{◌≡◌, Some, true, false};
ghost use Rattle.insn_alu.specs.Transfers.{load_of, store_of, transfer_of};

use crate::transfer::{Addressing, Kind, Transfer};
use insn::Op;

/// A load as data.
fn load(addressing: Addressing, kind: Kind) -> Option<Transfer>
    ensures { result ≡ Some (record { addressing = addressing; kind = kind; store = false }) }
{
    Some(Transfer {
        addressing,
        kind,
        store: false,
    })
}

/// A store as data.
fn store(addressing: Addressing, kind: Kind) -> Option<Transfer>
    ensures { result ≡ Some (record { addressing = addressing; kind = kind; store = true }) }
{
    Some(Transfer {
        addressing,
        kind,
        store: true,
    })
}

/// What a load takes from storage, and none for another instruction.
#[tactic(auto, unfolding(crate::specs::Transfers::load_of))]
fn load_by(op: Op) -> Option<Transfer>
    ensures { result ≡ load_of op }
{
    match op {
        Op::Lbz => load(Addressing::Displaced, Kind::Byte),
        Op::Lbzx => load(Addressing::Indexed, Kind::Byte),
        Op::Lbzu => load(Addressing::DisplacedUpdate, Kind::Byte),
        Op::Lbzux => load(Addressing::IndexedUpdate, Kind::Byte),
        Op::Lhz => load(Addressing::Displaced, Kind::Half),
        Op::Lhzx => load(Addressing::Indexed, Kind::Half),
        Op::Lhzu => load(Addressing::DisplacedUpdate, Kind::Half),
        Op::Lhzux => load(Addressing::IndexedUpdate, Kind::Half),
        Op::Lha => load(Addressing::Displaced, Kind::SignedHalf),
        Op::Lhax => load(Addressing::Indexed, Kind::SignedHalf),
        Op::Lhau => load(Addressing::DisplacedUpdate, Kind::SignedHalf),
        Op::Lhaux => load(Addressing::IndexedUpdate, Kind::SignedHalf),
        Op::Lwz => load(Addressing::Displaced, Kind::Word),
        Op::Lwzx => load(Addressing::Indexed, Kind::Word),
        Op::Lwzu => load(Addressing::DisplacedUpdate, Kind::Word),
        Op::Lwzux => load(Addressing::IndexedUpdate, Kind::Word),
        Op::Lhbrx => load(Addressing::Indexed, Kind::ReversedHalf),
        Op::Lwbrx => load(Addressing::Indexed, Kind::ReversedWord),
        Op::Lmw => load(Addressing::Displaced, Kind::Words),
        Op::Lwarx => load(Addressing::Indexed, Kind::Exclusive),
        _ => None,
    }
}

/// What a store puts there, and none for another instruction.
#[tactic(auto, unfolding(crate::specs::Transfers::store_of))]
fn store_by(op: Op) -> Option<Transfer>
    ensures { result ≡ store_of op }
{
    match op {
        Op::Stb => store(Addressing::Displaced, Kind::Byte),
        Op::Stbx => store(Addressing::Indexed, Kind::Byte),
        Op::Stbu => store(Addressing::DisplacedUpdate, Kind::Byte),
        Op::Stbux => store(Addressing::IndexedUpdate, Kind::Byte),
        Op::Sth => store(Addressing::Displaced, Kind::Half),
        Op::Sthx => store(Addressing::Indexed, Kind::Half),
        Op::Sthu => store(Addressing::DisplacedUpdate, Kind::Half),
        Op::Sthux => store(Addressing::IndexedUpdate, Kind::Half),
        Op::Stw => store(Addressing::Displaced, Kind::Word),
        Op::Stwx => store(Addressing::Indexed, Kind::Word),
        Op::Stwu => store(Addressing::DisplacedUpdate, Kind::Word),
        Op::Stwux => store(Addressing::IndexedUpdate, Kind::Word),
        Op::Sthbrx => store(Addressing::Indexed, Kind::ReversedHalf),
        Op::Stwbrx => store(Addressing::Indexed, Kind::ReversedWord),
        Op::Stmw => store(Addressing::Displaced, Kind::Words),
        Op::Stwcx => store(Addressing::Indexed, Kind::Exclusive),
        Op::Dcbz => store(Addressing::Indexed, Kind::Block),
        _ => None,
    }
}

/// What a load or store moves, and none for another instruction.
pub fn transfer_by(op: Op) -> Option<Transfer>
    ensures { result ≡ transfer_of op }
{
    load_by(op).or(store_by(op))
}
