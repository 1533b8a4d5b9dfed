//! Loads and stores over the places of their bytes.

ghost use Rattle.std.specs.Prelude.{◌≡◌, ◌<◌, ℕ, true, false, length};
ghost use Rattle.insn_alu.specs.declared.effect.Effect.TheVariants.{Memory};
ghost use Rattle.insn_alu.specs.Transfers.{transfer_of, transfer_effect, stored_by};
ghost use Rattle.core_step.specs.Pages.{AreBacked};
ghost use Rattle.core_step.specs.Access as access;
ghost use Rattle.core_step.specs.Step as spec;

use crate::access::{Places, look_up_all};
use crate::answer::Hw;
use crate::look::Look;
use crate::moving::{load_bytes, ranges, store_bytes};
use crate::stepping::{access_permission, data_fault, first_granule, holds, is_aligned};
use arrayvec::ArrayVec;
use ground::Ground;
use guest_regs::Regs;
use insn::Insn;
use insn_alu::{Access, Form, finish_load, stored};

/// Loads the bytes at the places.
#[tactic(auto, using(crate::proofs::Sizes::short_access, crate::proofs::Sizes::load_finished), unfolding(crate::specs::Step::load_done))]
fn load(insn: Insn, made: Access, places: Places, regs: &mut Regs, ground: &Ground) -> Hw
    requires transfer { transfer_effect (transfer_of insn.op) insn.word regs.old ≡ Memory made }
    requires is_load { made.store ≡ false }
    requires inside { access.AreInside ground.now (access.in_order places) }
    requires whole { access.total (access.in_order places) ≡ made.len }
    ensures { spec.load_done insn made (access.in_order places) regs.old ground.now
        ≡ record { answer = spec.answered result; registers = regs.new; memory = ground.now } }
{
    let bytes = load_bytes(ground, places);
    finish_load(&insn, regs, bytes.as_slice());
    if let Form::Reserve = made.form {
        regs.set_reserved(Some(first_granule(places)));
    }
    Hw::Retired(ArrayVec::new())
}

/// What a store stores: as many bytes as it accesses, since there are 32 general registers.
#[tactic(auto, using(crate::proofs::Sizes::is_store, crate::proofs::Sizes::stored_whole))]
fn bytes_to_store(insn: Insn, made: Access, regs: &Regs) -> ArrayVec<u8, 128>
    requires transfer { transfer_effect (transfer_of insn.op) insn.word regs.now ≡ Memory made }
    requires is_store { made.store ≡ true }
    ensures bytes { result.items ≡ stored_by (transfer_of insn.op) insn.word regs.now }
    ensures whole { length result.items ≡ made.len }
{
    // Reading one tells that the registers are 32.
    let _last = regs.gpr(31);
    stored(&insn, regs)
}

/// Stores at the places.
#[tactic(auto, using(crate::proofs::Sizes::is_store, crate::proofs::Sizes::store_finished), unfolding(crate::specs::Step::store_done))]
fn store(insn: Insn, made: Access, places: Places, regs: &mut Regs, ground: &mut Ground) -> Hw
    requires transfer { transfer_effect (transfer_of insn.op) insn.word regs.old ≡ Memory made }
    requires is_store { made.store ≡ true }
    requires plain { made.form ≡ Form.Conditional → ⊥ }
    requires inside { access.AreInside ground.old (access.in_order places) }
    requires whole { access.total (access.in_order places) ≡ made.len }
    ensures done { spec.store_done insn (access.in_order places) regs.old ground.old
        ≡ record { answer = spec.answered result; registers = regs.new; memory = ground.new } }
    ensures sizes { access.SameSizes ground.old ground.new }
{
    let bytes = bytes_to_store(insn, made, regs);
    store_bytes(ground, places, bytes.as_slice());
    finish_load(&insn, regs, &[]);
    Hw::Retired(ranges(places))
}

/// Stores there under a reservation, which ends.
#[tactic(auto, using(crate::proofs::Sizes::is_store, crate::proofs::Sizes::told_finished), unfolding(crate::specs::Step::conditional_done))]
fn store_conditional(
    insn: Insn,
    made: Access,
    places: Places,
    regs: &mut Regs,
    ground: &mut Ground,
) -> Hw
    requires transfer { transfer_effect (transfer_of insn.op) insn.word regs.old ≡ Memory made }
    requires is_store { made.store ≡ true }
    requires inside { access.AreInside ground.old (access.in_order places) }
    requires whole { access.total (access.in_order places) ≡ made.len }
    ensures done { spec.conditional_done insn (access.in_order places) regs.old ground.old
        ≡ record { answer = spec.answered result; registers = regs.new; memory = ground.new } }
    ensures sizes { access.SameSizes ground.old ground.new }
{
    if holds(regs, first_granule(places)) {
        let bytes = bytes_to_store(insn, made, regs);
        store_bytes(ground, places, bytes.as_slice());
        finish_load(&insn, regs, &[1]);
        regs.set_reserved(None);
        Hw::Retired(ranges(places))
    } else {
        finish_load(&insn, regs, &[0]);
        regs.set_reserved(None);
        Hw::Retired(ArrayVec::new())
    }
}

/// Makes an access.
#[tactic(auto, unfolding(crate::specs::Step::accessed, crate::specs::Step::access_done), using(crate::proofs::Sizes::short_access))]
pub fn transfer<L: Look>(
    look: &L,
    insn: Insn,
    made: Access,
    regs: &mut Regs,
    ground: &mut Ground,
) -> Hw
    requires transfer { transfer_effect (transfer_of insn.op) insn.word regs.old ≡ Memory made }
    requires backed { AreBacked ground.old (L.lookup look.now) }
    ensures done { spec.accessed (L.lookup look.now) insn made regs.old ground.old
        ≡ record { answer = spec.answered result; registers = regs.new; memory = ground.new } }
    ensures sizes { access.SameSizes ground.old ground.new }
{
    if is_aligned(made.form) && made.ea % 4 != 0 {
        return Hw::Align {
            ea: made.ea,
            store: made.store,
        };
    }
    let permission = access_permission(made.store, regs);
    match look_up_all(
        look,
        ground,
        regs.data_space(),
        regs.pid(),
        permission,
        made.ea,
        u32::from(made.len),
    ) {
        Err(fault) => data_fault(made.store, fault),
        Ok(places) => {
            if !made.store {
                return load(insn, made, places, regs, ground);
            }
            match made.form {
                Form::Conditional => store_conditional(insn, made, places, regs, ground),
                Form::Load | Form::Store | Form::Reserve | Form::Many | Form::Zero => store(
                    insn, made, places, regs, ground,
                ),
            }
        }
    }
}
