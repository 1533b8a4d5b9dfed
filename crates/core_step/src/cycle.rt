//! An instruction: its fetch, and what its effect asks for.

ghost use Rattle.std.specs.Prelude.{◌≡◌, ◌<◌, ℕ, IfOk, if◌then◌else◌};
ghost use Rattle.guest_regs.specs.State as state;
ghost use Rattle.guest_regs.specs.Registers.{in_problem_state, instruction_space};
ghost use Rattle.core_step.specs.Pages.{AreBacked};
ghost use Rattle.core_step.specs.Access as access;
ghost use Rattle.core_step.specs.Step as spec;

use crate::access::{Fault, Part, Place, look_up};
use crate::answer::Hw;
use crate::look::Look;
use crate::stepping::{fetch_fault, fetching};
use crate::transfer::transfer;
use arrayvec::ArrayVec;
use ground::Ground;
use guest_regs::{Regs, esr};
use insn::{Insn, decode};
use insn_alu::{Effect, exec};

/// Sets the idle flag, and goes on behind the instruction.
fn wait(regs: &mut Regs)
    ensures { regs.new ≡ spec.idle regs.old }
{
    regs.set_idle(true);
    regs.advance();
}

/// A privileged instruction: the layers above do it for the system, and user programs are refused.
fn privileged(insn: Insn, regs: &Regs) -> Hw
    ensures { spec.answered result ≡ (if in_problem_state regs.now then spec.Program state.privileged else spec.Priv insn) }
{
    if regs.is_user() {
        Hw::Program(esr::PRIVILEGED)
    } else {
        Hw::Priv(insn)
    }
}

/// Does the instruction, or as much of it as is the core's.
#[tactic(auto, unfolding(crate::specs::Step::instruction_done, crate::specs::Step::performed))]
fn perform<L: Look>(look: &L, insn: Insn, regs: &mut Regs, ground: &mut Ground) -> Hw
    requires { AreBacked ground.old (L.lookup look.now) }
    ensures done { spec.instruction_done (L.lookup look.now) insn regs.old ground.old
        ≡ record { answer = spec.answered result; registers = regs.new; memory = ground.new } }
    ensures sizes { access.SameSizes ground.old ground.new }
{
    match exec(&insn, regs) {
        Effect::Done => Hw::Retired(ArrayVec::new()),
        Effect::Memory(made) => transfer(look, insn, made, regs, ground),
        Effect::Priv => privileged(insn, regs),
        Effect::Trap => Hw::Program(esr::TRAP),
        Effect::Illegal => Hw::Program(esr::ILLEGAL),
        Effect::NoFloat => Hw::NoFloat,
        Effect::Syscall => Hw::Sc,
        Effect::Hcall => Hw::Hcall,
        Effect::Wait => {
            wait(regs);
            Hw::Waiting
        }
    }
}

/// Where the instruction at the PC lies.
fn fetch<L: Look>(look: &L, regs: &Regs, ground: &Ground) -> Result<Place, Fault>
    requires { AreBacked ground.now (L.lookup look.now) }
    ensures value { result ≡ access.place_or_fault (access.fetching (in_problem_state regs.now)) (record { ea = regs.now.pc; len = 4 })
        (L.lookup look.now (instruction_space regs.now) regs.now.pid regs.now.pc) }
    ensures inside { IfOk result (λ place. access.IsInside ground.now place) }
    ensures whole { IfOk result (λ place. place.len ≡ 4) }
{
    let part = Part {
        ea: regs.pc(),
        len: 4,
    };
    look_up(
        look,
        ground,
        regs.instruction_space(),
        regs.pid(),
        fetching(regs),
        part,
    )
}

/// One instruction.
#[tactic(auto, unfolding(crate::specs::Step::stepped))]
pub fn cycle<L: Look>(look: &L, regs: &mut Regs, ground: &mut Ground) -> Hw
    requires { AreBacked ground.old (L.lookup look.now) }
    ensures done { spec.stepped (L.lookup look.now) regs.old ground.old
        ≡ record { answer = spec.answered result; registers = regs.new; memory = ground.new } }
    ensures sizes { access.SameSizes ground.old ground.new }
{
    match fetch(look, regs, ground) {
        Ok(place) => {
            let word = ground.load32(place.extent as usize, place.at);
            perform(look, decode(word), regs, ground)
        }
        Err(fault) => fetch_fault(regs.pc(), fault),
    }
}
