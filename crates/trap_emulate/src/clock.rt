//! The timers of a core.

ghost use Rattle.std.specs.Prelude.{◌≡◌, ℕ};
ghost use Rattle.trap_emulate.specs.Clock.{expired, is_decrementer_pending, ticked};

use guest_regs::{Regs, is_set};

/// DIS of the TSR: the decrementer has expired.
const DECREMENTER_STATUS: u32 = 0x0800_0000;

/// DIE of the TCR: the decrementer's interrupt is enabled.
const DECREMENTER_ENABLE: u32 = 0x0400_0000;

/// ARE of the TCR: the decrementer is reloaded when it expires.
const AUTO_RELOAD: u32 = 0x0040_0000;

/// Lets one step's time pass: the time base counts it, and the decrementer falls (Power ISA 2.06, Book III-E, chapter 9).
#[tactic(auto, unfolding(crate::specs::Clock::ticked))]
pub fn tick(regs: &mut Regs)
    ensures { regs.new ≡ ticked regs.old }
{
    regs.set_time(regs.time().wrapping_add(1));
    match regs.dec() {
        0 => {}
        1 => expire(regs),
        left => regs.set_dec(left - 1),
    }
}

/// Whether the decrementer has expired and TCR[DIE] asks for its interrupt, which is entered once MSR[EE] lets it (Power
/// ISA 2.06, Book III-E, chapter 9).
pub fn is_decrementer_pending(regs: &Regs) -> bool
    ensures { result ≡ is_decrementer_pending regs.now }
{
    is_set(regs.tsr(), DECREMENTER_STATUS) && is_set(regs.tcr(), DECREMENTER_ENABLE)
}

/// The decrementer reaches its end: it sets its status, and begins again where that is asked for.
#[tactic(auto, unfolding(crate::specs::Clock::expired))]
fn expire(regs: &mut Regs)
    ensures { regs.new ≡ expired regs.old }
{
    let next = if is_set(regs.tcr(), AUTO_RELOAD) {
        regs.decar()
    } else {
        0
    };
    regs.set_tsr(regs.tsr() | DECREMENTER_STATUS);
    regs.set_dec(next);
}
