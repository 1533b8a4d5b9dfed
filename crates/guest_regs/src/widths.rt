//! The widths of the registers. Each function here does nothing: its contract tells what the types of some readers say.

ghost use Rattle.std.specs.Prelude.{ℕ, ◌<◌, ◌^◌, IfSome, length};
ghost use Rattle.guest_regs.specs.Kept.{IsWord, AreWords};

use crate::registers::Regs;

/// The elements of a list of words have 32 bits.
pub fn words_fit(words: &[u32])
    ensures { AreWords (length words.now) words.now }
{
    let _words = words;
}

/// The widths of the registers of branches, and of the processor.
pub fn branches_fit(regs: &Regs)
    ensures pc { IsWord regs.now.pc }
    ensures cr { IsWord regs.now.cr }
    ensures lr { IsWord regs.now.lr }
    ensures ctr { IsWord regs.now.ctr }
    ensures pir { IsWord regs.now.pir }
{
    let _pc = regs.pc();
    let _cr = regs.cr();
    let _lr = regs.lr();
    let _ctr = regs.ctr();
    let _pir = regs.pir();
}

/// The widths of the registers that interrupts save.
pub fn interrupts_fit(regs: &Regs)
    ensures srr0 { IsWord regs.now.srr0 }
    ensures srr1 { IsWord regs.now.srr1 }
    ensures csrr0 { IsWord regs.now.csrr0 }
    ensures csrr1 { IsWord regs.now.csrr1 }
    ensures mcsrr0 { IsWord regs.now.mcsrr0 }
    ensures mcsrr1 { IsWord regs.now.mcsrr1 }
    ensures dear { IsWord regs.now.dear }
    ensures esr { IsWord regs.now.esr }
{
    let _srr0 = regs.srr0();
    let _srr1 = regs.srr1();
    let _csrr0 = regs.csrr0();
    let _csrr1 = regs.csrr1();
    let _mcsrr0 = regs.mcsrr0();
    let _mcsrr1 = regs.mcsrr1();
    let _dear = regs.dear();
    let _esr = regs.esr();
}

/// The widths of the timers' registers, and of the one that has no effect.
pub fn timers_fit(regs: &Regs)
    ensures dec { IsWord regs.now.dec }
    ensures decar { IsWord regs.now.decar }
    ensures tsr { IsWord regs.now.tsr }
    ensures tcr { IsWord regs.now.tcr }
    ensures hid0 { IsWord regs.now.hid0 }
{
    let _dec = regs.dec();
    let _decar = regs.decar();
    let _tsr = regs.tsr();
    let _tcr = regs.tcr();
    let _hid0 = regs.hid0();
}

/// The widths of the MMU assist registers.
pub fn assists_fit(regs: &Regs)
    ensures mas0 { IsWord regs.now.mas0 }
    ensures mas1 { IsWord regs.now.mas1 }
    ensures mas2 { IsWord regs.now.mas2 }
    ensures mas3 { IsWord regs.now.mas3 }
    ensures mas4 { IsWord regs.now.mas4 }
    ensures mas6 { IsWord regs.now.mas6 }
{
    let _mas0 = regs.mas0();
    let _mas1 = regs.mas1();
    let _mas2 = regs.mas2();
    let _mas3 = regs.mas3();
    let _mas4 = regs.mas4();
    let _mas6 = regs.mas6();
}

/// The widths of the time base and of a reservation.
pub fn marks_fit(regs: &Regs)
    ensures time { regs.now.time < 2 ^ 64 }
    ensures reserved { IfSome regs.now.reserved (λ block. block < 2 ^ 64) }
{
    let _time = regs.time();
    let _reserved = regs.reserved();
}
