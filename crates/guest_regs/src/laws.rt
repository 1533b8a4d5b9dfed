//! Laws of the definitions. Each is a function with nothing to do, whose contract is the law.

ghost use Rattle.guest_regs.specs.Laws.{StartKeeps, SpecialWritesKeep, NumberedWritesKeep, GeneralWritesKeep, AdvancesKeep};

/// What the registers keep is there when a core starts, and stays through each write and each advance.
pub fn changes_keep_the_registers()
    ensures start { StartKeeps }
    ensures special { SpecialWritesKeep }
    ensures numbered { NumberedWritesKeep }
    ensures general { GeneralWritesKeep }
    ensures advance { AdvancesKeep }
{}
