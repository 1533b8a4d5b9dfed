//! Laws of the definition that no one call could state.

ghost use Rattle.partition.specs.Acting.{StepsAct};
ghost use Rattle.partition.specs.Forgets.{RestartsForget};
ghost use Rattle.partition.specs.Refusal.{RefusalsAreQuiet};
ghost use Rattle.partition.specs.Reached.{InterruptsStaySound, TranslationsStaySound};

/// A hypercall that is refused changes r3 alone, besides the clocks, the program counter and the count of steps. One
/// that is done in part changes r4 and what is outstanding too.
pub fn refusals_are_quiet()
    ensures { RefusalsAreQuiet }
{}

/// No machine that a description can come to has two live translations of a core for one access, and a next victim is a
/// way of TLB0.
pub fn translations_stay_sound()
    ensures { TranslationsStaySound }
{}

/// No machine that a description can come to has another interrupt latched than those of receive handles.
pub fn interrupts_stay_sound()
    ensures { InterruptsStaySound }
{}

/// Of the ends a step leaves what its act says, and its act is one that can be: bytes that there is room for, and commands
/// to partitions that are in a state for them.
pub fn steps_act()
    ensures { StepsAct }
{}

/// Two machines of one description that have done as many steps, with equal outstanding counts, managed states and shared
/// bytes, are equal after a restart.
pub fn restarts_forget()
    ensures { RestartsForget }
{}
