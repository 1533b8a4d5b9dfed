//! Laws of the definitions. Each is a function with nothing to do, whose contract is the law.

ghost use Rattle.trap_emulate.specs.Laws.{TimeCountsSteps, FallsInSilence, ExpiresOnTime, RestsAtZero, ReturnsGoBack, EmulationKeepsVictim, EmulationKeepsSlots, EmulationKeepsRegisters, DeliveryKeepsRegisters, TimeKeepsRegisters};

/// Clocks keep time: the time base counts the steps, and a decrementer expires at the step of its number and not
/// before. At 0 it rests.
pub fn clocks_keep_time()
    ensures time { TimeCountsSteps }
    ensures silence { FallsInSilence }
    ensures expiry { ExpiresOnTime }
    ensures rest { RestsAtZero }
{}

/// A return from an interrupt undoes its entry, but for the registers that interrupts save and report in.
pub fn returns_go_back()
    ensures { ReturnsGoBack }
{}

/// The next-victim counter stays below 4.
pub fn victims_are_ways()
    ensures { EmulationKeepsVictim }
{}

/// What the slots of the translations keep stays through each instruction.
pub fn instructions_keep_the_slots()
    ensures { EmulationKeepsSlots }
{}

/// What the registers keep stays through each instruction, each entry of an interrupt and each step's time.
pub fn changes_keep_the_registers()
    ensures instruction { EmulationKeepsRegisters }
    ensures interrupt { DeliveryKeepsRegisters }
    ensures time { TimeKeepsRegisters }
{}
