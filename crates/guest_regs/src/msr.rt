//! The machine state register: its bits, each by its weight, and what they say (Power ISA 2.06, Book III-E, chapter 4).

ghost use Rattle.std.specs.Prelude.{◌≡◌};
ghost use Rattle.guest_regs.specs.Registers.{in_problem_state, instruction_space, data_space};

use crate::registers::Regs;
use crate::words::is_set;

/// GS: the core is a guest's. It is always 1.
pub const GUEST_STATE: u32 = 0x1000_0000;

/// CE: critical interrupts are enabled.
pub const CRITICAL_ENABLE: u32 = 0x0002_0000;

/// EE: external and decrementer interrupts are enabled.
pub const EXTERNAL_ENABLE: u32 = 0x0000_8000;

/// PR: the problem state, in which user programs run.
pub const PROBLEM_STATE: u32 = 0x0000_4000;

/// ME: machine checks are enabled.
pub const MACHINE_CHECK_ENABLE: u32 = 0x0000_1000;

/// IS: the address space that instructions are fetched from.
pub const INSTRUCTION_ADDRESS_SPACE: u32 = 0x0000_0020;

/// DS: the address space of loads and stores.
pub const DATA_ADDRESS_SPACE: u32 = 0x0000_0010;

/// The bits that a guest turns: CE, EE, PR, ME, IS and DS.
pub const STATE_BITS: u32 = 0x0002_D030;

/// What the bits say.
impl Regs {
    /// Whether MSR[PR] is set: a user program runs, and has no privileged instructions (Power ISA 2.06, Book III-E,
    /// chapter 4).
    pub fn is_user(&self) -> bool
        ensures { result ≡ in_problem_state self.now }
    {
        is_set(self.msr(), PROBLEM_STATE)
    }

    /// MSR[IS], the address space that instructions are fetched from: 1 where it is set (Power ISA 2.06, Book III-E,
    /// chapter 4).
    pub fn instruction_space(&self) -> bool
        ensures { result ≡ instruction_space self.now }
    {
        is_set(self.msr(), INSTRUCTION_ADDRESS_SPACE)
    }

    /// MSR[DS], the address space of loads and stores: 1 where it is set (Power ISA 2.06, Book III-E, chapter 4).
    pub fn data_space(&self) -> bool
        ensures { result ≡ data_space self.now }
    {
        is_set(self.msr(), DATA_ADDRESS_SPACE)
    }
}
