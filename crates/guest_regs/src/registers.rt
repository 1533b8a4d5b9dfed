//! The registers of a core, and those that have a reader and a writer by name.

ghost use Rattle.std.specs.Prelude.{◌≡◌, ℕ, ◌<◌, ◌%◌, ◌^◌, length, slice_index, slice_set, bit_and};
ghost use Rattle.guest_regs.specs.Kept.{AreKept};
ghost use Rattle.guest_regs.specs.Registers.{Registers, gpr_or_zero, indexed_address, instruction_address, advanced, machine_state, version, first_tlb_shape, second_tlb_shape, ivor_bits, boot_registers, xer_bits, pid_bits, ivpr_bits, mas7_bits, l1csr0_bits, l1csr1_bits, bucsr_bits};

use crate::msr;
use crate::widths::{assists_fit, branches_fit, interrupts_fit, marks_fit, timers_fit, words_fit};
use std::marker::Model;

const GENERAL_REGISTERS: usize = 32;

const VECTOR_OFFSETS: usize = 16;

const SOFTWARE_REGISTERS: usize = 8;

/// "EPAP", by which a client program knows that its loader keeps ePAPR (ePAPR 1.1, chapter 5).
const EPAPR_MAGIC: u32 = 0x4550_4150;

/// The bytes from address 0 that are mapped when a client program starts.
const INITIAL_AREA: u32 = 0x0400_0000;

/// The registers of a core. Contracts see the record `Registers` of its definition.
///
/// A reader has the register's name in lower case, and a writer that name after `set_`. A writer keeps the bits
/// that the register has, and no others.
#[derive(Debug, Drop)]
pub struct Regs {
    gpr: [u32; GENERAL_REGISTERS],
    cr: u32,
    xer: u32,
    lr: u32,
    ctr: u32,
    pc: u32,
    msr: u32,
    dec: u32,
    decar: u32,
    srr0: u32,
    srr1: u32,
    dear: u32,
    esr: u32,
    pid: u16,
    csrr0: u32,
    csrr1: u32,
    mcsrr0: u32,
    mcsrr1: u32,
    ivpr: u32,
    ivor: [u32; VECTOR_OFFSETS],
    sprg: [u32; SOFTWARE_REGISTERS],
    tsr: u32,
    tcr: u32,
    hid0: u32,
    l1csr0: u32,
    l1csr1: u32,
    bucsr: u32,
    mas0: u32,
    mas1: u32,
    mas2: u32,
    mas3: u32,
    mas4: u32,
    mas6: u32,
    mas7: u32,
    pir: u32,
    time: u64,
    reserved: Option<u64>,
    idle: bool,
}

impl Model for Regs {
    ghost use Rattle.guest_regs.specs.Registers.{Registers};
    ghost use Rattle.guest_regs.specs.Kept.{HaveTheirBits};

    ghost Value = { Registers };

    ghost view = { λ regs. record {
      gpr = regs.gpr;
      cr = regs.cr;
      xer = regs.xer;
      lr = regs.lr;
      ctr = regs.ctr;
      pc = regs.pc;
      msr = regs.msr;
      dec = regs.dec;
      decar = regs.decar;
      srr0 = regs.srr0;
      srr1 = regs.srr1;
      dear = regs.dear;
      esr = regs.esr;
      pid = regs.pid;
      csrr0 = regs.csrr0;
      csrr1 = regs.csrr1;
      mcsrr0 = regs.mcsrr0;
      mcsrr1 = regs.mcsrr1;
      ivpr = regs.ivpr;
      ivor = regs.ivor;
      sprg = regs.sprg;
      tsr = regs.tsr;
      tcr = regs.tcr;
      hid0 = regs.hid0;
      l1csr0 = regs.l1csr0;
      l1csr1 = regs.l1csr1;
      bucsr = regs.bucsr;
      mas0 = regs.mas0;
      mas1 = regs.mas1;
      mas2 = regs.mas2;
      mas3 = regs.mas3;
      mas4 = regs.mas4;
      mas6 = regs.mas6;
      mas7 = regs.mas7;
      pir = regs.pir;
      time = regs.time;
      reserved = regs.reserved;
      idle = regs.idle;
    } };

    ghost invariant = { λ regs. HaveTheirBits regs.pc regs.msr regs.xer regs.pid regs.ivpr regs.ivor regs.mas7 regs.l1csr0 regs.l1csr1 regs.bucsr };
}

/// The registers of a core that starts at `entry`, with the device tree at the effective address `tree_at`. `core`
/// is the core's place in its partition, which PIR reads (ePAPR 1.1, chapter 5).
#[tactic(auto, unfolding(crate::specs::Registers::boot_registers))]
pub fn boot(entry: u32, tree_at: u32, core: u32) -> Regs
    requires { entry % 4 ≡ 0 }
    ensures { result ≡ boot_registers entry tree_at core }
{
    let mut gpr = [0; GENERAL_REGISTERS];
    gpr[3] = tree_at;
    gpr[6] = EPAPR_MAGIC;
    gpr[7] = INITIAL_AREA;
    Regs {
        gpr,
        cr: 0,
        xer: 0,
        lr: 0,
        ctr: 0,
        pc: entry,
        msr: msr::GUEST_STATE,
        dec: 0,
        decar: 0,
        srr0: 0,
        srr1: 0,
        dear: 0,
        esr: 0,
        pid: 0,
        csrr0: 0,
        csrr1: 0,
        mcsrr0: 0,
        mcsrr1: 0,
        ivpr: 0,
        ivor: [0; VECTOR_OFFSETS],
        sprg: [0; SOFTWARE_REGISTERS],
        tsr: 0,
        tcr: 0,
        hid0: 0,
        l1csr0: 0,
        l1csr1: 0,
        bucsr: 0,
        mas0: 0,
        mas1: 0,
        mas2: 0,
        mas3: 0,
        mas4: 0,
        mas6: 0,
        mas7: 0,
        pir: core,
        time: 0,
        reserved: None,
        idle: false,
    }
}

/// What the registers keep.
impl Regs {
    /// Does nothing. Its contract tells layers above what the registers keep at all times.
    pub fn are_kept(&self)
        ensures { AreKept self.now }
    {
        branches_fit(self);
        interrupts_fit(self);
        timers_fit(self);
        assists_fit(self);
        marks_fit(self);
        words_fit(&self.gpr);
        words_fit(&self.ivor);
        words_fit(&self.sprg);
    }
}

/// The registers that have a number among their kind, the counters and the marks.
impl Regs {
    /// General register `n`, below 32 (Power ISA 2.06, Book I, section 3.2.1).
    pub fn gpr(&self, n: u8) -> u32
        requires { n < 32 }
        ensures value { result ≡ slice_index self.now.gpr n }
        ensures count { length self.now.gpr ≡ 32 }
    {
        self.gpr[n as usize]
    }

    /// Writes general register `n`, below 32.
    pub fn set_gpr(&mut self, n: u8, value: u32)
        requires { n < 32 }
        ensures written { self.new ≡ record self.old { gpr = slice_set self.old.gpr n value } }
        ensures count { length self.new.gpr ≡ 32 }
    {
        self.gpr[n as usize] = value;
    }

    /// (RA|0): what general register `n` holds, and 0 where `n` is 0 (Power ISA 2.06, Book I, section 1.10.3).
    pub fn gpr_or_zero(&self, n: u8) -> u32
        requires { n < 32 }
        ensures { result ≡ gpr_or_zero self.now n }
    {
        if n == 0 { 0 } else { self.gpr(n) }
    }

    /// The effective address (RA|0) + (RB), by the numbers of both registers (Power ISA 2.06, Book I, section 1.10.3).
    pub fn indexed_address(&self, ra: u8, rb: u8) -> u32
        requires base { ra < 32 }
        requires index { rb < 32 }
        ensures { result ≡ indexed_address self.now ra rb }
    {
        self.gpr_or_zero(ra).wrapping_add(self.gpr(rb))
    }

    /// Interrupt vector offset register `n`, below 16: the lower half of a handler's address (Power ISA 2.06, Book III-E, chapter 7).
    pub fn ivor(&self, n: u8) -> u32
        requires { n < 16 }
        ensures value { result ≡ slice_index self.now.ivor n }
        ensures count { length self.now.ivor ≡ 16 }
    {
        self.ivor[n as usize]
    }

    /// Writes interrupt vector offset register `n`, below 16: the lower half of a handler's address.
    #[tactic(auto, using(crate::proofs::Masks::offset_set))]
    pub fn set_ivor(&mut self, n: u8, value: u32)
        requires { n < 16 }
        ensures written { self.new ≡ record self.old { ivor = slice_set self.old.ivor n (bit_and value ivor_bits) } }
        ensures count { length self.new.ivor ≡ 16 }
    {
        self.ivor[n as usize] = value & 0xFFF0;
    }

    /// Software-use special register `n`, below 8 (Power ISA 2.06, Book III-E, chapter 5).
    pub fn sprg(&self, n: u8) -> u32
        requires { n < 8 }
        ensures value { result ≡ slice_index self.now.sprg n }
        ensures count { length self.now.sprg ≡ 8 }
    {
        self.sprg[n as usize]
    }

    /// Writes software-use special register `n`, below 8.
    pub fn set_sprg(&mut self, n: u8, value: u32)
        requires { n < 8 }
        ensures written { self.new ≡ record self.old { sprg = slice_set self.old.sprg n value } }
        ensures count { length self.new.sprg ≡ 8 }
    {
        self.sprg[n as usize] = value;
    }

    /// The time base, all 64 bits of it (Power ISA 2.06, Book II, chapter 5).
    pub fn time(&self) -> u64
        ensures { result ≡ self.now.time }
    {
        self.time
    }

    /// Writes the time base.
    pub fn set_time(&mut self, value: u64)
        ensures { self.new ≡ record self.old { time = value } }
    {
        self.time = value;
    }

    /// The block of storage that the core has reserved (Power ISA 2.06, Book II, chapter 4).
    pub fn reserved(&self) -> Option<u64>
        ensures { result ≡ self.now.reserved }
    {
        self.reserved
    }

    /// Makes a reservation, or ends it.
    pub fn set_reserved(&mut self, block: Option<u64>)
        ensures { self.new ≡ record self.old { reserved = block } }
    {
        self.reserved = block;
    }

    /// Whether the core waits for an interrupt (Power ISA 2.06, Book II, chapter 4).
    pub fn idle(&self) -> bool
        ensures { result ≡ self.now.idle }
    {
        self.idle
    }

    /// Lets the core wait, or go on.
    pub fn set_idle(&mut self, on: bool)
        ensures { self.new ≡ record self.old { idle = on } }
    {
        self.idle = on;
    }

    /// The program counter: the effective address of the next instruction (Power ISA 2.06, Book I, section 2.1).
    pub fn pc(&self) -> u32
        ensures value { result ≡ self.now.pc }
        ensures aligned { result % 4 ≡ 0 }
    {
        self.pc
    }

    /// Goes on at an address, whose low two bits are cleared.
    pub fn set_pc(&mut self, value: u32)
        ensures { self.new ≡ record self.old { pc = instruction_address value } }
    {
        self.pc = value - value % 4;
    }

    /// Goes on to the next instruction.
    #[tactic(auto, unfolding(crate::specs::Registers::advanced))]
    pub fn advance(&mut self)
        ensures { self.new ≡ advanced self.old }
    {
        self.set_pc(self.pc.wrapping_add(4));
    }

    /// The machine state register, in which GS is always 1 (Power ISA 2.06, Book III-E, chapter 4).
    pub fn msr(&self) -> u32
        ensures { result ≡ self.now.msr }
    {
        self.msr
    }

    /// Writes CE, EE, PR, ME, IS and DS of the machine state register.
    #[tactic(auto, using(crate::proofs::Masks::state_twice))]
    pub fn set_msr(&mut self, value: u32)
        ensures { self.new ≡ record self.old { msr = machine_state value } }
    {
        self.msr = value & msr::STATE_BITS | msr::GUEST_STATE;
    }

    /// The core's place in its partition, from 0 (Power ISA 2.06, Book III-E, chapter 5).
    pub fn pir(&self) -> u32
        ensures { result ≡ self.now.pir }
    {
        self.pir
    }

    /// The processor's version (Power ISA 2.06, Book III-E, chapter 5).
    pub fn pvr(&self) -> u32
        ensures { result ≡ version }
    {
        0x8023_0020
    }

    /// The shape of the first TLB: 512 translations, four to a set (Power ISA 2.06, Book III-E, chapter 6).
    pub fn tlb0cfg(&self) -> u32
        ensures { result ≡ first_tlb_shape }
    {
        0x0411_0200
    }

    /// The shape of the second TLB: 64 translations of 4 KiB to 4 GiB (Power ISA 2.06, Book III-E, chapter 6).
    pub fn tlb1cfg(&self) -> u32
        ensures { result ≡ second_tlb_shape }
    {
        0x401B_C040
    }
}

/// The registers of branches, arithmetic, interrupts and timers.
impl Regs {
    /// The condition register: field 0 in the most significant four bits (Power ISA 2.06, Book I, section 2.3.1).
    pub fn cr(&self) -> u32
        ensures { result ≡ self.now.cr }
    {
        self.cr
    }

    /// Writes the register.
    pub fn set_cr(&mut self, value: u32)
        ensures { self.new ≡ record self.old { cr = value } }
    {
        self.cr = value;
    }

    /// The fixed-point exception register: SO, OV, CA and the byte count (Power ISA 2.06, Book I, section 3.2.2).
    pub fn xer(&self) -> u32
        ensures { result ≡ self.now.xer }
    {
        self.xer
    }

    /// Writes the bits 0xE000_007F of the register.
    #[tactic(auto, using(crate::proofs::Masks::mask_twice))]
    pub fn set_xer(&mut self, value: u32)
        ensures { self.new ≡ record self.old { xer = bit_and value xer_bits } }
    {
        self.xer = value & 0xE000_007F;
    }

    /// The link register (Power ISA 2.06, Book I, section 2.3.2).
    pub fn lr(&self) -> u32
        ensures { result ≡ self.now.lr }
    {
        self.lr
    }

    /// Writes the register.
    pub fn set_lr(&mut self, value: u32)
        ensures { self.new ≡ record self.old { lr = value } }
    {
        self.lr = value;
    }

    /// The count register (Power ISA 2.06, Book I, section 2.3.3).
    pub fn ctr(&self) -> u32
        ensures { result ≡ self.now.ctr }
    {
        self.ctr
    }

    /// Writes the register.
    pub fn set_ctr(&mut self, value: u32)
        ensures { self.new ≡ record self.old { ctr = value } }
    {
        self.ctr = value;
    }

    /// The decrementer (Power ISA 2.06, Book III-E, chapter 9).
    pub fn dec(&self) -> u32
        ensures { result ≡ self.now.dec }
    {
        self.dec
    }

    /// Writes the register.
    pub fn set_dec(&mut self, value: u32)
        ensures { self.new ≡ record self.old { dec = value } }
    {
        self.dec = value;
    }

    /// What the decrementer is reloaded with (Power ISA 2.06, Book III-E, chapter 9).
    pub fn decar(&self) -> u32
        ensures { result ≡ self.now.decar }
    {
        self.decar
    }

    /// Writes the register.
    pub fn set_decar(&mut self, value: u32)
        ensures { self.new ≡ record self.old { decar = value } }
    {
        self.decar = value;
    }

    /// Where a return from interrupt goes (Power ISA 2.06, Book III-E, chapter 7).
    pub fn srr0(&self) -> u32
        ensures { result ≡ self.now.srr0 }
    {
        self.srr0
    }

    /// Writes the register.
    pub fn set_srr0(&mut self, value: u32)
        ensures { self.new ≡ record self.old { srr0 = value } }
    {
        self.srr0 = value;
    }

    /// The machine state that a return from interrupt restores (Power ISA 2.06, Book III-E, chapter 7).
    pub fn srr1(&self) -> u32
        ensures { result ≡ self.now.srr1 }
    {
        self.srr1
    }

    /// Writes the register.
    pub fn set_srr1(&mut self, value: u32)
        ensures { self.new ≡ record self.old { srr1 = value } }
    {
        self.srr1 = value;
    }

    /// The data address that an interrupt is about (Power ISA 2.06, Book III-E, chapter 7).
    pub fn dear(&self) -> u32
        ensures { result ≡ self.now.dear }
    {
        self.dear
    }

    /// Writes the register.
    pub fn set_dear(&mut self, value: u32)
        ensures { self.new ≡ record self.old { dear = value } }
    {
        self.dear = value;
    }

    /// What an exception was (Power ISA 2.06, Book III-E, chapter 7).
    pub fn esr(&self) -> u32
        ensures { result ≡ self.now.esr }
    {
        self.esr
    }

    /// Writes the register.
    pub fn set_esr(&mut self, value: u32)
        ensures { self.new ≡ record self.old { esr = value } }
    {
        self.esr = value;
    }

    /// The process of the translations in use (Power ISA 2.06, Book III-E, chapter 6).
    pub fn pid(&self) -> u16
        ensures value { result ≡ self.now.pid }
        ensures bound { result < 2 ^ 14 }
    {
        self.pid
    }

    /// Writes the bits 0x3FFF of the register.
    pub fn set_pid(&mut self, value: u32)
        ensures { self.new ≡ record self.old { pid = bit_and value pid_bits } }
    {
        self.pid = (value & 0x3FFF) as u16;
    }

    /// Where a return from critical interrupt goes (Power ISA 2.06, Book III-E, chapter 7).
    pub fn csrr0(&self) -> u32
        ensures { result ≡ self.now.csrr0 }
    {
        self.csrr0
    }

    /// Writes the register.
    pub fn set_csrr0(&mut self, value: u32)
        ensures { self.new ≡ record self.old { csrr0 = value } }
    {
        self.csrr0 = value;
    }

    /// The machine state that a return from critical interrupt restores (Power ISA 2.06, Book III-E, chapter 7).
    pub fn csrr1(&self) -> u32
        ensures { result ≡ self.now.csrr1 }
    {
        self.csrr1
    }

    /// Writes the register.
    pub fn set_csrr1(&mut self, value: u32)
        ensures { self.new ≡ record self.old { csrr1 = value } }
    {
        self.csrr1 = value;
    }

    /// Where a return from machine check interrupt goes (Power ISA 2.06, Book III-E, chapter 7).
    pub fn mcsrr0(&self) -> u32
        ensures { result ≡ self.now.mcsrr0 }
    {
        self.mcsrr0
    }

    /// Writes the register.
    pub fn set_mcsrr0(&mut self, value: u32)
        ensures { self.new ≡ record self.old { mcsrr0 = value } }
    {
        self.mcsrr0 = value;
    }

    /// The machine state that a return from machine check interrupt restores (Power ISA 2.06, Book III-E, chapter 7).
    pub fn mcsrr1(&self) -> u32
        ensures { result ≡ self.now.mcsrr1 }
    {
        self.mcsrr1
    }

    /// Writes the register.
    pub fn set_mcsrr1(&mut self, value: u32)
        ensures { self.new ≡ record self.old { mcsrr1 = value } }
    {
        self.mcsrr1 = value;
    }

    /// The upper half of the addresses of interrupt handlers (Power ISA 2.06, Book III-E, chapter 7).
    pub fn ivpr(&self) -> u32
        ensures { result ≡ self.now.ivpr }
    {
        self.ivpr
    }

    /// Writes the bits 0xFFFF_0000 of the register.
    pub fn set_ivpr(&mut self, value: u32)
        ensures { self.new ≡ record self.old { ivpr = bit_and value ivpr_bits } }
    {
        self.ivpr = value & 0xFFFF_0000;
    }

    /// What the timers have told (Power ISA 2.06, Book III-E, chapter 9).
    pub fn tsr(&self) -> u32
        ensures { result ≡ self.now.tsr }
    {
        self.tsr
    }

    /// Writes the register as it is to stand. `spr_write` clears the bits that a program writes as ones.
    pub fn set_tsr(&mut self, value: u32)
        ensures { self.new ≡ record self.old { tsr = value } }
    {
        self.tsr = value;
    }

    /// What the timers do (Power ISA 2.06, Book III-E, chapter 9).
    pub fn tcr(&self) -> u32
        ensures { result ≡ self.now.tcr }
    {
        self.tcr
    }

    /// Writes the register.
    pub fn set_tcr(&mut self, value: u32)
        ensures { self.new ≡ record self.old { tcr = value } }
    {
        self.tcr = value;
    }
}

/// The registers of translations and caches.
impl Regs {
    /// MMU assist register 0: which TLB and entry (Power ISA 2.06, Book III-E, chapter 6).
    pub fn mas0(&self) -> u32
        ensures { result ≡ self.now.mas0 }
    {
        self.mas0
    }

    /// Writes the register.
    pub fn set_mas0(&mut self, value: u32)
        ensures { self.new ≡ record self.old { mas0 = value } }
    {
        self.mas0 = value;
    }

    /// MMU assist register 1: whom a translation serves, and its size (Power ISA 2.06, Book III-E, chapter 6).
    pub fn mas1(&self) -> u32
        ensures { result ≡ self.now.mas1 }
    {
        self.mas1
    }

    /// Writes the register.
    pub fn set_mas1(&mut self, value: u32)
        ensures { self.new ≡ record self.old { mas1 = value } }
    {
        self.mas1 = value;
    }

    /// MMU assist register 2: the effective page and its attributes (Power ISA 2.06, Book III-E, chapter 6).
    pub fn mas2(&self) -> u32
        ensures { result ≡ self.now.mas2 }
    {
        self.mas2
    }

    /// Writes the register.
    pub fn set_mas2(&mut self, value: u32)
        ensures { self.new ≡ record self.old { mas2 = value } }
    {
        self.mas2 = value;
    }

    /// MMU assist register 3: the real page and its permissions (Power ISA 2.06, Book III-E, chapter 6).
    pub fn mas3(&self) -> u32
        ensures { result ≡ self.now.mas3 }
    {
        self.mas3
    }

    /// Writes the register.
    pub fn set_mas3(&mut self, value: u32)
        ensures { self.new ≡ record self.old { mas3 = value } }
    {
        self.mas3 = value;
    }

    /// MMU assist register 4: what a miss begins with (Power ISA 2.06, Book III-E, chapter 6).
    pub fn mas4(&self) -> u32
        ensures { result ≡ self.now.mas4 }
    {
        self.mas4
    }

    /// Writes the register.
    pub fn set_mas4(&mut self, value: u32)
        ensures { self.new ≡ record self.old { mas4 = value } }
    {
        self.mas4 = value;
    }

    /// MMU assist register 6: what a search looks for (Power ISA 2.06, Book III-E, chapter 6).
    pub fn mas6(&self) -> u32
        ensures { result ≡ self.now.mas6 }
    {
        self.mas6
    }

    /// Writes the register.
    pub fn set_mas6(&mut self, value: u32)
        ensures { self.new ≡ record self.old { mas6 = value } }
    {
        self.mas6 = value;
    }

    /// MMU assist register 7: the upper bits of the real page (Power ISA 2.06, Book III-E, chapter 6).
    pub fn mas7(&self) -> u32
        ensures value { result ≡ self.now.mas7 }
        ensures bound { result < 16 }
    {
        self.mas7
    }

    /// Writes the bits 0xF of the register.
    pub fn set_mas7(&mut self, value: u32)
        ensures { self.new ≡ record self.old { mas7 = bit_and value mas7_bits } }
    {
        self.mas7 = value & 0xF;
    }

    /// Hardware implementation register 0, which has no effect (e500mc).
    pub fn hid0(&self) -> u32
        ensures { result ≡ self.now.hid0 }
    {
        self.hid0
    }

    /// Writes the register.
    pub fn set_hid0(&mut self, value: u32)
        ensures { self.new ≡ record self.old { hid0 = value } }
    {
        self.hid0 = value;
    }

    /// The control of the data cache, whose request bits read 0 (e500mc).
    pub fn l1csr0(&self) -> u32
        ensures { result ≡ self.now.l1csr0 }
    {
        self.l1csr0
    }

    /// Writes the bits 0xFFFF_FEFD of the register.
    #[tactic(auto, using(crate::proofs::Masks::mask_twice))]
    pub fn set_l1csr0(&mut self, value: u32)
        ensures { self.new ≡ record self.old { l1csr0 = bit_and value l1csr0_bits } }
    {
        self.l1csr0 = value & 0xFFFF_FEFD;
    }

    /// The control of the instruction cache, whose request bits read 0 (e500mc).
    pub fn l1csr1(&self) -> u32
        ensures { result ≡ self.now.l1csr1 }
    {
        self.l1csr1
    }

    /// Writes the bits 0xFFFF_FEFD of the register.
    #[tactic(auto, using(crate::proofs::Masks::mask_twice))]
    pub fn set_l1csr1(&mut self, value: u32)
        ensures { self.new ≡ record self.old { l1csr1 = bit_and value l1csr1_bits } }
    {
        self.l1csr1 = value & 0xFFFF_FEFD;
    }

    /// The control of the branch unit, whose request bit reads 0 (e500mc).
    pub fn bucsr(&self) -> u32
        ensures { result ≡ self.now.bucsr }
    {
        self.bucsr
    }

    /// Writes the bits 0xFFFF_FDFF of the register.
    #[tactic(auto, using(crate::proofs::Masks::mask_twice))]
    pub fn set_bucsr(&mut self, value: u32)
        ensures { self.new ≡ record self.old { bucsr = bit_and value bucsr_bits } }
    {
        self.bucsr = value & 0xFFFF_FDFF;
    }
}
