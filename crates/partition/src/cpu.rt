//! One core of a partition: its step.

ghost use Rattle.std.specs.Prelude.{◌≡◌, ℕ, ◌+◌, ◌%◌, ◌≤◌, List, [], None, IfOk, IsTrue, if◌then◌else◌};
ghost use Rattle.ground.specs.Own.{own_of};
ghost use Rattle.guest_regs.specs.Registers.{gpr_of};
ghost use Rattle.core_step.specs.Access.{SameSizes};
ghost use Rattle.core_step.specs.Step as core;
ghost use Rattle.trap_emulate.specs.Entry.{may_enter};
ghost use Rattle.machine_desc.specs.Sound.{IsSound};
ghost use Rattle.vpic.specs.Controller.{Controller};
ghost use Rattle.fresh_load.specs.Placed.{ArePlaced, extents_of};
ghost use Rattle.hcall_abi.specs.Call.{call_of};
ghost use Rattle.hcall_abi.specs.Reply.{reply_of};
ghost use Rattle.copy_lists.specs.Pieces.{sources_of, targets_of};
ghost use Rattle.partition.specs.Regions.{areas_of};
ghost use Rattle.partition.specs.Found.{lookup_in};
ghost use Rattle.partition.specs.Port.{kinds_of};
ghost use Rattle.partition.specs.Act as spec_act;
ghost use Rattle.partition.specs.Act.{act_of};
ghost use Rattle.partition.specs.Interrupts.{granted, levels};
ghost use Rattle.partition.specs.Machine.{booted, shape_of};
ghost use Rattle.partition.specs.Reservations.{with_kept, with_copied};
ghost use Rattle.partition.specs.Step as spec;
ghost use Rattle.partition.specs.Copying.{asked_copy, copy};
ghost use Rattle.partition.specs.Asking.{asked_by, with_total, copy_done, copy_in, copy_next};
ghost use Rattle.partition.specs.Lending.{AreTold, IsCoreStepped, IsLent, KeepsOthers, pieces_of};

use crate::acts::{Acts, shared_ranges};
use crate::channels::{poll, receive, refusal, send};
use crate::clock::{begin, is_entered, pending};
use crate::copier::Copier;
use crate::found::{Found, View, find};
use crate::interrupts::{
    acknowledge, doorbell_send, end_of_interrupt, get_config, get_mask, get_task_priority,
    is_line_up, set_config, set_mask, set_task_priority,
};
use crate::managing::{get_status, restart, start, stop};
use crate::ports::Ports;
use crate::reservations::{is_copied_to, is_stored_to};
use crate::served::Served;
use arrayvec::ArrayVec;
use copy_lists::{SgEntry, is_to_managed};
use core_step::{Core, Hw, Wrote};
use ground::Ground;
use guest_regs::{boot, order_syndrome, store_syndrome};
use guest_tlb::GuestTlb;
use hcall_abi::{Call, Reply, Status, set_reply};
use insn::Insn;
use machine_desc::{Act, Desc, Region};
use outside::NoMemory;
use std::alloc::Global;
use std::marker::Model;
use trap_emulate::{Cause, Mmu, deliver, emulate, may_enter};
use vpic::Vpic;

/// A core with its translations. Contracts see the record `Cpu` of the machine's definition.
#[derive(Drop)]
pub struct Cpu {
    core: Core,
    mmu: Mmu,
}

impl Model for Cpu {
    ghost use Rattle.partition.specs.Machine.{Cpu};

    ghost Value = { Cpu };

    ghost view = { λ cpu. record {
      registers = cpu.core.registers;
      translations = cpu.mmu.tlb;
      next_victim = cpu.mmu.nv;
    } };
}

impl Cpu {
    /// The core as its program starts, with the initial area alone translated. Fails only where memory runs out.
    #[tactic(auto, unfolding(crate::specs::Machine::booted))]
    pub fn booted(alloc: Global, entry: u32, tree_at: u32, number: u32) -> Result<Cpu, NoMemory>
        requires { entry % 4 ≡ 0 }
        ensures { IfOk result (λ cpu. cpu ≡ booted entry tree_at number) }
    {
        Ok(Cpu {
            core: Core::new(boot(entry, tree_at, number)),
            mmu: Mmu {
                tlb: GuestTlb::new(alloc)?,
                nv: 0,
            },
        })
    }

    /// The core begins as `booted` makes it. Takes no memory.
    #[tactic(auto, unfolding(crate::specs::Machine::booted))]
    pub fn reboot(&mut self, entry: u32, tree_at: u32, number: u32)
        requires { entry % 4 ≡ 0 }
        ensures { self.new ≡ booted entry tree_at number }
    {
        *self.core.regs_mut() = boot(entry, tree_at, number);
        self.mmu.tlb.reset();
        self.mmu.nv = 0;
    }

    /// Another partition stored in these ranges of shared extents, which ends a reservation of theirs.
    pub fn written(&mut self, regions: &[Region], stored: &[Wrote])
        ensures { self.new ≡ with_kept regions.now stored.now self.old }
    {
        if let Some(granule) = self.core.regs().reserved() {
            if is_stored_to(regions, stored, granule) {
                self.core.regs_mut().set_reserved(None);
            }
        }
    }

    /// A copy by these entries wrote into the partition's memory, which ends a reservation of what was written.
    pub fn copied(&mut self, entries: &[SgEntry])
        ensures { self.new ≡ with_copied (targets_of entries.now) self.old }
    {
        if let Some(granule) = self.core.regs().reserved() {
            if is_copied_to(entries, granule) {
                self.core.regs_mut().set_reserved(None);
            }
        }
    }

    /// The core that does its instructions.
    pub fn core(&self) -> &Core
        ensures { result.now.registers ≡ self.now.registers }
    {
        &self.core
    }

    /// Does one step: its time passes, and it enters an interrupt, waits, or does an instruction.
    #[tactic(auto)]
    pub fn step<P: Ports>(
        &mut self,
        desc: &Desc,
        copier: &mut Copier,
        vpic: &mut Vpic,
        ground: &mut Ground,
        ports: &mut P,
    ) -> Acts
        requires sound { IsSound desc.now }
        requires map { copier.old.map ≡ desc.now.regions }
        requires placed { ArePlaced ground.old desc.now.regions }
        requires kinds { P.kinds ports.old ≡ kinds_of desc.now.ports }
        requires told { AreTold (P.told ports.old) desc.now ground.old }
        ensures map { copier.new.map ≡ copier.old.map }
        ensures stepped { let asked = asked_by desc.now.ports (copy_next (shape_of desc.now) self.old vpic.old (P.seen ports.old) (own_of (extents_of desc.now.regions) ground.old)) in
            IsCoreStepped (extents_of desc.now.regions) (pieces_of desc.now.regions ground.new (P.last ports.new))
            (spec.core_step (shape_of desc.now) self.old vpic.old (P.seen ports.old) (own_of (extents_of desc.now.regions) ground.old)
            (P.feed ports.old ground.old asked.handle asked.ranges))
            self.new vpic.new ground.new result.act result.shared.items }
        ensures others { KeepsOthers (P.told ports.old) desc.now.regions (P.last ports.new) result.act ground.old ground.new }
        ensures sizes { SameSizes ground.old ground.new }
        ensures lent { IsLent P.kinds P.seen P.sends P.takes P.copies P.told P.last
            (copy_next (shape_of desc.now) self.old vpic.old (P.seen ports.old) (own_of (extents_of desc.now.regions) ground.old))
            ground.old result.act ports.old ports.new }
    {
        let line = is_line_up(desc, vpic, ports);
        self.begin(line);
        self.act(line, desc, copier, vpic, ground, ports)
    }

    /// Lets the step's time pass.
    #[tactic(auto, unfolding(crate::specs::Step::begun))]
    fn begin(&mut self, line: bool)
        ensures { self.new ≡ spec.begun line self.old }
    {
        begin(line, self.core.regs_mut());
    }

    /// Does what the step is for, after its time has passed.
    #[tactic(auto, unfolding(crate::specs::Step::acted))]
    fn act<P: Ports>(
        &mut self,
        line: bool,
        desc: &Desc,
        copier: &mut Copier,
        vpic: &mut Vpic,
        ground: &mut Ground,
        ports: &mut P,
    ) -> Acts
        requires sound { IsSound desc.now }
        requires map { copier.old.map ≡ desc.now.regions }
        requires placed { ArePlaced ground.old desc.now.regions }
        requires kinds { P.kinds ports.old ≡ kinds_of desc.now.ports }
        requires told { AreTold (P.told ports.old) desc.now ground.old }
        ensures map { copier.new.map ≡ copier.old.map }
        ensures acted { let asked = asked_by desc.now.ports (copy_in (shape_of desc.now) line self.old (own_of (extents_of desc.now.regions) ground.old)) in
            IsCoreStepped (extents_of desc.now.regions) (pieces_of desc.now.regions ground.new (P.last ports.new))
            (spec.acted (shape_of desc.now) line self.old vpic.old (P.seen ports.old) (own_of (extents_of desc.now.regions) ground.old)
            (P.feed ports.old ground.old asked.handle asked.ranges))
            self.new vpic.new ground.new result.act result.shared.items }
        ensures others { KeepsOthers (P.told ports.old) desc.now.regions (P.last ports.new) result.act ground.old ground.new }
        ensures sizes { SameSizes ground.old ground.new }
        ensures lent { IsLent P.kinds P.seen P.sends P.takes P.copies P.told P.last
            (copy_in (shape_of desc.now) line self.old (own_of (extents_of desc.now.regions) ground.old))
            ground.old result.act ports.old ports.new }
    {
        if is_entered(line, self.core.regs()) {
            self.enter(pending(line));
            return only(Act::None);
        }
        if self.core.regs().idle() {
            return only(Act::None);
        }
        self.instruct(desc, copier, vpic, ground, ports)
    }

    /// Does an instruction, and what comes of it.
    fn instruct<P: Ports>(
        &mut self,
        desc: &Desc,
        copier: &mut Copier,
        vpic: &mut Vpic,
        ground: &mut Ground,
        ports: &mut P,
    ) -> Acts
        requires sound { IsSound desc.now }
        requires map { copier.old.map ≡ desc.now.regions }
        requires placed { ArePlaced ground.old desc.now.regions }
        requires kinds { P.kinds ports.old ≡ kinds_of desc.now.ports }
        requires told { AreTold (P.told ports.old) desc.now ground.old }
        ensures map { copier.new.map ≡ copier.old.map }
        ensures done { let asked = asked_by desc.now.ports (copy_done (shape_of desc.now) self.old (own_of (extents_of desc.now.regions) ground.old)) in
            IsCoreStepped (extents_of desc.now.regions) (pieces_of desc.now.regions ground.new (P.last ports.new))
            (spec.instruction (shape_of desc.now) self.old vpic.old (P.seen ports.old) (own_of (extents_of desc.now.regions) ground.old)
            (P.feed ports.old ground.old asked.handle asked.ranges))
            self.new vpic.new ground.new result.act result.shared.items }
        ensures others { KeepsOthers (P.told ports.old) desc.now.regions (P.last ports.new) result.act ground.old ground.new }
        ensures sizes { SameSizes ground.old ground.new }
        ensures lent { IsLent P.kinds P.seen P.sends P.takes P.copies P.told P.last
            (copy_done (shape_of desc.now) self.old (own_of (extents_of desc.now.regions) ground.old))
            ground.old result.act ports.old ports.new }
    {
        let answer = self.execute(desc, ground);
        if self.asks_copy(&answer) {
            return only(self.copy(desc, copier, ground, ports));
        }
        let shared = shared_ranges(desc.regions.as_slice(), &answer);
        let act = self.handle(desc, answer, vpic, ports);
        Acts { act, shared }
    }

    /// Whether the instruction's answer is a hypercall that asks to copy memory.
    fn asks_copy(&self, answer: &Hw) -> bool
        ensures { result ≡ spec.asks_copy (core.answered answer.now) self.now.registers }
    {
        match answer {
            Hw::Hcall => matches!(Call::of(self.core.regs()), Call::Memcpy),
            _ => false,
        }
    }

    /// Does the copy that the registers ask for. What comes out of a managed partition ends the core's reservation of the
    /// bytes that it goes to.
    fn copy<P: Ports>(
        &mut self,
        desc: &Desc,
        copier: &mut Copier,
        ground: &mut Ground,
        ports: &mut P,
    ) -> Act
        requires sound { IsSound desc.now }
        requires map { copier.old.map ≡ desc.now.regions }
        requires placed { ArePlaced ground.old desc.now.regions }
        requires kinds { P.kinds ports.old ≡ kinds_of desc.now.ports }
        requires told { AreTold (P.told ports.old) desc.now ground.old }
        ensures map { copier.new.map ≡ copier.old.map }
        ensures copied { let it = asked_copy (shape_of desc.now) self.old.registers (own_of (extents_of desc.now.regions) ground.old) in
            (interrupts : Controller) → IsCoreStepped (extents_of desc.now.regions) (pieces_of desc.now.regions ground.new (P.last ports.new))
            (spec.copying (shape_of desc.now) (copy (shape_of desc.now) self.old.registers (own_of (extents_of desc.now.regions) ground.old)) it
            (P.feed ports.old ground.old it.handle (sources_of it.entries)) self.old interrupts (own_of (extents_of desc.now.regions) ground.old))
            self.new interrupts ground.new result [] }
        ensures others { KeepsOthers (P.told ports.old) desc.now.regions (P.last ports.new) result ground.old ground.new }
        ensures sizes { SameSizes ground.old ground.new }
        ensures lent { let it = asked_copy (shape_of desc.now) self.old.registers (own_of (extents_of desc.now.regions) ground.old) in
            IsLent P.kinds P.seen P.sends P.takes P.copies P.told P.last (with_total it) ground.old result ports.old ports.new }
    {
        let to_managed = is_to_managed(self.core.regs());
        let served = copier.copy(desc, self.core.regs(), ground, ports);
        self.lose_copied(to_managed, copier);
        self.answer(served)
    }

    /// A reservation is lost where a copy out of a managed partition wrote.
    #[tactic(auto, using(crate::proofs::Copies::nothing_copied))]
    fn lose_copied(&mut self, to_managed: bool, copier: &Copier)
        ensures { self.new ≡ with_copied (if to_managed then [] else targets_of copier.now.list) self.old }
    {
        if !to_managed {
            self.copied(copier.entries());
        }
    }

    /// Does as much of an instruction as is the core's.
    fn execute(&mut self, desc: &Desc, ground: &mut Ground) -> Hw
        requires sound { IsSound desc.now }
        requires placed { ArePlaced ground.old desc.now.regions }
        ensures done { core.stepped (lookup_in (extents_of desc.now.regions) (areas_of desc.now.regions) self.old.translations) self.old.registers ground.old
            ≡ record { answer = core.answered result; registers = self.new.registers; memory = ground.new } }
        ensures kept { core.KeepsUnlessDone (core.answered result) self.old.registers self.new.registers ground.old ground.new }
        ensures others { self.new ≡ record self.old { registers = self.new.registers } }
        ensures sizes { SameSizes ground.old ground.new }
    {
        // What the slots keep: so each block that the core finds lies in the memory.
        self.mmu.tlb.are_kept();
        let mmu = &self.mmu;
        let view = View {
            tlb: &mmu.tlb,
            regions: desc.regions.as_slice(),
        };
        self.core.step(&view, ground)
    }

    /// Does what the instruction's answer asks for.
    #[tactic(auto, unfolding(crate::specs::Step::handled))]
    fn handle<P: Ports>(&mut self, desc: &Desc, answer: Hw, vpic: &mut Vpic, ports: &mut P) -> Act
        requires sound { IsSound desc.now }
        requires kinds { P.kinds ports.old ≡ kinds_of desc.now.ports }
        ensures handled { spec.handled (shape_of desc.now) (core.answered answer) self.old vpic.old (P.seen ports.old)
            ≡ record { cpu = self.new; interrupts = vpic.new; act = act_of [] result } }
        ensures lent { (memory : List (List ℕ)) → IsLent P.kinds P.seen P.sends P.takes P.copies P.told P.last None memory result ports.old ports.new }
    {
        match answer {
            Hw::Retired(_) | Hw::Waiting => Act::None,
            Hw::Sc => self.enter(Cause::Syscall),
            Hw::Hcall => self.serve(desc, vpic, ports),
            Hw::Priv(insn) => self.do_privileged(insn),
            Hw::MissData { ea, store } => {
                let space = self.core.regs().data_space();
                if self.miss(desc, Cause::MissData { ea, store }, space, ea) {
                    Act::None
                } else {
                    Act::Faulted
                }
            }
            Hw::MissInsn { ea } => {
                let space = self.core.regs().instruction_space();
                if self.miss(desc, Cause::MissInsn { ea }, space, ea) {
                    Act::None
                } else {
                    Act::Faulted
                }
            }
            Hw::StorageData { ea, store, little } => {
                let esr = store_syndrome(store) + order_syndrome(little);
                self.enter(Cause::StorageData { ea, esr })
            }
            Hw::StorageInsn { little } => self.enter(Cause::StorageInsn {
                esr: order_syndrome(little),
            }),
            Hw::Align { ea, store } => self.enter(Cause::Align {
                ea,
                esr: store_syndrome(store),
            }),
            Hw::Program(esr) => self.enter(Cause::Program { esr }),
            Hw::NoFloat => self.enter(Cause::NoFloat),
        }
    }

    /// Enters an interrupt.
    fn enter(&mut self, cause: Cause) -> Act
        requires { IsTrue (may_enter cause self.old.registers) }
        ensures entered { self.new ≡ spec.entered cause self.old }
        ensures quiet { result ≡ Act.None }
    {
        deliver(self.core.regs_mut(), &mut self.mmu, cause);
        Act::None
    }

    /// Takes a machine check, and says whether the partition runs on.
    #[tactic(auto, unfolding(crate::specs::Step::checked))]
    fn check(&mut self) -> bool
        ensures { (interrupts : Controller) → spec.checked self.old interrupts
            ≡ record { cpu = self.new; interrupts = interrupts; act = if result then spec_act.Nothing else spec_act.Faulted } }
    {
        if may_enter(self.core.regs(), Cause::MachineCheck) {
            self.enter(Cause::MachineCheck);
            return true;
        }
        false
    }

    /// Deals with an access that found no memory; the cause is its TLB error. Says whether the partition runs on.
    fn miss(&mut self, desc: &Desc, cause: Cause, space: bool, ea: u32) -> bool
        requires entered { IsTrue (may_enter cause self.old.registers) }
        ensures { (interrupts : Controller) → spec.missed cause (spec.found_for (areas_of desc.now.regions) self.old space ea) self.old interrupts
            ≡ record { cpu = self.new; interrupts = interrupts; act = if result then spec_act.Nothing else spec_act.Faulted } }
    {
        let pid = self.core.regs().pid();
        match find(&self.mmu.tlb, desc.regions.as_slice(), space, pid, ea) {
            Found::Missing => {
                self.enter(cause);
                true
            }
            Found::Unbacked | Found::Backed(_) => self.check(),
        }
    }

    /// Does a privileged instruction for the system.
    #[tactic(auto, unfolding(crate::specs::Step::privileged))]
    fn do_privileged(&mut self, insn: Insn) -> Act
        ensures done { self.new ≡ spec.privileged insn self.old }
        ensures quiet { result ≡ Act.None }
    {
        emulate(&insn, self.core.regs_mut(), &mut self.mmu);
        Act::None
    }

    /// Does the hypercall that r11 asks for.
    #[tactic(auto, using(crate::proofs::Lent::bell_lent), unfolding(crate::specs::Step::served))]
    fn serve<P: Ports>(&mut self, desc: &Desc, vpic: &mut Vpic, ports: &mut P) -> Act
        requires sound { IsSound desc.now }
        requires kinds { P.kinds ports.old ≡ kinds_of desc.now.ports }
        ensures served { let asked = call_of (gpr_of self.old.registers 11) in
            spec.served desc.now.ports asked self.old vpic.old (P.seen ports.old) ≡ record { cpu = self.new; interrupts = vpic.new; act = act_of [] result } }
        ensures lent { (memory : List (List ℕ)) → IsLent P.kinds P.seen P.sends P.takes P.copies P.told P.last None memory result ports.old ports.new }
    {
        let handles = desc.ports.as_slice();
        match Call::of(self.core.regs()) {
            Call::Send => {
                let served = send(handles, self.core.regs(), ports);
                self.answer(served)
            }
            Call::Receive => {
                let served = receive(handles, self.core.regs(), ports);
                self.answer(served)
            }
            Call::Poll => {
                let served = poll(handles, self.core.regs(), ports);
                self.answer(served)
            }
            Call::DoorbellSend => {
                let served = doorbell_send(handles, self.core.regs());
                self.answer(served)
            }
            Call::Idle => self.wait(),
            call => self.manage(call, desc, vpic, ports),
        }
    }

    /// Does a call for partitions and their managers.
    #[tactic(auto, using(crate::proofs::Lent::bell_lent), unfolding(crate::specs::Step::managed))]
    fn manage<P: Ports>(&mut self, call: Call, desc: &Desc, vpic: &mut Vpic, ports: &P) -> Act
        requires sound { IsSound desc.now }
        requires kinds { P.kinds ports.now ≡ kinds_of desc.now.ports }
        ensures managed { spec.managed desc.now.ports call self.old vpic.old (P.seen ports.now)
            ≡ record { cpu = self.new; interrupts = vpic.new; act = act_of [] result } }
        ensures lent { (memory : List (List ℕ)) → IsLent P.kinds P.seen P.sends P.takes P.copies P.told P.last None memory result ports.now ports.now }
    {
        match call {
            Call::Start => {
                let served = start(desc, self.core.regs(), ports);
                self.answer(served)
            }
            Call::Stop => {
                let served = stop(desc, self.core.regs(), ports);
                self.obey(served)
            }
            Call::Restart => {
                let served = restart(desc, self.core.regs(), ports);
                self.obey(served)
            }
            Call::GetStatus => {
                let served = get_status(desc, self.core.regs(), ports);
                self.answer(served)
            }
            _ => self.rule(call, desc, vpic, ports),
        }
    }

    /// Answers the caller, unless it ended its own run: then it hears no reply.
    fn obey(&mut self, served: Served) -> Act
        ensures obeyed { (interrupts : Controller) → spec.obeying (record { reply = reply_of served.reply; act = act_of [] served.act }) self.old interrupts
            ≡ record { cpu = self.new; interrupts = interrupts; act = act_of [] result } }
        ensures act { result ≡ served.act }
    {
        match &served.act {
            Act::SelfStop => self.go_on(Act::SelfStop),
            Act::SelfRestart => self.go_on(Act::SelfRestart),
            _ => self.answer(served),
        }
    }

    /// Lets the core stand behind its `sc`.
    fn go_on(&mut self, act: Act) -> Act
        ensures gone { self.new ≡ spec.gone_on self.old }
        ensures act { result ≡ act }
    {
        self.core.regs_mut().advance();
        act
    }

    /// Does a call of the interrupt controller. A token that has no service is refused.
    #[tactic(auto, unfolding(crate::specs::Step::ruled))]
    fn rule<P: Ports>(&mut self, call: Call, desc: &Desc, vpic: &mut Vpic, ports: &P) -> Act
        requires sound { IsSound desc.now }
        requires kinds { P.kinds ports.now ≡ kinds_of desc.now.ports }
        ensures ruled { spec.ruled call (levels desc.now.ports (P.seen ports.now)) self.old vpic.old
            ≡ record { cpu = self.new; interrupts = vpic.new; act = act_of [] result } }
        ensures lent { (memory : List (List ℕ)) → IsLent P.kinds P.seen P.sends P.takes P.copies P.told P.last None memory result ports.now ports.now }
    {
        let regs = self.core.regs();
        let reply = match call {
            Call::SetConfig => set_config(vpic, regs),
            Call::GetConfig => get_config(vpic, regs),
            Call::SetMask => set_mask(vpic, regs),
            Call::GetMask => get_mask(vpic, regs),
            Call::Iack => acknowledge(vpic, desc, ports),
            Call::Eoi => end_of_interrupt(vpic, regs),
            Call::SetTaskPriority => set_task_priority(vpic, regs),
            Call::GetTaskPriority => get_task_priority(vpic),
            _ => return self.answer(refusal(Status::Unimplemented)),
        };
        self.answer(Served {
            reply,
            act: Act::None,
        })
    }

    /// Lets the core wait for an interrupt.
    fn wait(&mut self) -> Act
        ensures waiting { self.new ≡ spec.answered (granted).reply (spec.waiting self.old) }
        ensures quiet { result ≡ Act.None }
    {
        self.core.regs_mut().set_idle(true);
        self.answer(Served {
            reply: Reply::new(Status::Success),
            act: Act::None,
        })
    }

    /// Gives the caller its reply, and lets it go on after its `sc`.
    #[tactic(auto, unfolding(crate::specs::Step::answered))]
    fn answer(&mut self, served: Served) -> Act
        ensures answered { self.new ≡ spec.answered (reply_of served.reply) self.old }
        ensures act { result ≡ served.act }
    {
        let Served { reply, act } = served;
        set_reply(self.core.regs_mut(), &reply);
        self.core.regs_mut().advance();
        act
    }
}

/// A step that wrote nothing into shared regions.
fn only(act: Act) -> Acts
    ensures act { result.act ≡ act }
    ensures shared { result.shared.items ≡ [] }
{
    Acts {
        act,
        shared: ArrayVec::new(),
    }
}
