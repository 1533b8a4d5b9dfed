//! The controller.

ghost use Rattle.std.specs.Prelude.{◌≡◌, ℕ, ◌^◌, ◌<◌, ◌≤◌, ◌==◌, true, None, Some, IfSome, length, slice_get, bit_and, if◌then◌else◌};
ghost use Rattle.vpic.specs.Numbers.{has};
ghost use Rattle.vpic.specs.Controller.{Controller, fresh, is_number, priority_of};
ghost use Rattle.vpic.specs.Choice.{chosen};
ghost use Rattle.vpic.specs.Calls.{taken, is_in_service, ended, may_configure, configured, with_mask, mask_of, may_set_task, with_task, rung};
ghost use Rattle.vpic.specs.Kept.{IsKept};
ghost use Rattle.vpic.specs.Search.{IsFloor, raised, ready, is_free, exceeds, better};

use crate::numbers::{has, next_in, with_number, without_number};
use crate::source::Source;
use arrayvec::ArrayVec;
use std::marker::Model;

/// The most interrupts that a controller has.
const MOST: usize = 128;

/// What each source begins with.
const START: Source = Source {
    config: 0,
    priority: 8,
    dest: 0,
};

/// The highest priority of a source and of a task.
const HIGHEST: u32 = 15;

/// The interrupt controller of a partition. Contracts see the record `Controller` of its definition.
///
/// `levels` has bit n set where the level of source n is up. A source is up by its level or by its latch, which
/// `ring` sets. `None` and `false` come where the caller's hypercall is answered by EINVAL, and from `line` and `iack`
/// where no source may be taken (ePAPR 1.1, chapter 7, interrupts).
#[derive(Debug, Drop)]
pub struct Vpic {
    sources: ArrayVec<Source, MOST>,
    task: u32,
    unmasked: u128,
    in_service: u128,
    latched: u128,
}

impl Model for Vpic {
    ghost use Rattle.vpic.specs.Controller.{Controller};
    ghost use Rattle.vpic.specs.Kept.{IsKept};

    ghost Value = { Controller };

    ghost view = { λ vpic. record {
      sources = vpic.sources.items;
      task = vpic.task;
      unmasked = vpic.unmasked;
      in_service = vpic.in_service;
      latched = vpic.latched;
    } };

    ghost invariant = { λ vpic. IsKept (record {
      sources = vpic.sources.items;
      task = vpic.task;
      unmasked = vpic.unmasked;
      in_service = vpic.in_service;
      latched = vpic.latched;
    }) };
}

/// What a controller keeps.
impl Vpic {
    /// Does nothing. Its contract tells layers above what a controller keeps at all times.
    pub fn is_kept(&self)
        ensures { IsKept self.now }
    {
        let _ = &self.sources;
    }
}

/// The calls of a guest.
impl Vpic {
    /// A controller of so many interrupts, at most 128, numbered from 0.
    #[tactic(auto, unfolding(crate::specs::Controller::fresh))]
    pub fn new(count: u8) -> Vpic
        requires { count ≤ 128 }
        ensures { result ≡ fresh count }
    {
        let mut sources = ArrayVec::new();
        for _ in 0..count {
            sources.push(START);
        }
        Vpic {
            sources,
            task: 0,
            unmasked: 0,
            in_service: 0,
            latched: 0,
        }
    }

    /// The interrupt that is chosen; the external line is up where there is one.
    pub fn line(&self, levels: u128) -> Option<u8>
        ensures number { result ≡ chosen self.now levels }
        ensures range { IfSome result (λ n. n < length self.now.sources) }
    {
        let ready = self.ready(levels);
        if ready == 0 {
            return None;
        }
        let floor = self.floor();
        let count = self.count();
        let mut best = None;
        let mut n = next_in(ready, 0, count);
        while n < count {
            best = self.better(ready, floor, best, n);
            n = next_in(ready, n + 1, count);
        }
        best
    }

    /// Whether every interrupt is masked, so that none is chosen whatever is up.
    #[tactic(auto, using(crate::proofs::Ready::masked_quiet))]
    pub fn are_all_masked(&self) -> bool
        ensures masked { result ≡ (self.now.unmasked == 0) }
        ensures quiet { result ≡ true → (levels : ℕ) → chosen self.now levels ≡ None }
    {
        self.unmasked == 0
    }

    /// The interrupts that aren't masked, as a set. Which one is chosen depends on their levels alone.
    pub fn unmasked(&self) -> u128
        ensures numbers { result ≡ self.now.unmasked }
        ensures alone { (levels : ℕ) → chosen self.now (bit_and levels self.now.unmasked) ≡ chosen self.now levels }
    {
        self.unmasked
    }

    /// Takes the interrupt that is chosen into service, and clears its latch.
    #[tactic(auto, unfolding(crate::specs::Calls::taken))]
    pub fn iack(&mut self, levels: u128) -> Option<u8>
        ensures number { result ≡ chosen self.old levels }
        ensures taken { self.new ≡ taken (chosen self.old levels) self.old }
        ensures range { IfSome result (λ n. n < length self.old.sources) }
    {
        let number = self.line(levels)?;
        self.take(number);
        Some(number)
    }

    /// Ends the service of an interrupt.
    #[tactic(auto, using(crate::proofs::Keeping::taken_keeps), unfolding(crate::specs::Calls::ended))]
    pub fn eoi(&mut self, n: u32) -> bool
        ensures done { result ≡ is_in_service self.old n }
        ensures after { self.new ≡ (if result then ended n self.old else self.old) }
    {
        if !self.is_in_service(n) {
            return false;
        }
        self.in_service = without_number(self.in_service, n as u8);
        true
    }

    /// Configures an interrupt.
    #[tactic(auto, unfolding(crate::specs::Calls::configured))]
    pub fn set_config(&mut self, n: u32, config: u32, priority: u32, dest: u32) -> bool
        ensures done { result ≡ may_configure self.old n config priority dest }
        ensures after { self.new ≡ (if result then configured n config priority dest self.old else self.old) }
    {
        if !self.is_number(n) || config > 3 || priority > HIGHEST || dest != 0 {
            return false;
        }
        self.sources[n as usize] = Source {
            config,
            priority,
            dest,
        };
        true
    }

    /// How an interrupt is configured.
    pub fn get_config(&self, n: u32) -> Option<Source>
        ensures { result ≡ slice_get self.now.sources n }
    {
        self.sources.get(n as usize).copied()
    }

    /// Masks an interrupt, or unmasks it by the mask 0.
    #[tactic(auto, using(crate::proofs::Keeping::put_keeps, crate::proofs::Keeping::taken_keeps), unfolding(crate::specs::Calls::with_mask))]
    pub fn set_mask(&mut self, n: u32, mask: u32) -> bool
        ensures done { result ≡ is_number self.old n }
        ensures after { self.new ≡ (if result then with_mask n mask self.old else self.old) }
    {
        if !self.is_number(n) {
            return false;
        }
        let number = n as u8;
        self.unmasked = if mask == 0 {
            with_number(self.unmasked, number)
        } else {
            without_number(self.unmasked, number)
        };
        true
    }

    /// Whether an interrupt is masked.
    pub fn get_mask(&self, n: u32) -> Option<bool>
        ensures { result ≡ mask_of self.now n }
    {
        if self.is_number(n) {
            Some(!has(self.unmasked, n as u8))
        } else {
            None
        }
    }

    /// Sets the priority that an interrupt has to exceed, at most 15.
    #[tactic(auto, unfolding(crate::specs::Calls::with_task))]
    pub fn set_task(&mut self, p: u32) -> bool
        ensures done { result ≡ may_set_task p }
        ensures after { self.new ≡ (if result then with_task p self.old else self.old) }
    {
        if p > HIGHEST {
            return false;
        }
        self.task = p;
        true
    }

    /// The priority that an interrupt has to exceed.
    pub fn task(&self) -> u32
        ensures { result ≡ self.now.task }
    {
        self.task
    }

    /// Sets the latch of an interrupt, which stays until it is taken.
    #[tactic(auto, using(crate::proofs::Keeping::put_keeps), unfolding(crate::specs::Calls::rung))]
    pub fn ring(&mut self, n: u8)
        requires { n < length self.old.sources }
        ensures { self.new ≡ rung n self.old }
    {
        self.latched = with_number(self.latched, n);
    }
}

/// How the chosen interrupt is sought.
impl Vpic {
    /// How many interrupts there are.
    fn count(&self) -> u8
        ensures count { result ≡ length self.now.sources }
        ensures limit { result ≤ 128 }
    {
        self.sources.len() as u8
    }

    /// Whether an interrupt has the number.
    fn is_number(&self, n: u32) -> bool
        ensures { result ≡ is_number self.now n }
    {
        n < self.sources.len() as u32
    }

    /// The interrupts in service, as a set.
    fn serving(&self) -> u128
        ensures { result ≡ self.now.in_service }
    {
        self.in_service
    }

    /// Whether a number is one in service.
    fn is_in_service(&self, n: u32) -> bool
        ensures { result ≡ is_in_service self.now n }
    {
        self.is_number(n) && has(self.in_service, n as u8)
    }

    /// The priority of an interrupt.
    fn priority(&self, n: u8) -> u32
        requires { n < length self.now.sources }
        ensures { result ≡ priority_of self.now n }
    {
        self.sources[n as usize].priority
    }

    /// Takes an interrupt into service.
    #[tactic(auto, using(crate::proofs::Keeping::put_keeps, crate::proofs::Keeping::taken_keeps), unfolding(crate::specs::Calls::taken))]
    fn take(&mut self, n: u8)
        requires { n < length self.old.sources }
        ensures { self.new ≡ taken (Some n) self.old }
    {
        self.in_service = with_number(self.in_service, n);
        self.latched = without_number(self.latched, n);
    }

    /// The higher of a priority and that of an interrupt, if it is in service.
    fn raised(&self, floor: u32, n: u8) -> u32
        requires { n < length self.now.sources }
        ensures { result ≡ raised self.now floor n }
    {
        if has(self.in_service, n) {
            floor.max(self.priority(n))
        } else {
            floor
        }
    }

    /// The highest priority that holds interrupts back.
    fn floor(&self) -> u32
        ensures { IsFloor self.now result }
    {
        let count = self.count();
        let serving = self.serving();
        let mut floor = self.task();
        let mut n = next_in(serving, 0, count);
        while n < count {
            floor = self.raised(floor, n);
            n = next_in(serving, n + 1, count);
        }
        floor
    }

    /// The interrupts that are up, not masked and not in service.
    #[tactic(auto, unfolding(crate::specs::Search::ready))]
    fn ready(&self, levels: u128) -> u128
        ensures ready { result ≡ ready self.now levels }
        ensures numbers { self.now.in_service < 2 ^ 128 }
        ensures few { length self.now.sources ≤ 128 }
    {
        (levels | self.latched) & self.unmasked & !self.in_service
    }

    /// Whether an interrupt is among those that are ready and above `floor`, the highest priority that holds
    /// interrupts back.
    fn is_free(&self, ready: u128, floor: u32, n: u8) -> bool
        requires floor { IsFloor self.now floor }
        requires number { n < length self.now.sources }
        ensures { result ≡ is_free self.now ready n }
    {
        let _ = &self.sources;
        has(ready, n) && floor < self.priority(n)
    }

    /// Whether a later interrupt comes before the best of those so far.
    fn exceeds(&self, best: Option<u8>, n: u8) -> bool
        requires best { IfSome best (λ b. b < length self.now.sources) }
        requires number { n < length self.now.sources }
        ensures { result ≡ exceeds self.now best n }
    {
        match best {
            Some(best) => self.priority(best) < self.priority(n),
            None => true,
        }
    }

    /// The best of the interrupts so far and one more.
    #[tactic(auto, unfolding(crate::specs::Search::better))]
    fn better(&self, ready: u128, floor: u32, best: Option<u8>, n: u8) -> Option<u8>
        requires floor { IsFloor self.now floor }
        requires best { IfSome best (λ b. b < length self.now.sources) }
        requires number { n < length self.now.sources }
        ensures number { result ≡ better self.now ready best n }
        ensures range { IfSome result (λ b. b < length self.now.sources) }
    {
        if self.is_free(ready, floor, n) && self.exceeds(best, n) {
            Some(n)
        } else {
            best
        }
    }
}
