//! Doorbells.

ghost use Rattle.std.specs.Prelude.{◌≡◌, ◌-◌, ◌^◌, ◌==◌, min, count_by};
ghost use Rattle.std.specs.List.{list_all};
ghost use Rattle.machine_desc.specs.Joined as spec;

use crate::desc::Desc;
use crate::handles::{is_named, names_receive, names_send};
use crate::wiring::{Bell, PortRef, Wiring};

/// Whether all name doorbells that are rung.
fn all_send(descs: &[Desc], refs: &[PortRef]) -> bool
    ensures { result ≡ list_all (spec.names_port spec.is_send descs.now) refs.now }
{
    refs.iter().all(|at| names_send(descs, at))
}

/// Whether all name doorbells that are heard.
fn all_receive(descs: &[Desc], refs: &[PortRef]) -> bool
    ensures { result ≡ list_all (spec.names_port spec.is_receive descs.now) refs.now }
{
    refs.iter().all(|at| names_receive(descs, at))
}

/// Whether the bell names nothing else.
fn is_bell_joined(descs: &[Desc], bell: &Bell) -> bool
    ensures { result ≡ spec.is_bell_joined descs.now bell.now }
{
    all_send(descs, bell.senders.as_slice()) && all_receive(descs, bell.receivers.as_slice())
}

/// Whether no bell names anything else.
fn all_joined(descs: &[Desc], bells: &[Bell]) -> bool
    ensures { result ≡ list_all (spec.is_bell_joined descs.now) bells.now }
{
    bells.iter().all(|bell| is_bell_joined(descs, bell))
}

/// Whether the bells are as they must be, but for what handles ask of them.
#[tactic(auto, unfolding(crate::specs::Joined::are_bells_joined))]
pub fn are_bells_joined(descs: &[Desc], wiring: &Wiring) -> bool
    ensures { result ≡ spec.are_bells_joined descs.now wiring.now }
{
    all_joined(descs, wiring.bells.as_slice())
}

/// How many of these name the handle.
fn count_in(part: usize, handle: usize, refs: &[PortRef]) -> usize
    ensures { result ≡ count_by (spec.same_ref (record { part = part; handle = handle })) refs.now }
{
    refs.iter().filter(|at| is_named(part, handle, at)).count()
}

/// How many senders the handle is, or as many as a number can say.
#[tactic(auto, unfolding(crate::specs::Joined::senders_at))]
fn senders_at(part: usize, handle: usize, bells: &[Bell]) -> usize
    ensures { result ≡ min (spec.senders_at (record { part = part; handle = handle }) bells.now) (2 ^ 64 - 1) }
{
    let mut count = 0usize;
    for bell in bells {
        count = count.saturating_add(count_in(part, handle, bell.senders.as_slice()));
    }
    count
}

/// How many receivers the handle is, or as many as a number can say.
#[tactic(auto, unfolding(crate::specs::Joined::receivers_at))]
fn receivers_at(part: usize, handle: usize, bells: &[Bell]) -> usize
    ensures { result ≡ min (spec.receivers_at (record { part = part; handle = handle }) bells.now) (2 ^ 64 - 1) }
{
    let mut count = 0usize;
    for bell in bells {
        count = count.saturating_add(count_in(part, handle, bell.receivers.as_slice()));
    }
    count
}

/// Whether the handle is one sender.
#[tactic(auto, using(crate::proofs::Ends::once))]
pub fn is_sender(part: usize, handle: usize, bells: &[Bell]) -> bool
    ensures { result ≡ (spec.senders_at (record { part = part; handle = handle }) bells.now == 1) }
{
    senders_at(part, handle, bells) == 1
}

/// Whether the handle is one receiver.
#[tactic(auto, using(crate::proofs::Ends::once))]
pub fn is_receiver(part: usize, handle: usize, bells: &[Bell]) -> bool
    ensures { result ≡ (spec.receivers_at (record { part = part; handle = handle }) bells.now == 1) }
{
    receivers_at(part, handle, bells) == 1
}
