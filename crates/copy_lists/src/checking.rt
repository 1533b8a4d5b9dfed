//! Whether a copy goes, or by which status it is refused.

ghost use Rattle.std.specs.Prelude.{◌≡◌, nat_lt};
ghost use Rattle.machine_desc.specs.Private.{is_private_range};
ghost use Rattle.machine_desc.specs.Sound.{IsSound};
ghost use Rattle.fresh_load.specs.Placed.{ArePlaced};
ghost use Rattle.partition_manager.specs.declared.decision.Decision.TheVariants.{Go};
ghost use Rattle.partition_manager.specs.Decisions.{refused};
ghost use Rattle.copy_lists.specs.Lists as spec;
ghost use Rattle.copy_lists.specs.Spans.{is_in_spans};
ghost use Rattle.copy_lists.specs.Moving.{byte_in};

use crate::asked::{
    is_copy_asked, is_to_managed, list_address, list_count, managed_handle, managed_spans,
};
use crate::list::{SgEntry, SgList, total};
use crate::reading::{ENTRY_SIZE, read_entries};
use crate::spans::is_in_spans;
use ground::Ground;
use guest_regs::Regs;
use hcall_abi::Status;
use machine_desc::{Desc, Span};
use memory_areas::AreaMap;
use partition_manager::Decision;

/// How many bytes the entries of a list copy together at most: a MiB.
const MOST_BYTES: u64 = 1_048_576;

/// Tells the caller this status.
fn refused(status: Status) -> Decision
    ensures { result ≡ refused status }
{
    Decision::Refuse(status.code())
}

/// Whether they copy more bytes than a list may.
#[tactic(auto, using(crate::proofs::Places::over))]
fn are_too_many(entries: &[SgEntry]) -> bool
    ensures { result ≡ nat_lt spec.most_bytes (spec.total entries.now) }
{
    total(entries) > MOST_BYTES
}

/// Whether the entry copies private bytes to private ones, those of the caller by its map and those of the managed
/// partition by its spans.
fn is_entry_private(map: &AreaMap, spans: &[Span], to_managed: bool, entry: &SgEntry) -> bool
    ensures { result ≡ spec.is_entry_private
        (spec.source_private to_managed (is_private_range map.now) (is_in_spans spans.now))
        (spec.target_private to_managed (is_private_range map.now) (is_in_spans spans.now)) entry.now }
{
    let size = entry.size;
    if size == 0 {
        true
    } else if to_managed {
        map.is_private(entry.source, size) && is_in_spans(spans, entry.target, size)
    } else {
        is_in_spans(spans, entry.source, size) && map.is_private(entry.target, size)
    }
}

/// Whether each of the entries does.
#[tactic(auto, unfolding(crate::specs::Lists::are_entries_private))]
fn are_entries_private(map: &AreaMap, spans: &[Span], to_managed: bool, entries: &[SgEntry]) -> bool
    ensures { result ≡ spec.are_entries_private to_managed (is_private_range map.now) (is_in_spans spans.now) entries.now }
{
    entries
        .iter()
        .all(|entry| is_entry_private(map, spans, to_managed, entry))
}

/// Whether the entries that were read are copied: EINVAL where they are too many bytes, and then EFAULT where one of them
/// isn't private.
fn decide_entries(entries: &[SgEntry], desc: &Desc, map: &AreaMap, regs: &Regs) -> Decision
    ensures { result ≡ spec.entries_decision (spec.is_to_managed regs.now) (is_private_range map.now)
        (is_in_spans (spec.managed_spans desc.now.ports (spec.managed_handle regs.now))) entries.now }
{
    if are_too_many(entries) {
        return refused(Status::InvalidArgument);
    }
    let spans = managed_spans(desc.ports.as_slice(), managed_handle(regs));
    if !are_entries_private(map, spans, is_to_managed(regs), entries) {
        return refused(Status::Fault);
    }
    Decision::Go
}

/// Reads the list, where the registers name one, and decides.
#[tactic(auto, unfolding(crate::specs::Lists::copy_decision))]
fn read_and_decide(
    list: &mut SgList,
    desc: &Desc,
    map: &AreaMap,
    ground: &Ground,
    regs: &Regs,
) -> Decision
    requires sound { IsSound desc.now }
    requires map { map.now ≡ desc.now.regions }
    requires placed { ArePlaced ground.now map.now }
    ensures decision { result ≡ spec.copy_decision desc.now.ports regs.now (is_private_range map.now)
        (is_in_spans (spec.managed_spans desc.now.ports (spec.managed_handle regs.now))) (byte_in map.now ground.now) }
    ensures read { result ≡ Go → list.new ≡ spec.asked_entries regs.now (byte_in map.now ground.now) }
{
    if !is_copy_asked(desc.ports.as_slice(), regs) {
        return refused(Status::InvalidArgument);
    }
    let at = list_address(regs);
    let count = list_count(regs);
    if !map.is_private(at, ENTRY_SIZE * u64::from(count)) {
        return refused(Status::Fault);
    }
    read_entries(list, map, ground, at, count);
    decide_entries(list.as_slice(), desc, map, regs)
}

/// Whether the caller, whose description, memory and registers these are, may copy by the list that the registers name,
/// and the list's entries: r3 has the handle of the source and r4 that of the target, r5 the low and r6 the high half of
/// the logical address of the list, and r7 the number of its entries. An entry has 32 bytes: the source address, the target
/// address and the size in bytes, each of eight bytes with the most significant first, and eight that aren't looked at.
///
/// EINVAL unless exactly one handle is SELF, the other is one of a managed partition, and there are 1,024 entries at most;
/// then EFAULT where a byte of the list isn't private to the caller; then EINVAL where the entries copy more than a MiB
/// together; then EFAULT where an entry that copies bytes reads or writes one that isn't private to its partition. After a
/// refusal the list is empty.
pub fn sg_check(
    list: &mut SgList,
    desc: &Desc,
    map: &AreaMap,
    ground: &Ground,
    regs: &Regs,
) -> Decision
    requires sound { IsSound desc.now }
    requires map { map.now ≡ desc.now.regions }
    requires placed { ArePlaced ground.now desc.now.regions }
    ensures decision { result ≡ spec.copy_decision desc.now.ports regs.now (is_private_range desc.now.regions)
        (is_in_spans (spec.managed_spans desc.now.ports (spec.managed_handle regs.now))) (byte_in desc.now.regions ground.now) }
    ensures entries { list.new ≡ spec.decided_entries result (spec.asked_entries regs.now (byte_in desc.now.regions ground.now)) }
{
    let decision = read_and_decide(list, desc, map, ground, regs);
    if matches!(decision, Decision::Refuse(_)) {
        list.clear();
    }
    decision
}
