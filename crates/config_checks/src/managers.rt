//! C21 and C22: handles that manage a partition.

ghost use Rattle.std.specs.Prelude.{◌≡◌, [], find};
ghost use Rattle.std.specs.List.{list_any};
ghost use Rattle.std.specs.Option.{option_copied};
ghost use Rattle.config_checks.specs.Managers as spec;
ghost use Rattle.config_checks.specs.First.{first_from};

use crate::spot::{Spot, handle_spot};
use hv_config::{HandleDef, Kind, PartDef};

/// Whether it is the kind that manages.
fn is_manage(kind: Kind) -> bool
    ensures { result ≡ spec.is_manage kind }
{
    matches!(kind, Kind::Manage)
}

/// Whether the handle manages the partition with that name.
fn manages(name: &[u8], handle: &HandleDef) -> bool
    ensures { result ≡ spec.manages name.now handle.now }
{
    is_manage(handle.kind) && handle.target.as_slice() == name
}

/// The first handle that does.
fn first_manager<'a>(name: &[u8], handles: &'a [HandleDef]) -> Option<&'a HandleDef>
    ensures { option_copied result ≡ find (spec.manages name.now) handles.now }
{
    handles.iter().find(|handle| manages(name, handle))
}

/// The partition's first handle that manages itself.
fn own_in(part: &PartDef) -> Option<Spot<'_>>
    ensures { result ≡ spec.own_in [] part.now }
{
    let handle = first_manager(part.name.as_slice(), part.handles.as_slice())?;
    Some(handle_spot(part, handle))
}

/// C21: the first such handle of all partitions.
#[tactic(auto, unfolding(crate::specs::Managers::own_manager))]
pub fn own_manager(parts: &[PartDef]) -> Option<Spot<'_>>
    ensures { result ≡ spec.own_manager parts.now }
{
    for part in parts {
        if let Some(spot) = own_in(part) {
            return Some(spot);
        }
    }
    None
}

/// Whether one of the handles manages the partition with that name.
fn manage_any(name: &[u8], handles: &[HandleDef]) -> bool
    ensures { result ≡ list_any (spec.manages name.now) handles.now }
{
    handles.iter().any(|handle| manages(name, handle))
}

/// Whether one of the partition's handles does.
fn has_manager(name: &[u8], part: &PartDef) -> bool
    ensures { result ≡ spec.has_manager name.now part.now }
{
    manage_any(name, part.handles.as_slice())
}

/// Whether one of the partitions has such a handle.
fn have_manager(name: &[u8], parts: &[PartDef]) -> bool
    ensures { result ≡ list_any (spec.has_manager name.now) parts.now }
{
    parts.iter().any(|part| has_manager(name, part))
}

/// Whether an earlier handle, one of these or of an earlier partition, manages the same partition.
fn is_second(parts: &[PartDef], before: &[HandleDef], handle: &HandleDef) -> bool
    ensures { result ≡ spec.is_second parts.now before.now handle.now }
{
    let target = handle.target.as_slice();
    is_manage(handle.kind) && (manage_any(target, before) || have_manager(target, parts))
}

/// The first such handle of these, which are the partition's.
fn first_second<'a>(
    parts: &[PartDef],
    part: &'a PartDef,
    handles: &'a [HandleDef],
) -> Option<Spot<'a>>
    ensures { result ≡ first_from (spec.second_at parts.now part.now) [] handles.now }
{
    for (i, handle) in handles.iter().enumerate() {
        if is_second(parts, &handles[..i], handle) {
            return Some(handle_spot(part, handle));
        }
    }
    None
}

/// C22: the first such handle of all partitions.
#[tactic(auto, unfolding(crate::specs::Managers::second_manager))]
pub fn second_manager(parts: &[PartDef]) -> Option<Spot<'_>>
    ensures { result ≡ spec.second_manager parts.now }
{
    for (i, part) in parts.iter().enumerate() {
        if let Some(spot) = first_second(&parts[..i], part, part.handles.as_slice()) {
            return Some(spot);
        }
    }
    None
}
