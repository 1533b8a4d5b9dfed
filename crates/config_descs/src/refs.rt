//! The handles on something.

ghost use Rattle.std.specs.Prelude.{◌≡◌, ◌≤◌, All, IfOk, length};
ghost use Rattle.machine_desc.specs.Limits.{most_handles};
ghost use Rattle.config_descs.specs.Wired as spec;

use hv_config::{HandleDef, Kind, PartDef};
use machine_desc::PortRef;
use outside::NoMemory;
use std::alloc::Global;

/// Whether both are the same kind.
fn same_kind(kind: Kind, other: Kind) -> bool
    ensures { result ≡ spec.same_kind kind other }
{
    matches!(
        (kind, other),
        (Kind::Channel, Kind::Channel)
            | (Kind::Send, Kind::Send)
            | (Kind::Receive, Kind::Receive)
            | (Kind::Manage, Kind::Manage)
    )
}

/// Whether the handle is of the kind, and stands for what has that name.
fn is_on(kind: Kind, name: &[u8], handle: &HandleDef) -> bool
    ensures { result ≡ spec.is_on kind name.now handle.now }
{
    same_kind(handle.kind, kind) && handle.target.as_slice() == name
}

/// Those of one partition: the handles of the kind on what has that name.
fn refs_in(
    alloc: Global,
    kind: Kind,
    name: &[u8],
    part: usize,
    handles: &[HandleDef],
) -> Result<Vec<PortRef>, NoMemory>
    requires { length handles.now ≤ most_handles }
    ensures { IfOk result (λ refs. refs.items ≡ spec.refs_in kind name.now part 1 handles.now) }
{
    let mut refs = Vec::new(alloc);
    for (i, handle) in handles.iter().enumerate() {
        if is_on(kind, name, handle) {
            refs.push(PortRef {
                part,
                handle: i as u32 + 1,
            })?;
        }
    }
    Ok(refs)
}

/// The handles of the kind on what has that name, in the order of partitions and handles.
#[tactic(auto, unfolding(crate::specs::Wired::refs_of))]
pub fn refs_of(
    alloc: Global,
    parts: &[PartDef],
    kind: Kind,
    name: &[u8],
) -> Result<Vec<PortRef>, NoMemory>
    requires { All (λ part. length part.handles ≤ most_handles) parts.now }
    ensures { IfOk result (λ refs. refs.items ≡ spec.refs_of parts.now kind name.now) }
{
    let mut refs = Vec::new(alloc);
    for (i, part) in parts.iter().enumerate() {
        let own = refs_in(alloc, kind, name, i, part.handles.as_slice())?;
        refs.extend_from_slice(own.as_slice())?;
    }
    Ok(refs)
}
