//! C15 to C17: the cores of a partition.

ghost use Rattle.std.specs.Prelude.{◌≡◌, []};
ghost use Rattle.std.specs.List.{list_any, list_all};
ghost use Rattle.config_checks.specs.Cores as spec;
ghost use Rattle.machine_desc.specs.Ranges.{none_meets};
ghost use Rattle.machine_desc.specs.Joined.{same_number};

use crate::spot::{Spot, part_spot};
use hv_config::{Cpu, PartDef};

/// Whether the partition has another number of cores than one.
fn is_miscounted(part: &PartDef) -> bool
    ensures { result ≡ spec.is_miscounted part.now }
{
    part.cpus.as_slice().len() != 1
}

/// C15: the first such partition.
#[tactic(auto, unfolding(crate::specs::Cores::miscounted_part))]
pub fn miscounted_part(parts: &[PartDef]) -> Option<Spot<'_>>
    ensures { result ≡ spec.miscounted_part parts.now }
{
    parts.iter().find(|part| is_miscounted(part)).map(part_spot)
}

/// Whether the cpu is that core, and can be used.
fn is_usable_as(cpu: &Cpu, core: u32) -> bool
    ensures { result ≡ spec.is_usable_as core cpu.now }
{
    cpu.number == core && cpu.usable
}

/// Whether the core is there, and can be used.
fn is_usable(cpus: &[Cpu], core: u32) -> bool
    ensures { result ≡ spec.is_usable cpus.now core }
{
    cpus.iter().any(|cpu| is_usable_as(cpu, core))
}

/// Whether all these cores are.
fn are_usable(cpus: &[Cpu], cores: &[u32]) -> bool
    ensures { result ≡ list_all (spec.is_usable cpus.now) cores.now }
{
    cores.iter().all(|core| is_usable(cpus, *core))
}

/// Whether one of the partition's cores isn't.
fn is_coreless(cpus: &[Cpu], part: &PartDef) -> bool
    ensures { result ≡ spec.is_coreless cpus.now part.now }
{
    !are_usable(cpus, part.cpus.as_slice())
}

/// C16: the first such partition.
#[tactic(auto, unfolding(crate::specs::Cores::coreless_part))]
pub fn coreless_part<'a>(cpus: &[Cpu], parts: &'a [PartDef]) -> Option<Spot<'a>>
    ensures { result ≡ spec.coreless_part cpus.now parts.now }
{
    parts
        .iter()
        .find(|part| is_coreless(cpus, part))
        .map(part_spot)
}

/// Whether the core is one of these.
fn is_among(core: u32, cores: &[u32]) -> bool
    ensures { result ≡ list_any (same_number core) cores.now }
{
    cores.iter().any(|other| core == *other)
}

/// Whether some core is in both lists.
fn have_core(cores: &[u32], others: &[u32]) -> bool
    ensures { result ≡ list_any (λ core. list_any (same_number core) others.now) cores.now }
{
    cores.iter().any(|core| is_among(*core, others))
}

/// Whether no core is named twice in the list.
fn cores_differ(cores: &[u32]) -> bool
    ensures { result ≡ none_meets same_number [] cores.now }
{
    for (i, core) in cores.iter().enumerate() {
        if is_among(*core, &cores[..i]) {
            return false;
        }
    }
    true
}

/// Whether both partitions name some core.
fn share_core(part: &PartDef, other: &PartDef) -> bool
    ensures { result ≡ spec.share_core part.now other.now }
{
    have_core(part.cpus.as_slice(), other.cpus.as_slice())
}

/// Whether the partition names a core of one of the others.
fn shares_any(part: &PartDef, others: &[PartDef]) -> bool
    ensures { result ≡ list_any (spec.share_core part.now) others.now }
{
    others.iter().any(|other| share_core(part, other))
}

/// Whether the partition names a core twice, or one of an earlier partition.
fn takes_core(before: &[PartDef], part: &PartDef) -> bool
    ensures { result ≡ spec.takes_core before.now part.now }
{
    !cores_differ(part.cpus.as_slice()) || shares_any(part, before)
}

/// C17: the first such partition.
#[tactic(auto, unfolding(crate::specs::Cores::taking_part))]
pub fn taking_part(parts: &[PartDef]) -> Option<Spot<'_>>
    ensures { result ≡ spec.taking_part parts.now }
{
    for (i, part) in parts.iter().enumerate() {
        if takes_core(&parts[..i], part) {
            return Some(part_spot(part));
        }
    }
    None
}
