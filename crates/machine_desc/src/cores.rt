//! Which cores descriptions name.

ghost use Rattle.std.specs.Prelude.{◌≡◌, []};
ghost use Rattle.std.specs.List.{list_any, list_all};
ghost use Rattle.machine_desc.specs.Joined as spec;
ghost use Rattle.machine_desc.specs.Ranges.{none_meets};

use crate::desc::Desc;

/// Whether the core is one of these.
fn is_among(core: u32, cores: &[u32]) -> bool
    ensures { result ≡ list_any (spec.same_number core) cores.now }
{
    cores.iter().any(|other| core == *other)
}

/// Whether some core is in both lists.
fn have_core(cores: &[u32], others: &[u32]) -> bool
    ensures { result ≡ list_any (λ core. list_any (spec.same_number core) others.now) cores.now }
{
    cores.iter().any(|core| is_among(*core, others))
}

/// Whether no core is named twice in the list.
fn cores_differ(cores: &[u32]) -> bool
    ensures { result ≡ none_meets spec.same_number [] cores.now }
{
    for (i, core) in cores.iter().enumerate() {
        if is_among(*core, &cores[..i]) {
            return false;
        }
    }
    true
}

/// Whether both descriptions name some core.
fn share_core(desc: &Desc, other: &Desc) -> bool
    ensures { result ≡ spec.share_core desc.now other.now }
{
    have_core(desc.cores.as_slice(), other.cores.as_slice())
}

/// Whether the description names a core of one of the others.
fn shares_any(desc: &Desc, others: &[Desc]) -> bool
    ensures { result ≡ list_any (spec.share_core desc.now) others.now }
{
    others.iter().any(|other| share_core(desc, other))
}

/// Whether no two descriptions name the same core.
fn none_shares(descs: &[Desc]) -> bool
    ensures { result ≡ none_meets spec.share_core [] descs.now }
{
    for (i, desc) in descs.iter().enumerate() {
        if shares_any(desc, &descs[..i]) {
            return false;
        }
    }
    true
}

/// Whether no description names a core twice.
fn all_differ(descs: &[Desc]) -> bool
    ensures { result ≡ list_all (λ desc. none_meets spec.same_number [] desc.cores) descs.now }
{
    descs.iter().all(|desc| cores_differ(desc.cores.as_slice()))
}

/// Whether no core is named twice.
#[tactic(auto, unfolding(crate::specs::Joined::are_cores_apart))]
pub fn are_cores_apart(descs: &[Desc]) -> bool
    ensures { result ≡ spec.are_cores_apart descs.now }
{
    all_differ(descs) && none_shares(descs)
}
