//! Which reservations others end.

ghost use Rattle.std.specs.Prelude.{◌≡◌, ◌==◌, ◌^◌, ◌<◌, ◌&&◌, not};
ghost use Rattle.std.specs.List.{list_any};
ghost use Rattle.machine_desc.specs.Ranges.{ranges_meet};
ghost use Rattle.copy_lists.specs.Pieces.{targets_of};
ghost use Rattle.partition.specs.Reservations as spec;

use copy_lists::SgEntry;
use core_step::Wrote;
use machine_desc::Region;

/// Whether the granule that begins at the logical address has one of so many bytes from `at` on.
fn meets(granule: u64, at: u128, size: u64) -> bool
    requires { at < 2 ^ 66 }
    ensures { result ≡ ranges_meet granule spec.granule_size at size }
{
    let start = u128::from(granule);
    start.max(at) < (start + 64).min(at + u128::from(size))
}

/// Whether what was stored lies in the region and has a byte of the granule that begins at the logical address.
fn is_in_granule(granule: u64, range: &Wrote, region: &Region) -> bool
    ensures { result ≡ spec.is_in_granule granule range.now region.now }
{
    let at = u128::from(region.logical) + u128::from(range.at);
    !region.private && (region.extent == range.extent && meets(granule, at, u64::from(range.len)))
}

/// Whether some of what was stored there does.
fn is_in_any(granule: u64, range: &Wrote, regions: &[Region]) -> bool
    ensures { result ≡ list_any (spec.is_in_granule granule range.now) regions.now }
{
    regions
        .iter()
        .any(|region| is_in_granule(granule, range, region))
}

/// Whether some of what was stored lies in one of the regions and has a byte of the granule.
pub fn is_stored_to(regions: &[Region], stored: &[Wrote], granule: u64) -> bool
    ensures { result ≡ spec.is_stored_to regions.now stored.now granule }
{
    stored
        .iter()
        .any(|range| is_in_any(granule, range, regions))
}

/// Whether the entry copies bytes to addresses of the granule.
fn is_in_entry(granule: u64, entry: &SgEntry) -> bool
    ensures { result ≡ spec.is_in_entry granule entry.now }
{
    entry.size != 0 && meets(granule, u128::from(entry.target), entry.size)
}

/// Whether some of them does.
fn is_any_in(entries: &[SgEntry], granule: u64) -> bool
    ensures { result ≡ list_any (spec.is_in_entry granule) entries.now }
{
    entries.iter().any(|entry| is_in_entry(granule, entry))
}

/// Whether a copy by these entries writes bytes of the granule that begins at the logical address.
#[tactic(auto, using(crate::proofs::Copies::any_target))]
pub fn is_copied_to(entries: &[SgEntry], granule: u64) -> bool
    ensures { result ≡ spec.is_copied_to (targets_of entries.now) granule }
{
    is_any_in(entries, granule)
}
