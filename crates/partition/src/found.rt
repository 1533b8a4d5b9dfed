//! What a core finds at an effective address: its translations composed with the regions of its partition.

ghost use Rattle.std.specs.Prelude.{◌≡◌, ◌<◌, Some, length, IfSome, IsTrue};
ghost use Rattle.std.specs.List.{position};
ghost use Rattle.guest_tlb.specs.Translation.{IsMatch};
ghost use Rattle.core_step.specs.Laws.{page_in};
ghost use Rattle.fresh_load.specs.Placed.{extents_of};
ghost use Rattle.partition.specs.Regions.{area_of, areas_of, area_at, area_with, covers};
ghost use Rattle.partition.specs.Found.{found, found_in, lookup, translated};

use core_step::{Look, Page};
use guest_tlb::GuestTlb;
use machine_desc::Region;
use mas::Entry;

/// The size of a block.
const BLOCK: u32 = 4096;

/// What is found at an effective address.
#[derive(Clone, Copy, Debug, PartialEq, Eq)]
pub enum Found {
    /// No live translation matches.
    Missing,
    /// One matches, and no region has the logical page.
    Unbacked,
    /// The page.
    Backed(Page),
}

/// The translations of a core and the regions that they lead to, as an instruction looks them up.
#[derive(Clone, Copy)]
pub struct View<'a> {
    pub tlb: &'a GuestTlb,
    pub regions: &'a [Region],
}

impl Look for View<'_> {
    ghost lookup = { λ view. λ space pid ea. page_in (extents_of view.regions.now) (lookup (areas_of view.regions.now) view.tlb.now space pid ea) };

    fn hit(&self, ts: bool, pid: u16, ea: u32) -> Option<Page> {
        match find(self.tlb, self.regions, ts, pid, ea) {
            Found::Backed(page) => Some(page),
            _ => None,
        }
    }
}

/// What is found at an effective address, in a space and for a process, in the extents of the regions.
#[tactic(auto, unfolding(crate::specs::Found::found))]
pub fn find(tlb: &GuestTlb, regions: &[Region], ts: bool, pid: u16, ea: u32) -> Found
    ensures { result ≡ found_in (extents_of regions.now) (found (areas_of regions.now) tlb.now ts pid ea) }
{
    match tlb.lookup(ts, pid, ea) {
        Some(entry) => back(regions, entry, ts, pid, ea),
        None => Found::Missing,
    }
}

/// Whether the region has a logical address.
fn has_address(region: &Region, logical: u64) -> bool
    ensures { result ≡ covers logical (area_of region.now) }
{
    region.logical <= logical && logical - region.logical < u64::from(region.size)
}

/// The first of the regions that has a logical address.
fn first_with(regions: &[Region], logical: u64) -> Option<usize>
    ensures { result ≡ position (λ region. covers logical (area_of region)) regions.now }
{
    regions
        .iter()
        .position(|region| has_address(region, logical))
}

/// The region that has a logical address.
fn region_with(regions: &[Region], logical: u64) -> Option<usize>
    ensures value { result ≡ area_with (areas_of regions.now) logical }
    ensures exists { IfSome result (λ place. place < length regions.now) }
    ensures covers { IfSome result (λ place. IsTrue (covers logical (area_at (areas_of regions.now) place))) }
{
    first_with(regions, logical)
}

/// The 4 KiB block of a translation that an effective address lies in, where a region has it.
#[tactic(auto, using(crate::proofs::Areas::same_area, crate::proofs::Areas::same_name))]
fn back(regions: &[Region], entry: Entry, ts: bool, pid: u16, ea: u32) -> Found
    requires { IsMatch ts pid ea entry }
    ensures { result ≡ found_in (extents_of regions.now) (translated (areas_of regions.now) (Some entry) ea) }
{
    let start = ea - ea % BLOCK;
    let logical = entry.rpn + u64::from(start - entry.epn);
    match region_with(regions, logical) {
        Some(place) => {
            let region = regions[place];
            Found::Backed(Page {
                ea: start,
                tsize: 1,
                perms: entry.perms,
                little: entry.wimge % 2 == 1,
                extent: region.extent,
                at: (logical - region.logical) as u32,
                logical,
            })
        }
        None => Found::Unbacked,
    }
}
