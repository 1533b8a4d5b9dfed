//! What the definitions are meant to say: which lists are refused, and where bytes are moved.

ghost use Rattle.std.specs.Prelude.{◌≡◌, ◌∷◌, [], true, ◌&&◌, not, IfOk};
ghost use Rattle.std.specs.List.{list_all};
ghost use Rattle.machine_desc.specs.declared.desc.Region.{Region as RegionValue};
ghost use Rattle.machine_desc.specs.Private.{is_private_range};
ghost use Rattle.machine_desc.specs.Sound.{are_regions_sound};
ghost use Rattle.ground.specs.Extents.{AreSmall};
ghost use Rattle.fresh_load.specs.Placed.{is_placed, is_private_extent, sizes_of};
ghost use Rattle.copy_lists.specs.Lists.{is_entry_private};
ghost use Rattle.copy_lists.specs.Moving.{AreApart};

use super::*;
use ground::Ground;
use guest_regs::{Regs, boot};
use machine_desc::{Desc, Port, Region, Span, sound};
use memory_areas::AreaMap;
use outside::{Bytes, Listed, NoMemory};
use partition_manager::Decision;
use std::alloc::Global;
use std::process::Abort;
use std::test::Fail;

/// The caller itself.
const SELF: u32 = 0xffff_ffff;

/// It is done.
const GO: Decision = Decision::Go;

/// EFAULT, by the number that the caller finds.
const EFAULT: Decision = Decision::Refuse(6);

/// EINVAL, by the number that the caller finds.
const EINVAL: Decision = Decision::Refuse(8);

/// Two extents of the caller, two of the managed partition, and a page that both have.
const SIZES: [u32; 5] = [0x10_0000, 0x1000, 0x10_0000, 0x1000, 0x1000];

/// A region that lies as high in real memory as in the partition's.
fn region(logical: u64, size: u32, extent: u32, private: bool) -> Region {
    Region {
        logical,
        size,
        extent,
        real: logical,
        private,
    }
}

/// The caller's: from 0x10_0000 on a MiB, a page behind it, and the shared page.
fn own_regions() -> [Region; 3] {
    [
        region(0x20_0000, 0x1000, 1, true),
        region(0x10_0000, 0x10_0000, 0, true),
        region(0x20_1000, 0x1000, 4, false),
    ]
}

/// The managed partition's: from 0x30_0000 on a MiB, a page behind it, and the shared page.
fn managed_regions() -> [Region; 3] {
    [
        region(0x40_0000, 0x1000, 3, true),
        region(0x30_0000, 0x10_0000, 2, true),
        region(0x40_1000, 0x1000, 4, false),
    ]
}

/// A description of these regions and handles.
fn desc_of(alloc: Global, regions: &[Region], ports: Listed<Port>) -> Result<Desc, NoMemory> {
    Ok(Desc {
        name: Bytes::of(alloc, b"p")?,
        regions: Listed::from_vec(Vec::from_slice(alloc, regions)?),
        cores: Listed::from_vec(Vec::from_slice(alloc, &[0u32])?),
        ports,
        tree_at: 0,
        tree_size: 0,
        entry: 0,
        held: false,
        pieces: Listed::new(alloc),
    })
}

/// A channel, and at handle 2 the managed partition.
fn ports(alloc: Global) -> Result<Listed<Port>, NoMemory> {
    let spans = [
        Span {
            at: 0x40_0000,
            size: 0x1000,
        },
        Span {
            at: 0x30_0000,
            size: 0x10_0000,
        },
    ];
    let mut ports = Listed::new(alloc);
    ports.push(Port::Channel { rx: 0, tx: 1 })?;
    ports.push(Port::Manage {
        part: 1,
        held: true,
        private: Listed::from_vec(Vec::from_slice(alloc, &spans)?),
    })?;
    Ok(ports)
}

/// Memory of zeros.
#[tactic(auto, using(crate::proofs::Sizes::sizes))]
fn zeros(alloc: Global, sizes: &[u32]) -> Result<Ground, NoMemory>
    requires { AreSmall sizes.now }
    ensures { IfOk result (λ memory. sizes_of memory ≡ sizes.now) }
{
    Ground::new(alloc, sizes)
}

/// Whether the region's extent has its size.
#[tactic(auto, using(crate::proofs::Sizes::sizes))]
fn is_there(memory: &Ground, sizes: &[u32], region: &Region) -> bool
    requires { sizes_of memory.now ≡ sizes.now }
    ensures { result ≡ is_placed memory.now region.now }
{
    let extent = region.extent as usize;
    extent < sizes.len() && memory.size(extent) == region.size
}

/// Whether those of all regions do.
fn are_there(memory: &Ground, sizes: &[u32], regions: &[Region]) -> bool
    requires { sizes_of memory.now ≡ sizes.now }
    ensures { result ≡ list_all (is_placed memory.now) regions.now }
{
    regions.iter().all(|region| is_there(memory, sizes, region))
}

/// Writes a byte where the extent has the offset.
#[tactic(auto, using(crate::proofs::Sizes::sizes))]
fn store(memory: &mut Ground, sizes: &[u32], extent: usize, at: u32, byte: u8)
    requires { sizes_of memory.old ≡ sizes.now }
    ensures { sizes_of memory.new ≡ sizes.now }
{
    if extent < sizes.len() && at < sizes[extent] {
        memory.put(extent, at, &[byte]);
    }
}

/// A byte of an extent, and 0xee where there is none.
#[tactic(auto, using(crate::proofs::Sizes::sizes))]
fn load(memory: &Ground, sizes: &[u32], extent: usize, at: usize) -> u8
    requires { sizes_of memory.now ≡ sizes.now }
{
    if extent < sizes.len() {
        memory.view(extent).get(at).copied().unwrap_or(0xee)
    } else {
        0xee
    }
}

/// Writes bytes side by side from a logical address on, where a region has them.
fn write(memory: &mut Ground, sizes: &[u32], map: &AreaMap, at: u64, bytes: &[u8])
    requires { sizes_of memory.old ≡ sizes.now }
    ensures { sizes_of memory.new ≡ sizes.now }
{
    for (i, &byte) in bytes.iter().enumerate() {
        if let Some(place) = map.find(at.wrapping_add(i as u64)) {
            store(memory, sizes, place.extent as usize, place.at, byte);
        }
    }
}

/// Writes entries side by side from a logical address on.
fn write_entries(
    memory: &mut Ground,
    sizes: &[u32],
    map: &AreaMap,
    at: u64,
    entries: &[(u64, u64, u64)],
)
    requires { sizes_of memory.old ≡ sizes.now }
    ensures { sizes_of memory.new ≡ sizes.now }
{
    for (i, &(source, target, size)) in entries.iter().enumerate() {
        let start = at.wrapping_add((i as u64).wrapping_mul(32));
        write(memory, sizes, map, start, &source.to_be_bytes());
        write(
            memory,
            sizes,
            map,
            start.wrapping_add(8),
            &target.to_be_bytes(),
        );
        write(
            memory,
            sizes,
            map,
            start.wrapping_add(16),
            &size.to_be_bytes(),
        );
        write(memory, sizes, map, start.wrapping_add(24), &[0xaa; 8]);
    }
}

/// Registers that ask for a copy.
fn asked(source: u32, target: u32, at: u64, count: u32) -> Regs {
    let mut regs = boot(0, 0, 0);
    regs.set_gpr(3, source);
    regs.set_gpr(4, target);
    regs.set_gpr(5, (at % 0x1_0000_0000) as u32);
    regs.set_gpr(6, (at / 0x1_0000_0000) as u32);
    regs.set_gpr(7, count);
    regs
}

/// How the row is decided, and the list that is left of it.
fn decided(
    rt: &impl Abort,
    alloc: Global,
    source: u32,
    target: u32,
    at: u64,
    count: u32,
    entries: &[(u64, u64, u64)],
) -> Result<(Decision, SgList), Fail> {
    let desc = desc_of(alloc, &own_regions(), ports(alloc)?)?;
    assert!(rt; sound(&desc));
    let map = AreaMap::new(alloc, &desc)?;
    let mut memory = zeros(alloc, &SIZES)?;
    write_entries(&mut memory, &SIZES, &map, at, entries);
    assert!(rt; are_there(&memory, &SIZES, desc.regions.as_slice()));
    let mut list = SgList::new(alloc)?;
    list.push(SgEntry {
        source: 1,
        target: 2,
        size: 3,
    });
    let decision = sg_check(
        &mut list,
        &desc,
        &map,
        &memory,
        &asked(source, target, at, count),
    );
    Ok((decision, list))
}

#[test]
fn lists_are_checked(rt: HostRuntime) -> Result<(), Fail> {
    let at = 0x10_0000;
    for (source, target, at, count, entries, want) in [
        // the handles
        (SELF, 2, at, 0, [].as_slice(), GO),
        (2, SELF, at, 0, &[], GO),
        (SELF, SELF, at, 0, &[], EINVAL),
        (2, 2, at, 0, &[], EINVAL),
        (SELF, 1, at, 0, &[], EINVAL),
        (SELF, 3, at, 0, &[], EINVAL),
        (0, SELF, at, 0, &[], EINVAL),
        // the count
        (SELF, 2, at, 1024, &[], GO),
        (SELF, 2, at, 1025, &[], EINVAL),
        // the list's bytes: none, over two regions, and with one that isn't private
        (SELF, 2, 0xffff_ffff_ffff_ffff, 0, &[], GO),
        (
            SELF,
            2,
            0x1f_fff0,
            2,
            &[(at, 0x30_0000, 7), (at, 0x40_0ff0, 16)],
            GO,
        ),
        (SELF, 2, 0x20_0fe1, 1, &[], EFAULT),
        (SELF, 2, 0xffff_ffff_ffff_ffff, 1, &[], EFAULT),
        (SELF, 1, 0x20_0fe1, 1, &[], EINVAL),
        // the sum
        (SELF, 2, at, 1, &[(at, 0x30_0000, 0x10_0000)], GO),
        (
            SELF,
            2,
            at,
            2,
            &[(at, 0x30_0000, 0x10_0000), (at, 0x30_0000, 1)],
            EINVAL,
        ),
        (
            SELF,
            2,
            at,
            2,
            &[(at, 0x30_0000, 1 << 63), (at, 0x30_0000, 1 << 63)],
            EINVAL,
        ),
        (SELF, 2, at, 1, &[(0, 0, 0x10_0001)], EINVAL),
        // the ranges
        (
            SELF,
            2,
            at,
            1,
            &[(0xffff_ffff_ffff_ffff, 0x30_0000, 2)],
            EFAULT,
        ),
        (
            SELF,
            2,
            at,
            1,
            &[(0xffff_ffff_ffff_ffff, 0x12_3456_789a_bcde, 0)],
            GO,
        ),
        (
            SELF,
            2,
            at,
            2,
            &[(at, 0x30_0000, 1), (at, 0x40_0fff, 2)],
            EFAULT,
        ),
        (SELF, 2, at, 1, &[(0x1f_fffe, 0x3f_ffff, 4)], GO),
        (2, SELF, at, 1, &[(0x1f_fffe, 0x3f_ffff, 4)], EFAULT),
        (2, SELF, at, 1, &[(0x3f_ffff, 0x1f_fffe, 4)], GO),
        (2, SELF, at, 1, &[(0x3f_ffff, 0x20_0fff, 4)], EFAULT),
    ] {
        let (decision, list) = decided(&rt, rt.alloc(), source, target, at, count, entries)?;
        assert_eq!(rt; decision, want, "{source:#x} {target:#x} {at:#x} {count}");
        let left = if want == GO { count as usize } else { 0 };
        assert_eq!(rt; list.len(), left, "{source:#x} {target:#x} {at:#x} {count}");
        for (&(source, target, size), entry) in entries.iter().zip(list.as_slice()) {
            assert_eq!(rt;
                *entry,
                SgEntry {
                    source,
                    target,
                    size
                }
            );
        }
    }
    Ok(())
}

/// Whether a private region has the extent.
fn is_private_extent(regions: &[Region], extent: u32) -> bool
    ensures { result ≡ is_private_extent regions.now extent }
{
    regions
        .iter()
        .any(|region| region.private && region.extent == extent)
}

/// Whether the region shares no private extent.
fn is_apart(to: &[Region], region: &Region) -> bool
    ensures { result ≡ not (region.now.private && is_private_extent to.now region.now.extent) }
{
    !(region.private && is_private_extent(to, region.extent))
}

/// Whether none of the regions does.
fn are_apart(from: &[Region], to: &[Region]) -> bool
    ensures { result ≡ list_all (λ (region : RegionValue). not (region.private && is_private_extent to.now region.extent)) from.now }
{
    from.iter().all(|region| is_apart(to, region))
}

/// Whether the entry copies private bytes to private ones.
fn is_copiable(from: &AreaMap, to: &AreaMap, entry: &SgEntry) -> bool
    ensures { result ≡ is_entry_private (is_private_range from.now) (is_private_range to.now) entry.now }
{
    entry.size == 0
        || (from.is_private(entry.source, entry.size) && to.is_private(entry.target, entry.size))
}

/// Whether each of the entries does.
fn are_copiable(from: &AreaMap, to: &AreaMap, entries: &[SgEntry]) -> bool
    ensures { result ≡ list_all (is_entry_private (is_private_range from.now) (is_private_range to.now)) entries.now }
{
    entries.iter().all(|entry| is_copiable(from, to, entry))
}

/// The map of a sound description.
#[tactic(auto, using(machine_desc::proofs::Parts::sound_regions))]
fn map_of(rt: &impl Abort, alloc: Global, desc: &Desc) -> Result<AreaMap, Fail>
    ensures regions { IfOk result (λ map. map ≡ desc.now.regions) }
    ensures sound { IfOk result (λ map. are_regions_sound map ≡ true) }
{
    assert!(rt; sound(desc));
    Ok(AreaMap::new(alloc, desc)?)
}

/// Sees that no extent is private to both.
fn expect_apart(rt: &impl Abort, from: &Desc, to: &Desc)
    ensures { AreApart from.now.regions to.now.regions }
{
    if !are_apart(from.regions.as_slice(), to.regions.as_slice()) {
        panic!(rt; "an extent is private to both");
    }
}

/// Sees that the entries may be copied, and copies.
fn copied(
    rt: &impl Abort,
    alloc: Global,
    memory: &mut Ground,
    from: &Desc,
    to: &Desc,
    list: &SgList,
) -> Result<(), Fail>
    requires { sizes_of memory.old ≡ 1048576 ∷ 4096 ∷ 1048576 ∷ 4096 ∷ 4096 ∷ [] }
    ensures { sizes_of memory.new ≡ 1048576 ∷ 4096 ∷ 1048576 ∷ 4096 ∷ 4096 ∷ [] }
{
    let source = map_of(rt, alloc, from)?;
    let target = map_of(rt, alloc, to)?;
    assert!(rt; are_there(memory, &SIZES, from.regions.as_slice()));
    assert!(rt; are_there(memory, &SIZES, to.regions.as_slice()));
    assert!(rt; are_copiable(&source, &target, list.as_slice()));
    expect_apart(rt, from, to);
    sg_copy(memory, &source, &target, list);
    Ok(())
}

/// A list of these entries.
fn list_of(alloc: Global, entries: &[SgEntry]) -> Result<SgList, NoMemory> {
    let mut list = SgList::new(alloc)?;
    for entry in entries {
        if list.len() < 1024 {
            list.push(*entry);
        }
    }
    let mut other = SgList::new(alloc)?;
    other.set(&list);
    Ok(other)
}

/// Memory with a few bytes at the edges of the caller's regions.
fn given(alloc: Global) -> Result<Ground, NoMemory>
    ensures { IfOk result (λ memory. sizes_of memory ≡ 1048576 ∷ 4096 ∷ 1048576 ∷ 4096 ∷ 4096 ∷ []) }
{
    let mut memory = zeros(alloc, &SIZES)?;
    for (extent, at, byte) in [
        (0, 0xf_fffd, 1),
        (0, 0xf_fffe, 2),
        (0, 0xf_ffff, 3),
        (1, 0, 4),
        (1, 1, 5),
        (1, 2, 6),
        (1, 3, 7),
        (4, 0, 9),
    ] {
        store(&mut memory, &SIZES, extent, at, byte);
    }
    Ok(memory)
}

#[test]
fn bytes_are_moved(rt: HostRuntime) -> Result<(), Fail> {
    let alloc = rt.alloc();
    let own = desc_of(alloc, &own_regions(), ports(alloc)?)?;
    let managed = desc_of(alloc, &managed_regions(), Listed::new(alloc))?;
    let mut memory = given(alloc)?;
    let entries = [
        // over the edges of both sides' regions, each at another byte
        SgEntry {
            source: 0x1f_fffe,
            target: 0x3f_fffd,
            size: 5,
        },
        // nothing, and then one byte of what was written
        SgEntry {
            source: 7,
            target: 0xffff_ffff_ffff_ffff,
            size: 0,
        },
        SgEntry {
            source: 0x20_0003,
            target: 0x3f_ffff,
            size: 1,
        },
    ];
    let list = list_of(alloc, &entries)?;
    copied(&rt, alloc, &mut memory, &own, &managed, &list)?;
    for (extent, at, want) in [
        (2, 0xf_fffc, 0),
        (2, 0xf_fffd, 2),
        (2, 0xf_fffe, 3),
        (2, 0xf_ffff, 7),
        (3, 0, 5),
        (3, 1, 6),
        (3, 2, 0),
        (0, 0xf_fffe, 2),
        (1, 3, 7),
        (4, 0, 9),
    ] {
        assert_eq!(rt; load(&memory, &SIZES, extent, at), want, "{extent} {at:#x}");
    }
    Ok(())
}
