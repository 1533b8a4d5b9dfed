//! The ranges of memory.

ghost use Rattle.std.specs.Prelude.{◌≡◌, ◌+◌, ◌<◌, ◌≤◌, ◌/◌, IfOk, drop, filter, length};
ghost use Rattle.hv_config.specs.Cells as cells;
ghost use Rattle.hv_config.specs.Memory as spec;

use crate::board::Range;
use crate::cells::{Cells, number_in, width};
use crate::device::Device;
use dt_model::prop;
use outside::{Listed, NoMemory};
use std::alloc::Global;

/// The bytes from a place on.
fn behind(bytes: &[u8], at: usize) -> &[u8]
    requires { at ≤ length bytes.now }
    ensures { result.now ≡ drop at bytes.now }
{
    &bytes[at..]
}

/// The bytes of a pair.
fn pair_width(address: Cells, size: Cells) -> usize
    ensures value { result ≡ cells.width address + cells.width size }
    ensures some { 8 ≤ result }
    ensures few { result ≤ 16 }
{
    width(address) + width(size)
}

/// The pair at the front.
fn range_at(address: Cells, size: Cells, bytes: &[u8]) -> Range
    requires { cells.width address + cells.width size ≤ length bytes.now }
    ensures { result ≡ spec.range_at address size bytes.now }
{
    Range {
        at: number_in(address, bytes),
        size: number_in(size, behind(bytes, width(address))),
    }
}

/// The pair with the place among the pairs.
#[tactic(auto, using(crate::proofs::Pairs::item_fits), unfolding(crate::specs::Memory::item_at))]
fn item_at(address: Cells, size: Cells, reg: &[u8], k: usize) -> Range
    requires { k < length reg.now / (cells.width address + cells.width size) }
    ensures { result ≡ spec.item_at address size reg.now k }
{
    let item = pair_width(address, size);
    range_at(address, size, behind(reg, k * item))
}

/// All pairs.
fn items_in(alloc: Global, address: Cells, size: Cells, reg: &[u8]) -> Result<Vec<Range>, NoMemory>
    ensures { IfOk result (λ ranges. ranges.items ≡ spec.items_in address size reg.now) }
{
    let item = pair_width(address, size);
    let mut ranges = Vec::new(alloc);
    for k in 0..reg.len() / item {
        ranges.push(item_at(address, size, reg, k))?;
    }
    Ok(ranges)
}

/// Those of them that have bytes.
fn ranges_among(alloc: Global, items: &[Range]) -> Result<Vec<Range>, NoMemory>
    ensures { IfOk result (λ ranges. ranges.items ≡ filter spec.is_range items.now) }
{
    let mut ranges = Vec::new(alloc);
    for range in items {
        if range.size != 0 {
            ranges.push(*range)?;
        }
    }
    Ok(ranges)
}

/// The pairs that have bytes.
#[tactic(auto, unfolding(crate::specs::Memory::ranges_in))]
fn ranges_in(alloc: Global, address: Cells, size: Cells, reg: &[u8]) -> Result<Vec<Range>, NoMemory>
    ensures { IfOk result (λ ranges. ranges.items ≡ spec.ranges_in address size reg.now) }
{
    let items = items_in(alloc, address, size, reg)?;
    ranges_among(alloc, &items)
}

/// The same of a whole number of pairs, and `None` of others.
#[tactic(auto, unfolding(crate::specs::Memory::whole_ranges))]
fn whole_ranges(
    alloc: Global,
    address: Cells,
    size: Cells,
    reg: &[u8],
) -> Result<Option<Listed<Range>>, NoMemory>
    ensures { IfOk result (λ ranges. ranges ≡ spec.whole_ranges address size reg.now) }
{
    if reg.len() % pair_width(address, size) == 0 {
        Ok(Some(Listed::from_vec(ranges_in(alloc, address, size, reg)?)))
    } else {
        Ok(None)
    }
}

/// The ranges of a well-formed memory node.
#[tactic(auto, unfolding(crate::specs::Memory::ranges_of))]
pub fn ranges_of(alloc: Global, device: &Device) -> Result<Option<Listed<Range>>, NoMemory>
    ensures { IfOk result (λ ranges. ranges ≡ spec.ranges_of device.now) }
{
    if device.is_cpu {
        return Ok(None);
    }
    let Some(address) = device.address else {
        return Ok(None);
    };
    let Some(size) = device.size else {
        return Ok(None);
    };
    match prop(device.node, b"reg") {
        Some(reg) => whole_ranges(alloc, address, size, reg),
        None => Ok(None),
    }
}

/// All ranges.
#[tactic(auto, unfolding(crate::specs::Memory::memory_in))]
pub fn memory_in(alloc: Global, devices: &[Device]) -> Result<Listed<Range>, NoMemory>
    ensures { IfOk result (λ memory. memory ≡ spec.memory_in devices.now) }
{
    let mut memory = Vec::new(alloc);
    for device in devices {
        if let Some(ranges) = ranges_of(alloc, device)? {
            memory.append(&mut ranges.into_vec())?;
        }
    }
    Ok(Listed::from_vec(memory))
}
