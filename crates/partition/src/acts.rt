//! What a step answers.

ghost use Rattle.std.specs.Prelude.{◌≡◌, ◌≤◌, filter, length};
ghost use Rattle.core_step.specs.Step.{answered};
ghost use Rattle.core_step.specs.declared.answer.Wrote.{Wrote as WroteValue};
ghost use Rattle.partition.specs.Step.{written};
ghost use Rattle.partition.specs.Lending.{is_shared_extent};

use arrayvec::ArrayVec;
use core_step::{Hw, Wrote};
use machine_desc::{Act, Region};

/// What a step did that others see.
#[derive(Debug, Drop)]
pub struct Acts {
    /// What it did.
    pub act: Act,
    /// The ranges of shared extents that its instruction wrote, in order.
    pub shared: ArrayVec<Wrote, 2>,
}

/// Whether the extent is that of a shared region.
fn is_shared_extent(regions: &[Region], extent: u32) -> bool
    ensures { result ≡ is_shared_extent regions.now extent }
{
    regions
        .iter()
        .any(|region| !region.private && region.extent == extent)
}

/// Those of the ranges that lie in shared regions.
fn shared_of(regions: &[Region], ranges: &[Wrote]) -> ArrayVec<Wrote, 2>
    requires { length ranges.now ≤ 2 }
    ensures { result.items ≡ filter (λ (range : WroteValue). is_shared_extent regions.now range.extent) ranges.now }
{
    let mut shared = ArrayVec::new();
    for range in ranges {
        if is_shared_extent(regions, range.extent) {
            shared.push(*range);
        }
    }
    shared
}

/// What of an instruction's ranges lies in shared regions.
pub fn shared_ranges(regions: &[Region], answer: &Hw) -> ArrayVec<Wrote, 2>
    ensures { result.items ≡ filter (λ (range : WroteValue). is_shared_extent regions.now range.extent) (written (answered answer.now)) }
{
    match answer {
        Hw::Retired(ranges) => shared_of(regions, ranges.as_slice()),
        _ => ArrayVec::new(),
    }
}
