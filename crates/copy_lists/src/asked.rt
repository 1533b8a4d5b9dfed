//! What the caller's registers ask for: the handle of the source in r3 and that of the target in r4, the logical address
//! of the list in r5 and r6, and the number of its entries in r7.

ghost use Rattle.std.specs.Prelude.{◌≡◌, ◌-◌};
ghost use Rattle.copy_lists.specs.Lists as spec;

use crate::list::MOST_ENTRIES;
use guest_regs::Regs;
use hcall_abi::is_own;
use machine_desc::{Port, Span};
use partition_manager::is_manage;

/// Whether the caller copies to the managed partition, and else from it.
pub fn is_to_managed(regs: &Regs) -> bool
    ensures { result ≡ spec.is_to_managed regs.now }
{
    is_own(regs.gpr(3))
}

/// The handle of the managed partition.
pub fn managed_handle(regs: &Regs) -> u32
    ensures { result ≡ spec.managed_handle regs.now }
{
    if is_to_managed(regs) {
        regs.gpr(4)
    } else {
        regs.gpr(3)
    }
}

/// Whether exactly one of both handles names the caller itself.
fn is_one_own(source: u32, target: u32) -> bool
    ensures { result ≡ spec.is_one_own source target }
{
    if is_own(source) {
        !is_own(target)
    } else {
        is_own(target)
    }
}

/// The logical address of the list: its low half in r5 and its high half in r6.
pub fn list_address(regs: &Regs) -> u64
    ensures { result ≡ spec.list_address regs.now }
{
    u64::from(regs.gpr(6)) * 0x1_0000_0000 + u64::from(regs.gpr(5))
}

/// How many entries the list has.
pub fn list_count(regs: &Regs) -> u32
    ensures { result ≡ spec.list_count regs.now }
{
    regs.gpr(7)
}

/// Whether it is the caller itself and a partition that it manages, and no more entries than a list may have.
pub fn is_copy_asked(ports: &[Port], regs: &Regs) -> bool
    ensures { result ≡ spec.is_copy_asked ports.now regs.now }
{
    is_one_own(regs.gpr(3), regs.gpr(4))
        && is_manage(ports, managed_handle(regs))
        && list_count(regs) as usize <= MOST_ENTRIES
}

/// The private ranges of the partition that the handle manages.
pub fn managed_spans(ports: &[Port], handle: u32) -> &[Span]
    ensures { result.now ≡ spec.managed_spans ports.now handle }
{
    if handle == 0 {
        return &[];
    }
    match ports.get((handle - 1) as usize) {
        Some(Port::Manage { private, .. }) => private.as_slice(),
        _ => &[],
    }
}
