//! What a caller names by a handle and by an entry.

ghost use Rattle.std.specs.Prelude.{◌≡◌};
ghost use Rattle.partition_manager.specs.Decisions as spec;

use hcall_abi::is_own;
use machine_desc::Port;

/// Where the area ends that is mapped as a partition starts: 64 MiB.
const MAPPED_END: u32 = 0x0400_0000;

/// Whether a handle is one of a managed partition. Handles count from 1: handle h is the port at h - 1.
pub fn is_manage(ports: &[Port], handle: u32) -> bool
    ensures { result ≡ spec.is_manage_at ports.now handle }
{
    if handle == 0 {
        return false;
    }
    match ports.get((handle - 1) as usize) {
        Some(Port::Manage { .. }) => true,
        _ => false,
    }
}

/// Whether a handle names a partition: the caller itself, or one that it manages.
pub fn names_partition(ports: &[Port], handle: u32) -> bool
    ensures { result ≡ spec.names_partition ports.now handle }
{
    is_own(handle) || is_manage(ports, handle)
}

/// Whether a partition may start at this effective address.
pub fn is_entry(entry: u32) -> bool
    ensures { result ≡ spec.is_entry entry }
{
    entry % 4 == 0 && entry < MAPPED_END
}
