//! Writing a tree.

ghost use Rattle.std.specs.Prelude.{◌≡◌, ◌<◌, ◌≤◌, ◌+◌, ◌*◌, [], ◌∷◌, ◌++◌, length, IfOk, OnOk, IsErrOf};
ghost use Rattle.std.specs.Bool.{OnTrue, OnFalse};
ghost use Rattle.std.specs.List.{flat_map};
ghost use Rattle.dt_model.specs.Fit.{Fits};
ghost use Rattle.dt_model.specs.Token.{Finish};
ghost use Rattle.dt_model.specs.Node.{node_tokens};
ghost use Rattle.dt_write.specs.Layout.{with_tokens, size_of};
ghost use Rattle.dt_model.specs.Canonical.{word, strings_of, entry_bytes, reserve_map_of, header_bytes, blob_of, canonical, most_bytes};

use crate::fault::WriteFault;
use crate::layout::Layout;
use crate::names::MOST_BYTES;
use crate::node::write_node;
use crate::words::{push_double, push_word};
use dt_model::{Node, Reserve, Tree};
use std::alloc::{AllocError, Global};

/// The canonical blob of the tree (ePAPR 1.1, chapter 8). `TooLarge` comes where it would have more than
/// 16,777,216 bytes.
pub fn write(alloc: Global, tree: &Tree) -> Result<Vec<u8>, WriteFault>
    requires { Fits tree.now }
    ensures blob { IfOk result (λ blob. blob.items ≡ canonical tree.now) }
    ensures limit { IfOk result (λ blob. length blob.items ≤ most_bytes) }
    ensures too_large { IsErrOf result WriteFault.TooLarge → most_bytes < length (canonical tree.now) }
{
    let layout = lay_out(alloc, &tree.root)?;
    assemble(alloc, tree.boot_cpu, &tree.reserve, &layout)
}

/// Lays out the tokens of the tree.
fn lay_out(alloc: Global, root: &Node) -> Result<Layout<'_>, WriteFault>
    ensures laid { IfOk result (λ layout. layout ≡ with_tokens (record { structure = []; names = [] }) (node_tokens root.now ++ Finish ∷ [])) }
    ensures too_large { IsErrOf result WriteFault.TooLarge
        → most_bytes < size_of (with_tokens (record { structure = []; names = [] }) (node_tokens root.now ++ Finish ∷ [])) }
{
    let mut layout = Layout::new(alloc);
    write_node(&mut layout, root)?;
    layout.finish()?;
    Ok(layout)
}

/// Puts the blocks behind the header.
fn assemble(
    alloc: Global,
    boot_cpu: u32,
    entries: &[Reserve],
    layout: &Layout<'_>,
) -> Result<Vec<u8>, WriteFault>
    requires { length entries.now ≤ 1024 }
    ensures blob { IfOk result (λ blob. blob.items
        ≡ blob_of boot_cpu (reserve_map_of entries.now) layout.now.structure (strings_of layout.now.names)) }
    ensures limit { IfOk result (λ blob. length blob.items ≤ most_bytes) }
    ensures too_large { IsErrOf result WriteFault.TooLarge
        → most_bytes < length (blob_of boot_cpu (reserve_map_of entries.now) layout.now.structure (strings_of layout.now.names)) }
{
    let structure = layout.structure();
    let reserve_size = 16 * (entries.len() + 1);
    let strings_size = layout.names().strings_len();
    if is_too_large(reserve_size, structure.len(), strings_size) {
        return Err(WriteFault::TooLarge);
    }
    let mut blob = Vec::new(alloc);
    push_header(
        &mut blob,
        boot_cpu,
        reserve_size as u32,
        structure.len() as u32,
        strings_size as u32,
    )?;
    push_reserve_map(&mut blob, entries)?;
    blob.extend_from_slice(structure)?;
    layout.names().push_strings(&mut blob)?;
    Ok(blob)
}

/// Whether blocks of these sizes make too large a blob.
fn is_too_large(reserve: usize, structure: usize, strings: usize) -> bool
    requires small { reserve ≤ most_bytes }
    requires few { strings ≤ most_bytes }
    ensures large { OnTrue result (most_bytes < 40 + reserve + structure + strings) }
    ensures fits { OnFalse result (40 + reserve + structure + strings ≤ most_bytes) }
{
    structure > MOST_BYTES || 40 + reserve + structure + strings > MOST_BYTES
}

/// Appends the header.
fn push_header(
    out: &mut Vec<u8>,
    boot_cpu: u32,
    reserve_size: u32,
    structure_size: u32,
    strings_size: u32,
) -> Result<(), AllocError>
    requires { reserve_size + structure_size + strings_size ≤ most_bytes }
    ensures { OnOk result (out.new.items ≡ out.old.items ++ header_bytes boot_cpu reserve_size structure_size strings_size) }
{
    let structure_at = 40 + reserve_size;
    let strings_at = structure_at + structure_size;
    push_words(
        out,
        &[
            0xd00d_feed,
            strings_at + strings_size,
            structure_at,
            strings_at,
            40,
            17,
            16,
            boot_cpu,
            strings_size,
            structure_size,
        ],
    )
}

/// Appends numbers of four bytes.
fn push_words(out: &mut Vec<u8>, numbers: &[u32]) -> Result<(), AllocError>
    ensures { OnOk result (out.new.items ≡ out.old.items ++ flat_map word numbers.now) }
{
    for number in numbers {
        push_word(out, *number)?;
    }
    Ok(())
}

/// Appends entries of the reserve map.
fn push_entries(out: &mut Vec<u8>, entries: &[Reserve]) -> Result<(), AllocError>
    ensures { OnOk result (out.new.items ≡ out.old.items ++ flat_map entry_bytes entries.now) }
{
    for entry in entries {
        push_entry(out, entry)?;
    }
    Ok(())
}

/// Appends an entry of the reserve map.
fn push_entry(out: &mut Vec<u8>, entry: &Reserve) -> Result<(), AllocError>
    ensures { OnOk result (out.new.items ≡ out.old.items ++ entry_bytes entry.now) }
{
    push_double(out, entry.address)?;
    push_double(out, entry.size)
}

/// Appends the reserve map with its end.
fn push_reserve_map(out: &mut Vec<u8>, entries: &[Reserve]) -> Result<(), AllocError>
    ensures { OnOk result (out.new.items ≡ out.old.items ++ reserve_map_of entries.now) }
{
    push_entries(out, entries)?;
    out.extend_from_slice(&[0; 16])?;
    Ok(())
}
