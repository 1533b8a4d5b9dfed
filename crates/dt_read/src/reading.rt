//! Reading a whole blob.

ghost use Rattle.std.specs.Prelude.{◌≡◌, ◌≤◌, ◌+◌, None, MatchResult, IfOk, length, drop};
ghost use Rattle.dt_model.specs.declared.Tree.{Tree as SeenTree};
ghost use Rattle.dt_model.specs.Header.{reserve_part, structure_part, strings_part};
ghost use Rattle.dt_model.specs.Header as spec;
ghost use Rattle.dt_model.specs.Blob.{IsBlobOf, IsSameTree};
ghost use Rattle.dt_read.specs.HeaderView.{header_view};
ghost use Rattle.dt_model.specs.Fault.{first_fault};
ghost use Rattle.dt_read.specs.Given.{FailsBy, ReadsRoot};

use crate::builder::Builder;
use crate::fault::BlobFault;
use crate::header::{Header, header_of};
use crate::reserve::reserve_of;
use crate::token::token_at;
use dt_model::{Node, Tree};
use std::alloc::Global;

/// The root that a structure block holds.
fn root_of(alloc: Global, strings: &[u8], block: &[u8]) -> Result<Node, BlobFault>
    ensures { ReadsRoot strings.now block.now result }
{
    let mut builder = Builder::new();
    let mut rest = block;
    loop {
        let (token, after) = token_at(strings, rest)?;
        if token.is_end() {
            return builder.finish();
        }
        builder = builder.take(alloc, token)?;
        rest = after;
    }
}

/// What stands behind so many bytes.
fn behind(bytes: &[u8], at: usize) -> &[u8]
    ensures { result.now ≡ drop at bytes.now }
{
    if bytes.len() < at {
        bytes.split_at(bytes.len()).1
    } else {
        bytes.split_at(at).1
    }
}

/// The blob from the reserve map on.
fn reserve_bytes<'a>(blob: &'a [u8], header: &Header) -> &'a [u8]
    requires within { header.now.total_size ≤ length blob.now }
    requires same { header_view header.now ≡ spec.header_of blob.now }
    ensures { result.now ≡ reserve_part blob.now }
{
    behind(
        blob.split_at(header.total_size as usize).0,
        header.reserve_at as usize,
    )
}

/// The structure block.
fn structure_bytes<'a>(blob: &'a [u8], header: &Header) -> &'a [u8]
    requires within { header.now.structure_at + header.now.structure_size ≤ length blob.now }
    requires same { header_view header.now ≡ spec.header_of blob.now }
    ensures { result.now ≡ structure_part blob.now }
{
    let behind = blob.split_at(header.structure_at as usize).1;
    behind.split_at(header.structure_size as usize).0
}

/// The strings block.
fn strings_bytes<'a>(blob: &'a [u8], header: &Header) -> &'a [u8]
    requires within { header.now.strings_at + header.now.strings_size ≤ length blob.now }
    requires same { header_view header.now ≡ spec.header_of blob.now }
    ensures { result.now ≡ strings_part blob.now }
{
    let behind = blob.split_at(header.strings_at as usize).1;
    behind.split_at(header.strings_size as usize).0
}

/// The tree behind a header that breaks no rule.
fn tree_of(alloc: Global, blob: &[u8]) -> Result<Tree, BlobFault>
    ensures { MatchResult result
        (λ tree. IsBlobOf blob.now tree × (first_fault blob.now ≡ None))
        (λ fault. FailsBy fault (first_fault blob.now)) }
{
    let header = header_of(blob)?;
    let reserve = reserve_of(alloc, reserve_bytes(blob, &header))?;
    let root = root_of(
        alloc,
        strings_bytes(blob, &header),
        structure_bytes(blob, &header),
    )?;
    Ok(Tree {
        reserve,
        boot_cpu: header.boot_cpu,
        root,
    })
}

/// The tree that the bytes are a blob of (ePAPR 1.1, chapter 8). Tokens are read one by one onto a list of open nodes, so
/// nothing calls itself, and each open node has an ordered set of the names in it, so that many names cost little more
/// than few.
pub fn read(alloc: Global, blob: &[u8]) -> Result<Tree, BlobFault>
    // What is read is what the bytes say, and the tree fits.
    ensures tree { IfOk result (λ tree. IsBlobOf blob.now tree) }
    // Only bytes without a fault are read, and else the rule is the first that is broken, unless memory runs out.
    ensures exact { MatchResult result
        (λ _. first_fault blob.now ≡ None)
        (λ fault. FailsBy fault (first_fault blob.now)) }
    // A blob of a tree is read as that tree, unless memory runs out.
    ensures only { (tree : SeenTree) → IsBlobOf blob.now tree
        → MatchResult result
        (λ found. IsSameTree found tree)
        (λ fault. fault ≡ BlobFault.NoMemory) }
{
    tree_of(alloc, blob)
}
