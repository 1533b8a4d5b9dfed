//! What the memory of a partition begins with, piece after piece.

ghost use Rattle.std.specs.Prelude.{◌≡◌, ◌≤◌, ◌<◌, ◌-◌, ◌++◌, ◌∷◌, IfOk, OnOk, IsTrue, length, map};
ghost use Rattle.std.specs.List.{range_with_len};
ghost use Rattle.elf_image.specs.Piece.{is_piece_of, AreOf};
ghost use Rattle.machine_desc.specs.Sound.{IsSound};
ghost use Rattle.fresh_load.specs.Described as spec;

use crate::bounds::{SPIN_ROOM, SPIN_SIZE, SPIN_STEP};
use elf_image::PlanPiece;
use machine_desc::{Desc, Piece};
use outside::{Bytes, Listed, NoMemory};
use std::alloc::Global;

/// The bytes of the file that the piece takes.
#[tactic(auto, unfolding(elf_image::specs::Piece::is_piece_of))]
fn bytes_of(alloc: Global, file: &[u8], piece: &PlanPiece) -> Result<Bytes, NoMemory>
    requires { IsTrue (is_piece_of (length file.now) piece.now) }
    ensures { IfOk result (λ bytes. bytes ≡ (spec.image_piece file.now piece.now).bytes) }
{
    if piece.len == 0 {
        Bytes::of(alloc, &[])
    } else {
        Bytes::of(alloc, &file[piece.from..piece.from + piece.len])
    }
}

/// The piece of the image with its bytes.
#[tactic(auto, unfolding(elf_image::specs::Piece::is_piece_of))]
fn image_piece(alloc: Global, file: &[u8], piece: &PlanPiece) -> Result<Piece, NoMemory>
    requires { IsTrue (is_piece_of (length file.now) piece.now) }
    ensures { IfOk result (λ made. made ≡ spec.image_piece file.now piece.now) }
{
    Ok(Piece {
        at: piece.at,
        bytes: bytes_of(alloc, file, piece)?,
        len: piece.total as u32,
    })
}

/// The pieces of the image with their bytes.
fn image_pieces(alloc: Global, file: &[u8], plan: &[PlanPiece]) -> Result<Listed<Piece>, NoMemory>
    requires { AreOf (length file.now) plan.now }
    ensures { IfOk result (λ pieces. pieces ≡ map (spec.image_piece file.now) plan.now) }
{
    let mut pieces = Listed::new(alloc);
    for piece in plan {
        pieces.push(image_piece(alloc, file, piece)?)?;
    }
    Ok(pieces)
}

/// The device tree at the start of its window.
fn tree_piece(alloc: Global, base: &Desc, tree: &[u8]) -> Result<Piece, NoMemory>
    requires { length tree.now < 4294967296 }
    ensures { IfOk result (λ made. made ≡ spec.tree_piece base.now tree.now) }
{
    Ok(Piece {
        at: base.tree_at,
        bytes: Bytes::of(alloc, tree)?,
        len: tree.len() as u32,
    })
}

/// The spin entry of the core, as it waits.
#[tactic(auto, unfolding(crate::specs::Described::spin_entry))]
fn spin_entry(alloc: Global, core: u32) -> Result<Bytes, NoMemory>
    ensures { IfOk result (λ bytes. bytes ≡ spec.spin_entry core) }
{
    let mut bytes = Vec::new(alloc);
    bytes.extend_from_slice(&1u64.to_be_bytes())?;
    bytes.extend_from_slice(&0u64.to_be_bytes())?;
    bytes.extend_from_slice(&0u32.to_be_bytes())?;
    bytes.extend_from_slice(&core.to_be_bytes())?;
    Ok(Bytes::from_vec(bytes))
}

/// The spin entry of the core in its place, which a sound description has below 2^64.
fn spin_piece(alloc: Global, base: &Desc, core: usize) -> Result<Piece, NoMemory>
    requires sound { IsSound base.now }
    requires first { 1 ≤ core }
    requires last { core < length base.now.cores }
    ensures { IfOk result (λ made. made ≡ spec.spin_piece base.now core) }
{
    let behind = u128::from(base.tree_at) + u128::from(base.tree_size) + SPIN_STEP * core as u128;
    Ok(Piece {
        at: (behind - SPIN_ROOM) as u64,
        bytes: spin_entry(alloc, core as u32)?,
        len: SPIN_SIZE,
    })
}

/// Puts the spin entries of all cores but the first behind the pieces.
#[tactic(auto, unfolding(crate::specs::Described::spin_pieces))]
fn add_spin_pieces(alloc: Global, base: &Desc, pieces: &mut Listed<Piece>) -> Result<(), NoMemory>
    requires { IsSound base.now }
    ensures { OnOk result (pieces.new ≡ pieces.old ++ spec.spin_pieces base.now) }
{
    let count = base.cores.as_slice().len();
    for core in 1..count {
        pieces.push(spin_piece(alloc, base, core)?)?;
    }
    Ok(())
}

/// The pieces of the image, then the tree, then the spin entries.
#[tactic(auto, unfolding(crate::specs::Described::pieces_of))]
pub fn pieces_of(
    alloc: Global,
    base: &Desc,
    file: &[u8],
    plan: &[PlanPiece],
    tree: &[u8],
) -> Result<Listed<Piece>, NoMemory>
    requires sound { IsSound base.now }
    requires pieces { AreOf (length file.now) plan.now }
    requires tree { length tree.now < 4294967296 }
    ensures { IfOk result (λ pieces. pieces ≡ spec.pieces_of base.now file.now plan.now tree.now) }
{
    let mut pieces = image_pieces(alloc, file, plan)?;
    pieces.push(tree_piece(alloc, base, tree)?)?;
    add_spin_pieces(alloc, base, &mut pieces)?;
    Ok(pieces)
}
