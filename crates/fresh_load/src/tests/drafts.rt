//! Descriptions and images in short.

ghost use Rattle.std.specs.Prelude.{◌≡◌, ◌<◌, length};
ghost use Rattle.std.specs.List.{list_all};
ghost use Rattle.elf_image.specs.Piece.{is_piece_of, AreOf};
ghost use Rattle.machine_desc.specs.Sound.{IsSound};

use elf_image::{Image, PlanPiece};
use machine_desc::{Desc, Piece, Region, sound};
use outside::{Bytes, Listed, NoMemory};
use std::alloc::Global;
use std::process::Abort;

/// A region that lies as high in real memory as in the partition's.
pub fn region(logical: u64, size: u32, extent: u32, private: bool) -> Region {
    Region {
        logical,
        size,
        extent,
        real: logical,
        private,
    }
}

/// A partition of these regions and so many cores, without image and tree.
pub fn base_of(
    alloc: Global,
    regions: &[Region],
    count: u32,
    tree_at: u64,
    tree_size: u64,
) -> Result<Desc, NoMemory> {
    let mut cores = Vec::new(alloc);
    for core in 0..count {
        cores.push(core)?;
    }
    Ok(Desc {
        name: Bytes::of(alloc, b"p")?,
        regions: Listed::from_vec(Vec::from_slice(alloc, regions)?),
        cores: Listed::from_vec(cores),
        ports: Listed::new(alloc),
        tree_at,
        tree_size,
        entry: 0,
        held: false,
        pieces: Listed::new(alloc),
    })
}

/// An image of these pieces, each `(at, from, len, total)`.
pub fn image_of(
    alloc: Global,
    entry: u64,
    pieces: &[(u64, usize, usize, u64)],
) -> Result<Image, NoMemory> {
    let mut made = Vec::new(alloc);
    for &(at, from, len, total) in pieces {
        made.push(PlanPiece {
            at,
            from,
            len,
            total,
        })?;
    }
    Ok(Image {
        pieces: Listed::from_vec(made),
        entry,
    })
}

/// A piece of a description.
pub fn piece_of(alloc: Global, at: u64, bytes: &[u8], len: u32) -> Result<Piece, NoMemory> {
    Ok(Piece {
        at,
        bytes: Bytes::of(alloc, bytes)?,
        len,
    })
}

/// Whether the piece takes what the file has.
#[tactic(auto, unfolding(elf_image::specs::Piece::is_piece_of))]
fn is_of(size: usize, piece: &PlanPiece) -> bool
    ensures { result ≡ is_piece_of size piece.now }
{
    (piece.len == 0 || piece.from as u128 + piece.len as u128 <= size as u128)
        && piece.len as u128 <= u128::from(piece.total)
        && piece.total < 0x1_0000_0000
}

/// Whether the pieces do.
fn are_of(size: usize, pieces: &[PlanPiece]) -> bool
    ensures { result ≡ list_all (is_piece_of size) pieces.now }
{
    pieces.iter().all(|piece| is_of(size, piece))
}

/// Sees that `describe` may be called.
pub fn expect_fit(rt: &impl Abort, base: &Desc, file: &[u8], image: &Image, tree: &[u8])
    ensures sound { IsSound base.now }
    ensures pieces { AreOf (length file.now) image.now.pieces }
    ensures tree { length tree.now < 4294967296 }
{
    assert!(rt; sound(base));
    assert!(rt; are_of(file.len(), image.pieces.as_slice()));
    assert!(rt; tree.len() < 0x1_0000_0000);
}
