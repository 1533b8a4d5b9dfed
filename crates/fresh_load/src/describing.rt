//! Completing the description of a partition.

ghost use Rattle.std.specs.Prelude.{◌≡◌, ◌<◌, true, None, IfOk, IfErr, OnOk, length};
ghost use Rattle.elf_image.specs.Piece.{AreOf};
ghost use Rattle.machine_desc.specs.Private.{is_private_range};
ghost use Rattle.machine_desc.specs.Sound.{IsSound};
ghost use Rattle.fresh_load.specs.Described as spec;

use crate::checking::first_fault;
use crate::pieces::pieces_of;
use elf_image::{Image, ImageFault};
use machine_desc::Desc;
use outside::NoMemory;
use std::alloc::Global;

/// The base with the image's entry and with the pieces of image, tree and spin entries.
#[tactic(auto, unfolding(crate::specs::Described::described))]
fn complete(
    alloc: Global,
    base: Desc,
    file: &[u8],
    image: Image,
    tree: &[u8],
) -> Result<Desc, NoMemory>
    requires sound { IsSound base }
    requires pieces { AreOf (length file.now) image.pieces }
    requires tree { length tree.now < 4294967296 }
    requires kept { spec.first_fault base image tree.now ≡ None }
    ensures { IfOk result (λ desc. desc ≡ spec.described base file.now image tree.now) }
{
    let entry = image.entry as u32;
    let pieces = pieces_of(alloc, &base, file, image.pieces.as_slice(), tree)?;
    Ok(Desc {
        entry,
        pieces,
        ..base
    })
}

/// Completes the base of a partition by the image that a file has and by the blob of its device tree (ePAPR 1.1, chapter
/// 8): the image's entry, and in this order the image's pieces, the tree at the start of its window, and with more than
/// one core the spin entries (5.5.2) of the others near the window's end. Where the base has pieces, they are left out.
/// All addresses are logical.
///
/// Refuses by the least number of the rules I4 to I7 that is broken: I4, some byte of a piece isn't private; I5, the
/// entry is no multiple of 4, isn't in the first 64 MiB, or isn't private; I6, the tree is longer than its window, whose
/// last 512 bytes with more than one core are for spin entries; I7, some byte of a piece is in the window.
#[tactic(auto, using(crate::proofs::Starting::startable))]
pub fn describe(
    alloc: Global,
    base: Desc,
    file: &[u8],
    image: Image,
    tree: &[u8],
) -> Result<Desc, ImageFault>
    requires sound { IsSound base }
    requires pieces { AreOf (length file.now) image.pieces }
    requires tree { length tree.now < 4294967296 }
    ensures kept { OnOk result (spec.first_fault base image tree.now ≡ None) }
    ensures value { IfOk result (λ desc. desc ≡ spec.described base file.now image tree.now) }
    ensures broken { IfErr result (λ fault. spec.Says fault (spec.first_fault base image tree.now)) }
    ensures startable { is_private_range base.regions base.tree_at base.tree_size ≡ true → IfOk result (λ desc. IsSound desc) }
{
    match first_fault(&base, &image, tree) {
        Some(number) => Err(ImageFault::Rule(number)),
        None => Ok(complete(alloc, base, file, image, tree)?),
    }
}
