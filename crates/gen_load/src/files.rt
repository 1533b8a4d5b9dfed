//! The images and the script.

ghost use Rattle.std.specs.Prelude.{◌≡◌, ◌<◌, ◌≤◌, true, [], ◌∷◌, ◌++◌, IfOk, OnOk, length};
ghost use Rattle.std.specs.List.{list_all};
ghost use Rattle.gen_load.specs.Files as spec;
ghost use Rattle.gen_load.specs.Laws.{are_below};

use crate::names::{digit, name_of};
use dt_make::push_cell;
use outside::{Bytes, Listed, NamedFile, NoMemory};
use std::alloc::Global;

/// `li r14, 0`.
const LOAD_START: u32 = 0x39C0_0000;

/// What follows. Its three parts send the count in r14 on handle 2, add what handle 3 receives to r15, and send that sum on
/// handle 1.
const LOOP_WORDS: [u32; 20] = [
    0x3D60_0001,
    0x616B_0001,
    0x3860_0002,
    0x3880_0004,
    0x39CE_0001,
    0x7DC5_7378,
    0x4400_0022,
    0x3D60_0001,
    0x616B_0002,
    0x3860_0003,
    0x3880_0004,
    0x4400_0022,
    0x7DEF_2A14,
    0x3D60_0001,
    0x616B_0001,
    0x3860_0001,
    0x3880_0004,
    0x7DE5_7B78,
    0x4400_0022,
    0x4BFF_FFB4,
];

/// The image of a partition that counts from there.
fn image(alloc: Global, start: u32) -> Result<Vec<u8>, NoMemory>
    requires { start < 32768 }
    ensures { IfOk result (λ image. image.items ≡ spec.image_of start) }
{
    let mut image = Vec::new(alloc);
    push_cell(&mut image, LOAD_START + start)?;
    for word in LOOP_WORDS {
        push_cell(&mut image, word)?;
    }
    Ok(image)
}

/// The file of that image, for the partition of that place.
fn image_file(alloc: Global, place: u32, start: u32) -> Result<NamedFile, NoMemory>
    requires few { place < 8 }
    requires small { start < 32768 }
    ensures { IfOk result (λ file. file ≡ spec.image_file place start) }
{
    let bytes = image(alloc, start)?;
    Ok(NamedFile {
        name: Bytes::of(alloc, &name_of(b'g', place))?,
        bytes: Bytes::from_vec(bytes),
    })
}

/// The images of partitions that count from there, each.
pub fn images(alloc: Global, starts: &[u32]) -> Result<Listed<NamedFile>, NoMemory>
    requires few { length starts.now ≤ 8 }
    requires small { list_all (are_below 32768) starts.now ≡ true }
    ensures { IfOk result (λ images. images ≡ spec.images_from 0 starts.now) }
{
    let mut images = Listed::new(alloc);
    let mut place = 0u32;
    for start in starts {
        images.push(image_file(alloc, place, *start)?)?;
        place += 1;
    }
    Ok(images)
}

/// The script of one line, which says whose turn comes when.
pub fn script(alloc: Global, order: &[u32]) -> Result<Bytes, NoMemory>
    requires { list_all (are_below 10) order.now ≡ true }
    ensures { IfOk result (λ script. script ≡ spec.script_of order.now) }
{
    let mut text = Vec::from_slice(alloc, b"order")?;
    for core in order {
        text.push(b' ')?;
        text.push(digit(*core))?;
    }
    text.push(b'\n')?;
    Ok(Bytes::from_vec(text))
}
