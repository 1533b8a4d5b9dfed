//! What no clause says of `dtb`: the bytes of blobs that were worked out by hand.

ghost use Rattle.std.specs.Prelude.{◌≤◌};

use outside::{Bytes, MemFiles, MemSink, NamedFile, NoMemory};
use std::alloc::Global;
use std::test::Fail;
use topaz_run::{Status, topaz};

/// The blob of a root without properties.
const SMALLEST: [u32; 18] = [
    0xD00D_FEED,
    72,
    56,
    72,
    40,
    17,
    16,
    0,
    0,
    16,
    0,
    0,
    0,
    0,
    1,
    0,
    2,
    9,
];

/// The words of blobs of a root with the properties `areg` and `reg`, before the strings. In the first, a NOP
/// stands before the first property, and `reg` is the end of `areg`; the strings have five bytes.
const SHARED: [u32; 25] = [
    0xD00D_FEED,
    105,
    56,
    100,
    40,
    17,
    16,
    0,
    5,
    44,
    0,
    0,
    0,
    0,
    1,
    0,
    4,
    3,
    0,
    0,
    3,
    0,
    1,
    2,
    9,
];

/// In the second, NOPs stand everywhere, and the block has a word behind its end.
const NOPS: [u32; 30] = [
    0xD00D_FEED,
    125,
    56,
    120,
    40,
    17,
    17,
    0,
    5,
    64,
    0,
    0,
    0,
    0,
    4,
    1,
    0,
    4,
    3,
    0,
    0,
    4,
    3,
    0,
    1,
    4,
    2,
    4,
    9,
    4,
];

/// The canonical one of both; its strings have nine bytes.
const CANONICAL: [u32; 24] = [
    0xD00D_FEED,
    105,
    56,
    96,
    40,
    17,
    16,
    0,
    9,
    40,
    0,
    0,
    0,
    0,
    1,
    0,
    3,
    0,
    0,
    3,
    0,
    5,
    2,
    9,
];

/// A root with a child `a` and a property behind it; the strings have five bytes.
const PROPERTY_BEHIND: [u32; 24] = [
    0xD00D_FEED,
    101,
    56,
    96,
    40,
    17,
    16,
    0,
    5,
    40,
    0,
    0,
    0,
    0,
    1,
    0,
    1,
    0x6100_0000,
    2,
    3,
    0,
    0,
    2,
    9,
];

/// The words before and behind one long value of the property `areg`, to which the empty `reg` comes.
const BEFORE_A_VALUE: [u32; 14] = [0xD00D_FEED, 0, 56, 0, 40, 17, 16, 0, 5, 0, 0, 0, 0, 0];

fn push_words(blob: &mut Vec<u8>, words: &[u32]) -> Result<(), NoMemory> {
    for word in words {
        blob.extend_from_slice(&word.to_be_bytes())?;
    }
    Ok(())
}

fn blob_of(alloc: Global, words: &[u32], strings: &[u8]) -> Result<Vec<u8>, NoMemory> {
    let mut blob = Vec::new(alloc);
    push_words(&mut blob, words)?;
    blob.extend_from_slice(strings)?;
    Ok(blob)
}

/// The blob of `areg` with so many zeros, a multiple of 4, and of `reg`.
fn long_blob(alloc: Global, zeros: u32) -> Result<Vec<u8>, NoMemory>
    requires { zeros ≤ 16777216 }
{
    let mut words = BEFORE_A_VALUE;
    words[1] = 101 + zeros;
    words[3] = 96 + zeros;
    words[9] = 40 + zeros;
    let mut blob = blob_of(alloc, &words, &[])?;
    push_words(&mut blob, &[1, 0, 3, zeros, 0])?;
    blob.resize(blob.len() + zeros as usize, 0)?;
    push_words(&mut blob, &[3, 0, 1, 2, 9])?;
    blob.extend_from_slice(b"areg\0")?;
    Ok(blob)
}

/// What `dtb` answers, and what it writes.
fn dtb(alloc: Global, blob: Vec<u8>) -> Result<(Status, MemSink), NoMemory> {
    let mut list = Vec::new(alloc);
    list.push(NamedFile {
        name: Bytes::of(alloc, b"tree.dtb")?,
        bytes: Bytes::from_vec(blob),
    })?;
    let mut files = MemFiles::new(list, Vec::new(alloc));
    let mut out = MemSink::new(alloc, 16_777_216, Vec::new(alloc))?;
    let mut words = Vec::new(alloc);
    words.push(String::from_str(alloc, "dtb")?)?;
    words.push(String::from_str(alloc, "tree.dtb")?)?;
    let status = topaz(alloc, &words, &mut files, &mut out);
    Ok((status, out))
}

#[test]
fn blobs_are_rewritten(rt: HostRuntime) -> Result<(), Fail> {
    let alloc = rt.alloc();
    for (words, strings, written, written_strings) in [
        (
            SMALLEST.as_slice(),
            b"".as_slice(),
            SMALLEST.as_slice(),
            b"".as_slice(),
        ),
        (
            SHARED.as_slice(),
            b"areg\0".as_slice(),
            CANONICAL.as_slice(),
            b"areg\0reg\0".as_slice(),
        ),
        (
            NOPS.as_slice(),
            b"areg\0".as_slice(),
            CANONICAL.as_slice(),
            b"areg\0reg\0".as_slice(),
        ),
        (
            CANONICAL.as_slice(),
            b"areg\0reg\0".as_slice(),
            CANONICAL.as_slice(),
            b"areg\0reg\0".as_slice(),
        ),
        // What lies behind the blob counts for nothing.
        (
            CANONICAL.as_slice(),
            b"areg\0reg\0more".as_slice(),
            CANONICAL.as_slice(),
            b"areg\0reg\0".as_slice(),
        ),
    ] {
        let (status, out) = dtb(alloc, blob_of(alloc, words, strings)?)?;
        assert_eq!(rt; status, Status::Ok);
        assert_eq!(rt;
            out.bytes(),
            blob_of(alloc, written, written_strings)?.as_slice()
        );
    }
    Ok(())
}

#[test]
fn broken_blobs_are_refused_at_their_word(rt: HostRuntime) -> Result<(), Fail> {
    let alloc = rt.alloc();
    for end in (0..72).step_by(4) {
        let mut blob = blob_of(alloc, &SMALLEST, &[])?;
        blob.truncate(end);
        let (status, out) = dtb(alloc, blob)?;
        let line = if end < 40 {
            b"refused B1 at tree.dtb\n"
        } else {
            b"refused B4 at tree.dtb\n"
        };
        assert_eq!(rt; status, Status::Refused, "{end}");
        assert_eq!(rt; out.bytes(), line.as_slice(), "{end}");
    }
    let (status, out) = dtb(alloc, blob_of(alloc, &PROPERTY_BEHIND, b"areg\0")?)?;
    assert_eq!(rt; status, Status::Refused);
    assert_eq!(rt; out.bytes(), b"refused B12 at tree.dtb\n".as_slice());
    Ok(())
}

/// The long blob has 101 bytes beside its zeros, and its canonical one four more.
#[test]
fn blobs_that_grow_too_large_are_refused(rt: HostRuntime) -> Result<(), Fail> {
    let alloc = rt.alloc();
    let (status, out) = dtb(alloc, long_blob(alloc, 16_777_108)?)?;
    assert_eq!(rt; status, Status::Ok);
    assert_eq!(rt; out.bytes().len(), 16_777_213);
    let (status, out) = dtb(alloc, long_blob(alloc, 16_777_112)?)?;
    assert_eq!(rt; status, Status::Refused);
    assert_eq!(rt; out.bytes(), b"refused B4 at tree.dtb\n".as_slice());
    Ok(())
}
