//! What no clause says of `check` and `guest`: what is written of configurations that were worked out by hand.

use crate::check_blobs::*;
use dt_model::{Tree, node_at, prop};
use dt_read::{BlobFault, read};
use outside::{Bytes, MemFiles, MemSink, NamedFile, NoMemory};
use std::alloc::Global;
use std::test::Fail;
use topaz_run::{Status, topaz};

/// Words from a place to another one, both included, that are this one instead.
pub type Change = (usize, usize, u32);

/// The low word of `/areas/b`'s `base`, a page too early.
const OVERLAP: Change = (45, 45, 0xF000);

/// The handle of `/partitions/q`, left out: NOPs are in its place.
const UNLINKED: Change = (168, 179, 4);

/// `/areas`, left out; in its place the root has an empty property, with the name `base`.
const ODD: [Change; 4] = [(23, 23, 3), (24, 24, 0), (25, 25, 11), (26, 52, 4)];

/// The cpu of `/partitions/q`.
fn cpu(number: u32) -> Change {
    (134, 134, number)
}

/// The number of the hardware's second cpu.
fn second(number: u32) -> Change {
    (57, 57, number)
}

/// The word at the place, behind all changes.
fn changed(place: usize, word: u32, changes: &[Change]) -> u32 {
    let mut value = word;
    for (first, last, other) in changes {
        if *first <= place && place <= *last {
            value = *other;
        }
    }
    value
}

/// The bytes of a blob, with changes.
fn blob_of(
    alloc: Global,
    words: &[u32],
    strings: &[u8],
    changes: &[Change],
) -> Result<Bytes, NoMemory> {
    let mut blob = Vec::new(alloc);
    for (place, word) in words.iter().enumerate() {
        blob.extend_from_slice(&changed(place, *word, changes).to_be_bytes())?;
    }
    blob.extend_from_slice(strings)?;
    Ok(Bytes::from_vec(blob))
}

/// The configuration, with changes.
pub fn two(alloc: Global, changes: &[Change]) -> Result<Bytes, NoMemory> {
    blob_of(alloc, &TWO, TWO_STRINGS, changes)
}

/// The configuration without its strings.
fn front_of_two(alloc: Global) -> Result<Bytes, NoMemory> {
    blob_of(alloc, &TWO, b"", &[])
}

/// The hardware, with changes.
pub fn hardware(alloc: Global, changes: &[Change]) -> Result<Bytes, NoMemory> {
    blob_of(alloc, &HARDWARE, HARDWARE_STRINGS, changes)
}

/// The files `c` and `h`; without the hardware there is no `h`.
fn files_of(
    alloc: Global,
    config: Bytes,
    hardware: Option<Bytes>,
) -> Result<Vec<NamedFile>, NoMemory> {
    let mut list = Vec::new(alloc);
    list.push(NamedFile {
        name: Bytes::of(alloc, b"c")?,
        bytes: config,
    })?;
    if let Some(bytes) = hardware {
        list.push(NamedFile {
            name: Bytes::of(alloc, b"h")?,
            bytes,
        })?;
    }
    Ok(list)
}

/// What the words answer and write.
pub fn answer(
    alloc: Global,
    words: &[&str],
    list: Vec<NamedFile>,
) -> Result<(Status, MemSink), NoMemory> {
    let mut files = MemFiles::new(list, Vec::new(alloc));
    let mut out = MemSink::new(alloc, 4096, Vec::new(alloc))?;
    let mut owned = Vec::new(alloc);
    for word in words {
        owned.push(String::from_str(alloc, word)?)?;
    }
    let status = topaz(alloc, &owned, &mut files, &mut out);
    Ok((status, out))
}

/// Whether `check` writes the text, and answers as it says.
fn writes(
    alloc: Global,
    config: Bytes,
    board: Option<Bytes>,
    text: &str,
) -> Result<bool, NoMemory> {
    let list = files_of(alloc, config, board)?;
    let (status, out) = answer(alloc, &["check", "c", "h"], list)?;
    let expected = if text.starts_with("accepted") {
        Status::Ok
    } else if text.starts_with("refused") {
        Status::Refused
    } else {
        Status::ReadFault
    };
    Ok(status == expected && out.bytes() == text.as_bytes())
}

#[test]
fn configurations_are_accepted_or_refused(rt: HostRuntime) -> Result<(), Fail> {
    let alloc = rt.alloc();
    for (changes, text) in [
        ([].as_slice(), "accepted 2 2 2 0\n"),
        ([OVERLAP].as_slice(), "refused C10 at /areas/b\n"),
        ([OVERLAP, cpu(0)].as_slice(), "refused C10 at /areas/b\n"),
        ([cpu(0)].as_slice(), "refused C17 at /partitions/q\n"),
        ([cpu(2)].as_slice(), "refused C16 at /partitions/q\n"),
        ([UNLINKED].as_slice(), "refused C19 at /channels/y\n"),
    ] {
        let board = hardware(alloc, &[])?;
        assert!(rt;
            writes(alloc, two(alloc, changes)?, Some(board), text)?,
            "{text}"
        );
    }
    let twice = hardware(alloc, &[second(0)])?;
    let config = two(alloc, &[cpu(0)])?;
    assert!(rt; writes(alloc, config, Some(twice), "refused H2 at /cpus/cpu@1\n")?);
    Ok(())
}

#[test]
fn the_hardware_is_opened_behind_a_right_configuration(rt: HostRuntime) -> Result<(), Fail> {
    let alloc = rt.alloc();
    assert!(rt; writes(alloc, two(alloc, &ODD)?, None, "refused C2 at /\n")?);
    assert!(rt; writes(alloc, front_of_two(alloc)?, None, "refused B4 at c\n")?);
    assert!(rt; writes(alloc, two(alloc, &[])?, None, "")?);
    let other = Bytes::of(alloc, b"none")?;
    assert!(rt; writes(alloc, two(alloc, &[])?, Some(other), "refused B1 at h\n")?);
    Ok(())
}

/// What `guest c h NAME` answers and writes, with changes to the configuration.
fn guest(alloc: Global, name: &str, changes: &[Change]) -> Result<(Status, MemSink), NoMemory> {
    let list = files_of(alloc, two(alloc, changes)?, Some(hardware(alloc, &[])?))?;
    answer(alloc, &["guest", "c", "h", name], list)
}

/// The value of the property of the node with the path.
fn value<'a>(tree: &'a Tree, path: &str, name: &str) -> Option<&'a [u8]> {
    prop(node_at(tree, path.as_bytes())?, name.as_bytes())
}

#[test]
fn guest_trees_are_written_as_blobs(rt: HostRuntime) -> Result<(), Fail> {
    let (status, out) = guest(rt.alloc(), "p", &[])?;
    assert_eq!(rt; status, Status::Ok);
    let tree = match read(rt.alloc(), out.bytes()) {
        Ok(tree) => tree,
        Err(BlobFault::Rule(_)) => return Err("a blob".into()),
        Err(BlobFault::NoMemory) => return Err("memory".into()),
    };
    for (path, name, expected) in [
        (
            "/memory",
            "reg",
            b"\0\0\0\0\0\0\0\0\0\0\0\0\0\x01\0\0".as_slice(),
        ),
        ("/hypervisor/handles/c", "hv-handle", b"\0\0\0\x01"),
        (
            "/hypervisor/handles/c",
            "interrupts",
            b"\0\0\0\0\0\0\0\0\0\0\0\x01\0\0\0\0",
        ),
        ("/", "model", b"p\0"),
        ("/chosen", "stdout-path", b"/hypervisor/handles/c\0"),
    ] {
        assert_eq!(rt; value(&tree, path, name), Some(expected), "{path} {name}");
    }
    Ok(())
}

#[test]
fn guest_refuses_as_check_does_and_then_the_name(rt: HostRuntime) -> Result<(), Fail> {
    for (name, changes, text) in [
        ("r", [].as_slice(), "refused Q1 at r\n"),
        ("", [].as_slice(), "refused Q1 at \n"),
        ("r", [cpu(0)].as_slice(), "refused C17 at /partitions/q\n"),
    ] {
        let (status, out) = guest(rt.alloc(), name, changes)?;
        assert_eq!(rt; status, Status::Refused);
        assert_eq!(rt; out.bytes(), text.as_bytes(), "{text}");
    }
    Ok(())
}
