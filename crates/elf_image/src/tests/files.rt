//! Files of the tests.

use crate::header::Header;
use crate::segment::Segment;
use outside::NoMemory;
use std::alloc::Global;

/// The header of a sound file with so many program headers, right behind it.
pub fn header(count: u16) -> Header {
    Header {
        class: 1,
        order: 2,
        kind: 2,
        machine: 20,
        entry: 0xC000_0000,
        table_at: 52,
        row_size: 32,
        count,
    }
}

/// A segment that is loaded.
pub fn load(from: u32, virtual_at: u32, at: u32, len: u32, total: u32) -> Segment {
    Segment {
        kind: 1,
        from,
        virtual_at,
        at,
        len,
        total,
    }
}

/// The 52 bytes of the header.
fn put_header(file: &mut Vec<u8>, header: &Header) -> Result<(), NoMemory> {
    file.extend_from_slice(&[0x7F, 0x45, 0x4C, 0x46, header.class, header.order, 1, 0])?;
    file.extend_from_slice(&[0, 0, 0, 0, 0, 0, 0, 0])?;
    file.extend_from_slice(&header.kind.to_be_bytes())?;
    file.extend_from_slice(&header.machine.to_be_bytes())?;
    file.extend_from_slice(&[0, 0, 0, 1])?;
    file.extend_from_slice(&header.entry.to_be_bytes())?;
    file.extend_from_slice(&header.table_at.to_be_bytes())?;
    file.extend_from_slice(&[0, 0, 0, 0, 0, 0, 0, 0, 0, 52])?;
    file.extend_from_slice(&header.row_size.to_be_bytes())?;
    file.extend_from_slice(&header.count.to_be_bytes())?;
    file.extend_from_slice(&[0, 0, 0, 0, 0, 0])?;
    Ok(())
}

/// The 32 bytes of a program header.
fn put_segment(file: &mut Vec<u8>, segment: &Segment) -> Result<(), NoMemory> {
    file.extend_from_slice(&segment.kind.to_be_bytes())?;
    file.extend_from_slice(&segment.from.to_be_bytes())?;
    file.extend_from_slice(&segment.virtual_at.to_be_bytes())?;
    file.extend_from_slice(&segment.at.to_be_bytes())?;
    file.extend_from_slice(&segment.len.to_be_bytes())?;
    file.extend_from_slice(&segment.total.to_be_bytes())?;
    file.extend_from_slice(&[0, 0, 0, 7, 0, 0, 0, 1])?;
    Ok(())
}

/// The file of the header, the program headers and so many bytes of 0.
pub fn file_of(
    alloc: Global,
    header: &Header,
    segments: &[Segment],
    tail: usize,
) -> Result<Vec<u8>, NoMemory> {
    let mut file = Vec::new(alloc);
    put_header(&mut file, header)?;
    for segment in segments {
        put_segment(&mut file, segment)?;
    }
    for _ in 0..tail {
        file.push(0u8)?;
    }
    Ok(file)
}

/// The bytes of the words, the highest of each first.
pub fn bytes_of(alloc: Global, words: &[u32]) -> Result<Vec<u8>, NoMemory> {
    let mut bytes = Vec::new(alloc);
    for word in words {
        bytes.extend_from_slice(&word.to_be_bytes())?;
    }
    Ok(bytes)
}
