//! Blobs of trees that tests write in short.
//!
//! A line is a node: a point for each level below the root, its name, and its properties behind blanks. A property is
//! `name=text`, or `name:cells` with cells in hexadecimal and commas between them, or a name alone, without a value.

use outside::{Bytes, NoMemory};
use std::alloc::Global;

fn put_word(bytes: &mut Vec<u8>, word: u32) -> Result<(), NoMemory> {
    bytes.extend_from_slice(&word.to_be_bytes())?;
    Ok(())
}

/// A count of bytes; blobs of tests are small.
fn put_count(bytes: &mut Vec<u8>, count: usize) -> Result<(), NoMemory> {
    put_word(bytes, u32::try_from(count).unwrap_or(u32::MAX))
}

/// The bytes, and zeros up to a multiple of 4.
fn put_padded(bytes: &mut Vec<u8>, piece: &[u8]) -> Result<(), NoMemory> {
    bytes.extend_from_slice(piece)?;
    let behind = piece.len() % 4;
    if behind > 0 {
        for _zero in behind..4 {
            bytes.push(0u8)?;
        }
    }
    Ok(())
}

/// The text and a NUL.
fn text_of(alloc: Global, text: &str) -> Result<Vec<u8>, NoMemory> {
    let mut value = Vec::from_slice(alloc, text.as_bytes())?;
    value.push(0u8)?;
    Ok(value)
}

/// The cells, four bytes each.
fn cells_of(alloc: Global, cells: &str) -> Result<Vec<u8>, NoMemory> {
    let mut value = Vec::new(alloc);
    for cell in cells.split(',') {
        put_word(&mut value, u32::from_str_radix(cell, 16).unwrap_or(0))?;
    }
    Ok(value)
}

/// What the tokens and the strings of a blob come to.
#[derive(Drop)]
struct Blocks {
    structure: Vec<u8>,
    strings: Vec<u8>,
}

fn put_property(blocks: &mut Blocks, name: &str, value: &[u8]) -> Result<(), NoMemory> {
    put_word(&mut blocks.structure, 3)?;
    put_count(&mut blocks.structure, value.len())?;
    put_count(&mut blocks.structure, blocks.strings.len())?;
    put_padded(&mut blocks.structure, value)?;
    blocks.strings.extend_from_slice(name.as_bytes())?;
    blocks.strings.push(0u8)?;
    Ok(())
}

/// A property as it is written in short.
fn put_short(alloc: Global, blocks: &mut Blocks, short: &str) -> Result<(), NoMemory> {
    if let Some((name, text)) = short.split_once('=') {
        return put_property(blocks, name, &text_of(alloc, text)?);
    }
    if let Some((name, cells)) = short.split_once(':') {
        return put_property(blocks, name, &cells_of(alloc, cells)?);
    }
    put_property(blocks, short, &[])
}

/// The node of a line, inside so many others; those that were open beyond end before it.
fn put_node(
    alloc: Global,
    blocks: &mut Blocks,
    line: &str,
    open: usize,
) -> Result<usize, NoMemory> {
    let words = line.trim_start_matches('.');
    let level = line.len().saturating_sub(words.len());
    for _node in level..open {
        put_word(&mut blocks.structure, 2)?;
    }
    let mut is_name = true;
    for word in words.split(' ') {
        if is_name {
            put_word(&mut blocks.structure, 1)?;
            put_padded(&mut blocks.structure, &text_of(alloc, word)?)?;
        } else {
            put_short(alloc, blocks, word)?;
        }
        is_name = false;
    }
    Ok(level.saturating_add(1))
}

/// The blob of a tree in short, whose root has the properties of the first line.
pub fn blob(alloc: Global, text: &str) -> Result<Bytes, NoMemory> {
    let mut blocks = Blocks {
        structure: Vec::new(alloc),
        strings: Vec::new(alloc),
    };
    let mut open = 0;
    for line in text.split('\n') {
        open = put_node(alloc, &mut blocks, line, open)?;
    }
    for _node in 0..open {
        put_word(&mut blocks.structure, 2)?;
    }
    put_word(&mut blocks.structure, 9)?;
    let strings_at = blocks.structure.len().saturating_add(56);
    let total = strings_at.saturating_add(blocks.strings.len());
    let mut bytes = Vec::new(alloc);
    put_word(&mut bytes, 0xD00D_FEED)?;
    for count in [
        total,
        56,
        strings_at,
        40,
        17,
        16,
        0,
        blocks.strings.len(),
        blocks.structure.len(),
        0,
        0,
        0,
        0,
    ] {
        put_count(&mut bytes, count)?;
    }
    bytes.extend_from_slice(&blocks.structure)?;
    bytes.extend_from_slice(&blocks.strings)?;
    Ok(Bytes::from_vec(bytes))
}
