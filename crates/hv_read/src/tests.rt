//! What no clause says: that calls succeed where memory is ample. The blobs are worked out by hand.

use super::{Misread, read_config, read_hardware};
use hv_config::Rule;
use outside::NoMemory;
use std::alloc::Global;
use std::test::Fail;

/// The blob of a root without properties.
const SMALLEST: [u32; 18] = [
    0xD00D_FEED,
    72,
    56,
    72,
    40,
    17,
    16,
    0,
    0,
    16,
    0,
    0,
    0,
    0,
    1,
    0,
    2,
    9,
];

/// The blob, made by `dtc`, of a root with a memory node of one range: address 0 and 4,096 bytes, of one cell each.
const MEMORY: [u32; 41] = [
    0xD00D_FEED,
    0x0000_00CF,
    0x0000_0038,
    0x0000_00A4,
    0x0000_0028,
    0x0000_0011,
    0x0000_0010,
    0x0000_0000,
    0x0000_002B,
    0x0000_006C,
    0x0000_0000,
    0x0000_0000,
    0x0000_0000,
    0x0000_0000,
    0x0000_0001,
    0x0000_0000,
    0x0000_0003,
    0x0000_0004,
    0x0000_0000,
    0x0000_0001,
    0x0000_0003,
    0x0000_0004,
    0x0000_000F,
    0x0000_0001,
    0x0000_0001,
    0x6D65_6D6F,
    0x7279_4030,
    0x0000_0000,
    0x0000_0003,
    0x0000_0007,
    0x0000_001B,
    0x6D65_6D6F,
    0x7279_0000,
    0x0000_0003,
    0x0000_0008,
    0x0000_0027,
    0x0000_0000,
    0x0000_1000,
    0x0000_0002,
    0x0000_0002,
    0x0000_0009,
];

/// The strings behind it.
const STRINGS: &[u8] = b"#address-cells\0#size-cells\0device_type\0reg\0";

/// The bytes of a blob.
fn blob_of(alloc: Global, words: &[u32], strings: &[u8]) -> Result<Vec<u8>, NoMemory> {
    let mut blob = Vec::new(alloc);
    for word in words {
        blob.extend_from_slice(&word.to_be_bytes())?;
    }
    blob.extend_from_slice(strings)?;
    Ok(blob)
}

#[test]
fn the_first_broken_rule_is_told(rt: HostRuntime) -> Result<(), Fail> {
    let alloc = rt.alloc();
    let blob = blob_of(alloc, &SMALLEST, &[])?;
    let Err(Misread::Broken { rule, at }) = read_config(alloc, &blob) else {
        return Err(Fail::from("another answer"));
    };
    assert_eq!(rt;
        rule,
        Rule {
            letter: b'C',
            number: 3
        }
    );
    assert_eq!(rt; at.as_slice(), b"/".as_slice());
    let Err(Misread::Broken { rule, at }) = read_hardware(alloc, &blob) else {
        return Err(Fail::from("another answer"));
    };
    assert_eq!(rt;
        rule,
        Rule {
            letter: b'H',
            number: 1
        }
    );
    assert_eq!(rt; at.as_slice(), b"/".as_slice());
    for (length, number) in [(39, 1), (71, 4)] {
        let mut front = blob_of(alloc, &SMALLEST, &[])?;
        front.truncate(length);
        let Err(Misread::Blob(rule)) = read_config(alloc, &front) else {
            return Err(Fail::from("another answer"));
        };
        assert_eq!(rt; rule, number, "{length}");
        let Err(Misread::Blob(rule)) = read_hardware(alloc, &front) else {
            return Err(Fail::from("another answer"));
        };
        assert_eq!(rt; rule, number, "{length}");
    }
    Ok(())
}

#[test]
fn hardware_is_read(rt: HostRuntime) -> Result<(), Fail> {
    let alloc = rt.alloc();
    let blob = blob_of(alloc, &MEMORY, STRINGS)?;
    let Ok(board) = read_hardware(alloc, &blob) else {
        return Err(Fail::from("another answer"));
    };
    assert_eq!(rt; board.cpus.as_slice().len(), 0);
    assert_eq!(rt; board.memory.as_slice().len(), 1);
    assert_eq!(rt; board.memory.as_slice()[0].size, 4096);
    Ok(())
}
