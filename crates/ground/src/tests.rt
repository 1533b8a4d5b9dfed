//! What no clause says: that memory is there where it is ample, and values that were worked out by hand.
ghost use Rattle.std.specs.Prelude.{◌≡◌, IfOk, length};
ghost use Rattle.ground.specs.Extents.{extent_at};

use super::Ground;
use outside::NoMemory;
use std::alloc::Global;
use std::test::Fail;

/// Eight bytes, none and five.
fn three_extents(alloc: Global) -> Result<Ground, NoMemory>
    ensures count { IfOk result (λ memory. length memory ≡ 3) }
    ensures first { IfOk result (λ memory. length (extent_at memory 0) ≡ 8) }
    ensures second { IfOk result (λ memory. length (extent_at memory 1) ≡ 0) }
    ensures third { IfOk result (λ memory. length (extent_at memory 2) ≡ 5) }
{
    let mut memory = Ground::new(alloc, &[8, 0, 5])?;
    memory.put(0, 0, &[0x12, 0x34, 0x56, 0x78, 0x9A, 0xBC, 0xDE, 0xF0]);
    memory.put(2, 0, b"abcde");
    Ok(memory)
}

#[test]
fn fresh_extents_are_zero(rt: HostRuntime) -> Result<(), Fail> {
    let memory = Ground::new(rt.alloc(), &[3, 0, 1])?;
    for (extent, want) in [(0, [0, 0, 0].as_slice()), (1, &[]), (2, &[0])] {
        assert_eq!(rt; memory.view(extent), want, "{extent}");
    }
    Ok(())
}

#[test]
fn loads_at_any_offset(rt: HostRuntime) -> Result<(), Fail> {
    let memory = three_extents(rt.alloc())?;
    for (at, byte, half, word) in [
        (0, 0x12, 0x1234, 0x1234_5678),
        (1, 0x34, 0x3456, 0x3456_789A),
        (3, 0x78, 0x789A, 0x789A_BCDE),
        (4, 0x9A, 0x9ABC, 0x9ABC_DEF0),
    ] {
        assert_eq!(rt; memory.load8(0, at), byte, "{at}");
        assert_eq!(rt; memory.load16(0, at), half, "{at}");
        assert_eq!(rt; memory.load32(0, at), word, "{at}");
    }
    assert_eq!(rt; memory.load16(0, 6), 0xDEF0);
    assert_eq!(rt; memory.load8(0, 7), 0xF0);
    assert_eq!(rt; memory.load8(2, 4), 0x65);
    Ok(())
}

#[test]
fn stores_are_loaded_in_the_other_widths(rt: HostRuntime) -> Result<(), Fail> {
    let mut memory = three_extents(rt.alloc())?;
    memory.store32(0, 3, 0xA1B2_C3D4);
    assert_eq!(rt;
        memory.view(0),
        [0x12, 0x34, 0x56, 0xA1, 0xB2, 0xC3, 0xD4, 0xF0].as_slice()
    );
    memory.store16(0, 6, 0x0102);
    memory.store8(0, 0, 0xFF);
    assert_eq!(rt;
        memory.view(0),
        [0xFF, 0x34, 0x56, 0xA1, 0xB2, 0xC3, 0x01, 0x02].as_slice()
    );
    assert_eq!(rt; memory.load32(0, 4), 0xB2C3_0102);
    assert_eq!(rt; memory.view(2), b"abcde".as_slice());
    Ok(())
}

#[test]
fn fills_and_copies_between_extents(rt: HostRuntime) -> Result<(), Fail> {
    let mut memory = three_extents(rt.alloc())?;
    memory.copy(0, 6, 2, 3, 2);
    assert_eq!(rt; memory.view(2), b"abc\xDE\xF0".as_slice());
    memory.copy(2, 0, 0, 5, 3);
    assert_eq!(rt; memory.view(0), b"\x12\x34\x56\x78\x9Aabc".as_slice());
    memory.fill(0, 1, 4, 0x7E);
    assert_eq!(rt; memory.view(0), b"\x12~~~~abc".as_slice());
    // Nothing is written, at the end of an extent and in the empty one.
    memory.fill(2, 5, 0, 0x7E);
    memory.put(1, 0, &[]);
    memory.copy(2, 5, 1, 0, 0);
    assert_eq!(rt; memory.view(2), b"abc\xDE\xF0".as_slice());
    assert_eq!(rt; memory.view(1), b"".as_slice());
    Ok(())
}
