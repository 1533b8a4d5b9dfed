//! Each rule at its edge and beside it, and what scripts come to.

ghost use Rattle.std.specs.Prelude.{◌≡◌, length, IfOk};

use crate::{Names, Script, ScriptFault};
use outside::{Bytes, Listed};
use std::alloc::Global;
use std::test::Fail;

/// The consoles `cp` and `cq`, and one whose name is no text; the cpus 3 and 40.
fn names(alloc: Global) -> Result<Names, Fail>
    ensures { IfOk result (λ names. length names.consoles ≡ 3) }
{
    let mut consoles = Listed::new(alloc);
    consoles.push(Bytes::of(alloc, b"cp")?)?;
    consoles.push(Bytes::of(alloc, b"cq")?)?;
    consoles.push(Bytes::of(alloc, &[0xFF, b'\r', b'\t'])?)?;
    let mut cpus = Listed::new(alloc);
    cpus.push(3)?;
    cpus.push(40)?;
    Ok(Names { consoles, cpus })
}

/// The number of the rule that refuses the text and its line, or zeros.
fn answer(alloc: Global, text: &[u8]) -> Result<(u8, u32), Fail> {
    match Script::read(alloc, text, &names(alloc)?) {
        Ok(_) => Ok((0, 0)),
        Err(ScriptFault::Rule { number, line }) => Ok((number, line)),
        Err(ScriptFault::NoMemory) => Err("there is memory")?,
    }
}

/// The script of the text, which must be one.
fn script(alloc: Global, text: &[u8]) -> Result<Script, Fail>
    ensures { IfOk result (λ script. length script.inputs ≡ 3) }
{
    match Script::read(alloc, text, &names(alloc)?) {
        Ok(script) => Ok(script),
        Err(_) => Err("it is a script")?,
    }
}

/// A text, and the rule that refuses it with its line, or zeros.
#[derive(Clone, Copy)]
struct Row {
    text: &'static [u8],
    number: u8,
    line: u32,
}

const fn case(text: &'static [u8], number: u8, line: u32) -> Row {
    Row { text, number, line }
}

/// A line that gives 64 bytes, and one that gives 65.
const MOST_BYTES: &[u8] =
    b"at 1 cp 00112233445566778899aabbccddeeff00112233445566778899aabbccddeeff00112233445566778899aabbccddeeff00112233445566778899aabbccddeeff";

const TOO_MANY_BYTES: &[u8] =
    b"at 1 cp 00112233445566778899aabbccddeeff00112233445566778899aabbccddeeff00112233445566778899aabbccddeeff00112233445566778899aabbccddeeff00";

#[test]
fn forms(rt: HostRuntime) -> Result<(), Fail> {
    for (number, row) in [
        // nothing, and lines that say nothing
        case(b"", 0, 0),
        case(b"\n", 0, 0),
        case(b"\n\n# order\n#", 0, 0),
        case(b" ", 1, 1),
        case(b"\n ", 1, 2),
        case(b"\t", 1, 1),
        case(b"\r\n", 1, 1),
        case(b" # no comment", 1, 1),
        // words
        case(b"order", 1, 1),
        case(b"order ", 1, 1),
        case(b"order\t1", 1, 1),
        case(b"order 1\r\n", 1, 1),
        case(b"Order 1", 1, 1),
        case(b"orders 1", 1, 1),
        case(b"order 1  2", 1, 1),
        case(b"order 1 2 ", 1, 1),
        case(b" order 1", 1, 1),
        case(b"at", 1, 1),
        case(b"at 1", 1, 1),
        case(b"at 1 cp", 1, 1),
        case(b"at 1 cp ", 1, 1),
        case(b"at 1 cp 41 ", 1, 1),
        case(b"at 1 cp 41 42", 1, 1),
        case(b"at 1  41", 1, 1),
        case(b"at  1 cp 41", 1, 1),
        case(b"at 1 cp 41", 0, 0),
        case(b"at 1 cp 41\n", 0, 0),
        // numbers
        case(b"order 0", 0, 0),
        case(b"order 00", 1, 1),
        case(b"order 01", 1, 1),
        case(b"order +1", 1, 1),
        case(b"order -1", 1, 1),
        case(b"order 1x", 1, 1),
        case(b"order /", 1, 1),
        case(b"order :", 1, 1),
        case(b"order 10000000000000000000", 6, 1),
        case(b"order 99999999999999999999", 6, 1),
        case(b"order 100000000000000000000", 1, 1),
        case(b"at 0 cp 41", 1, 1),
        case(b"at 01 cp 41", 1, 1),
        case(b"at 18446744073709551615 cp 41", 0, 0),
        case(b"at 18446744073709551616 cp 41", 1, 1),
        case(b"at 99999999999999999999 cp 41", 1, 1),
        case(b"at 100000000000000000000 cp 41", 1, 1),
        // bytes
        case(b"at 1 cp 4", 1, 1),
        case(b"at 1 cp 414", 1, 1),
        case(b"at 1 cp 4g", 1, 1),
        case(b"at 1 cp aAfF", 0, 0),
        case(b"at 1 cp 0x41", 1, 1),
        case(MOST_BYTES, 0, 0),
        case(TOO_MANY_BYTES, 1, 1),
    ]
    .iter()
    .enumerate()
    {
        assert_eq!(rt;
            answer(rt.alloc(), row.text)?,
            (row.number, row.line),
            "in row {number}"
        );
    }
    Ok(())
}

#[test]
fn other_rules(rt: HostRuntime) -> Result<(), Fail> {
    for (number, row) in [
        // S2
        case(b"at 1 cp 41\nat 1 zz 41", 2, 2),
        case(b"at 1 CP 41", 2, 1),
        case(b"at 1 c 41", 2, 1),
        case(b"at 1 cpp 41", 2, 1),
        case(b"at 1 \x00\xC0\t 41", 2, 1),
        case(b"at 1 \xFF\r\t 41", 0, 0),
        case(b"at 0 zz 41", 1, 1),
        // S3
        case(b"order 0\norder 0", 3, 2),
        case(b"order 0\n#\n\norder 1", 3, 4),
        case(b"at 1 cp 41\norder 0", 3, 2),
        case(b"order 0\nat 1 cp 41", 0, 0),
        case(b"order 0\norder 32", 3, 2),
        case(b"order 0\norder", 1, 2),
        // S4
        case(b"at 5 cp 41\nat 4 cp 42", 4, 2),
        case(b"at 5 cp 41\nat 4 zz 42", 2, 2),
        case(b"at 5 cp 41\n\nat 4 cq 42", 4, 3),
        case(b"at 5 cp 41\nat 5 cp 42\nat 6 cq 43", 0, 0),
        // S6
        case(b"order 31", 0, 0),
        case(b"order 32", 6, 1),
        case(b"order 0 31 32 1", 6, 1),
        case(b"order 32 x", 1, 1),
        // the first faulty line
        case(b"order 32\nx", 6, 1),
        case(b"at 2 cp 41\nat 1 cp 41\nx", 4, 2),
    ]
    .iter()
    .enumerate()
    {
        assert_eq!(rt;
            answer(rt.alloc(), row.text)?,
            (row.number, row.line),
            "in row {number}"
        );
    }
    Ok(())
}

/// The text with so many of the piece behind it.
fn repeated(alloc: Global, front: &[u8], piece: &[u8], count: usize) -> Result<Vec<u8>, Fail> {
    let mut text = Vec::from_slice(alloc, front)?;
    for _ in 0..count {
        text.extend_from_slice(piece)?;
    }
    Ok(text)
}

#[test]
fn most(rt: HostRuntime) -> Result<(), Fail> {
    for (front, piece, count, end, want) in [
        (
            b"".as_slice(),
            b"\n".as_slice(),
            65_535,
            b"at 1 cp 41".as_slice(),
            (0, 0),
        ),
        (b"", b"\n", 65_535, b"at 1 cp 41\n", (0, 0)),
        (b"", b"\n", 65_536, b"\n", (5, 65_537)),
        (b"", b"#\n", 65_536, b"#", (5, 65_537)),
        (b"", b"\n", 65_536, b"at 1 cp 41", (5, 65_537)),
        (b"", b"\n", 65_536, b"order 32", (5, 65_537)),
        (b"", b"\n", 65_536, b"at 1 zz 41", (2, 65_537)),
        (b"", b"\n", 65_536, b"x", (1, 65_537)),
        (b"order", b" 0", 1_048_576, b"", (0, 0)),
        (b"order", b" 0", 1_048_577, b"", (5, 1)),
        (b"order", b" 32", 1_048_577, b"", (5, 1)),
        (b"order", b" 0", 1_048_577, b" x", (1, 1)),
    ] {
        let mut text = repeated(rt.alloc(), front, piece, count)?;
        text.extend_from_slice(end)?;
        assert_eq!(rt; answer(rt.alloc(), &text)?, want);
    }
    Ok(())
}

#[test]
fn courses(rt: HostRuntime) -> Result<(), Fail> {
    let text = b"# two consoles\norder 7 0 7\nat 2 cp 41\nat 2 cq 61\n\nat 2 cp 4243\nat 5 cp fF";
    let script = script(rt.alloc(), text)?;
    for (turn, core) in [(1, 7), (2, 0), (3, 7), (4, 7), (5, 0), (u64::MAX, 7)] {
        assert!(rt; 1 <= turn);
        assert_eq!(rt; script.core_at(turn), Some(core));
    }
    for (console, turn, want) in [
        (0, 0, b"".as_slice()),
        (0, 1, b""),
        (0, 2, b"ABC"),
        (0, 4, b"ABC"),
        (0, 5, b"ABC\xFF"),
        (0, u64::MAX, b"ABC\xFF"),
        (1, 1, b""),
        (1, 2, b"a"),
        (1, 9, b"a"),
        (2, 9, b""),
    ] {
        assert!(rt; console < 3);
        assert_eq!(rt; script.inputs(console, turn), want);
    }
    Ok(())
}

#[test]
fn no_order(rt: HostRuntime) -> Result<(), Fail> {
    let script = script(rt.alloc(), b"at 1 cp 41")?;
    for (turn, core) in [(1, 3), (2, 40), (3, 3)] {
        assert!(rt; 1 <= turn);
        assert_eq!(rt; script.core_at(turn), Some(core));
    }
    let bare = Names {
        consoles: Listed::new(rt.alloc()),
        cpus: Listed::new(rt.alloc()),
    };
    let Ok(empty) = Script::read(rt.alloc(), b"", &bare) else {
        return Err("it is a script")?;
    };
    assert_eq!(rt; empty.core_at(1), None);
    Ok(())
}
