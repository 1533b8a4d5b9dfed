//! Lines as they were worked out by hand.

use super::{act_line, console_line, end_line, refused_line};
use arrayvec::ArrayVec;
use machine_desc::{Act, State};
use outside::MemSink;
use std::test::*;

/// What the partition `guest` did in its own step 6, and its line.
#[derive(Drop)]
struct ToldAct {
    act: Act,
    line: &'static [u8],
}

/// The act with its line.
fn told(act: Act, line: &'static [u8]) -> ToldAct {
    ToldAct { act, line }
}

/// That the two bytes of `Hi` were sent.
fn sent_two() -> Act {
    let mut bytes = ArrayVec::new();
    bytes.push(b'H');
    bytes.push(b'i');
    Act::Sent { h: 1, bytes }
}

/// That as many bytes were sent as one act has at most.
fn sent_sixteen() -> Act {
    let bytes = ArrayVec::from([
        0x00, 0x11, 0x22, 0x33, 0x44, 0x55, 0x66, 0x77, 0x88, 0x99, 0xAA, 0xBB, 0xCC, 0xDD, 0xEE,
        0xFF,
    ]);
    Act::Sent {
        h: 4_294_967_295,
        bytes,
    }
}

/// That the partition of handle 3 was started.
fn started(entry: u32, load: bool) -> Act {
    Act::Start { h: 3, entry, load }
}

/// Each act with its line.
fn told_acts() -> [ToldAct; 14] {
    [
        told(Act::None, b""),
        told(sent_two(), b"guest 6 sent 1 4869\n"),
        told(
            sent_sixteen(),
            b"guest 6 sent 4294967295 00112233445566778899aabbccddeeff\n",
        ),
        told(Act::Took { h: 2, count: 5 }, b""),
        told(Act::Rang { h: 12 }, b"guest 6 ring 12\n"),
        told(started(0x0001_F0A8, false), b"guest 6 start 3 0001f0a8 0\n"),
        told(started(0xFFFF_FFFC, true), b"guest 6 start 3 fffffffc 1\n"),
        told(Act::Stop { h: 3 }, b"guest 6 stop 3\n"),
        told(Act::Restart { h: 3 }, b"guest 6 restart 3\n"),
        told(
            Act::CopyTo {
                h: 4,
                total: 65_536,
            },
            b"guest 6 copy to 4 65536\n",
        ),
        told(Act::CopyFrom { h: 5, total: 1 }, b"guest 6 copy from 5 1\n"),
        told(Act::SelfStop, b"guest 6 stop self\n"),
        told(Act::SelfRestart, b"guest 6 restart self\n"),
        told(Act::Faulted, b"guest 6 faulted\n"),
    ]
}

#[test]
fn each_act_has_its_line(rt: HostRuntime) -> Result<(), Fail> {
    for told in told_acts() {
        let mut out = MemSink::new(rt.alloc(), 100, Vec::new(rt.alloc()))?;
        assert_eq!(rt; act_line(&mut out, b"guest", 6, &told.act), Ok(()));
        assert_eq!(rt; out.bytes(), told.line);
    }
    Ok(())
}

/// The states of partitions, and the lines of their ends after 10^12 own steps.
const ENDS: [(State, &[u8]); 3] = [
    (State::Running, b"end p running 1000000000000\n"),
    (State::Stopped, b"end p stopped 1000000000000\n"),
    (State::Faulted, b"end p faulted 1000000000000\n"),
];

#[test]
fn each_end_has_its_line(rt: HostRuntime) -> Result<(), Fail> {
    for &(state, line) in ENDS.iter() {
        let mut out = MemSink::new(rt.alloc(), 100, Vec::new(rt.alloc()))?;
        assert_eq!(rt; end_line(&mut out, b"p", state, 1_000_000_000_000), Ok(()));
        assert_eq!(rt; out.bytes(), line);
    }
    Ok(())
}

#[test]
fn consoles_and_refusals_have_their_lines(rt: HostRuntime) -> Result<(), Fail> {
    let mut out = MemSink::new(rt.alloc(), 100, Vec::new(rt.alloc()))?;
    let most = 18_446_744_073_709_551_615;
    assert_eq!(rt; console_line(&mut out, b"con", 7, 0, most), Ok(()));
    assert_eq!(rt; refused_line(&mut out, b"C7", b"/partitions/p"), Ok(()));
    let lines = b"console con 7 0 18446744073709551615\nrefused C7 at /partitions/p\n";
    assert_eq!(rt; out.bytes(), lines.as_slice());
    Ok(())
}
