//! Channels that are full, empty, wrapped round and used both ways at once.

use crate::{Channel, Side};
use std::process::Abort;
use std::test::Fail;

/// A call on a channel.
#[derive(Clone, Copy)]
enum Call {
    /// The piece is sent.
    Send(&'static [u8]),
    /// These bytes are received.
    Receive(&'static [u8]),
    /// So many bytes are dropped.
    Clear(u16),
}

/// A call at an end, and how many bytes wait at A and at B after it.
#[derive(Clone, Copy)]
struct Case {
    side: Side,
    call: Call,
    at_a: u16,
    at_b: u16,
}

const fn step(side: Side, call: Call, at_a: u16, at_b: u16) -> Case {
    Case {
        side,
        call,
        at_a,
        at_b,
    }
}

const DOTS: &[u8] = &[b'.'; 250];

/// Makes the call, which has to be possible and to give what it says.
fn make(rt: &impl Abort, channel: &mut Channel, side: Side, call: Call) {
    match call {
        Call::Send(piece) => {
            let room = channel.room(side);
            assert!(rt; piece.len() <= room as usize);
            channel.send(side, piece);
        }
        Call::Receive(want) => {
            let waiting = channel.waiting(side);
            let mut bytes = [0; 256];
            let count = want.len();
            assert!(rt; count <= waiting as usize);
            channel.receive(side, &mut bytes[..count]);
            assert_eq!(rt; &bytes[..count], want);
        }
        Call::Clear(want) => assert_eq!(rt; channel.clear_side(side), want),
    }
}

#[test]
fn bytes_come_in_order(rt: HostRuntime) -> Result<(), Fail> {
    let (a, b) = (Side::A, Side::B);
    let steps = [
        // empty
        step(a, Call::Receive(b""), 0, 0),
        step(a, Call::Clear(0), 0, 0),
        step(b, Call::Send(b""), 0, 0),
        // full, and then wrapped round
        step(a, Call::Send(DOTS), 0, 250),
        step(a, Call::Send(b"012345"), 0, 256),
        step(a, Call::Send(b""), 0, 256),
        step(b, Call::Receive(DOTS), 0, 6),
        step(a, Call::Send(b"6789"), 0, 10),
        step(b, Call::Receive(b"0123"), 0, 6),
        step(a, Call::Send(DOTS), 0, 256),
        step(b, Call::Receive(b"456789"), 0, 250),
        // both ways at once
        step(b, Call::Send(b"hello"), 5, 250),
        step(a, Call::Receive(b"he"), 3, 250),
        step(b, Call::Receive(DOTS), 3, 0),
        step(a, Call::Send(b"x"), 3, 1),
        step(b, Call::Send(b"yz"), 5, 1),
        step(a, Call::Receive(b"lloyz"), 0, 1),
        // cleared
        step(b, Call::Send(b"ab"), 2, 1),
        step(a, Call::Clear(2), 0, 1),
        step(b, Call::Clear(1), 0, 0),
        step(b, Call::Send(b"c"), 1, 0),
        step(a, Call::Receive(b"c"), 0, 0),
    ];
    let mut channel = Channel::new(rt.alloc())?;
    assert_eq!(rt; (channel.room(a), channel.room(b)), (256, 256));
    for (number, step) in steps.iter().enumerate() {
        make(&rt, &mut channel, step.side, step.call);
        assert_eq!(rt; channel.waiting(a), step.at_a, "after {number}");
        assert_eq!(rt; channel.waiting(b), step.at_b, "after {number}");
        assert_eq!(rt;
            channel.room(a),
            256u16.wrapping_sub(step.at_b),
            "after {number}"
        );
        assert_eq!(rt;
            channel.room(b),
            256u16.wrapping_sub(step.at_a),
            "after {number}"
        );
    }
    Ok(())
}
