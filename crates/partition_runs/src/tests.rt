//! The tests.

use crate::copies::{copies, copying};
use crate::courses::{courses, layouts, starts};
use crate::drafts::{Draft, built_in, manager};
use crate::guests::guests;
use crate::images::HELLO;
use crate::managers::managers;
use crate::turns::{first_wrong_call, first_wrong_turn, image_of};
use machine_desc::Port;
use outside::Bytes;
use partition::{MemPorts, Ports};
use std::test::*;

#[test]
fn courses_go_as_they_were_worked_out(rt: HostRuntime) -> Result<(), Fail> {
    for (place, (image, turns)) in courses().iter().enumerate() {
        let wrong = first_wrong_turn(rt.alloc(), &built_in(image), turns)?;
        assert_eq!(rt; wrong, None, "{}", place);
    }
    Ok(())
}

#[test]
fn regions_lie_as_they_are_described(rt: HostRuntime) -> Result<(), Fail> {
    for (place, (regions, sizes, image, turns)) in layouts().iter().enumerate() {
        let draft = Draft {
            regions,
            sizes,
            ..built_in(image)
        };
        let wrong = first_wrong_turn(rt.alloc(), &draft, turns)?;
        assert_eq!(rt; wrong, None, "{}", place);
    }
    Ok(())
}

#[test]
fn machines_begin_as_they_are_described(rt: HostRuntime) -> Result<(), Fail> {
    for (place, &(tree_at, entry, held, turns)) in starts().iter().enumerate() {
        let draft = Draft {
            tree_at,
            entry,
            held,
            ..built_in(&HELLO)
        };
        let wrong = first_wrong_turn(rt.alloc(), &draft, turns)?;
        assert_eq!(rt; wrong, None, "{}", place);
    }
    Ok(())
}

#[test]
fn guests_are_answered_as_it_was_worked_out(rt: HostRuntime) -> Result<(), Fail> {
    for (place, turns) in guests().iter().enumerate() {
        let wrong = first_wrong_call(rt.alloc(), turns)?;
        assert_eq!(rt; wrong, None, "{}", place);
    }
    Ok(())
}

#[test]
fn managers_go_as_they_were_worked_out(rt: HostRuntime) -> Result<(), Fail> {
    for (place, &(held, entry, image, turns)) in managers().iter().enumerate() {
        let calls = image_of(rt.alloc(), turns)?;
        let words = if image.is_empty() {
            calls.as_slice()
        } else {
            image
        };
        let wrong = first_wrong_turn(rt.alloc(), &manager(held, entry, words), turns)?;
        assert_eq!(rt; wrong, None, "{}", place);
    }
    Ok(())
}

#[test]
fn copies_go_as_they_were_worked_out(rt: HostRuntime) -> Result<(), Fail> {
    for (place, run) in copies().iter().enumerate() {
        let wrong = copying(rt.alloc(), run)?;
        assert_eq!(rt; wrong, None, "{}", place);
    }
    Ok(())
}

#[test]
fn ports_in_memory_keep_what_waits(rt: HostRuntime) -> Result<(), Fail> {
    let mut ports = MemPorts::new(
        rt.alloc(),
        &[Port::Channel { rx: 0, tx: 1 }],
        Bytes::of(rt.alloc(), &[])?,
    )?;
    ports.give(1, b"abc");
    let mut first = [0; 2];
    ports.receive(1, &mut first);
    assert!(rt; first == *b"ab" && ports.waiting(1) == 1);
    ports.send(1, b"defg");
    assert!(rt; ports.room(1) == 252 && ports.waiting(1) == 1);
    let mut freed = [0; 3];
    ports.free(1, &mut freed);
    assert!(rt; freed == *b"def" && ports.room(1) == 255);
    Ok(())
}
