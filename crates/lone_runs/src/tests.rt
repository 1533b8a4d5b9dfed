//! What the main theorem comes to, by hand: a partition's machine by itself, along what came to it in a run, prints its lines
//! of the run's report, and others where something else comes.

use crate::changes::{changed, restarted};
use crate::control;
use crate::copies::{copies, unfed};
use crate::guests::{Guest, image_of};
use crate::lone::{Lone, follow, lines_of};
use crate::refusals::refused;
use crate::rows::{Row, runs};
use std::alloc::Global;
use std::test::Fail;

/// Whether a machine by itself tells its lines of a report, up to the place of what can't come, if there is one.
fn tells(alloc: Global, row: &Row, place: Option<usize>) -> Result<bool, Fail> {
    let (lone, comings, steps, report) = row;
    let told = follow(alloc, lone, comings, *steps)?;
    let own = lines_of(alloc, lone.name, report)?;
    Ok(told.refused == place && told.out.bytes() == own.as_bytes())
}

/// The first of the rows whose machine doesn't.
fn first_wrong(alloc: Global, rows: &[Row]) -> Result<Option<usize>, Fail> {
    for (place, row) in rows.iter().enumerate() {
        if !tells(alloc, row, None)? {
            return Ok(Some(place));
        }
    }
    Ok(None)
}

/// Whether a machine with the image of a guest does.
fn guest_tells(alloc: Global, guest: Guest, row: &Row, place: Option<usize>) -> Result<bool, Fail> {
    let (lone, comings, steps, report) = *row;
    let image = image_of(alloc, guest)?;
    let lone = Lone {
        image: image.as_slice(),
        ..lone
    };
    tells(alloc, &(lone, comings, steps, report), place)
}

#[test]
fn machines_print_their_lines(rt: HostRuntime) -> Result<(), Fail> {
    let alloc = rt.alloc();
    assert_eq!(rt; first_wrong(alloc, runs())?, None);
    assert_eq!(rt; first_wrong(alloc, changed())?, None);
    assert_eq!(rt; first_wrong(alloc, &control::rows())?, None);
    Ok(())
}

#[test]
fn machines_see_copies(rt: HostRuntime) -> Result<(), Fail> {
    for (place, (guest, row)) in copies().iter().enumerate() {
        assert!(rt; guest_tells(rt.alloc(), *guest, row, None)?, "{place}");
    }
    for (place, (guest, row)) in unfed().iter().enumerate() {
        assert!(rt; guest_tells(rt.alloc(), *guest, row, Some(0))?, "{place}");
    }
    Ok(())
}

#[test]
fn some_things_cannot_come(rt: HostRuntime) -> Result<(), Fail> {
    for (place, (refused, row)) in refused().iter().enumerate() {
        assert!(rt; tells(rt.alloc(), row, Some(*refused))?, "{place}");
    }
    Ok(())
}

#[test]
fn restarts_forget(rt: HostRuntime) -> Result<(), Fail> {
    assert_eq!(rt; first_wrong(rt.alloc(), restarted())?, None);
    Ok(())
}
