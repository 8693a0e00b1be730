//! Sessions read back from their parts, as they were written and with a byte changed.
use super::expect_eq;
use super::script::{A_CLAIM, A_PASS, A_SLAM, after, written};
use arrayvec::ArrayVec;
use bridge_session::Session;
use session_store::{DiskFormat, PartsFault};
use std::alloc::{AllocError, Global};
use std::process::Abort;

/// What follows once both tables have finished: the session is closed, and the tricks of the first play are ruled.
const CLOSED: &str = "NEXT 100 1/TRICKS 100 1 1 1 12";

/// A claim stands after the first trick, and the play of the other table is void.
static STANDING: [&str; 3] = [
    "DEAL 100 1 N:AKQJT98765432... .AKQJT98765432.. ..AKQJT98765432. ...AKQJT98765432/CALL 11 1 0 7S/CALL 31 1 1 X/CALL 12 1 2 XX/CALL 32 1 3 PASS/CALL 11 1 4 PASS",
    "CALL 31 1 5 PASS/CARD 31 1 0 HA/CARD 11 1 1 DA/CARD 32 1 2 CA/CARD 11 1 3 SA",
    "CLAIM 11 1 0 12/VOID 100 1 2 1",
];

/// Whether the parts are a session's. Fails where they are read as one that has others.
fn are_of_session(
    rt: &impl Abort,
    alloc: Global,
    parts: &[ArrayVec<u8, 480>],
) -> Result<bool, AllocError> {
    match Session::from_parts(alloc, DiskFormat::Two, parts) {
        Ok(session) => {
            let again = written(alloc, &session)?;
            let is_same = again.as_slice() == parts;
            expect_eq(rt, is_same, true, "the parts written again");
            Ok(true)
        }
        Err(fault) => {
            expect_eq(rt, fault, PartsFault::Bad, "memory");
            Ok(false)
        }
    }
}

/// Changes one byte of a part.
fn change(part: &mut ArrayVec<u8, 480>, index: usize, value: u8) {
    if let Some(byte) = part.as_mut_slice().get_mut(index) {
        *byte = value;
    }
}

/// The byte of a part.
fn byte_of(parts: &[ArrayVec<u8, 480>], part: usize, index: usize) -> Option<u8> {
    parts.get(part)?.as_slice().get(index).copied()
}

/// 1 where the parts with that byte changed, from one to another value, are still those of a session, and else 0.
fn sessions_with(
    rt: &impl Abort,
    alloc: Global,
    parts: &mut [ArrayVec<u8, 480>],
    at: (usize, usize),
    values: (u8, u8),
) -> u32 {
    if values.0 == values.1 {
        return 0;
    }
    if let Some(part) = parts.get_mut(at.0) {
        change(part, at.1, values.1);
    }
    let is_session = are_of_session(rt, alloc, parts);
    if let Some(part) = parts.get_mut(at.0) {
        change(part, at.1, values.0);
    }
    expect_eq(rt, is_session.is_ok(), true, "memory");
    u32::from(is_session == Ok(true))
}

/// Of the parts with one byte of a part changed to 0, 255 or one more, how many are still those of a session.
fn sessions_near(
    rt: &impl Abort,
    alloc: Global,
    parts: &mut [ArrayVec<u8, 480>],
    part: usize,
) -> u32 {
    let mut found: u32 = 0;
    for index in 0..480 {
        if let Some(byte) = byte_of(parts, part, index) {
            let at = (part, index);
            for value in [0, 255, byte.wrapping_add(1)] {
                let more = sessions_with(rt, alloc, parts, at, (byte, value));
                found = found.saturating_add(more);
            }
        }
    }
    found
}

/// Fails where another number of changes to one byte of part 6, 7 or 8 leaves a session than is due.
fn expect_near(rt: &impl Abort, alloc: Global, texts: &[&str], due: [u32; 3]) {
    let parts = written(alloc, &after(rt, alloc, texts));
    let mut parts = parts.ok().expect(rt, "memory");
    expect_eq(rt, parts.len(), 9, "parts");
    for index in 0..3 {
        let found = sessions_near(rt, alloc, &mut parts, index + 6);
        expect_eq(rt, found, due[index], index + 6);
    }
}

/// Those left of part 7 are the contract 7NT, a second claim, a claim of no tricks, and rulings of 0 and 13 tricks; of part 8 a
/// claim that was made in an earlier contract.
#[test]
fn a_byte_changed_once_the_session_is_closed(rt: HostRuntime) {
    let texts = [A_SLAM, A_CLAIM, A_PASS, CLOSED];
    expect_near(&rt, rt.alloc(), &texts, [0, 5, 1]);
}

/// Those left of part 7 are the contract 7NT, the 2 of clubs, a second claim, East's claim and a claim of no tricks; of part
/// 8 no ruling, and a claim that was made in an earlier contract.
#[test]
fn a_byte_changed_while_a_claim_stands(rt: HostRuntime) {
    expect_near(&rt, rt.alloc(), &STANDING, [0, 5, 2]);
}
