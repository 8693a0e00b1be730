//! The parts of a session, byte for byte.
use super::expect_eq;
use super::script::{A_SLAM, after, run, session_of};
use arrayvec::ArrayVec;
use bridge_session::Session;
use std::process::Abort;
use test_texts::TWO_TABLES;

/// Fails where the part of that index has other bytes.
fn expect_part(rt: &impl Abort, session: &Session, index: u32, bytes: &[u8]) {
    let mut part = ArrayVec::new();
    if index < session.parts() {
        session.write_part(index, &mut part);
    }
    expect_eq(rt, part.as_slice(), bytes, index);
}

/// Parts of a new session.
static NEW_PARTS: [(u32, &[u8]); 6] = [
    (1, b"\x01\x03\x01\x02\x04\x01"),
    (2, b"\x03Ann\x00\x00\x00\x0b\x03Bob\x00\x00\x00\x0c"),
    (5, b"\x03Gus\x00\x00\x00\x29\x03Hal\x00\x00\x00\x2a"),
    (6, b"\x00"),
    (7, b"\x00\x00\x00\x00\x00\x00\x00\x00"),
    (8, b"\x00\x00\x00\x00\x00\x00\x00\x00"),
];

#[test]
fn parts_of_a_new_session(rt: HostRuntime) {
    let session = session_of(&rt, rt.alloc(), TWO_TABLES);
    expect_eq(&rt, session.parts(), 9, "parts");
    for (index, bytes) in &NEW_PARTS {
        expect_part(&rt, &session, *index, bytes);
    }
}

/// A trick is played, a claim of twelve stands, and the play of the other table is void.
static GOING_ON: [&str; 3] = [
    A_SLAM,
    "CARD 31 1 0 HA/CARD 11 1 1 DA/CARD 32 1 2 CA/CARD 11 1 3 SA",
    "CLAIM 11 1 0 12/AGREE 31 1 1/VOID 100 1 2 1",
];

/// Its parts.
static STANDING: [(u32, &[u8]); 3] = [
    (
        6,
        b"\x01\x00\x0f\xff\x80\x00\x00\x00\x00\x00\x00\x00\x7f\xfc\x00\x00\x00\x00\x00\x00\x00\x03\xff\xe0\x00\x00\x00\x00\x00\x00\x00\x1f\xff",
    ),
    (
        7,
        b"\x00\x04\x24\x00\x00\x00\x04\x26\x19\x0c\x33\x01\x01\x00\x0c\x02\x00\x00\x00",
    ),
    (8, b"\x00\x00\x00\x00\x00\x02\x00\x00"),
];

#[test]
fn parts_of_a_session_that_goes_on(rt: HostRuntime) {
    let mut session = after(&rt, rt.alloc(), &GOING_ON);
    for (index, bytes) in &STANDING {
        expect_part(&rt, &session, *index, bytes);
    }
    run(
        &rt,
        &mut session,
        &["AGREE 32 1 1/TRICKS 100 1 1 1 11/NEXT 100 1"],
    );
    let agreed = b"\x00\x04\x24\x00\x00\x00\x04\x26\x19\x0c\x33\x01\x02\x00\x0c\x0a\x01\x0b\x00";
    expect_part(&rt, &session, 7, agreed);
}
