//! Actions as lines of the protocol, so that a worked session can be read.
use super::expect_eq;
use arrayvec::ArrayVec;
use bridge_config::read_config;
use bridge_session::{Action, Session};
use std::alloc::{AllocError, Global};
use std::process::Abort;
use table_server::{Asked, LineSet, asked_by, asked_in};
use test_texts::TWO_TABLES;

/// North of pair 1 bids a grand slam in spades, one suit in each hand.
pub const A_SLAM: &str =
    "DEAL 100 1 N:AKQJT98765432... .AKQJT98765432.. ..AKQJT98765432. ...AKQJT98765432/CALL 11 1 0 7S/CALL 31 1 1 PASS/CALL 12 1 2 PASS/CALL 32 1 3 PASS";

/// He claims it before the lead, and both defenders agree.
pub const A_CLAIM: &str = "CLAIM 11 1 0 13/AGREE 31 1 1/AGREE 32 1 1";

/// The other table passes the board out.
pub const A_PASS: &str = "CALL 21 1 0 PASS/CALL 41 1 1 PASS/CALL 22 1 2 PASS/CALL 42 1 3 PASS";

/// The opening session of a configuration's text.
pub fn session_of(rt: &impl Abort, alloc: Global, text: &str) -> Session {
    let config = read_config(text.as_bytes()).ok();
    let session = Session::new(alloc, config.expect(rt, "a configuration"));
    session.ok().expect(rt, "a session")
}

/// The action that a line of the protocol states.
pub fn action(rt: &impl Abort, line: &str) -> Action {
    let action = match asked_by(line.as_bytes()) {
        Asked::Change(action) => Some(action),
        _ => None,
    };
    action.expect(rt, "the line of an action")
}

/// The correction that a line states.
pub fn correction(rt: &impl Abort, line: &str) -> Action {
    let action = match asked_in(LineSet::Corrections, line.as_bytes()) {
        Asked::Change(action) => Some(action),
        _ => None,
    };
    action.expect(rt, "the line of a correction")
}

/// Takes the actions of each text, with `/` between two, none of which is refused.
pub fn run(rt: &impl Abort, session: &mut Session, texts: &[&str]) {
    for text in texts {
        for line in text.split('/') {
            expect_eq(rt, session.step(&action(rt, line)).is_ok(), true, line);
        }
    }
}

/// The session of the club after those actions.
pub fn after(rt: &impl Abort, alloc: Global, texts: &[&str]) -> Session {
    let mut session = session_of(rt, alloc, TWO_TABLES);
    run(rt, &mut session, texts);
    session
}

/// Whether two sessions have the same parts.
pub fn are_same(alloc: Global, one: &Session, other: &Session) -> Result<bool, AllocError> {
    let one = written(alloc, one)?;
    Ok(one.as_slice() == written(alloc, other)?.as_slice())
}

/// The parts of a session.
pub fn written(alloc: Global, session: &Session) -> Result<Vec<ArrayVec<u8, 480>>, AllocError> {
    let mut parts = Vec::new(alloc);
    for index in 0..session.parts() {
        let mut part = ArrayVec::new();
        session.write_part(index, &mut part);
        parts.push(part)?;
    }
    Ok(parts)
}
