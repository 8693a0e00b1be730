//! The session of two tables, one round and one board.
use super::outcome::{Outcome, Refusals};
use bridge_config::{Config, read_config};
use bridge_session::Session;
use std::alloc::Global;
use test_texts::TWO_TABLES;

/// How many lines `SEVEN_TRICKS` has.
pub const COUNT: usize = 37;

/// What is asked of the ending that is left, and the reply: North wins what is left.
pub const QUESTION: (&[u8], &[u8]) = (b"SOLVE 100 1 1 1 28\n", b"OK 6 0\n");

fn config() -> Outcome<Config> {
    read_config(TWO_TABLES.as_bytes()).or(Err("the configuration"))
}

/// The opening session.
pub fn opening(alloc: Global, refusals: &mut Refusals) -> Outcome<Session> {
    match Session::new(alloc, config()?) {
        Ok(session) => Ok(session),
        Err(_) => {
            refusals.note("a session");
            Session::new(alloc, config()?).or(Err("a session, once more"))
        }
    }
}
