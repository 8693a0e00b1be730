//! Random sessions of three tables, good and bad actions of all tables mixed, each answered as the twin answers.
use super::expect_eq;
use super::random_actions::{any_action, any_key};
use super::story::Story;
use super::twin::Twin;
use bridge_cards::{CardSet, Seat};
use bridge_config::{Key, read_config};
use bridge_session::{BoardIndex, PlayId, Refused, RoundNumber, Session, TableNumber};
use std::alloc::Global;
use std::process::Abort;
use std::test::Fail;

/// Three tables, three rounds, two boards in each of three sets.
pub const TWO_BOARDS: &str = "EVENT Club-Night
SITE Town-Hall
DATE 2026.03.14
SCORING MP
BOARDS 2
MITCHELL 3
DIRECTOR 100
PAIR 1 Ann 11 Bob 12
PAIR 2 Cat 21 Dan 22
PAIR 3 Eve 31 Fay 32
PAIR 4 Gus 41 Hal 42
PAIR 5 Ida 51 Jan 52
PAIR 6 Kim 61 Lea 62
";

/// What a player sees is what was done in the current play of the table.
fn expect_view(rt: &impl Abort, session: &Session, twin: &Twin, key: Key) {
    match twin.sight(key) {
        Ok((seat, story)) => expect_seen(rt, session, key, seat, &story),
        Err(due) => expect_eq(rt, session.see(key).err(), Some(due), key),
    }
}

/// The cards and claims made in a play, and the hand of a seat.
fn made_of(story: &Story, seat: Seat) -> (usize, u8, Option<CardSet>) {
    match (&story.play, &story.deal) {
        (Some(play), _) => (
            play.cards().len(),
            play.claims(),
            Some(play.remaining(seat)),
        ),
        (None, Some(deal)) => (0, 0, Some(deal.hand(seat))),
        (None, None) => (0, 0, None),
    }
}

/// What the player in that seat sees of the play.
fn expect_seen(rt: &impl Abort, session: &Session, key: Key, seat: Seat, story: &Story) {
    match session.see(key) {
        Ok(view) => {
            let made = (
                usize::from(view.cards_made),
                view.claims_made,
                Some(view.hand),
            );
            expect_eq(rt, view.board, story.board, key);
            expect_eq(rt, view.seat, seat, key);
            expect_eq(rt, view.calls, story.auction.calls(), key);
            expect_eq(rt, made, made_of(story, seat), key);
        }
        Err(found) => {
            expect_eq(rt, found, Refused::NotDealt, key);
            expect_eq(rt, story.deal.is_none(), true, key);
        }
    }
}

/// What came of each play.
fn expect_outcomes(rt: &impl Abort, session: &Session, twin: &Twin) -> Option<()> {
    let fields = twin.config.fields();
    for row in fields.movement.rows() {
        for index in 1..=fields.boards {
            let play = PlayId {
                round: RoundNumber::new(row.round)?,
                table: TableNumber::new(row.table)?,
                index: BoardIndex::new(index)?,
            };
            let (Some(entry), Some(story)) = (session.entry(play), twin.story(*row, index)) else {
                return None;
            };
            expect_eq(rt, entry.outcome, story.outcome(), play);
        }
    }
    Some(())
}

/// So many actions of one session. The result is the session, and how many were taken.
fn run_session(
    rt: &impl Abort,
    alloc: Global,
    text: &str,
    state: &mut u32,
    actions: u32,
) -> Result<(Session, usize), Fail> {
    let text = text.as_bytes();
    let (Ok(config), Ok(again)) = (read_config(text), read_config(text)) else {
        return Err(Fail::from("a configuration"));
    };
    let mut session = Session::new(alloc, config)?;
    let mut twin = Twin {
        config: again,
        taken: Vec::new(alloc),
    };
    for _ in 0..actions {
        if let Some(action) = any_action(state, &twin) {
            let due = twin.answer(&action);
            expect_eq(rt, session.step(&action), due, action);
            if due.is_ok() {
                twin.taken.push(action)?;
                expect_view(rt, &session, &twin, any_key(state));
            }
        }
    }
    expect_eq(rt, usize::from(session.round()), twin.round(), "round");
    expect_outcomes(rt, &session, &twin).ok_or("a play")?;
    Ok((session, twin.taken.len()))
}

#[test]
fn random_sessions_are_answered_alike(rt: HostRuntime) -> Result<(), Fail> {
    let mut state = 1;
    for _ in 0..190 {
        let (_, taken) = run_session(&rt, rt.alloc(), TWO_BOARDS, &mut state, 150)?;
        expect_eq(&rt, taken > 20, true, taken);
    }
    Ok(())
}

// Sessions of nine plays, by IMPs, of which some are played to the end.
#[test]
fn long_random_sessions_are_answered_alike(rt: HostRuntime) -> Result<(), Fail> {
    let (before, after) = TWO_BOARDS.split_once("MP\nBOARDS 2").ok_or("two boards")?;
    let text = format!(in rt.alloc(); "{before}IMP\nBOARDS 1{after}")?;
    let (mut state, mut closed) = (2, 0u32);
    for _ in 0..10 {
        let (session, _) = run_session(&rt, rt.alloc(), text.as_str(), &mut state, 1800)?;
        if session.see(Key(11)).err() == Some(Refused::Closed) {
            closed = closed.saturating_add(1);
        }
    }
    expect_eq(&rt, closed > 1, true, closed);
    Ok(())
}
