//! A worked session of three tables, three rounds and three boards, as its players and the director act.
use super::games::{Game, ROUND_1, ROUND_2, ROUND_3, Turns};
use crate::tests::expect_eq;
use bridge_auction::Call;
use bridge_cards::deal_text::read_hands;
use bridge_cards::{BoardNumber, Card};
use bridge_config::{Key, read_config};
use bridge_session::{
    Action, BoardIndex, MadeCount, PlayId, RoundNumber, Session, TableNumber, TrickCount,
};
use std::alloc::Global;
use std::process::Abort;
use std::str::FromStr;

/// The director.
pub const DIRECTOR: Key = Key(100);

/// Three tables, three rounds, three boards, scored as this word says.
macro_rules! three_tables {
    ($scoring:literal) => {
        concat!(
            "EVENT Club-Night\nSITE Town-Hall\nDATE 2026.03.14\nSCORING ",
            $scoring,
            "\nBOARDS 1\nMITCHELL 3\nDIRECTOR 100\nPAIR 1 Ann 11 Bob 12\nPAIR 2 Cat 21 Dan 22\nPAIR 3 Eve 31 Fay 32
PAIR 4 Gus 41 Hal 42\nPAIR 5 Ida 51 Jan 52\nPAIR 6 Kim 61 Lea 62\n",
        )
    };
}

pub const MATCHPOINTS: &str = three_tables!("MP");

pub const IMPS: &str = three_tables!("IMP");

/// Takes an action, which is not refused.
pub fn act(rt: &impl Abort, session: &mut Session, action: Action) {
    expect_eq(rt, session.step(&action), Ok(()), action);
}

/// The board of that number.
pub fn board(rt: &impl Abort, number: u8) -> BoardNumber {
    BoardNumber::new(number).expect(rt, "a board")
}

fn made(rt: &impl Abort, count: usize) -> MadeCount {
    let count = u16::try_from(count).expect(rt, "a count");
    MadeCount::new(count).expect(rt, "a count")
}

/// The only board of a table's set in a round.
pub fn play(rt: &impl Abort, round: u8, table: u8) -> PlayId {
    PlayId {
        round: RoundNumber::new(round).expect(rt, "a round"),
        table: TableNumber::new(table).expect(rt, "a table"),
        index: BoardIndex::new(1).unwrap(),
    }
}

/// The players of those keys call in turn.
fn call(rt: &impl Abort, session: &mut Session, board: BoardNumber, calls: Turns) {
    for (at, (key, text)) in calls.iter().enumerate() {
        let action = Action::Call {
            key: Key(*key),
            board,
            at: made(rt, at),
            call: Call::from_str(text).ok().expect(rt, "a call"),
        };
        act(rt, session, action);
    }
}

/// The players of those keys play cards in turn.
fn cards(rt: &impl Abort, session: &mut Session, board: BoardNumber, cards: Turns) {
    for (at, (key, text)) in cards.iter().enumerate() {
        let action = Action::Card {
            key: Key(*key),
            board,
            at: made(rt, at),
            card: Card::from_str(text).ok().expect(rt, "a card"),
        };
        act(rt, session, action);
    }
}

/// A player claims so many tricks.
fn claim(rt: &impl Abort, session: &mut Session, board: BoardNumber, claim: (u32, u8)) {
    let claimed = Action::Claim {
        key: Key(claim.0),
        board,
        at: made(rt, 0),
        tricks: TrickCount::new(claim.1).expect(rt, "tricks"),
    };
    act(rt, session, claimed);
}

/// An opponent agrees to the claim.
fn agree(rt: &impl Abort, session: &mut Session, board: BoardNumber, opponent: u32) {
    let agreed = Action::Agree {
        key: Key(opponent),
        board,
        at: made(rt, 1),
    };
    act(rt, session, agreed);
}

/// The director deals a board, one suit in each hand: North has the spades.
fn deal(rt: &impl Abort, session: &mut Session, number: u8) {
    let text = b"N:AKQJT98765432... .AKQJT98765432.. ..AKQJT98765432. ...AKQJT98765432";
    let action = Action::Deal {
        key: DIRECTOR,
        board: board(rt, number),
        hands: read_hands(text).expect(rt, "hands"),
    };
    act(rt, session, action);
}

/// A session of that configuration in which boards 1 to 3 are dealt.
pub fn dealt(rt: &impl Abort, alloc: Global, config: &str) -> Session {
    let config = read_config(config.as_bytes()).ok();
    let session = Session::new(alloc, config.expect(rt, "a configuration"));
    let mut session = session.ok().expect(rt, "a session");
    for number in 1..4 {
        deal(rt, &mut session, number);
    }
    session
}

/// The director ends a round.
fn next(rt: &impl Abort, session: &mut Session, number: u8) {
    let action = Action::NextRound {
        key: DIRECTOR,
        round: RoundNumber::new(number).expect(rt, "a round"),
    };
    act(rt, session, action);
}

/// The boards of a round are played.
fn games(rt: &impl Abort, session: &mut Session, games: &[Game]) {
    for game in games {
        let board = board(rt, game.board);
        call(rt, session, board, game.calls);
        cards(rt, session, board, game.cards);
        claim(rt, session, board, game.claim);
        agree(rt, session, board, game.opponents[0]);
        agree(rt, session, board, game.opponents[1]);
    }
}

/// The first round.
pub fn round_1(rt: &impl Abort, session: &mut Session) {
    games(rt, session, &ROUND_1);
    next(rt, session, 1);
}

/// The second round.
pub fn round_2(rt: &impl Abort, session: &mut Session) {
    games(rt, session, &ROUND_2);
    next(rt, session, 2);
}

/// The third round, of which the director says no end.
pub fn round_3(rt: &impl Abort, session: &mut Session) {
    games(rt, session, &ROUND_3);
}

/// A session of three rounds of a configuration.
pub fn played(rt: &impl Abort, alloc: Global, config: &str) -> Session {
    let mut session = dealt(rt, alloc, config);
    round_1(rt, &mut session);
    round_2(rt, &mut session);
    round_3(rt, &mut session);
    session
}
