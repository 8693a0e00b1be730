//! Worked results of three tables, three rounds and three boards, each worked out by hand from the Laws.
mod event;
mod event_pages;
mod exports;
mod games;
mod html;
mod makeable;
mod notation;
mod pages;
mod script;
mod tables;

use crate::tests::expect_eq;
use bridge_cards::Side;
use bridge_ranking::PlayResult;
use bridge_results::{BoardLine, CardLine, Frequency, Results, frequencies};
use bridge_session::{Action, Average, Field, Session, TrickCount};
use script::{DIRECTOR, IMPS, MATCHPOINTS, act, board, dealt, play, played, round_1, round_2};
use std::process::Abort;

/// Of a line: the round, the table, the pairs, the score if there is one, and what each side gained.
type Row = (u8, u8, u8, u8, Option<i32>, Option<(i32, i32)>);

fn row_of(line: &BoardLine) -> Row {
    let row = line.play.row;
    let score = match line.comparison {
        Some(comparison) => match comparison.result {
            PlayResult::Score(score) => Some(score),
            PlayResult::Averages { .. } => None,
        },
        None => None,
    };
    let gains = match line.comparison {
        Some(comparison) => Some((comparison.ns_gain, comparison.ew_gain)),
        None => None,
    };
    (row.round, row.table, row.ns, row.ew, score, gains)
}

fn expect_rows(rt: &impl Abort, lines: &[BoardLine], rows: &[Row]) {
    expect_eq(rt, lines.len(), rows.len(), "lines");
    for index in 0..rows.len() {
        let line = lines.get(index).expect(rt, "a line");
        expect_eq(rt, row_of(line), rows[index], index);
    }
}

/// Of a line of frequencies: the score, how often it was, and what each side gained.
type Often = (i32, u8, i32, i32);

fn expect_frequencies(rt: &impl Abort, found: &[Frequency], due: &[Often]) {
    expect_eq(rt, found.len(), due.len(), "frequencies");
    for index in 0..due.len() {
        let line = found.get(index).expect(rt, "a line");
        let often = (line.score, line.count, line.ns_gain, line.ew_gain);
        expect_eq(rt, often, due[index], index);
    }
}

/// Of a line of a card: the board, the round, the opponents, the score, and the gain of what was available.
type Own = (u8, u8, u8, Option<i32>, i32, u32);

fn own_of(line: &CardLine) -> Own {
    (
        line.board.number(),
        line.round,
        line.opponents,
        line.score,
        line.gain,
        line.available,
    )
}

fn expect_card(rt: &impl Abort, side: Side, lines: &[CardLine], rows: &[Own]) {
    expect_eq(rt, lines.len(), rows.len(), "lines");
    for index in 0..rows.len() {
        let line = lines.get(index).expect(rt, "a line");
        expect_eq(rt, line.side, side, index);
        expect_eq(rt, own_of(line), rows[index], index);
    }
}

/// How many of the lines name a lead.
fn leads_in(lines: &[BoardLine]) -> usize {
    let mut leads: usize = 0;
    for line in lines {
        if line.play.lead.is_some() {
            leads = leads.saturating_add(1);
        }
    }
    leads
}

#[test]
fn three_rounds_by_matchpoints(rt: HostRuntime) {
    static LINES: [Row; 3] = [
        (2, 3, 3, 5, Some(450), Some((40, 0))),
        (1, 1, 1, 4, Some(420), Some((20, 20))),
        (3, 2, 2, 6, Some(300), Some((0, 40))),
    ];
    static OFTEN: [Often; 3] = [(450, 1, 40, 0), (420, 1, 20, 20), (300, 1, 0, 40)];
    // Pair 6 has 12.0 of 12.0.
    static CARD: [Own; 3] = [
        (3, 1, 3, Some(670), 40, 40),
        (2, 2, 1, Some(100), 40, 40),
        (1, 3, 2, Some(-300), 40, 40),
    ];
    let session = played(&rt, rt.alloc(), MATCHPOINTS);
    let results = Results::new(&session);
    let lines = results.traveller(board(&rt, 1));
    expect_rows(&rt, &lines, &LINES);
    expect_eq(&rt, leads_in(&lines), 1, "leads");
    expect_frequencies(&rt, &frequencies(&lines), &OFTEN);
    expect_card(&rt, Side::EastWest, &results.score_card(6), &CARD);
    let ranking = results.ranking(Field::Second);
    let ranking = ranking.expect(&rt, "a second field");
    expect_eq(&rt, ranking.len(), 3, "ranked");
}

#[test]
fn three_rounds_by_imps(rt: HostRuntime) {
    // 150 points are 4 IMPs, 120 are 3, 30 are 1.
    static OFTEN: [Often; 3] = [(450, 1, 5, -5), (420, 1, 2, -2), (300, 1, -7, 7)];
    // Pair 2 has 33.
    static CARD: [Own; 3] = [
        (2, 1, 5, Some(600), 24, 40),
        (3, 2, 4, Some(200), 16, 40),
        (1, 3, 6, Some(300), -7, 40),
    ];
    let session = played(&rt, rt.alloc(), IMPS);
    let results = Results::new(&session);
    let lines = results.traveller(board(&rt, 1));
    expect_frequencies(&rt, &frequencies(&lines), &OFTEN);
    expect_card(&rt, Side::NorthSouth, &results.score_card(2), &CARD);
}

/// The director rules that the declarer of the board of table 1 in round 1 took eleven tricks.
fn rule(rt: &impl Abort, session: &mut Session) {
    let play = play(rt, 1, 1);
    let tricks = TrickCount::new(11).unwrap();
    let ruled = Action::Tricks {
        key: DIRECTOR,
        play,
        tricks,
    };
    act(rt, session, ruled);
}

#[test]
fn equal_scores_stand_by_round(rt: HostRuntime) {
    static LINES: [Row; 2] = [
        (1, 1, 1, 4, Some(450), Some((10, 10))),
        (2, 3, 3, 5, Some(450), Some((10, 10))),
    ];
    let mut session = dealt(&rt, rt.alloc(), MATCHPOINTS);
    round_1(&rt, &mut session);
    round_2(&rt, &mut session);
    rule(&rt, &mut session);
    let results = Results::new(&session);
    let lines = results.traveller(board(&rt, 1));
    expect_rows(&rt, &lines, &LINES);
    expect_frequencies(&rt, &frequencies(&lines), &[(450, 2, 10, 10)]);
}

/// The director gives averages for board 2 at table 1 in round 2.
fn adjust(rt: &impl Abort, session: &mut Session) {
    let (ns, ew) = (Average::Plus, Average::Minus);
    let adjusted = Action::Adjust {
        key: DIRECTOR,
        play: play(rt, 2, 1),
        ns,
        ew,
    };
    act(rt, session, adjusted);
}

/// The director voids board 2 at table 2 in round 1.
fn void(rt: &impl Abort, session: &mut Session) {
    let play = play(rt, 1, 2);
    act(
        rt,
        session,
        Action::Void {
            key: DIRECTOR,
            play,
        },
    );
}

/// Board 2 once its play at table 1 in round 2 is adjusted: averages are of what is available.
static ADJUSTED: [Row; 3] = [
    (1, 2, 2, 5, Some(600), Some((20, 0))),
    (3, 3, 3, 4, Some(-90), Some((0, 20))),
    (2, 1, 1, 6, None, Some((12, 8))),
];

/// And once its play in round 1 is void too, so that one score is left.
static VOID: [Row; 3] = [
    (3, 3, 3, 4, Some(-90), Some((0, 0))),
    (2, 1, 1, 6, None, Some((0, 0))),
    (1, 2, 2, 5, None, None),
];

/// The card of pair 1 then.
static CARD_OF_PAIR_1: [Own; 3] = [
    (1, 1, 4, Some(420), 20, 40),
    (2, 2, 6, None, 0, 0),
    (3, 3, 5, Some(110), 20, 40),
];

// Adjusted plays stand below all scores, void ones last. Averages are of what is available: 20 where two scores are left.
#[test]
fn adjusted_and_void_plays(rt: HostRuntime) {
    let mut session = played(&rt, rt.alloc(), MATCHPOINTS);
    adjust(&rt, &mut session);
    let board = board(&rt, 2);
    let lines = Results::new(&session).traveller(board);
    expect_rows(&rt, &lines, &ADJUSTED);
    void(&rt, &mut session);
    let results = Results::new(&session);
    expect_rows(&rt, &results.traveller(board), &VOID);
    expect_card(
        &rt,
        Side::NorthSouth,
        &results.score_card(1),
        &CARD_OF_PAIR_1,
    );
    expect_eq(&rt, results.score_card(7).len(), 0, "no pair 7");
}
