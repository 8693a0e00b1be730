//! The travellers, the page and the tables of two sections of the worked session, worked out by hand.
ghost use Rattle.std.specs.Prelude.{◌≤◌, length};
ghost use Rattle.event_ranking.specs.OneField.{IsField};

use super::event::two_sections;
use super::script::{MATCHPOINTS, board};
use crate::tests::{expect_eq, expect_parts, times};
use bridge_session::Session;
use event_ranking::field_of;
use event_results::{
    EventResults, SectionPlay, write_event_plays, write_event_rankings, write_event_results,
};
use page_layout::Format;
use std::alloc::{AllocError, Global};
use std::process::Abort;

/// Of a line: section, round, and what each side gained.
type Row = (u8, u8, Option<(i32, i32)>);

fn row_of(play: &SectionPlay) -> Row {
    let gains = match play.line.comparison {
        Some(compared) => Some((compared.ns_gain, compared.ew_gain)),
        None => None,
    };
    (play.section, play.line.play.row.round, gains)
}

/// Board 1 over both sections: 450, 450, 420, 420 and 300. The best has 2.0 of each of three others, and 1.0 of its equal.
static BOARD_1: [Row; 5] = [
    (1, 2, Some((70, 10))),
    (2, 2, Some((70, 10))),
    (1, 1, Some((30, 50))),
    (2, 1, Some((30, 50))),
    (1, 3, Some((0, 80))),
];

fn expect_traveller(rt: &impl Abort, results: &EventResults) {
    let lines = results.traveller(board(rt, 1));
    expect_eq(rt, lines.len(), BOARD_1.len(), "lines");
    for index in 0..BOARD_1.len() {
        let line = lines.get(index).expect(rt, "a line");
        expect_eq(rt, row_of(line), BOARD_1[index], index);
    }
    expect_eq(rt, results.traveller(board(rt, 4)).len(), 0, "board 4");
}

/// What the page has: the head, the rankings, and the traveller of board 1.
static PARTS: [&str; 5] = [
    "Club-Night\nTown-Hall, 2026.03.14\nMatchpoints\nSections: 2\n\nRanking of all sections, field 1\n",
    "\nRanking of section B, field 2\n",
    "\nBoard 1\nDealer: N, vulnerable: None\n",
    "  Section  Round  Table     NS     EW  Contract  By    Lead   Tricks      Score   NS gain   EW gain\n        A      2      3      3      5  ",
    "\n        A      3      2      2      6  4SX       E                 8        300       0.0       8.0\n\n",
];

fn expect_page(rt: &impl Abort, alloc: Global, results: &EventResults) {
    let mut page = Vec::new(alloc);
    let written = write_event_results(Format::Plain, &[], results, &mut page);
    expect_eq(rt, written.is_ok(), true, "written");
    expect_parts(rt, page.as_slice(), &PARTS);
    expect_eq(rt, times(page.as_slice(), "\nRanking of "), 6, "rankings");
    expect_eq(rt, times(page.as_slice(), "\nBoard "), 3, "boards");
}

/// Fails where a table has not so many rows below its titles, does not begin like this, or lacks one of the rows.
fn expect_table(rt: &impl Abort, table: &[u8], count: usize, start: &str, rows: &[&str]) {
    expect_eq(rt, times(table, "\r\n"), count.saturating_add(1), start);
    expect_eq(rt, table.starts_with(start.as_bytes()), true, start);
    expect_parts(rt, table, rows);
}

fn expect_tables(rt: &impl Abort, alloc: Global, results: &EventResults) {
    let mut plays = Vec::new(alloc);
    let written = write_event_plays(results, &mut plays);
    expect_eq(rt, written.is_ok(), true, "plays");
    let titles =
        "section,board,round,table,ns,ew,contract,by,lead,tricks,score,ns_gain,ew_gain\r\nA,1,2,3,3,5,";
    static PLAYS: [&str; 2] = [
        "\r\nB,1,1,1,1,4,4H,N,HA,10,420,3.0,5.0\r\n",
        "\r\nA,1,3,2,2,6,4SX,E,,8,300,0.0,8.0\r\n",
    ];
    expect_table(rt, plays.as_slice(), 15, titles, &PLAYS);
    let mut rankings = Vec::new(alloc);
    let written = write_event_rankings(results, &mut rankings);
    expect_eq(rt, written.is_ok(), true, "rankings");
    let titles =
        "section,field,place,pair,first_player,second_player,score,available,percent\r\nB,1,1,2,Cat,Dan,14.0,16.0,87.50\r\n";
    let rows = ["\r\nA,1,3,3,Eve,Fay,12.0,24.0,50.00\r\n"];
    expect_table(rt, rankings.as_slice(), 12, titles, &rows);
}

fn expect_results(rt: &impl Abort, alloc: Global, sections: &[Session]) -> Result<(), AllocError>
    requires few { length sections.now ≤ 40 }
    requires field { IsField sections.now }
{
    let results = EventResults::new(alloc, sections)?;
    expect_traveller(rt, &results);
    expect_page(rt, alloc, &results);
    expect_tables(rt, alloc, &results);
    Ok(())
}

#[test]
fn two_sections_shown_together(rt: HostRuntime) -> Result<(), AllocError> {
    let alloc = rt.alloc();
    let sections = two_sections(&rt, alloc, MATCHPOINTS);
    match field_of(&sections) {
        Ok(()) => expect_results(&rt, alloc, &sections)?,
        Err(refused) => expect_eq(&rt, Some(refused), None, "a field"),
    }
    Ok(())
}
