//! Two sections of the worked session as one field, exported: rows that were worked out by hand.
ghost use Rattle.std.specs.Prelude.{◌≤◌, length};
ghost use Rattle.event_ranking.specs.OneField.{IsField};

use super::event::two_sections;
use super::script::MATCHPOINTS;
use crate::tests::{expect_eq, expect_parts, times};
use bridge_session::Session;
use event_object::event_object_text;
use event_pbn::write_event_games;
use event_ranking::field_of;
use event_results::EventResults;
use std::alloc::{AllocError, Global};
use std::process::Abort;

/// Of both sections: board 1 was 450 at two tables, which gain 7 of 8 matchpoints, 420 at two, which gain 3, and 300 at one.
static GAMES: [&str; 4] = [
    "% PBN 2.1\n[Event \"Club-Night\"]\n[Site \"Town-Hall\"]\n[Date \"2026.03.14\"]\n[Board \"1\"]\n[West \"\"]\n",
    "\"]\n[Scoring \"MP\"]\n[Declarer \"\"]\n[Contract \"\"]\n[Result \"\"]\n[ScoreTable \"Section\\2L;Round\\2R;",
    "\"]\nA   2  3  3  5 4H    N 11 -     450    7.0    1.0\nB   2  3  3  5 4H    N 11 -     450    7.0    1.0
A   1  1  1  4 4H    N 10 HA    420    3.0    5.0\nB   1  1  1  4 4H    N 10 HA    420    3.0    5.0
A   3  2  2  6 4SX   E  8 -     300    0.0    8.0\n[TotalScoreTable \"Section\\2L;Direction\\1L;Rank\\3R;PairId\\2R;",
    "\"]\nB  N   1  2    14.0  87.50 \"Cat and Dan\"\nA  N   2  2    14.0  58.33 \"Cat and Dan\"\n",
];

/// The first play of board 1, the event and the best pair, and the first pair of the first section.
static OBJECT: [&str; 6] = [
    "{\"boards\":[{\"board\":1,\"deal\":\"N:",
    ",\"dealer\":\"N\",\"plays\":[{\"averages\":null,\"ew\":{\"percent\":\"12.50\",\"points\":\"1.0\"},\"ns\":{\"percent\":\"87.50\",\"points\":\"7.0\"},\"result\":{",
    "{\"contract\":\"4H\",\"declarer\":\"N\",\"lead\":null,\"tricks\":11},\"row\":{\"ew\":5,\"ns\":3,\"round\":2,\"table\":3},\"score\":450,\"section\":\"A\"},{",
    ",\"event\":{\"date\":\"2026.03.14\",\"event\":\"Club-Night\",\"scoring\":\"matchpoints\",\"site\":\"Town-Hall\"},\"first\":[{",
    "\"first\":[{\"names\":[\"Cat\",\"Dan\"],\"pair\":2,\"place\":1,\"section\":\"B\",\"total\":{\"available\":\"16.0\",\"percent\":\"87.50\",\"points\":\"14.0\"}},",
    ",\"sections\":[{\"pairs\":[{\"names\":[\"Ann\",\"Bob\"],\"pair\":1},",
];

fn expect_exports(rt: &impl Abort, alloc: Global, sections: &[Session]) -> Result<(), AllocError>
    requires few { length sections.now ≤ 40 }
    requires field { IsField sections.now }
{
    let results = EventResults::new(alloc, sections)?;
    let mut text = Vec::new(alloc);
    let written = write_event_games(&results, &[], &mut text);
    expect_eq(rt, written.is_ok(), true, "written");
    expect_eq(rt, times(text.as_slice(), "\n\n"), 3, "games");
    expect_eq(
        rt,
        times(text.as_slice(), "[TotalScoreTable "),
        1,
        "rankings",
    );
    expect_parts(rt, text.as_slice(), &GAMES);
    let object = event_object_text(alloc, &results)?;
    expect_parts(rt, object.as_bytes(), &OBJECT);
    Ok(())
}

#[test]
fn two_sections_exported(rt: HostRuntime) -> Result<(), AllocError> {
    let alloc = rt.alloc();
    let sections = two_sections(&rt, alloc, MATCHPOINTS);
    match field_of(&sections) {
        Ok(()) => expect_exports(&rt, alloc, &sections)?,
        Err(refused) => expect_eq(&rt, Some(refused), None, "a field"),
    }
    Ok(())
}
