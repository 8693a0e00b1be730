//! Games of the worked session in Portable Bridge Notation: rows that were worked out by hand.
use super::script::{IMPS, MATCHPOINTS, played};
use crate::tests::{expect_eq, expect_parts, times};
use results_pbn::write_results_games;
use std::alloc::Global;
use std::process::Abort;

/// Fails where the games of a configuration are not three with nine plays, the first with the rankings, or lack one of these parts.
fn expect_games(rt: &impl Abort, alloc: Global, config: &str, parts: &[&str]) {
    let session = played(rt, alloc, config);
    let mut text = Vec::new(alloc);
    let written = write_results_games(&session, &[], &mut text);
    expect_eq(rt, written.is_ok(), true, "written");
    let start =
        "% PBN 2.1\n[Event \"Club-Night\"]\n[Site \"Town-Hall\"]\n[Date \"2026.03.14\"]\n[Board \"1\"]\n[West \"\"]\n";
    expect_eq(
        rt,
        text.as_slice().starts_with(start.as_bytes()),
        true,
        start,
    );
    expect_eq(rt, times(text.as_slice(), "\n\n"), 3, "games");
    expect_eq(rt, times(text.as_slice(), "[ScoreTable "), 3, "tables");
    expect_eq(
        rt,
        times(text.as_slice(), "[TotalScoreTable "),
        1,
        "rankings",
    );
    expect_parts(rt, text.as_slice(), parts);
}

#[test]
fn games_with_matchpoints(rt: HostRuntime) {
    static PARTS: [&str; 4] = [
        "\n[South \"\"]\n[Dealer \"N\"]\n[Vulnerable \"None\"]\n[Deal \"N:",
        "\"]\n[Scoring \"MP\"]\n[Declarer \"\"]\n[Contract \"\"]\n[Result \"\"]\n[ScoreTable \"Round\\2R;",
        "\"]\n 2  3  3  5 4H    N 11 -     450    4.0    0.0\n 1  1  1  4 4H    N 10 HA    420    2.0    2.0\n 3  2  2  6 4SX   E  8 -     300    0.0    4.0\n[TotalScoreTable ",
        "\nE  1  6   12.0 100.00 \"Kim and Lea\"\n",
    ];
    expect_games(&rt, rt.alloc(), MATCHPOINTS, &PARTS);
}

#[test]
fn games_with_imps(rt: HostRuntime) {
    static PARTS: [&str; 3] = [
        "\n[Scoring \"IMP\"]\n",
        ";IMP_NS\\6R;IMP_EW\\6R\"]\n 2  3  3  5 4H    N 11 -     450      5     -5\n",
        ";TotalIMP\\6R;Names\"]\nN  1  2     33 \"Cat and Dan\"\n",
    ];
    expect_games(&rt, rt.alloc(), IMPS, &PARTS);
}
