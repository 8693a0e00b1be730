//! Tables of the worked session: rows that were worked out by hand.
use super::script::{IMPS, MATCHPOINTS, played};
use crate::tests::{expect_eq, expect_parts, times};
use bridge_results::{write_plays_table, write_rankings_table};
use std::alloc::Global;
use std::process::Abort;

/// Fails where a table has not so many rows, does not begin with the titles, or lacks one of the rows.
fn expect_table(rt: &impl Abort, table: &[u8], count: usize, titles: &str, rows: &[&str]) {
    expect_eq(rt, times(table, "\r\n"), count, titles);
    expect_eq(rt, table.starts_with(titles.as_bytes()), true, titles);
    expect_parts(rt, table, rows);
}

#[test]
fn plays_as_values(rt: HostRuntime) {
    let session = played(&rt, rt.alloc(), MATCHPOINTS);
    let mut table = Vec::new(rt.alloc());
    let written = write_plays_table(&session, &mut table);
    expect_eq(&rt, written.is_ok(), true, "written");
    let titles =
        "board,round,table,ns,ew,contract,by,lead,tricks,score,ns_gain,ew_gain\r\n1,2,3,3,5,";
    static ROWS: [&str; 2] = [
        "\r\n1,1,1,1,4,4H,N,HA,10,420,2.0,2.0\r\n",
        "\r\n1,3,2,2,6,4SX,E,,8,300,0.0,4.0\r\n",
    ];
    expect_table(&rt, table.as_slice(), 10, titles, &ROWS);
}

/// Fails where the table of the rankings of a configuration lacks this row, or has others than seven, below its titles.
fn expect_rankings(rt: &impl Abort, alloc: Global, config: &str, row: &str) {
    let titles = "field,place,pair,first_player,second_player,score,available,percent\r\n1,1,";
    let session = played(rt, alloc, config);
    let mut table = Vec::new(alloc);
    let written = write_rankings_table(&session, &mut table);
    expect_eq(rt, written.is_ok(), true, "written");
    expect_table(rt, table.as_slice(), 7, titles, &[row]);
}

#[test]
fn rankings_as_values(rt: HostRuntime) {
    let alloc = rt.alloc();
    let row = "\r\n2,1,6,Kim,Lea,12.0,12.0,100.00\r\n";
    expect_rankings(&rt, alloc, MATCHPOINTS, row);
    expect_rankings(&rt, alloc, IMPS, "\r\n1,1,2,Cat,Dan,33,,\r\n");
}
