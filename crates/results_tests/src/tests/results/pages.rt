//! Pages of the worked session: rows that were worked out by hand.
use super::script::{MATCHPOINTS, played};
use crate::tests::{expect_eq, expect_parts};
use arrayvec::ArrayString;
use bridge_results::{Analysis, write_results, write_results_with};
use bridge_session::Session;
use evening_draft::PairNames;
use page_layout::Format;
use std::alloc::Global;
use std::process::Abort;

/// The page of a session.
pub fn page_shown(rt: &impl Abort, session: &Session, alloc: Global, format: Format) -> Vec<u8> {
    let mut page = Vec::new(alloc);
    let written = write_results(session, format, &mut page);
    expect_eq(rt, written.is_ok(), true, "written");
    page
}

/// The page of three rounds of a configuration.
pub fn page_of(rt: &impl Abort, alloc: Global, config: &str, format: Format) -> Vec<u8> {
    page_shown(rt, &played(rt, alloc, config), alloc, format)
}

/// The page with names and an analysis.
pub fn page_with(
    rt: &impl Abort,
    alloc: Global,
    names: Option<&[PairNames]>,
    analysis: &Analysis,
    format: Format,
) -> Vec<u8> {
    let session = played(rt, alloc, MATCHPOINTS);
    let mut page = Vec::new(alloc);
    let written = write_results_with(&session, names, analysis, format, &mut page);
    expect_eq(rt, written.is_ok(), true, "written");
    page
}

/// The page with the names of the six pairs.
fn named_page(rt: &impl Abort, alloc: Global, format: Format) -> Vec<u8> {
    let names = six_pairs();
    let analysis = Analysis {
        boards: &[],
        plays: &[],
    };
    page_with(rt, alloc, Some(names.as_slice()), &analysis, format)
}

#[test]
fn plain_text(rt: HostRuntime) {
    let page = page_of(&rt, rt.alloc(), MATCHPOINTS, Format::Plain);
    static ROWS: [&str; 11] = [
        "Club-Night\nTown-Hall, 2026.03.14\nMatchpoints\nTables: 3, boards: 3, rounds: 3\n",
        "\nRanking, field 2\n",
        "      1      6  Kim and Lea                                                 ",
        "     12.0       12.0   100.00\n",
        "\nBoard 2\nDealer: E, vulnerable: NS\n",
        "\n  S -                                 S -\n",
        "\n      1      1      1      4  4H        N     HA         10        420        2.0        2.0\n",
        "\n        450        1        4.0        0.0\n",
        "\nPair 6: Kim and Lea\n",
        "\n      3      1  EW          2  4SX       E           8       -300        4.0\n",
        "\nTotal: 12.0 of 12.0\n",
    ];
    expect_parts(&rt, page.as_slice(), &ROWS);
}

/// Six pairs, the last with other names: of three signs that take two columns each, and with marks of HTML.
fn six_pairs() -> [PairNames; 6] {
    let mut names = [PairNames::default(); 6];
    for pair in &mut names {
        let _ = pair.first.try_push_str("A");
        let _ = pair.second.try_push_str("B");
    }
    let mut sixth = PairNames {
        first: ArrayString::new(),
        second: ArrayString::new(),
    };
    let _ = sixth.first.try_push_str("李小龍");
    let _ = sixth.second.try_push_str("O'Brien <b>");
    names[5] = sixth;
    names
}

// Of the names of pair 6, 22 columns of 53 are taken.
#[test]
fn plain_pages_with_names(rt: HostRuntime) {
    static ROWS: [&str; 3] = [
        "      1      6  李小龍 and O'Brien <b>                                      12.0       12.0   100.00\n",
        "\nPair 6: 李小龍 and O'Brien <b>\n",
        "\nPair 1: A and B\n",
    ];
    let page = named_page(&rt, rt.alloc(), Format::Plain);
    expect_parts(&rt, page.as_slice(), &ROWS);
}

#[test]
fn html_pages_with_names(rt: HostRuntime) {
    static PARTS: [&str; 2] = [
        "<td>李小龍 and O&#39;Brien &lt;b&gt;</td>",
        "<h3>Pair 6: 李小龍 and O&#39;Brien &lt;b&gt;</h3>",
    ];
    let page = named_page(&rt, rt.alloc(), Format::Html);
    expect_parts(&rt, page.as_slice(), &PARTS);
}
