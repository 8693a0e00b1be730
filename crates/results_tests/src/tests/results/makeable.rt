//! Pages with what could be made: rows that were worked out by hand.
use super::pages::page_with;
use super::script::board;
use crate::tests::{expect_eq, expect_parts, times};
use arrayvec::ArrayVec;
use bridge_par::{DeclarerTricks, TrickTable};
use bridge_results::{Analysis, Makeable, PlayCosts};
use page_layout::Format;
use std::alloc::Global;
use std::process::Abort;

/// North has the spades, East the hearts, South the diamonds and West the clubs: with its own suit as trumps a side takes all the
/// tricks, and without trumps the declarer takes none.
const SUITS: TrickTable = TrickTable {
    clubs: DeclarerTricks {
        north: 0,
        east: 13,
        south: 0,
        west: 13,
    },
    diamonds: DeclarerTricks {
        north: 13,
        east: 0,
        south: 13,
        west: 0,
    },
    hearts: DeclarerTricks {
        north: 0,
        east: 13,
        south: 0,
        west: 13,
    },
    spades: DeclarerTricks {
        north: 13,
        east: 0,
        south: 13,
        west: 0,
    },
    no_trump: DeclarerTricks {
        north: 0,
        east: 0,
        south: 0,
        west: 0,
    },
};

/// Nine tricks in the minors and eight in the majors: 110 by twenty contracts.
const PART_SCORES: TrickTable = TrickTable {
    clubs: DeclarerTricks {
        north: 9,
        east: 4,
        south: 9,
        west: 4,
    },
    diamonds: DeclarerTricks {
        north: 9,
        east: 4,
        south: 9,
        west: 4,
    },
    hearts: DeclarerTricks {
        north: 8,
        east: 5,
        south: 8,
        west: 5,
    },
    spades: DeclarerTricks {
        north: 8,
        east: 5,
        south: 8,
        west: 5,
    },
    no_trump: DeclarerTricks {
        north: 6,
        east: 6,
        south: 6,
        west: 6,
    },
};

/// Ten tricks in spades against East's nine in diamonds.
const GAME: TrickTable = TrickTable {
    clubs: DeclarerTricks {
        north: 5,
        east: 5,
        south: 5,
        west: 5,
    },
    diamonds: DeclarerTricks {
        north: 4,
        east: 9,
        south: 4,
        west: 8,
    },
    hearts: DeclarerTricks {
        north: 5,
        east: 5,
        south: 5,
        west: 5,
    },
    spades: DeclarerTricks {
        north: 10,
        east: 3,
        south: 10,
        west: 3,
    },
    no_trump: DeclarerTricks {
        north: 5,
        east: 5,
        south: 5,
        west: 5,
    },
};

/// The page with these tables on boards 1 to 3.
fn page_of_tables(
    rt: &impl Abort,
    alloc: Global,
    boards: &[Option<Makeable>],
    format: Format,
) -> Vec<u8> {
    let analysis = Analysis { boards, plays: &[] };
    page_with(rt, alloc, None, &analysis, format)
}

// Board 1, with nobody vulnerable, has the par of `SUITS`. Of board 2 nothing is known. On board 3, with East and West vulnerable, a
// contract that each of five bids reaches stands in the first nine, the next ten, and the last.
#[test]
fn plain_text(rt: HostRuntime) {
    let analysis = [
        Some(Makeable { table: SUITS }),
        None,
        Some(Makeable { table: PART_SCORES }),
    ];
    let page = page_of_tables(&rt, rt.alloc(), &analysis, Format::Plain);
    static LINES: [&str; 3] = [
        concat!(
            "\n  Can be made      C      D      H      S     NT\n",
            "  N                -     13      -     13      -\n",
            "  S                -     13      -     13      -\n",
            "  E               13      -     13      -      -\n",
            "  W               13      -     13      -      -\n",
            "\nPar: 1510, 7S N, 7S S\n\n  Round  Table"
        ),
        "\n  N                9      9      8      8      -\n",
        concat!(
            "\nPar: 110, 1C N, 1C S, 1D N, 1D S, 1H N, 1H S, 1S N, 1S S, 2C N,\n",
            "  2C S, 2D N, 2D S, 2H N, 2H S, 2S N, 2S S, 3C N, 3C S, 3D N,\n  3D S\n\n  Round  Table"
        ),
    ];
    expect_parts(&rt, page.as_slice(), &LINES);
    let second = "\nBoard 2\nDealer: E, vulnerable: NS\n";
    expect_parts(&rt, page.as_slice(), &[second]);
    let tables = times(page.as_slice(), "Can be made");
    expect_eq(&rt, tables, 2, "tables");
}

// On board 2 North and South are vulnerable: five diamonds doubled and two down costs 300, less than four spades.
#[test]
fn html(rt: HostRuntime) {
    let analysis = [
        Some(Makeable { table: SUITS }),
        Some(Makeable { table: GAME }),
    ];
    let page = page_of_tables(&rt, rt.alloc(), &analysis, Format::Html);
    static PARTS: [&str; 4] = [
        concat!(
            "</table>\n<table class=\"makeable\">\n<caption>Can be made</caption>\n<thead><tr><th scope=\"col\">By</th>",
            "<th scope=\"col\" class=\"r\"><span class=\"c\">&clubs;</span></th><th scope=\"col\" class=\"r\"><span class=\"d\">&diams;</span></th>",
            "<th scope=\"col\" class=\"r\"><span class=\"h\">&hearts;</span></th><th scope=\"col\" class=\"r\"><span class=\"s\">&spades;</span></th>",
            "<th scope=\"col\" class=\"r\">NT</th></tr></thead>\n",
            "<tr><td>N</td><td class=\"r\">-</td><td class=\"r\">13</td><td class=\"r\">-</td><td class=\"r\">13</td><td class=\"r\">-</td></tr>\n"
        ),
        "</table>\n<p>Par: 1510, 7<span class=\"s\">&spades;</span> N, 7<span class=\"s\">&spades;</span> S</p>\n<table class=\"lines\">",
        "<tr><td>E</td><td class=\"r\">-</td><td class=\"r\">9</td>",
        "<p>Par: 300, 5<span class=\"d\">&diams;</span>x E</p>\n",
    ];
    expect_parts(&rt, page.as_slice(), &PARTS);
}

// The four cards of board 1 at table 1 in round 1. Of the second play nothing is known.
#[test]
fn cards_that_cost_a_trick(rt: HostRuntime) {
    let mut cards = ArrayVec::new();
    cards.push(1);
    cards.push(0);
    cards.push(0);
    cards.push(2);
    let costs = [PlayCosts {
        round: 1,
        table: 1,
        board: board(&rt, 1),
        cards,
    }];
    let analysis = Analysis {
        boards: &[],
        plays: &costs,
    };
    let page = page_with(&rt, rt.alloc(), None, &analysis, Format::Html);
    static PARTS: [&str; 2] = [
        "<h2>Boards</h2>\n<p>A card with -1 behind it gave a trick away, as all the cards lay.</p>\n",
        concat!(
            "<tr><td class=\"r\">1</td><td>E</td><td><span class=\"h\">&hearts;</span>A -1</td><td><span class=\"d\">&diams;</span>2</td>",
            "<td><span class=\"c\">&clubs;</span>2</td><td><span class=\"s\">&spades;</span>2 -2</td><td>E</td></tr>\n"
        ),
    ];
    expect_parts(&rt, page.as_slice(), &PARTS);
}
