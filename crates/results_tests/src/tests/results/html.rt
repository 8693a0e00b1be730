//! HTML pages of the worked session: rows that were worked out by hand.
use super::pages::{page_of, page_shown};
use super::script::{DIRECTOR, IMPS, MATCHPOINTS, act, play, played};
use super::{adjust, void};
use crate::tests::expect_parts;
use bridge_auction::{Bid, Call, Contract, Doubling};
use bridge_cards::Seat;
use bridge_session::{Action, Session, TrickCount};
use page_layout::Format;
use std::process::Abort;
use std::str::FromStr;

#[test]
fn by_imps(rt: HostRuntime) {
    let page = page_of(&rt, rt.alloc(), IMPS, Format::Html);
    static PARTS: [&str; 5] = [
        "<title>Club-Night</title>",
        "<tr><td class=\"r\">1</td><td class=\"r\"><a href=\"#pair-2\">2</a></td><td>Cat and Dan</td><td class=\"r\">33</td></tr>",
        "<td><a href=\"#play-1-3-2\">4<span class=\"s\">&spades;</span>x-2</a></td><td>E</td><td></td><td class=\"r\">300</td>",
        "<p>Place 1 of 3: 33 IMPs</p>",
        "<td>4<span class=\"s\">&spades;</span>x-2</td><td>E</td><td class=\"r\">300</td><td class=\"r\">-7</td></tr>",
    ];
    expect_parts(&rt, page.as_slice(), &PARTS);
}

// Pair 6 has 12.0 of 12.0: on board 1 all of 4.0, as the only one in that contract.
#[test]
fn by_matchpoints(rt: HostRuntime) {
    let page = page_of(&rt, rt.alloc(), MATCHPOINTS, Format::Html);
    static PARTS: [&str; 8] = [
        "<h2>Ranking NS</h2>",
        "<h2>Ranking EW</h2>",
        "<section class=\"traveller\" id=\"board-1\">\n<h3>Board 1</h3>\n",
        "<tr><td></td><td><span class=\"s\">&spades;</span> AKQJ1098765432</td><td></td></tr>\n",
        "<td><a href=\"#play-1-2-3\">4<span class=\"h\">&hearts;</span>+1</a></td><td>N</td>",
        "<td class=\"r\">4.0</td><td class=\"r\">0.0</td><td class=\"r\">100.00</td><td class=\"r\">0.00</td></tr>",
        "<section class=\"card\" id=\"pair-6\">\n<h3>Pair 6: Kim and Lea</h3>\n<p>Place 1 of 3: 12.0 of 12.0, 100.00 %</p>\n",
        concat!(
            "<tr><td class=\"r\"><a href=\"#board-1\">1</a></td><td>EW</td><td class=\"r\"><a href=\"#pair-2\">2</a></td><td>Cat and Dan</td>",
            "<td>4<span class=\"s\">&spades;</span>x-2</td><td>E</td><td class=\"r\">-300</td><td class=\"r\">4.0</td><td class=\"r\">100.00</td></tr>"
        ),
    ];
    expect_parts(&rt, page.as_slice(), &PARTS);
}

// Board 1 at table 1 in round 1: 4H by North, East leads the ace of trumps and wins with it, and North claims ten of the twelve
// tricks that are left. Board 2, of which East is the dealer: the fifth call stands below the first.
#[test]
fn auctions_and_plays(rt: HostRuntime) {
    let page = page_of(&rt, rt.alloc(), MATCHPOINTS, Format::Html);
    static PARTS: [&str; 4] = [
        concat!(
            "<summary>1 <bdi>Ann and Bob</bdi>, 4 <bdi>Gus and Hal</bdi>: 4<span class=\"h\">&hearts;</span>= N</summary>\n<p>Round 1, table 1</p>\n",
            "<table class=\"auction\" id=\"play-1-1-1\">\n<caption>Auction</caption>\n<thead><tr><th scope=\"col\">N</th>"
        ),
        "</tr></thead>\n<tr><td>4<span class=\"h\">&hearts;</span></td><td>Pass</td><td>Pass</td><td>Pass</td></tr>\n</table>\n<table class=\"tricks\">",
        concat!(
            "<tr><td class=\"r\">1</td><td>E</td><td><span class=\"h\">&hearts;</span>A</td><td><span class=\"d\">&diams;</span>2</td>",
            "<td><span class=\"c\">&clubs;</span>2</td><td><span class=\"s\">&spades;</span>2</td><td>E</td></tr>\n</table>\n<p>Claim by N, tricks: 10</p>\n</details>\n"
        ),
        concat!(
            "<th scope=\"col\">E</th><th scope=\"col\">S</th><th scope=\"col\">W</th><th scope=\"col\">N</th></tr></thead>\n",
            "<tr><td>Pass</td><td>3NT</td><td>Pass</td><td>Pass</td></tr>\n<tr><td>Pass</td><td></td><td></td><td></td></tr>\n</table>\n"
        ),
    ];
    expect_parts(&rt, page.as_slice(), &PARTS);
}

/// The director assigns 7C redoubled and made by North to board 1 at table 1 in round 1.
fn assign(rt: &impl Abort, session: &mut Session) {
    let bid = match Call::from_str("7C") {
        Ok(Call::Bid(bid)) => Some(bid),
        _ => None::<Bid>,
    };
    let assigned = Action::Assign {
        key: DIRECTOR,
        play: play(rt, 1, 1),
        contract: Contract {
            bid: bid.expect(rt, "a bid"),
            doubling: Doubling::Redoubled,
            declarer: Seat::North,
        },
        tricks: TrickCount::new(13).unwrap(),
    };
    act(rt, session, assigned);
}

// 7C redoubled and made: 560, 300 for game, 1000 for the grand slam, 100 for the redouble. Where one score of a board is left
// nothing is available.
#[test]
fn rulings(rt: HostRuntime) {
    let mut session = played(&rt, rt.alloc(), MATCHPOINTS);
    adjust(&rt, &mut session);
    assign(&rt, &mut session);
    let page = page_shown(&rt, &session, rt.alloc(), Format::Html);
    static PARTS: [&str; 2] = [
        concat!(
            "<td><a href=\"#play-1-1-1\">7<span class=\"c\">&clubs;</span>xx=*</a></td><td>N</td><td><span class=\"h\">&hearts;</span>A</td>",
            "<td class=\"r\">1960</td><td class=\"r\">4.0</td><td class=\"r\">0.0</td><td class=\"r\">100.00</td><td class=\"r\">0.00</td></tr>"
        ),
        concat!(
            "<td><a href=\"#play-2-2-1\">Adjusted</a></td><td></td><td></td><td class=\"r\">60/40%</td>",
            "<td class=\"r\">1.2</td><td class=\"r\">0.8</td><td class=\"r\">60.00</td><td class=\"r\">40.00</td></tr>"
        ),
    ];
    expect_parts(&rt, page.as_slice(), &PARTS);
    void(&rt, &mut session);
    let page = page_shown(&rt, &session, rt.alloc(), Format::Html);
    let part =
        "<td><a href=\"#play-2-1-2\">Void</a></td><td></td><td></td><td class=\"r\"></td><td class=\"r\"></td><td class=\"r\"></td><td class=\"r\"></td><td class=\"r\"></td></tr>";
    expect_parts(&rt, page.as_slice(), &[part]);
}
