//! The tags of a deal: par and the table of tricks.
ghost use Rattle.std.specs.Prelude.{◌≡◌, ◌≤◌, ◌+◌, ◌++◌, length};
ghost use Rattle.arrayvec.specs.ArrayVec.{array_vec_len};
ghost use Rattle.bridge_par.specs.Tricks.{IsTrickTable};
ghost use Rattle.makeable_deals.specs.Games.{in_two, result_row, result_rows, score_tag, words_or_pass, contracts_tag, table_tag, par_tags, tags_with};

use crate::board_deal::BoardDeal;
use crate::line::push_contracts;
use bridge_cards::{Seat, seat_text};
use bridge_par::{MOST_CONTRACTS, ParContract, TrickTable, par};
use line_text::{number_text, signed_text};
use page_layout::{PageText, push_bytes};

/// Adds a number in two columns, at the right.
fn push_in_two(text: &mut PageText, number: u8)
    requires { array_vec_len text.old ≤ 2000 }
    ensures text { text.new.items ≡ text.old.items ++ in_two number }
    ensures room { array_vec_len text.new ≤ array_vec_len text.old + 11 }
{
    if number < 10 {
        push_bytes(text, b" ");
    }
    push_bytes(text, number_text(u32::from(number)).as_str().as_bytes());
}

/// Adds a declarer's row of a denomination, which is two letters or one behind a space.
#[tactic(auto, unfolding(crate::specs::Games::result_row))]
fn push_row(text: &mut PageText, seat: Seat, denomination: &str, tricks: u8)
    requires room { array_vec_len text.old ≤ 1900 }
    requires two { length denomination.now ≤ 2 }
    ensures text { text.new.items ≡ text.old.items ++ result_row seat denomination.now tricks }
    ensures room { array_vec_len text.new ≤ array_vec_len text.old + 20 }
{
    push_bytes(text, seat_text(seat).as_bytes());
    push_bytes(text, b" ");
    push_bytes(text, denomination.as_bytes());
    push_bytes(text, b" ");
    push_in_two(text, tricks);
    push_bytes(text, b"\n");
}

/// Adds a declarer's rows.
#[tactic(auto, unfolding(crate::specs::Games::result_rows))]
fn push_rows(text: &mut PageText, table: &TrickTable, seat: Seat)
    requires { array_vec_len text.old ≤ 1800 }
    ensures text { text.new.items ≡ text.old.items ++ result_rows table.now seat }
    ensures room { array_vec_len text.new ≤ array_vec_len text.old + 100 }
{
    push_row(text, seat, "NT", table.no_trump.of(seat));
    push_row(text, seat, " S", table.spades.of(seat));
    push_row(text, seat, " H", table.hearts.of(seat));
    push_row(text, seat, " D", table.diamonds.of(seat));
    push_row(text, seat, " C", table.clubs.of(seat));
}

/// The table of the tricks of all declarers.
#[tactic(auto, unfolding(crate::specs::Games::table_tag))]
pub fn table_tag(table: &TrickTable) -> PageText
    ensures tag { result.items ≡ table_tag table.now }
    ensures short { array_vec_len result ≤ 500 }
{
    let mut text = PageText::new();
    push_bytes(
        &mut text,
        b"[OptimumResultTable \"Declarer;Denomination\\2R;Result\\2R\"]\n",
    );
    push_rows(&mut text, table, Seat::North);
    push_rows(&mut text, table, Seat::East);
    push_rows(&mut text, table, Seat::South);
    push_rows(&mut text, table, Seat::West);
    text
}

/// The tag of a par score.
#[tactic(auto, unfolding(crate::specs::Games::score_tag))]
pub fn score_tag(score: i32) -> PageText
    ensures tag { result.items ≡ score_tag score }
    ensures short { array_vec_len result ≤ 60 }
{
    let mut text = PageText::new();
    push_bytes(&mut text, b"[OptimumScore \"NS ");
    push_bytes(&mut text, signed_text(i64::from(score)).as_str().as_bytes());
    push_bytes(&mut text, b"\"]\n");
    text
}

/// Adds words that stand behind a space each, without the first space, or `Pass` where there are none.
fn push_words(text: &mut PageText, words: &[u8])
    requires old { array_vec_len text.old ≤ 200 }
    requires few { length words.now ≤ 1200 }
    ensures text { text.new.items ≡ text.old.items ++ words_or_pass words.now }
    ensures room { array_vec_len text.new ≤ array_vec_len text.old + 1204 }
{
    match words.split_first() {
        Some((_, rest)) => push_bytes(text, rest),
        None => push_bytes(text, b"Pass"),
    }
}

/// The tag of the contracts that reach par.
#[tactic(auto, unfolding(crate::specs::Games::contracts_tag))]
fn contracts_tag(contracts: &[ParContract]) -> PageText
    requires { length contracts.now ≤ MOST_CONTRACTS }
    ensures tag { result.items ≡ contracts_tag contracts.now }
    ensures short { array_vec_len result ≤ 1300 }
{
    let mut words = PageText::new();
    push_contracts(&mut words, contracts);
    let mut text = PageText::new();
    push_bytes(&mut text, b"[ParContract \"");
    push_words(&mut text, words.as_slice());
    push_bytes(&mut text, b"\"]\n");
    text
}

/// The tags of par.
fn par_tags(deal: &BoardDeal, table: &TrickTable) -> PageText
    requires { IsTrickTable table.now }
    ensures tags { result.items ≡ par_tags deal.now table.now }
    ensures short { array_vec_len result ≤ 1400 }
{
    let found = par(table, deal.dealer, deal.vulnerability);
    let mut text = score_tag(found.score);
    push_bytes(
        &mut text,
        contracts_tag(found.contracts.as_slice()).as_slice(),
    );
    text
}

/// The tags of a deal where the declarers take those tricks.
pub fn tags_with(deal: &BoardDeal, table: &TrickTable) -> PageText
    requires { IsTrickTable table.now }
    ensures { result.items ≡ tags_with deal.now table.now }
{
    let mut text = par_tags(deal, table);
    push_bytes(&mut text, table_tag(table).as_slice());
    text
}
