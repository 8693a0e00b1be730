//! The lines of a deal.
ghost use Rattle.std.specs.Prelude.{◌≡◌, ◌≤◌, ◌+◌, ◌++◌, length, flat_map};
ghost use Rattle.arrayvec.specs.ArrayVec.{array_vec_len};
ghost use Rattle.bridge_par.specs.Tricks.{IsTrickTable};
ghost use Rattle.makeable_deals.specs.Makeable.{number_behind, declarer_line, contract_behind, par_line, par_text, lines_with};

use crate::board_deal::BoardDeal;
use arrayvec::{ArrayString, ArrayVec};
use bridge_auction::{doubling_text, print_bid};
use bridge_cards::{BoardNumber, Seat, seat_text};
use bridge_par::{MOST_CONTRACTS, ParContract, TrickTable, par};
use line_text::{number_text, signed_text};
use page_layout::{PageText, push_bytes};

/// The room for a contract behind a space, in bytes.
const CONTRACT_BYTES: usize = 8;

/// Adds a number behind a space.
fn push_number(text: &mut PageText, number: u8)
    requires { array_vec_len text.old ≤ 100 }
    ensures text { text.new.items ≡ text.old.items ++ number_behind number }
    ensures room { array_vec_len text.new ≤ array_vec_len text.old + 11 }
{
    push_bytes(text, b" ");
    push_bytes(text, number_text(u32::from(number)).as_str().as_bytes());
}

/// A declarer's line.
#[tactic(auto, unfolding(crate::specs::Makeable::declarer_line))]
fn declarer_line(board: BoardNumber, table: &TrickTable, seat: Seat) -> PageText
    ensures line { result.items ≡ declarer_line board table.now seat }
    ensures short { array_vec_len result ≤ 100 }
{
    let mut text = PageText::new();
    push_bytes(
        &mut text,
        number_text(u32::from(board.number())).as_str().as_bytes(),
    );
    push_bytes(&mut text, b" ");
    push_bytes(&mut text, seat_text(seat).as_bytes());
    push_number(&mut text, table.clubs.of(seat));
    push_number(&mut text, table.diamonds.of(seat));
    push_number(&mut text, table.hearts.of(seat));
    push_number(&mut text, table.spades.of(seat));
    push_number(&mut text, table.no_trump.of(seat));
    push_bytes(&mut text, b"\n");
    text
}

/// A contract behind a space.
fn contract_behind(reaching: &ParContract) -> ArrayString<CONTRACT_BYTES>
    ensures text { result.bytes ≡ contract_behind reaching.now }
    ensures short { length result.bytes ≤ CONTRACT_BYTES }
{
    let contract = reaching.contract;
    let mut text = ArrayString::new();
    text.push_str(" ");
    print_bid(contract.bid, &mut text);
    text.push_str(doubling_text(contract.doubling));
    text.push_str(" ");
    text.push_str(seat_text(contract.declarer));
    text
}

/// Adds the contracts that reach par.
pub fn push_contracts(text: &mut PageText, contracts: &[ParContract])
    requires room { array_vec_len text.old ≤ 100 }
    requires few { length contracts.now ≤ MOST_CONTRACTS }
    ensures text { text.new.items ≡ text.old.items ++ flat_map contract_behind contracts.now }
    ensures room { array_vec_len text.new ≤ array_vec_len text.old + 1120 }
{
    for reaching in contracts {
        push_bytes(text, contract_behind(reaching).as_str().as_bytes());
    }
}

/// The line of a par score and of the contracts that reach it.
#[tactic(auto, unfolding(crate::specs::Makeable::par_line))]
fn par_line(
    board: BoardNumber,
    score: i32,
    contracts: &ArrayVec<ParContract, MOST_CONTRACTS>,
) -> PageText
    ensures line { result.items ≡ par_line board score contracts.now.items }
    ensures short { array_vec_len result ≤ 1300 }
{
    let mut text = PageText::new();
    push_bytes(
        &mut text,
        number_text(u32::from(board.number())).as_str().as_bytes(),
    );
    push_bytes(&mut text, b" PAR ");
    push_bytes(&mut text, signed_text(i64::from(score)).as_str().as_bytes());
    push_contracts(&mut text, contracts.as_slice());
    push_bytes(&mut text, b"\n");
    text
}

/// The line of a deal's par.
fn par_text(deal: &BoardDeal, table: &TrickTable) -> PageText
    requires { IsTrickTable table.now }
    ensures line { result.items ≡ par_text deal.now table.now }
    ensures short { array_vec_len result ≤ 1300 }
{
    let found = par(table, deal.dealer, deal.vulnerability);
    par_line(deal.board, found.score, &found.contracts)
}

/// The lines of a deal where the declarers take those tricks.
#[tactic(auto, unfolding(crate::specs::Makeable::lines_with))]
pub fn lines_with(deal: &BoardDeal, table: &TrickTable) -> PageText
    requires { IsTrickTable table.now }
    ensures { result.items ≡ lines_with deal.now table.now }
{
    let mut text = PageText::new();
    push_bytes(
        &mut text,
        declarer_line(deal.board, table, Seat::North).as_slice(),
    );
    push_bytes(
        &mut text,
        declarer_line(deal.board, table, Seat::East).as_slice(),
    );
    push_bytes(
        &mut text,
        declarer_line(deal.board, table, Seat::South).as_slice(),
    );
    push_bytes(
        &mut text,
        declarer_line(deal.board, table, Seat::West).as_slice(),
    );
    push_bytes(&mut text, par_text(deal, table).as_slice());
    text
}
