//! Boards by the table of Law 2, and the lists of all values; cards, texts of deals and the shuffle.
mod card;
mod deal_text;
mod shuffle;

use crate::tests::expect_eq;
use bridge_auction::Denomination;
use bridge_cards::{BoardNumber, Seat, Side, Suit, Vulnerability, dealer, vulnerability_of};
use std::test::Fail;

/// The table of Law 2, for boards 1 to 16 in turn, after which it repeats.
static BOARDS: [(Seat, Vulnerability); 16] = [
    (Seat::North, Vulnerability::Neither),
    (Seat::East, Vulnerability::NorthSouth),
    (Seat::South, Vulnerability::EastWest),
    (Seat::West, Vulnerability::Both),
    (Seat::North, Vulnerability::NorthSouth),
    (Seat::East, Vulnerability::EastWest),
    (Seat::South, Vulnerability::Both),
    (Seat::West, Vulnerability::Neither),
    (Seat::North, Vulnerability::EastWest),
    (Seat::East, Vulnerability::Both),
    (Seat::South, Vulnerability::Neither),
    (Seat::West, Vulnerability::NorthSouth),
    (Seat::North, Vulnerability::Both),
    (Seat::East, Vulnerability::Neither),
    (Seat::South, Vulnerability::NorthSouth),
    (Seat::West, Vulnerability::EastWest),
];

static SUITS: [Suit; 4] = Suit::ALL;

static SEATS: [Seat; 4] = Seat::ALL;

static SIDES: [Side; 2] = Side::ALL;

static DENOMINATIONS: [Denomination; 5] = Denomination::ALL;

#[test]
fn lists_of_all_stand_in_order(rt: HostRuntime) {
    for index in 0..4 {
        expect_eq(&rt, usize::from(SUITS[index].number()), index, "suit");
        expect_eq(&rt, usize::from(SEATS[index].number()), index, "seat");
    }
    for index in 0..5 {
        let number = DENOMINATIONS[index].number();
        expect_eq(&rt, usize::from(number), index, "denomination");
    }
    for index in 0..2 {
        expect_eq(&rt, SEATS[index].side(), SIDES[index], index);
    }
}

#[test]
fn boards_follow_the_table(rt: HostRuntime) -> Result<(), Fail> {
    for number in 1..=BoardNumber::MAX {
        let board = BoardNumber::new(number).ok_or("a board from 1 to 36")?;
        let (seat, vulnerability) = BOARDS[usize::from(number - 1) % 16];
        expect_eq(&rt, dealer(board), seat, number);
        expect_eq(&rt, vulnerability_of(board), vulnerability, number);
    }
    Ok(())
}
