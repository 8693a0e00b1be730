//! Values as Rust's traits have them: in order, as keys of a set, as texts, from texts and from numbers.
use crate::tests::expect_eq;
use bridge_auction::{BadCall, Bid, Call, Denomination, Doubling, Level};
use bridge_cards::{
    BadCard, BadDeal, BoardNumber, Card, CardSet, Deal, OutOfRange, Rank, Seat, Side, Suit,
    Vulnerability, read_card,
};
use bridge_config::Key;
use bridge_movement::Row;
use bridge_score::{Line, Scoring};
use std::alloc::Global;
use std::collections::HashSet;
use std::fmt::{Debug, Display};
use std::hash::Hash;
use std::process::Abort;

/// A suit to each hand.
const SUITS_DEALT: &str = "N:AKQJT98765432... .AKQJT98765432.. ..AKQJT98765432. ...AKQJT98765432";

fn rank(rt: &impl Abort, number: u8) -> Rank {
    Rank::try_from(number).ok().expect(rt, "a rank")
}

fn level(rt: &impl Abort, number: u8) -> Level {
    Level::try_from(number).ok().expect(rt, "a level")
}

fn board(rt: &impl Abort, number: u8) -> BoardNumber {
    BoardNumber::try_from(number).ok().expect(rt, "a board")
}

fn card(rt: &impl Abort, text: &[u8]) -> Card {
    read_card(text).expect(rt, "a card")
}

/// The bid of that level and denomination.
fn bid(rt: &impl Abort, number: u8, denomination: Denomination) -> Bid {
    Bid {
        level: level(rt, number),
        denomination,
    }
}

/// Each of the values is less than the next.
fn ascend<T: Ord + Copy + Debug + Drop>(rt: &impl Abort, values: &[T]) {
    for index in 1..values.len() {
        let (value, next) = (values[index - 1], values[index]);
        assert!(rt; value < next, "{value:?} {next:?}");
    }
}

static SUITS: [Suit; 4] = Suit::ALL;

static DENOMINATIONS: [Denomination; 5] = Denomination::ALL;

#[test]
fn numbers_ascend(rt: HostRuntime) {
    ascend(&rt, &[rank(&rt, 2), rank(&rt, 10), rank(&rt, 14)]);
    ascend(&rt, &[level(&rt, 1), level(&rt, 7)]);
    ascend(&rt, &[board(&rt, 1), board(&rt, 36)]);
}

#[test]
fn values_ascend(rt: HostRuntime) {
    ascend(&rt, &SUITS);
    ascend(&rt, &DENOMINATIONS);
    let [low, next] = [card(&rt, b"C2"), card(&rt, b"CA")];
    ascend(&rt, &[low, next, card(&rt, b"D2"), card(&rt, b"SA")]);
    let low = bid(&rt, 1, Denomination::NoTrump);
    let next = bid(&rt, 2, Denomination::Clubs);
    let third = bid(&rt, 2, Denomination::Diamonds);
    ascend(&rt, &[low, next, third, bid(&rt, 7, Denomination::NoTrump)]);
}

/// The value is found in a set where it was put, and no other one.
fn is_key<T: Eq + Hash + Copy + Debug + Drop>(rt: &impl Abort, alloc: Global, value: T, other: T) {
    let mut keys = HashSet::new(alloc);
    expect_eq(rt, keys.insert(value).is_ok(), true, value);
    let found = (keys.contains(&value), keys.contains(&other));
    expect_eq(rt, found, (true, false), value);
}

#[test]
fn values_of_cards_are_keys(rt: HostRuntime) {
    let alloc = rt.alloc();
    is_key(&rt, alloc, Suit::Clubs, Suit::Spades);
    is_key(&rt, alloc, rank(&rt, 2), rank(&rt, 14));
    let [low, high] = [card(&rt, b"C2"), card(&rt, b"SA")];
    is_key(&rt, alloc, low, high);
    is_key(&rt, alloc, CardSet::new(), CardSet::new().with(low));
}

#[test]
fn values_of_boards_are_keys(rt: HostRuntime) {
    let alloc = rt.alloc();
    is_key(&rt, alloc, Seat::North, Seat::South);
    is_key(&rt, alloc, Side::NorthSouth, Side::EastWest);
    is_key(&rt, alloc, Vulnerability::Neither, Vulnerability::Both);
    is_key(&rt, alloc, board(&rt, 1), board(&rt, 36));
}

#[test]
fn values_of_calls_are_keys(rt: HostRuntime) {
    let alloc = rt.alloc();
    is_key(&rt, alloc, level(&rt, 1), level(&rt, 7));
    is_key(&rt, alloc, Denomination::Clubs, Denomination::NoTrump);
    is_key(&rt, alloc, Doubling::Doubled, Doubling::Redoubled);
    let club = Call::Bid(bid(&rt, 1, Denomination::Clubs));
    is_key(&rt, alloc, Call::Pass, club);
}

#[test]
fn values_of_evenings_are_keys(rt: HostRuntime) {
    let alloc = rt.alloc();
    is_key(&rt, alloc, Scoring::MatchPoints, Scoring::Imps);
    is_key(&rt, alloc, Key(0), Key(1));
    let row = Row {
        set: 1,
        ..Row::default()
    };
    is_key(&rt, alloc, Row::default(), row);
    let line = Line {
        pair: 1,
        ..Line::default()
    };
    is_key(&rt, alloc, Line::default(), line);
}

/// The value is printed so.
fn prints(rt: &impl Abort, alloc: Global, value: impl Display + Drop, due: &str) {
    match format!(in alloc; "{value}") {
        Ok(text) => expect_eq(rt, text.as_str(), due, "printed"),
        Err(_) => expect_eq(rt, "no memory", due, "printed"),
    }
}

#[test]
fn values_are_printed(rt: HostRuntime) {
    let alloc = rt.alloc();
    prints(&rt, alloc, Side::NorthSouth, "NS");
    prints(&rt, alloc, Side::EastWest, "EW");
    prints(&rt, alloc, Vulnerability::Neither, "None");
    prints(&rt, alloc, Vulnerability::Both, "All");
    prints(&rt, alloc, Doubling::Undoubled, "");
    prints(&rt, alloc, Doubling::Redoubled, "XX");
}

#[test]
fn numbers_and_faults_are_printed(rt: HostRuntime) {
    let alloc = rt.alloc();
    prints(&rt, alloc, rank(&rt, 10), "T");
    prints(&rt, alloc, level(&rt, 7), "7");
    prints(&rt, alloc, BadCard, "the text is no card");
    prints(&rt, alloc, BadCall, "the text is no call");
}

#[test]
fn hands_are_printed(rt: HostRuntime) {
    let alloc = rt.alloc();
    let deal = SUITS_DEALT.parse::<Deal>();
    let deal = deal.ok().expect(&rt, "a deal");
    prints(&rt, alloc, deal, SUITS_DEALT);
    prints(&rt, alloc, deal.hand(Seat::East), ".AKQJT98765432..");
    prints(&rt, alloc, CardSet::new(), "...");
}

#[test]
fn values_are_read_from_texts(rt: HostRuntime) {
    expect_eq(&rt, "SK".parse::<Card>().ok(), Card::new(50), "SK");
    expect_eq(&rt, "KS".parse::<Card>(), Err(BadCard), "KS");
    let seven = Call::Bid(bid(&rt, 7, Denomination::NoTrump));
    expect_eq(&rt, "7NT".parse::<Call>(), Ok(seven), "7NT");
    expect_eq(&rt, "8C".parse::<Call>(), Err(BadCall), "8C");
    expect_eq(&rt, "N:".parse::<Deal>(), Err(BadDeal::Form), "N:");
}

#[test]
fn values_are_made_of_numbers(rt: HostRuntime) {
    let seven = bid(&rt, 7, Denomination::NoTrump);
    let call = Call::Bid(bid(&rt, 7, Denomination::NoTrump));
    expect_eq(&rt, Bid::try_from(34), Ok(seven), 34);
    expect_eq(&rt, Bid::try_from(35), Err(OutOfRange(35)), 35);
    expect_eq(&rt, Call::try_from(37), Ok(call), 37);
    expect_eq(&rt, Call::try_from(38), Err(OutOfRange(38)), 38);
}

#[test]
fn sets_are_joined_and_gone_through(rt: HostRuntime) {
    let due = [card(&rt, b"C2"), card(&rt, b"H9"), card(&rt, b"SA")];
    let high = CardSet::new().with(due[2]);
    let (one, other) = (high.with(due[0]), high.with(due[1]));
    expect_eq(&rt, one & other, high, "in both");
    let mut index = 0usize;
    for card in one | other {
        expect_eq(&rt, Some(&card), due.get(index), "in either, in order");
        index = index.wrapping_add(1);
    }
    expect_eq(&rt, index, 3, "no card is left out");
}
