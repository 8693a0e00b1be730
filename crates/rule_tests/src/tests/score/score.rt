//! Scores of the printed table, and all of them beside a plain twin.
use super::twin;
use crate::tests::expect_eq;
use Denomination::{Clubs, Hearts, NoTrump, Spades};
use Doubling::{Doubled, Redoubled, Undoubled};
use bridge_auction::{Bid, Contract, Denomination, Doubling, Level};
use bridge_cards::Seat;
use bridge_score::score;
use std::process::Abort;

/// A contract's level, denomination and doubling, whether its side is vulnerable, its tricks, and its score.
static PRINTED: [(u8, Denomination, Doubling, bool, u8, i32); 8] = [
    (7, NoTrump, Redoubled, true, 13, 2980),
    (7, NoTrump, Redoubled, true, 0, -7600),
    (2, Spades, Doubled, false, 8, 470),
    (4, Hearts, Doubled, false, 6, -800),
    (1, NoTrump, Undoubled, false, 8, 120),
    (6, Clubs, Undoubled, true, 12, 1370),
    (3, NoTrump, Undoubled, true, 9, 600),
    (1, Spades, Undoubled, false, 11, 200),
];

/// The contract of that level by North.
fn contract(
    rt: &impl Abort,
    level: u8,
    denomination: Denomination,
    doubling: Doubling,
) -> Contract {
    Contract {
        bid: Bid {
            level: Level::new(level).expect(rt, "a level"),
            denomination,
        },
        doubling,
        declarer: Seat::North,
    }
}

#[test]
fn scores_of_the_printed_table(rt: HostRuntime) {
    for (level, denomination, doubling, vulnerable, tricks, points) in PRINTED.as_slice() {
        let contract = contract(&rt, *level, *denomination, *doubling);
        let found = score(&contract, *vulnerable, *tricks);
        expect_eq(&rt, found, *points, (contract, *tricks));
    }
}

static DOUBLINGS: [Doubling; 3] = [Undoubled, Doubled, Redoubled];

#[test]
fn every_score_is_the_plain_one(rt: HostRuntime) {
    for bid in 0..35u8 {
        let denomination = Denomination::ALL[usize::from(bid % 5)];
        for doubling in &DOUBLINGS {
            let contract = contract(&rt, bid / 5 + 1, denomination, *doubling);
            for result in 0..28 {
                let (vulnerable, tricks) = (result < 14, result % 14);
                let found = score(&contract, vulnerable, tricks);
                let due = twin::score(&contract, vulnerable, tricks);
                expect_eq(&rt, found, due, (contract, result));
            }
        }
    }
}
