//! The three deals of libdds' examples, whose numbers come with it.
use crate::tests::{deal_of, expect_eq};
use bridge_cards::{Seat, Suit};
use bridge_endings::DealSolver;
use std::alloc::AllocError;
use std::process::Abort;

/// What is trumps in each row of numbers.
static TRUMPS: [Option<Suit>; 5] = [
    Some(Suit::Spades),
    Some(Suit::Hearts),
    Some(Suit::Diamonds),
    Some(Suit::Clubs),
    None,
];

pub const HANDS: &[u8] = b"N:73.QJT.AQ54.T752 QT6.876.KJ9.AQ84 5.A95432.7632.K6 AKJ9842.K.T8.J93";

/// Each deal, and the tricks of North, East, South and West as declarers.
static DEALS: [(&[u8], [[u8; 4]; 5]); 3] = [
    (
        b"N:QJ6.K652.J85.T98 873.J97.AT764.Q4 K5.T83.KQ9.A7652 AT942.AQ4.32.KJ3",
        [
            [5, 8, 5, 8],
            [6, 6, 6, 6],
            [5, 7, 5, 7],
            [7, 5, 7, 5],
            [6, 6, 6, 6],
        ],
    ),
    (
        b"E:QJT5432.T.6.QJ82 .J97543.K7532.94 87.A62.QJT4.AT75 AK96.KQ8.A98.K63",
        [
            [4, 9, 4, 9],
            [10, 2, 10, 2],
            [8, 3, 8, 3],
            [6, 7, 6, 7],
            [9, 3, 9, 3],
        ],
    ),
    (
        HANDS,
        [
            [3, 10, 3, 10],
            [9, 4, 9, 4],
            [8, 4, 8, 4],
            [3, 9, 3, 9],
            [4, 8, 4, 8],
        ],
    ),
];

/// The tricks of each declarer with each suit as trumps are these.
fn expect_numbers(rt: &impl Abort, solver: &mut DealSolver, numbers: &[[u8; 4]; 5]) {
    for row in 0..5_usize {
        for seat in 0..4_usize {
            let tricks = solver.tricks(TRUMPS[row], Seat::North.clockwise(seat));
            expect_eq(rt, tricks, numbers[row][seat], (row, seat));
        }
    }
}

// What was found with one suit as trumps stays in the table for the next.
#[test]
fn numbers_are_those_of_the_rows(rt: HostRuntime) -> Result<(), AllocError> {
    for (hands, numbers) in &DEALS {
        let mut solver = DealSolver::new(rt.alloc(), &deal_of(&rt, hands))?;
        expect_numbers(&rt, &mut solver, numbers);
    }
    Ok(())
}

// A call that may try few cards ends without a number, and what it found serves the next.
#[test]
fn some_cards_at_a_time_come_to_the_same(rt: HostRuntime) -> Result<(), AllocError> {
    let mut solver = DealSolver::new(rt.alloc(), &deal_of(&rt, HANDS))?;
    let trump = Some(Suit::Spades);
    let first = solver.tricks_within(trump, Seat::North, 5_000);
    expect_eq(&rt, first, None, "of the first cards");
    let mut tricks = None;
    for _ in 0..1_000 {
        if tricks.is_none() {
            tricks = solver.tricks_within(trump, Seat::North, 5_000);
        }
    }
    expect_eq(&rt, tricks, Some(3), "of all of them");
    Ok(())
}
