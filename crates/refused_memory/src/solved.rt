//! Endings solved with a cache that could not be made, or could not keep one.
use super::outcome::{Outcome, Refusals};
use bridge_cards::{Seat, Suit, read_hands};
use bridge_endings::{Cache, Ending, solve};
use std::alloc::{AllocError, Global};

/// Hands, a trump suit, and how many tricks North and South take where South leads.
static WORTHS: [(&[u8], Option<Suit>, u8); 5] = [
    (b"N:AQ... KJ... 54... 32...", None, 1),
    (b"N:AQ... 32... 54... KJ...", None, 2),
    (b"N:A... 2... .2.. .3..", None, 0),
    (b"N:A... 2... .2.. .3..", Some(Suit::Hearts), 0),
    (b"N:A... 2... .2.. .3..", Some(Suit::Spades), 1),
];

/// The answers are the same with a cache of one ending, of all, and without.
pub fn solve_all(alloc: Global, refusals: &mut Refusals) -> Outcome {
    solve_with(Cache::new(alloc, 1), refusals)?;
    solve_with(Cache::new(alloc, 16), refusals)
}

/// The answers are the same with that cache.
fn solve_with(cache: Result<Cache, AllocError>, refusals: &mut Refusals) -> Outcome {
    let mut cache = cache.ok();
    if cache.is_none() {
        refusals.note("a cache");
    }
    for (text, trump, worth) in &WORTHS {
        let ending = ending_of(text, *trump)?;
        if solve(&ending, cache.as_mut()) != *worth || solve(&ending, None) != *worth {
            return Err("the worth of an ending");
        }
    }
    Ok(())
}

fn ending_of(text: &[u8], trump: Option<Suit>) -> Outcome<Ending> {
    let hands = read_hands(text).ok_or("hands")?;
    Ending::new(hands, trump, Seat::South).or(Err("an ending"))
}
