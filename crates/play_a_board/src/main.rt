//! A small use of the libraries: a board is dealt, bid, played and scored.
//!
//! Board 1 has a suit in each hand. North bids seven spades, all others pass, each hand plays the highest card that it may,
//! and the score is that of seven spades made, not vulnerable (Law 77).
#![tactic(auto)]

use anyhow::Context;
use bridge_auction::{Auction, read_call};
use bridge_cards::{BoardNumber, CardSet, dealer, read_deal, vulnerable};
use bridge_play::Play;
use bridge_score::score;

const DEAL: &[u8] = b"N:AKQJT98765432... .AKQJT98765432.. ..AKQJT98765432. ...AKQJT98765432";

const CALLS: [&str; 4] = ["7S", "PASS", "PASS", "PASS"];

/// The hand in turn plays the highest card that it may.
fn play_a_card(play: &mut Play) {
    let hand: CardSet = play.remaining(play.turn());
    for card in hand.cards().iter().rev() {
        if play.try_card(play.actor(), *card).is_ok() {
            return;
        }
    }
}

fn main(rt: HostRuntime) -> Result<(), anyhow::Error> {
    let board = BoardNumber::new(1).context("a board")?;
    let deal = read_deal(DEAL)?;
    let mut auction = Auction::new(dealer(board));
    for text in CALLS {
        let call = read_call(text.as_bytes()).context("a call")?;
        auction.try_call(call)?;
    }
    let contract = auction.contract().context("a contract")?;
    let mut play = Play::new(&deal, contract);
    for _ in 0..52 {
        play_a_card(&mut play);
    }
    let side = contract.declarer.side();
    let tricks = play.tricks(side);
    let points = score(&contract, vulnerable(board, side), tricks);
    println!(rt; "{tricks} tricks, {points} points")?;
    Ok(())
}
