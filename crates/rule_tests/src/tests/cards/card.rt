//! The texts of cards.
use crate::tests::expect_eq;
use bridge_cards::{Card, read_card};
use std::test::Fail;

const SUITS: &[u8; 4] = b"CDHS";

const RANKS: &[u8; 13] = b"23456789TJQKA";

#[test]
fn the_texts_of_cards_are_52_pairs(rt: HostRuntime) -> Result<(), Fail> {
    for suit in 0..4 {
        for rank in 0..13 {
            let text = [SUITS[suit], RANKS[rank]];
            let card = read_card(&text).ok_or("a suit and a rank")?;
            expect_eq(&rt, usize::from(card.number()), 13 * suit + rank, text);
            expect_eq(&rt, card.text(), text, "printed");
            expect_eq(&rt, Card::of(card.suit(), card.rank()), card, text);
        }
    }
    Ok(())
}
