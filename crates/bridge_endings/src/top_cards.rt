//! Top cards: a leader wins a trick by each card that no other hand beats, and so leads one after another.
ghost use Rattle.std.specs.Prelude.{◌*◌, ◌≤◌, [], IfSome};
ghost use Rattle.bridge_cards.specs.CardSet.{has_card};
ghost use Rattle.bridge_endings.specs.Agree.{IsDealtOut, IsUpward};
ghost use Rattle.bridge_endings.specs.Left.{left_to};
ghost use Rattle.bridge_endings.specs.SearchValue.{IsAnswer};
ghost use Rattle.bridge_endings.specs.Sure.{AreApart};
ghost use Rattle.bridge_endings.specs.Trumps.{held_of};

use crate::answer::{Answer, upwards};
use crate::search::{Search, held, is_sought};
use crate::top_trumps::{have_each, settling};
use crate::trick::above;
use bridge_cards::{Card, CardSet, Seat, Suit};

impl Search {
    /// Whether North and South win `need` of so many tricks left, if the leader's top cards settle that: where no other hand has
    /// a trump.
    pub fn settled_by_top_cards(
        &self,
        hands: &[CardSet; 4],
        left: CardSet,
        leader: Seat,
        tricks: u8,
        need: u8,
    ) -> Option<Answer>
        requires { IsDealtOut (left_to hands.now left) }
        ensures { IfSome result (λ answer. IsAnswer self.now.trump (4 * tricks) need answer (left_to hands.now left) leader []) }
    {
        let won = settling(leader, tricks, need);
        let own = held(hands, left, leader);
        let others = left.difference(own);
        match self.trump_among(others) {
            Some(_) => None,
            None => {
                let counts = top_cards(own, others, won)?;
                if !have_each(hands, left, tricks) {
                    return None;
                }
                Some(Answer {
                    yes: is_sought(leader),
                    counts,
                    best: Card::default(),
                })
            }
        }
    }
}

/// So many cards of a hand that are above all others of their suits, and those above them; `None` where it has fewer.
fn top_cards(own: CardSet, others: CardSet, won: usize) -> Option<CardSet>
    ensures upward { IfSome result (λ tops. IsUpward (has_card tops)) }
    ensures apart { IfSome result (AreApart others) }
    ensures many { IfSome result (λ tops. won ≤ held_of (has_card tops) (has_card own)) }
{
    let highest = all_above(own, others);
    if highest.len() < won {
        return None;
    }
    let tops = from_lowest(highest_of(highest, won));
    if !tops.intersection(others).is_empty() || tops.intersection(own).len() < won {
        return None;
    }
    Some(tops)
}

/// The cards of a hand that are above all others of their suits.
fn all_above(own: CardSet, others: CardSet) -> CardSet {
    let mut highest = CardSet::new();
    for suit in Suit::ALL {
        let suited = own.of_suit(suit);
        highest = highest.union(match others.of_suit(suit).highest() {
            Some(card) => above(suited, card),
            None => suited,
        });
    }
    highest
}

/// Of the cards so many, the last in the order of the deck.
fn highest_of(cards: CardSet, many: usize) -> CardSet {
    let mut highest = cards;
    for _ in many..cards.len() {
        if let Some(card) = highest.lowest() {
            highest = highest.without(card);
        }
    }
    highest
}

/// The lowest of the cards of each suit, and all those above it.
fn from_lowest(cards: CardSet) -> CardSet
    ensures { IsUpward (has_card result) }
{
    let minor = from_lowest_of(cards, Suit::Clubs).union(from_lowest_of(cards, Suit::Diamonds));
    let major = from_lowest_of(cards, Suit::Hearts).union(from_lowest_of(cards, Suit::Spades));
    minor.union(major)
}

/// The same of one suit.
fn from_lowest_of(cards: CardSet, suit: Suit) -> CardSet
    ensures { IsUpward (has_card result) }
{
    match cards.of_suit(suit).lowest() {
        Some(card) => upwards(card),
        None => CardSet::new(),
    }
}
