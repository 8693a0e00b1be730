//! Answers of a search, with the cards that counted: whatever the others are, the answer is the same.
ghost use Rattle.std.specs.Prelude.{◌≡◌, ℕ, ◌==◌, ◌&&◌, nat_le, not, IsTrue, true, false};
ghost use Rattle.bridge_cards.specs.Card.{same_suit};
ghost use Rattle.bridge_cards.specs.CardSet.{has_card};
ghost use Rattle.bridge_endings.specs.Agree.{AreAlike};

use crate::closed::up_to;
use crate::search::suit_of;
use crate::trick::suit_cards;
use bridge_cards::{Card, CardSet};

/// Whether North and South reach what they need, and which cards counted.
#[derive(Clone, Copy)]
pub struct Answer {
    /// Whether they do.
    pub yes: bool,
    /// The cards that counted; of each of their suits the highest.
    pub counts: CardSet,
    /// The card that gave the answer, or the one tried first; any where none was tried.
    pub best: Card,
}

impl Answer {
    /// The same answer, which that card gave.
    pub fn by(self, card: Card) -> Answer
        ensures { result ≡ record self { best = card } }
    {
        Answer { best: card, ..self }
    }
}

/// The answer where none of the cards tried gave the one that is sought.
pub fn all_tried(sought: bool, counts: CardSet, best: Card) -> Answer
    ensures { result ≡ record { yes = not sought; counts = counts; best = best } }
{
    Answer {
        yes: !sought,
        counts,
        best,
    }
}

/// The answer where no card is played: no card counts.
pub fn without_cards(need: u8) -> Answer
    ensures yes { result.yes ≡ (need == 0) }
    ensures counts { result.counts ≡ 0 }
{
    Answer {
        yes: need == 0,
        counts: CardSet::new(),
        best: Card::default(),
    }
}

/// The card and those of its suit above it.
pub fn upwards(card: Card) -> CardSet
    ensures { (other : ℕ) → has_card result other ≡ (same_suit card other && nat_le card other) }
{
    suit_cards(suit_of(card)).difference(up_to(card)).with(card)
}

/// Those of the cards that are still to be tried after one of them. Where it did not count, the others of its suit that did
/// not have its answer.
pub fn still_to_try(cards: CardSet, card: Card, counts: CardSet) -> CardSet
    ensures among { (other : ℕ) → has_card result other ≡ true → IsTrue (has_card cards other) × ((other == card) ≡ false) }
    ensures gone { (other : ℕ) → has_card cards other ≡ true → has_card result other ≡ false → AreAlike (has_card counts) card other }
{
    let others = cards.without(card);
    if counts.has(card) {
        others
    } else {
        others.difference(others.of_suit(suit_of(card)).difference(counts))
    }
}
