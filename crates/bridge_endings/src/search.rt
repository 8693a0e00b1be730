//! A search: its trump suit, how many cards it has tried, and the cards that a hand may play.
ghost use Rattle.std.specs.Prelude.{◌≡◌, ℕ, ◌+◌, ◌-◌, ◌^◌, ◌≤◌, min, length, IfSome, IsNone, IsSome};
ghost use Rattle.bridge_cards.specs.Card.{IsCard, card_suit};
ghost use Rattle.bridge_cards.specs.CardSet.{IsCardSet, has_card};
ghost use Rattle.bridge_cards.specs.Seat.{clockwise_from, side_of};
ghost use Rattle.bridge_endings.specs.Worth.{may_be_played};
ghost use Rattle.bridge_endings.specs.Left.{left_to, is_sought};
ghost use Rattle.bridge_endings.specs.SearchValue.{GoesOn};

use crate::heads::Heads;
use crate::trick::Trick;
use bridge_cards::{Card, CardSet, Seat, Side, Suit};

/// The trump suit of a search, if there is one, and how many cards it has tried, with those before; at `u64::MAX` it stays.
#[derive(Drop)]
pub struct Search {
    /// The trump suit.
    pub trump: Option<Suit>,
    /// The cards tried.
    pub tried: u64,
    /// Once so many are tried, the search ends without an answer; `None` where it goes on to the end.
    pub limit: Option<u64>,
    /// Where in its table it put what it found last.
    pub last: u32,
    /// Where the lists of its table begin.
    pub heads: Heads,
}

impl Search {
    /// Counts one card more; `None` where no more may be tried.
    pub fn count_card(&mut self) -> Option<()>
        ensures one { IfSome result (λ _. self.new.tried ≡ min (self.old.tried + 1) (2 ^ 64 - 1)) }
        ensures within { IfSome self.old.limit (λ limit. IfSome result (λ _. self.new.tried ≤ limit)) }
        ensures ended { IsNone result → IsSome self.old.limit }
        ensures later { GoesOn self.old self.new }
    {
        match self.limit {
            Some(limit) if self.tried >= limit => None,
            _ => {
                self.tried = self.tried.saturating_add(1);
                Some(())
            }
        }
    }
}

/// The cards left that the seat was dealt.
pub fn held(hands: &[CardSet; 4], left: CardSet, seat: Seat) -> CardSet
    ensures { (card : ℕ) → has_card result card ≡ left_to hands.now left seat card }
{
    hands[usize::from(seat.number())].intersection(left)
}

/// The cards that the hand in turn may play, of those left.
pub fn legal_cards(hands: &[CardSet; 4], left: CardSet, trick: &Trick) -> CardSet
    ensures deck { IsCardSet result }
    ensures legal { (card : ℕ) → has_card result card
        ≡ may_be_played (left_to hands.now left (clockwise_from trick.now.leader (length trick.now.cards))) trick.now.cards card }
{
    let held = held(hands, left, trick.turn());
    let Some(led) = trick.led() else {
        return held;
    };
    let suited = held.of_suit(suit_of(led));
    if suited.is_empty() { held } else { suited }
}

/// The suit of a card.
pub fn suit_of(card: Card) -> Suit
    ensures suit { result ≡ card_suit card }

    // It is a card of the deck.
    ensures known { IsCard card }
{
    card.suit()
}

/// Whether the seat's side wants the tricks reached: North and South do.
pub fn is_sought(seat: Seat) -> bool
    ensures { result ≡ is_sought (side_of seat) }
{
    seat.side() == Side::NorthSouth
}
