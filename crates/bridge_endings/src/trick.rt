//! A trick that is being played: whose turn it is, and who wins it.
ghost use Rattle.std.specs.Prelude.{◌≡◌, ℕ, ◌+◌, ◌<◌, ◌≤◌, ◌&&◌, nat_lt, true, [], ◌∷◌, ◌++◌, length, take, slice_get};
ghost use Rattle.bridge_cards.specs.Seat.{clockwise_from};
ghost use Rattle.bridge_cards.specs.Trick.{next_leader};
ghost use Rattle.bridge_cards.specs.Card.{same_suit};
ghost use Rattle.bridge_cards.specs.CardSet.{has_card, is_of_suit};
ghost use Rattle.bridge_endings.specs.TrickValue.{IsKeptWinner, is_over};
ghost use Rattle.bridge_endings.specs.Agree.{IsRanked, IsUpward};

use crate::answer::upwards;
use crate::closed::up_to;
use crate::moment::whole_deck;
use crate::search::suit_of;
use bridge_cards::trick::same_suit;
use bridge_cards::{Card, CardSet, Seat, Suit};
use std::marker::Model;

/// The cards of a trick so far, the seat that led, and the trump suit if there is one.
#[derive(Drop)]
pub struct Trick {
    trump: Option<Suit>,
    leader: Seat,
    cards: [Card; 4],
    played: u8,
    /// The winner so far, if a card is played.
    winning: Winning,
}

/// A card of a trick, its index from the one led, and the cards that beat it.
#[derive(Clone, Copy)]
struct Winning {
    card: Card,
    index: u8,
    higher: CardSet,
}

impl Model for Trick {
    ghost use Rattle.std.specs.Prelude.{◌≡◌, ◌≤◌, length, take};
    ghost use Rattle.bridge_endings.specs.TrickValue.{TrickValue, IsKeptWinner};

    ghost Value = { TrickValue };

    ghost view = { λ t. record { trump = t.trump; leader = t.leader; cards = take t.played t.cards } };

    ghost invariant = { λ t. (t.played ≤ 4) × (length t.cards ≡ 4) × IsKeptWinner t.trump (take t.played t.cards) t.winning.card t.winning.index t.winning.higher };
}

impl Trick {
    /// The trick to which nobody has played; that seat leads.
    pub fn new(trump: Option<Suit>, leader: Seat) -> Trick
        ensures trump { result.trump ≡ trump }
        ensures leader { result.leader ≡ leader }
        ensures cards { result.cards ≡ [] }
    {
        Trick {
            trump,
            leader,
            cards: [Card::default(); 4],
            played: 0,
            winning: Winning {
                card: Card::default(),
                index: 0,
                higher: CardSet::new(),
            },
        }
    }

    /// The trump suit, if there is one.
    pub fn trump(&self) -> Option<Suit>
        ensures { result ≡ self.now.trump }
    {
        self.trump
    }

    /// How many cards were played to it.
    pub fn len(&self) -> usize
        ensures length { result ≡ length self.now.cards }
        ensures most { result ≤ 4 }
    {
        usize::from(self.played)
    }

    /// The card led, if one is.
    pub fn led(&self) -> Option<Card>
        ensures { result ≡ slice_get self.now.cards 0 }
    {
        if self.played == 0 {
            None
        } else {
            Some(self.cards[0])
        }
    }

    /// The hand to play.
    pub fn turn(&self) -> Seat
        ensures { result ≡ clockwise_from self.now.leader (length self.now.cards) }
    {
        self.leader.clockwise(self.len())
    }

    /// The trick with the card too.
    pub fn with(&self, card: Card) -> Trick
        requires { length self.now.cards < 4 }
        ensures trump { result.trump ≡ self.now.trump }
        ensures leader { result.leader ≡ self.now.leader }
        ensures cards { result.cards ≡ self.now.cards ++ card ∷ [] }
    {
        Trick {
            trump: self.trump,
            leader: self.leader,
            cards: self.cards_with(card),
            played: self.played + 1,
            winning: self.winning_with(card),
        }
    }

    /// The cards with one more; what stands in the indexes behind it does not count. Each index is written by itself, since
    /// an array that is copied just after an index of it was written is slow.
    fn cards_with(&self, card: Card) -> [Card; 4]
        requires { length self.now.cards < 4 }
        ensures { take (length self.now.cards + 1) result ≡ self.now.cards ++ card ∷ [] }
    {
        let [first, second, third, _] = self.cards;
        match self.played {
            0 => [card, card, card, card],
            1 => [first, card, card, card],
            2 => [first, second, card, card],
            _ => [first, second, third, card],
        }
    }

    /// The winner so far once the card is played.
    fn winning_with(&self, card: Card) -> Winning
        requires { length self.now.cards < 4 }
        ensures { IsKeptWinner self.now.trump (self.now.cards ++ card ∷ []) result.card result.index result.higher }
    {
        if self.played == 0 {
            return self.winning_by(card);
        }
        if self.winning.higher.has(card) {
            self.winning_by(card)
        } else {
            self.winning
        }
    }

    /// The card, played now, as the winner.
    fn winning_by(&self, card: Card) -> Winning
        ensures card { result.card ≡ card }
        ensures index { result.index ≡ length self.now.cards }
        ensures higher { (other : ℕ) → other < 52 → has_card result.higher other ≡ is_over self.now.trump card other }
    {
        Winning {
            card,
            index: self.played,
            higher: self.beating(card),
        }
    }

    /// Whether the partner of the hand in turn wins so far.
    pub fn partner_wins(&self) -> bool {
        self.played >= 2 && self.winning.index == self.played - 2
    }

    /// Those of the cards that would win so far, where one is played already.
    pub fn winners(&self, cards: CardSet) -> CardSet {
        cards.intersection(self.winning.higher)
    }

    /// The cards that beat that one once it wins: the higher ones of its suit, and trumps where it is none.
    pub fn beating(&self, card: Card) -> CardSet
        ensures { (other : ℕ) → other < 52 → has_card result other ≡ is_over self.now.trump card other }
    {
        cards_over(self.trump, card)
    }

    /// The cards that count in the trick: where another card of the winner's suit was played, the winner's and those above it.
    pub fn rank_that_counts(&self) -> CardSet
        requires { 0 < length self.now.cards }
        ensures rank { IsRanked self.now.trump (has_card result) self.now.cards }
        ensures upward { IsUpward (has_card result) }
    {
        let winner = self.winning;
        for index in 0..self.played {
            if index != winner.index && same_suit(self.cards[usize::from(index)], winner.card) {
                return upwards(winner.card);
            }
        }
        CardSet::new()
    }

    /// Who wins the trick, and so leads to the next (Law 44).
    pub fn winner(&self) -> Seat
        requires { 0 < length self.now.cards }
        ensures { result ≡ next_leader self.now.trump self.now.leader self.now.cards }
    {
        self.leader.clockwise(usize::from(self.winning.index))
    }
}

/// The cards that beat that one once it wins, where that suit is trumps.
fn cards_over(trump: Option<Suit>, card: Card) -> CardSet
    ensures { (other : ℕ) → other < 52 → has_card result other ≡ is_over trump card other }
{
    let higher = above_in_suit(card);
    let Some(trump) = trump else {
        return higher;
    };
    let trumps = suit_cards(trump);
    if trumps.has(card) {
        higher
    } else {
        higher.union(trumps)
    }
}

/// All cards of the suit.
pub fn suit_cards(suit: Suit) -> CardSet
    ensures { (card : ℕ) → has_card result card ≡ is_of_suit suit card }
{
    whole_deck().of_suit(suit)
}

/// The cards of the card's suit above it.
fn above_in_suit(card: Card) -> CardSet
    ensures { (other : ℕ) → other < 52 → has_card result other ≡ (same_suit other card && nat_lt card other) }
{
    suit_cards(suit_of(card)).difference(up_to(card))
}

/// Those of the cards that are above that one in the order of the deck.
pub fn above(cards: CardSet, card: Card) -> CardSet
    ensures { (other : ℕ) → has_card result other ≡ true → has_card cards other ≡ true }
{
    let bits = (cards.bits() >> card.number() >> 1) << 1 << card.number();
    match CardSet::from_bits(bits) {
        Some(higher) => cards.intersection(higher),
        None => CardSet::new(),
    }
}
