//! The cards of a play, and what is kept beside them.
ghost use Rattle.std.specs.Prelude.{◌≡◌, ℕ, ◌*◌, ◌<◌, ◌≤◌, ◌&&◌, ◌==◌, ◌-◌, nat_lt, not, [], length, take, ◌↔◌, IsSome, IfSome};
ghost use Rattle.bridge_cards.specs.Card.{IsCard};
ghost use Rattle.bridge_cards.specs.CardSet.{has_card};
ghost use Rattle.bridge_cards.specs.Deal.{hand_at, IsDeal};
ghost use Rattle.bridge_cards.specs.Trick.{has_suit};
ghost use Rattle.bridge_play.specs.Trick.{turn_of, whole_tricks, tricks_won};
ghost use Rattle.bridge_play.specs.Legal.{holds, follows, may_play, IsLegal};
ghost use Rattle.bridge_play.specs.CardPlay.{played, with_next, with_first};

use crate::trick::{next_leader, next_won};
use arrayvec::ArrayVec;
use bridge_auction::Contract;
use bridge_cards::trick::same_suit;
use bridge_cards::{Card, CardSet, DECK, Deal, Seat, Side};
use std::marker::Model;

/// The cards played to a contract, and beside them what follows from them, so that it need not be counted anew.
#[derive(Debug, Drop)]
pub struct CardPlay {
    /// The dealt hands.
    deal: Deal,
    /// The contract.
    contract: Contract,
    /// The cards played, a legal list.
    cards: ArrayVec<Card, DECK>,
    /// The cards left in each hand, by the seat's number.
    left: [CardSet; 4],
    /// Who led to the trick that is not whole, or leads to the next.
    leader: Seat,
    /// How many of the whole tricks North and South won.
    won: u8,
}

impl Model for CardPlay {
    ghost use Rattle.bridge_play.specs.CardPlay.{CardPlayValue, IsKeptWithCards};

    ghost Value = { CardPlayValue };

    ghost view = { λ p. record { hands = p.deal; contract = p.contract; cards = p.cards.items } };

    ghost invariant = { λ p. IsKeptWithCards p.deal p.contract p.cards.items p.left p.leader p.won };
}

/// Two plays are equal where their deals, contracts and cards are: what is kept beside these follows from them.
impl PartialEq for CardPlay {
    ghost use Rattle.std.specs.Cmp.Rules.{comparing};
    ghost use Rattle.std.proofs.Common.{rules};
    ghost use Rattle.bridge_play.specs.CardPlay.{same_cards};

    ghost eq = { same_cards };

    ghost laws = { Prim.search (comparing, rules) depth 12 };

    fn eq(&self, other: &CardPlay) -> bool {
        self.deal == other.deal && self.contract == other.contract && self.cards == other.cards
    }
}

impl CardPlay {
    /// No card of the deal is played.
    pub fn new(deal: &Deal, contract: Contract) -> CardPlay
        ensures hands { result.hands ≡ deal.now }
        ensures contract { result.contract ≡ contract }
        ensures cards { result.cards ≡ [] }
        ensures deal { IsDeal deal.now }
    {
        let leader = contract.declarer.clockwise(1);
        CardPlay {
            deal: *deal,
            contract,
            cards: ArrayVec::new(),
            left: deal.hands(),
            leader,
            won: 0,
        }
    }

    /// Those cards of the deal, or `None` where they are no legal list.
    pub fn from_cards(deal: &Deal, contract: Contract, cards: &[Card]) -> Option<CardPlay>
        ensures legal { IsSome result ↔ IsLegal deal.now contract cards.now }
        ensures cards { IfSome result (λ play. play ≡ played deal.now contract cards.now) }
    {
        let mut play = CardPlay::new(deal, contract);
        if cards.len() > DECK {
            return None;
        }
        for card in cards {
            if !play.may_play(*card) {
                return None;
            }
            play.push(*card);
        }
        Some(play)
    }

    /// The contract.
    pub fn contract(&self) -> &Contract
        ensures { result.now ≡ self.now.contract }
    {
        &self.contract
    }

    /// The cards so far.
    pub fn cards(&self) -> &[Card]
        ensures cards { result.now ≡ self.now.cards }
        ensures few { length result.now ≤ DECK }
    {
        self.cards.as_slice()
    }

    /// The hand to play.
    pub fn turn(&self) -> Seat
        ensures { result ≡ turn_of self.now.contract self.now.cards }
    {
        self.leader.clockwise(self.cards.len() % 4)
    }

    /// The cards that the seat still holds.
    pub fn remaining(&self, seat: Seat) -> CardSet
        ensures { (card : ℕ) → has_card result card ≡ holds self.now.hands self.now.cards seat card }
    {
        self.left[usize::from(seat.number())]
    }

    /// Whether the seat still holds the card.
    pub fn holds(&self, seat: Seat, card: Card) -> bool
        ensures { result ≡ holds self.now.hands self.now.cards seat card }
    {
        self.remaining(seat).has(card)
    }

    /// Whether the seat still holds a card of the suit of that one.
    fn has_suit(&self, seat: Seat, led: Card) -> bool
        requires { IsCard led }
        ensures { result ≡ has_suit (holds self.now.hands self.now.cards seat) led }
    {
        !self.remaining(seat).of_suit(led.suit()).is_empty()
    }

    /// Whether the card leads to a trick, or is of the suit led, or the hand has none of that suit.
    pub fn follows(&self, seat: Seat, card: Card) -> bool
        ensures { result ≡ follows self.now.hands self.now.cards seat card }
    {
        let cards = self.cards();
        if cards.len() % 4 == 0 {
            return true;
        }
        let led = cards[4 * (cards.len() / 4)];
        same_suit(card, led) || !self.has_suit(seat, led)
    }

    /// Whether the hand to play may play the card.
    fn may_play(&self, card: Card) -> bool
        ensures { result ≡ may_play self.now.hands self.now.contract self.now.cards card }
    {
        let hand = self.turn();
        self.holds(hand, card) && self.follows(hand, card)
    }

    /// How many of the whole tricks the side won.
    pub fn tricks_won(&self, side: Side) -> u8
        ensures won { result ≡ tricks_won self.now.contract self.now.cards side (whole_tricks self.now.cards) }
        ensures most { result ≤ whole_tricks self.now.cards }
    {
        match side {
            Side::NorthSouth => self.won,
            Side::EastWest => (self.cards.len() / 4) as u8 - self.won,
        }
    }

    /// The cards that each seat held when so many tricks were whole, by the seat's number.
    pub fn left_after(&self, tricks: usize) -> [CardSet; 4]
        requires { tricks ≤ whole_tricks self.now.cards }
        ensures four { length result ≡ 4 }
        ensures left { (seat : Seat) (card : ℕ) → has_card (hand_at result seat) card ≡ holds self.now.hands (take (4 * tricks) self.now.cards) seat card }
        ensures deal { IsDeal self.now.hands }
    {
        let (played, _) = self.cards().split_at(4 * tricks);
        let mut left = self.deal.hands();
        for card in played {
            left = without(&left, *card);
        }
        left
    }

    /// The first so many of the cards, the others being in the hands again.
    fn first(&self, count: usize) -> CardPlay
        requires { count ≤ length self.now.cards }
        ensures { result ≡ with_first self.now count }
    {
        let (front, _) = self.cards().split_at(count);
        let mut play = CardPlay::new(&self.deal, self.contract);
        for card in front {
            play.push(*card);
        }
        play
    }

    /// Takes back the last card, if there is one, and says whether there was: its hand has it again.
    pub fn take_back(&mut self) -> bool
        ensures some { result ≡ nat_lt 0 (length self.old.cards) }
        ensures rest { self.new ≡ with_first self.old (length self.old.cards - 1) }
    {
        let count = self.cards.len();
        if count == 0 {
            return false;
        }
        *self = self.first(count - 1);
        true
    }

    /// Adds a card, which no hand has then.
    pub fn push(&mut self, card: Card)
        requires { length self.old.cards < DECK }
        ensures { self.new ≡ with_next self.old card }
    {
        self.left = without(&self.left, card);
        self.cards.push(card);
        let cards = self.cards.as_slice();
        let leader = next_leader(&self.contract, cards, self.leader);
        self.won = next_won(&self.contract, cards, leader, self.won);
        self.leader = leader;
    }
}

/// The hands without the card.
fn without(hands: &[CardSet; 4], card: Card) -> [CardSet; 4]
    ensures four { length result ≡ 4 }
    ensures hands { (seat : Seat) (other : ℕ) → has_card (hand_at result seat) other ≡ (has_card (hand_at hands.now seat) other && not (other == card)) }
{
    [
        hands[0].without(card),
        hands[1].without(card),
        hands[2].without(card),
        hands[3].without(card),
    ]
}
