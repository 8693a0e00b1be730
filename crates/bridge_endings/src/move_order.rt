//! Which card is tried first. Any order gives the same answer; a good one gives it sooner.
ghost use Rattle.std.specs.Prelude.{◌≡◌, ◌↔◌, IsTrue, IsNone, IfSome};
ghost use Rattle.bridge_cards.specs.Card.{IsCard};
ghost use Rattle.bridge_cards.specs.CardSet.{has_card};

use crate::leads::Leads;
use crate::search::{Search, held};
use crate::trick::Trick;
use bridge_cards::{Card, CardSet, SUIT_CARDS, Suit};

/// In which order a hand tries its cards.
#[derive(Clone, Copy)]
pub struct Order {
    /// The card to try first, if there is one.
    first: CardSet,
    /// How good each lead is, once that was asked.
    leads: Option<Leads>,
}

impl Search {
    /// The order of the cards that may be played, by what the other hands have. To lead, the card comes first that was best
    /// before, if one was.
    pub fn order(
        &self,
        hands: &[CardSet; 4],
        left: CardSet,
        cards: CardSet,
        trick: &Trick,
        best: Option<Card>,
    ) -> Order {
        let first = match trick.led() {
            None => best,
            Some(led) if is_choice(cards) => self.follow(hands, left, cards, trick, led),
            Some(_) => None,
        };
        Order {
            first: first.map_or(CardSet::new(), |card| CardSet::new().with(card)),
            leads: None,
        }
    }

    /// One of the cards, the one that the hand in turn tries next: the first of the order if it is among them, or else the best
    /// to lead, or the lowest where it does not lead; `None` where there is none.
    pub fn next_card(
        &self,
        hands: &[CardSet; 4],
        left: CardSet,
        cards: CardSet,
        trick: &Trick,
        order: &mut Order,
    ) -> Option<Card>
        ensures card { IfSome result (λ card. IsCard card × IsTrue (has_card cards card)) }
        ensures none { IsNone result ↔ (cards ≡ 0) }
    {
        let lowest = cards.lowest()?;
        if let Some(first) = cards.intersection(order.first).lowest() {
            return Some(first);
        }
        if trick.len() > 0 || cards.without(lowest).is_empty() {
            return Some(lowest);
        }
        let leads = match order.leads {
            Some(leads) => leads,
            None => self.leads(hands, left, trick.turn()),
        };
        order.leads = Some(leads);
        Some(leads.first(cards, lowest))
    }

    /// The card to follow with: the lowest that wins so far and that the next hand cannot beat, otherwise the lowest that wins so
    /// far; a low card where none wins, or where the partner wins or is going to.
    fn follow(
        &self,
        hands: &[CardSet; 4],
        left: CardSet,
        cards: CardSet,
        trick: &Trick,
        led: Card,
    ) -> Option<Card> {
        let winners = trick.winners(cards);
        if winners.is_empty() || trick.len() == 3 && trick.partner_wins() {
            return low_card(cards, led);
        }
        if trick.len() == 3 {
            return winners.lowest();
        }
        let next = self.best_of_next(hands, left, trick, led);
        let losers = cards.difference(winners);
        if self.partner_beats(hands, left, trick, led, &next) && !losers.is_empty() {
            return low_card(losers, led);
        }
        let safe = match &next {
            Some(next) => cards.intersection(trick.beating(*next)).lowest(),
            None => None,
        };
        if safe.is_none() && trick.partner_wins() {
            return low_card(cards, led);
        }
        safe.or(winners.lowest())
    }

    /// The best card that the next hand may play to the trick, if it would win so far.
    fn best_of_next(
        &self,
        hands: &[CardSet; 4],
        left: CardSet,
        trick: &Trick,
        led: Card,
    ) -> Option<Card> {
        let next = held(hands, left, trick.turn().left());
        trick.winners(playable(next, led)).highest()
    }

    /// Whether the partner of the second hand has a card that wins so far and beats the best card of the hand between.
    fn partner_beats(
        &self,
        hands: &[CardSet; 4],
        left: CardSet,
        trick: &Trick,
        led: Card,
        next: &Option<Card>,
    ) -> bool {
        if trick.len() != 1 {
            return false;
        }
        let partner = held(hands, left, trick.turn().partner());
        let best = trick.winners(playable(partner, led));
        match next {
            None => !best.is_empty(),
            Some(next) => !best.intersection(trick.beating(*next)).is_empty(),
        }
    }
}

/// Whether there are two cards or more.
fn is_choice(cards: CardSet) -> bool {
    cards
        .lowest()
        .is_some_and(|card| !cards.without(card).is_empty())
}

/// The cards of a hand that may be played where that card is led.
fn playable(hand: CardSet, led: Card) -> CardSet {
    let suited = hand.of_suit(led.suit());
    if suited.is_empty() { hand } else { suited }
}

/// The lowest of the cards of the suit led, or else the lowest of a suit with many low cards.
fn low_card(cards: CardSet, led: Card) -> Option<Card> {
    if let Some(card) = cards.of_suit(led.suit()).lowest() {
        return Some(card);
    }
    let mut low = None;
    let mut most = i16::MIN;
    for suit in Suit::ALL {
        let suited = cards.of_suit(suit);
        if let Some(card) = suited.lowest() {
            let worth = discard_worth(suited, card);
            if worth > most {
                most = worth;
                low = Some(card);
            }
        }
    }
    low
}

/// How good it is to throw the card away: the more cards of its suit the hand has, and the lower it is.
fn discard_worth(suited: CardSet, card: Card) -> i16 {
    let length = suited.len().min(13) as i16;
    4 * length - 2 * i16::from(card.number() % SUIT_CARDS)
}
