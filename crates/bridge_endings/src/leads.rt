//! Which card is led first.
ghost use Rattle.std.specs.Prelude.{true, IsTrue, IfSome};
ghost use Rattle.bridge_cards.specs.Card.{IsCard};
ghost use Rattle.bridge_cards.specs.CardSet.{has_card};

use crate::search::{Search, held};
use bridge_cards::{Card, CardSet, SUIT_CARDS, Seat, Suit};

/// How good it is to lead each suit: the higher the better. The numbers were found by trials on random deals.
#[derive(Clone, Copy)]
pub struct Leads {
    /// The leader's cards that are the highest left of their suits.
    tops: CardSet,
    /// By suits, how good it is to lead that card.
    top: [i16; 4],
    /// By suits, how good it is to lead a 2; a card is worth less by its rank.
    low: [i16; 4],
}

/// The hands by where they sit.
#[derive(Clone, Copy)]
struct Around {
    leader: CardSet,
    left: CardSet,
    partner: CardSet,
    right: CardSet,
}

impl Leads {
    /// Where nothing is seen, each is as good.
    pub fn none() -> Leads {
        Leads {
            tops: CardSet::new(),
            top: [0; 4],
            low: [0; 4],
        }
    }

    /// One of the cards, the best to lead; the other card is one of them.
    pub fn first(&self, cards: CardSet, other: Card) -> Card
        requires { IsCard other × IsTrue (has_card cards other) }
        ensures { IsCard result × IsTrue (has_card cards result) }
    {
        let mut first = other;
        let mut most = i16::MIN;
        for suit in 0..4_usize {
            if let Some(card) = self.lead_of(cards.of_suit(Suit::ALL[suit])) {
                let worth = self.worth(suit, card);
                if worth > most {
                    most = worth;
                    first = card;
                }
            }
        }
        first
    }

    /// Of cards of one suit the highest left of it, or else the lowest.
    fn lead_of(&self, cards: CardSet) -> Option<Card>
        ensures { IfSome result (λ card. IsCard card × IsTrue (has_card cards card)) }
    {
        match cards.intersection(self.tops).lowest() {
            Some(card) => Some(card),
            None => cards.lowest(),
        }
    }

    /// How good it is to lead the card of that suit.
    fn worth(&self, suit: usize, card: Card) -> i16 {
        if suit >= 4 {
            return 0;
        }
        if self.tops.has(card) {
            self.top[suit]
        } else {
            self.low[suit].saturating_sub(8 * i16::from(card.number() % SUIT_CARDS))
        }
    }
}

impl Search {
    /// Which leads are good.
    #[inline(never)]
    pub fn leads(&self, hands: &[CardSet; 4], left: CardSet, leader: Seat) -> Leads {
        let mut leads = Leads::none();
        let around = Around {
            leader: held(hands, left, leader),
            left: held(hands, left, leader.left()),
            partner: held(hands, left, leader.partner()),
            right: held(hands, left, leader.clockwise(3)),
        };
        for index in 0..4_usize {
            let suit = Suit::ALL[index];
            let cards = left.of_suit(suit);
            let Some(top) = cards.highest() else {
                continue;
            };
            let second = cards.without(top).highest();
            let second = second.is_some_and(|card| around.partner.has(card));
            let less = self.less_for(&around, suit);
            if around.leader.has(top) {
                leads.tops = leads.tops.with(top);
            }
            leads.top[index] = (if second { 496_i16 } else { 400 }).saturating_sub(less);
            leads.low[index] = self
                .low_worth(&around, suit, top, second)
                .saturating_sub(less);
        }
        leads
    }

    /// How much worse it is to lead the suit where an opponent ruffs or need not follow, of trumps, and of a long suit.
    fn less_for(&self, around: &Around, suit: Suit) -> i16 {
        let ruffed = self.ruffs(around.left, suit) || self.ruffs(around.right, suit);
        let ruffed: i16 = if ruffed { 480 } else { 0 };
        let trump: i16 = if self.trump == Some(suit) { 72 } else { 0 };
        let length = around.leader.of_suit(suit).len().min(13) as i16;
        let left = less_for_free(around.left, suit);
        let right = less_for_free(around.right, suit);
        (ruffed + trump + 21 * length).saturating_add(left.saturating_add(right))
    }

    /// How good a low card of the suit is, by who has its highest card left, and whether the partner has the second.
    fn low_worth(&self, around: &Around, suit: Suit, top: Card, second: bool) -> i16 {
        if around.leader.has(top) {
            return 80;
        }
        if around.partner.has(top) {
            return 560;
        }
        let ruff: i16 = if self.ruffs(around.partner, suit) {
            448
        } else {
            0
        };
        let through: i16 = match (second, around.left.has(top)) {
            (false, _) => 0,
            (true, true) => 72,
            (true, false) => 272,
        };
        152 + ruff + through
    }

    /// Whether a hand has trumps and none of the suit.
    fn ruffs(&self, hand: CardSet, suit: Suit) -> bool {
        hand.of_suit(suit).is_empty()
            && self
                .trump
                .is_some_and(|trump| !hand.of_suit(trump).is_empty())
    }
}

/// How much worse it is to lead the suit where an opponent has none of it: each card that it may throw away has to be tried,
/// and the more it has, the more there are.
fn less_for_free(opponent: CardSet, suit: Suit) -> i16 {
    if opponent.of_suit(suit).is_empty() {
        40 * opponent.len().min(13) as i16
    } else {
        0
    }
}
