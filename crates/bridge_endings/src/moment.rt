//! Moments of the play of a whole deal.
ghost use Rattle.std.specs.Prelude.{◌≡◌, ℕ, ◌+◌, ◌<◌, true, false, IfSome, IsNone, ◌↔◌};
ghost use Rattle.bridge_cards.specs.CardSet.{has_card, card_count};
ghost use Rattle.bridge_cards.specs.Deal.{IsDeal};
ghost use Rattle.bridge_cards.specs.Seat.{side_of};
ghost use Rattle.bridge_endings.specs.Worth.{trick_for};
ghost use Rattle.bridge_endings.specs.PlayedCards.{seen, IsMoment, first_moment, turn_at, may_play, after_card, after_cards, are_legal};

use crate::search::legal_cards;
use crate::trick::Trick;
use bridge_cards::{Card, CardSet, Seat, Side, Suit};

/// A moment of the play of a deal.
#[derive(Drop)]
pub struct Moment {
    /// The hands as they were dealt.
    pub hands: [CardSet; 4],
    /// The cards that are not played.
    pub left: CardSet,
    /// The trick that is not whole.
    pub trick: Trick,
    /// How many tricks are not whole.
    pub tricks: u8,
    /// How many tricks North and South have won.
    pub won: u8,
}

impl Moment {
    /// Nobody has played, and the seat to the declarer's left leads.
    pub fn first(hands: &[CardSet; 4], trump: Option<Suit>, declarer: Seat) -> Moment
        requires { IsDeal hands.now }
        ensures moment { IsMoment trump result }
        ensures first { seen result ≡ first_moment hands.now declarer }
    {
        Moment {
            hands: *hands,
            left: whole_deck(),
            trick: Trick::new(trump, declarer.left()),
            tricks: 13,
            won: 0,
        }
    }

    /// The hand to play.
    pub fn turn(&self) -> Seat
        ensures { result ≡ turn_at (seen self.now) }
    {
        self.trick.turn()
    }

    /// The cards that it may play.
    pub fn legal(&self) -> CardSet
        ensures { (card : ℕ) → has_card result card ≡ may_play (seen self.now) card }
    {
        legal_cards(&self.hands, self.left, &self.trick)
    }

    /// The moment once it has played the card.
    pub fn after(&self, card: Card) -> Moment
        requires moment { IsMoment self.now.trick.trump self.now }
        requires legal { may_play (seen self.now) card ≡ true }
        ensures moment { IsMoment self.now.trick.trump result }
        ensures after { seen result ≡ after_card self.now.trick.trump (seen self.now) card }
    {
        let left = self.left.without(card);
        let trick = self.trick.with(card);
        if trick.len() < 4 {
            return Moment {
                left,
                trick,
                hands: self.hands,
                tricks: self.tricks,
                won: self.won,
            };
        }
        let winner = trick.winner();
        Moment {
            hands: self.hands,
            left,
            trick: Trick::new(self.trick.trump(), winner),
            tricks: self.tricks - 1,
            won: won_with(self.won, winner),
        }
    }

    /// The moment of a deal after these cards; `None` where one of them may not be played in its turn.
    pub fn after_all(
        hands: &[CardSet; 4],
        trump: Option<Suit>,
        declarer: Seat,
        cards: &[Card],
    ) -> Option<Moment>
        requires { IsDeal hands.now }
        ensures moment { IfSome result (IsMoment trump) }
        ensures after { IfSome result (λ moment. seen moment ≡ after_cards trump (first_moment hands.now declarer) cards.now) }
        ensures none { IsNone result ↔ (are_legal trump (first_moment hands.now declarer) cards.now ≡ false) }
    {
        let mut moment = Moment::first(hands, trump, declarer);
        for card in cards {
            if !moment.legal().has(*card) {
                return None;
            }
            moment = moment.after(*card);
        }
        Some(moment)
    }
}

/// The tricks of North and South with one that the seat has won.
fn won_with(won: u8, winner: Seat) -> u8
    requires { won < 13 }
    ensures { result ≡ won + trick_for (side_of winner) }
{
    match winner.side() {
        Side::NorthSouth => won + 1,
        Side::EastWest => won,
    }
}

/// The 52 cards.
pub fn whole_deck() -> CardSet
    ensures all { (card : ℕ) → card < 52 → has_card result card ≡ true }
    ensures count { card_count result ≡ 52 }
{
    match CardSet::from_bits(0x000f_ffff_ffff_ffff) {
        Some(cards) => cards,
        None => CardSet::new(),
    }
}
