//! The play of one board.
ghost use Rattle.std.specs.Prelude.{◌≡◌, ◌≢◌, ℕ, ◌+◌, ◌*◌, ◌<◌, ◌≤◌, [], ◌↔◌, ◌||◌, nat_lt, is_some, length, take, IsOk, OnOk, OnErr, IfSome, None, All, IsSome};
ghost use Rattle.std.specs.Bool.{OnFalse};
ghost use Rattle.bridge_play.specs.Play.{with_card, without_latest, is_over, is_agreed, card_answer, MayBePlayed, tricks_of, settled_tricks, IsPlay, playing, with_claims, is_claim_in};
ghost use Rattle.bridge_play.specs.Dummy.{actor_of, dummy_of};
ghost use Rattle.bridge_play.specs.Trick.{turn_of, whole_tricks, leader_of, tricks_won};
ghost use Rattle.bridge_play.specs.Legal.{IsLegal, holds};
ghost use Rattle.bridge_cards.specs.CardSet.{has_card, card_count};
ghost use Rattle.bridge_cards.specs.Deal.{hand_at, NoneTwice};

mod claims;

use crate::card_play::CardPlay;
use crate::claim::{Claim, all_agreed, only_asked_agree};
use crate::claim_count::{ClaimCount, MOST_CLAIMS};
use crate::dummy::{actor, dummy};
use crate::refused::CardRefused;
use crate::trick::leader;
use bridge_auction::Contract;
use bridge_cards::{Card, CardSet, DECK, Deal, Seat, Side};
use std::marker::Model;

/// The tricks of a board.
pub const TRICKS: usize = 13;

/// Whether after those cards and so many claims the claim is one that stands or was agreed.
fn is_claim_in(played: &CardPlay, claims: u8, claim: Claim) -> bool
    ensures { result ≡ is_claim_in (with_claims played.now claims (Some claim)) claim }
{
    let contract = played.contract();
    let cards = played.cards().len();
    claims >= 1
        && cards % 4 == 0
        && cards < DECK
        && claim.claimer != dummy(contract)
        && cards / 4 + usize::from(claim.tricks) <= TRICKS
        && only_asked_agree(contract, &claim)
}

/// The play of one board: the dealt hands, the contract, a legal list of cards, and the claims made.
#[derive(Debug, Drop, PartialEq)]
pub struct Play {
    /// The cards played.
    card_play: CardPlay,
    /// How many claims were made.
    claims: u8,
    /// The claim that stands or was agreed.
    claim: Option<Claim>,
}

impl Model for Play {
    ghost use Rattle.bridge_play.specs.Play.{PlayValue, with_claims, IsPlay};

    ghost Value = { PlayValue };

    ghost view = { λ p. with_claims p.card_play p.claims p.claim };

    ghost invariant = { λ p. IsPlay (with_claims p.card_play p.claims p.claim) };

    ghost inverse = { λ p. record {
      card_play = record { hands = p.hands; contract = p.contract; cards = p.cards };
      claims = p.claims;
      claim = p.claim;
    } };
}

impl Play {
    /// The play of a deal in a contract, before the opening lead.
    pub fn new(deal: &Deal, contract: Contract) -> Play
        ensures hands { result.hands ≡ deal.now }
        ensures contract { result.contract ≡ contract }
        ensures cards { result.cards ≡ [] }
        ensures claims { result.claims ≡ 0 }
        ensures claim { result.claim ≡ None }
    {
        Play {
            card_play: CardPlay::new(deal, contract),
            claims: 0,
            claim: None,
        }
    }

    /// The play of a deal in a contract, before the opening lead, where so many claims were made before that contract was.
    pub fn after_claims(deal: &Deal, contract: Contract, claims: ClaimCount) -> Play
        ensures { result ≡ playing deal.now contract [] claims None }
    {
        Play {
            card_play: CardPlay::new(deal, contract),
            claims: claims.number(),
            claim: None,
        }
    }

    /// The play of the deal in the contract with those cards, so many claims made, and the claim that stands or was agreed.
    /// `None` where the cards are no legal list, more than 99 claims were made, or the claim is not one that the other parts
    /// allow: one was made, between tricks, before the last was played, not by dummy, for no more tricks than are left, and
    /// nobody agrees who is not asked.
    pub fn from_parts(
        deal: &Deal,
        contract: Contract,
        cards: &[Card],
        claims: u8,
        claim: Option<Claim>,
    ) -> Option<Play>
        ensures accepted { IsSome result ↔ IsPlay (playing deal.now contract cards.now claims claim) }
        ensures play { IfSome result (λ play. play ≡ playing deal.now contract cards.now claims claim) }
    {
        if claims > MOST_CLAIMS {
            return None;
        }
        let card_play = CardPlay::from_cards(deal, contract, cards)?;
        if let Some(made) = &claim {
            if !is_claim_in(&card_play, claims, *made) {
                return None;
            }
        }
        Some(Play {
            card_play,
            claims,
            claim,
        })
    }

    /// The contract that is played.
    pub fn contract(&self) -> &Contract
        ensures { result.now ≡ self.now.contract }
    {
        self.card_play.contract()
    }

    /// The seat that leads to a trick, the tricks counted from 0, of the whole tricks and the next.
    pub fn leader(&self, trick: usize) -> Seat
        requires { trick ≤ whole_tricks self.now.cards }
        ensures { result ≡ leader_of self.now.contract self.now.cards trick }
    {
        leader(self.card_play.contract(), self.card_play.cards(), trick)
    }

    /// How many of the whole tricks the side won, without those of a claim.
    pub fn tricks_won(&self, side: Side) -> u8
        ensures won { result ≡ tricks_won self.now.contract self.now.cards side (whole_tricks self.now.cards) }
        ensures most { result ≤ whole_tricks self.now.cards }
    {
        self.card_play.tricks_won(side)
    }

    /// The hand to play: the leader's, then clockwise (Law 44). When the play is over, the hand that would play next.
    pub fn turn(&self) -> Seat
        ensures { result ≡ turn_of self.now.contract self.now.cards }
    {
        self.card_play.turn()
    }

    /// The cards so far, a legal list of at most 52.
    pub fn cards(&self) -> &[Card]
        ensures cards { result.now ≡ self.now.cards }
        ensures legal { IsLegal self.now.hands self.now.contract result.now }
        ensures few { length result.now ≤ DECK }
    {
        self.card_play.cards()
    }

    /// Who plays the next card: the hand to play, or declarer for dummy's hand (Law 45). It is never dummy. When the play
    /// is over, who would play next.
    pub fn actor(&self) -> Seat
        ensures actor { result ≡ actor_of self.now.contract (turn_of self.now.contract self.now.cards) }
        ensures not_dummy { result ≢ dummy_of self.now.contract }
    {
        actor(self.card_play.contract(), self.turn())
    }

    /// Whether all tricks were played or a claim is agreed. Before that there are fewer than 52 cards.
    pub fn is_over(&self) -> bool
        ensures over { result ≡ is_over self.now }
        ensures room { OnFalse result (length self.now.cards < DECK) }
    {
        let played = self.card_play.cards().len();
        played == DECK || self.is_agreed()
    }

    /// Whether a claim was agreed.
    fn is_agreed(&self) -> bool
        ensures { result ≡ is_agreed self.now }
    {
        match &self.claim {
            Some(claim) => all_agreed(self.card_play.contract(), claim),
            None => false,
        }
    }

    /// The answer to a card by a player.
    fn card_answer(&self, seat: Seat, card: Card) -> Result<(), CardRefused>
        ensures answer { result ≡ card_answer self.now seat card }
        ensures room { OnOk result (length self.now.cards < DECK) }
    {
        let hand = self.turn();
        if self.is_over() {
            Err(CardRefused::Over)
        } else if self.claim.is_some() {
            Err(CardRefused::ClaimStands)
        } else if seat != actor(self.card_play.contract(), hand) {
            Err(CardRefused::NotYourTurn)
        } else if !self.card_play.holds(hand, card) {
            Err(CardRefused::NotHeld)
        } else if !self.card_play.follows(hand, card) {
            Err(CardRefused::MustFollow)
        } else {
            Ok(())
        }
    }

    /// Plays a card of the hand in turn, where the player is the one who plays it and the list of cards with it is
    /// legal, and otherwise says why not. The seat is the player's: declarer's for a card of dummy's hand.
    pub fn try_card(&mut self, seat: Seat, card: Card) -> Result<(), CardRefused>
        ensures answer { result ≡ card_answer self.old seat card }
        ensures accepted { IsOk result ↔ MayBePlayed self.old seat card }
        ensures played { OnOk result (self.new ≡ with_card self.old card) }
        ensures refused { OnErr result (self.new ≡ self.old) }
    {
        let played = card;
        let answer = self.card_answer(seat, card);
        if answer.is_ok() {
            self.card_play.push(played);
        }
        answer
    }

    /// Takes back the latest thing done: the claim that stands or was agreed, which still counts as made, or else the last card,
    /// which its hand has again. It says whether there was any.
    pub fn take_back(&mut self) -> bool
        ensures some { result ≡ (is_some self.old.claim || nat_lt 0 (length self.old.cards)) }
        ensures rest { self.new ≡ without_latest self.old }
    {
        if self.claim.is_some() {
            self.claim = None;
            return true;
        }
        self.card_play.take_back()
    }

    /// The tricks of a side: the whole tricks that it won, and those of an agreed claim; the tricks left that are not
    /// claimed go to the other side (Law 68). Those of both sides are the whole tricks, and 13 when the play is over.
    pub fn tricks(&self, side: Side) -> u8
        ensures tricks { result ≡ tricks_of self.now side }
        ensures most { result ≤ TRICKS }
        ensures both { tricks_of self.now Side.NorthSouth + tricks_of self.now Side.EastWest ≡ settled_tricks self.now }
    {
        let won = self.card_play.tricks_won(side);
        let tricks_played = self.card_play.cards().len() / 4;
        let claimed = match &self.claim {
            Some(claim) if all_agreed(self.card_play.contract(), claim) => {
                if claim.claimer.side() == side {
                    claim.tricks
                } else {
                    (TRICKS - tricks_played) as u8 - claim.tricks
                }
            }
            _ => 0,
        };
        won + claimed
    }

    /// The cards that the seat still holds.
    pub fn remaining(&self, seat: Seat) -> CardSet
        ensures { (card : ℕ) → has_card result card ≡ holds self.now.hands self.now.cards seat card }
    {
        self.card_play.remaining(seat)
    }

    /// The four hands, North's first and then clockwise, as they were when so many tricks were whole. Each has as many
    /// cards, 13 without those tricks, and no card is in two of them.
    pub fn hands_after(&self, tricks: usize) -> [CardSet; 4]
        requires { tricks ≤ whole_tricks self.now.cards }
        ensures four { length result ≡ 4 }
        ensures cards { (seat : Seat) (card : ℕ) → has_card (hand_at result seat) card ≡ holds self.now.hands (take (4 * tricks) self.now.cards) seat card }
        ensures equal { All (λ hand. card_count hand + tricks ≡ TRICKS) result }
        ensures once { NoneTwice result }
    {
        self.card_play.left_after(tricks)
    }
}
