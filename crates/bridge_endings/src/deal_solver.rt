//! Whole deals, solved double dummy: how many tricks a declarer takes where each of the four sees all the cards, after any cards
//! that were played, and what each of these cost.
ghost use Rattle.std.specs.Prelude.{◌≡◌, ◌*◌, ◌≤◌, ◌↔◌, [], false, IfOk, IfSome, IsNone, IsSome};
ghost use Rattle.bridge_cards.specs.Seat.{clockwise_from};
ghost use Rattle.bridge_endings.specs.Worth.{dealt, worth_with};
ghost use Rattle.bridge_endings.specs.DealTricks.{tricks_of, declarer_tricks};
ghost use Rattle.bridge_endings.specs.PlayedCards.{first_moment, are_legal, tricks_after, costs_of, ExplainsTricks};

use crate::card_cost::CardCost;
use crate::costs::{costs_in_all, won_from};
use crate::entry::Entry;
use crate::found::Found;
use crate::heads::Heads;
use crate::search::Search;
use crate::solver::tricks_won;
use arrayvec::ArrayVec;
use bridge_cards::{Card, CardSet, DECK, Deal, Seat, Side, Suit};
use std::alloc::{AllocError, Global};
use std::marker::Model;

/// A solver of one deal, with a table of what it has found.
#[derive(Drop)]
pub struct DealSolver {
    hands: [CardSet; 4],
    table: Vec<Entry>,
    search: Search,
    /// How many tricks North and South won in what was asked last.
    won: u8,
}

impl Model for DealSolver {
    ghost use Rattle.std.specs.Prelude.{ℕ, List};
    ghost use Rattle.bridge_endings.specs.DealTricks.{IsDealKept};

    ghost Value = { List ℕ };

    ghost view = { λ s. s.hands };

    ghost invariant = { λ s. IsDealKept s.hands s.table.items };
}

impl DealSolver {
    /// How many entries its table has, of 272 bytes each; with the places where its lists begin they take 32 MiB.
    pub const ENTRIES: usize = 114_688;

    /// A solver of that deal. Its memory is taken here, once.
    pub fn new(alloc: Global, deal: &Deal) -> Result<DealSolver, AllocError>
        ensures { IfOk result (λ solver. solver ≡ deal.now) }
    {
        let heads = Heads::many(alloc)?;
        Ok(DealSolver {
            hands: deal.hands(),
            table: vec![in alloc; Entry::of(Found::nothing()); DealSolver::ENTRIES]?,
            search: Search {
                trump: None,
                tried: 0,
                limit: None,
                last: 0,
                heads,
            },
            won: 7,
        })
    }

    /// The tricks that the declarer takes where that suit is trumps, or no suit is, and both sides play for as many as they can
    /// and see all the cards; the seat to the declarer's left leads (Law 41).
    pub fn tricks(&mut self, trump: Option<Suit>, declarer: Seat) -> u8
        ensures tricks { result ≡ declarer_tricks trump self.old declarer }
        ensures few { result ≤ 13 }
        ensures deal { self.new ≡ self.old }
    {
        let won = self.won_within(trump, declarer, None).unwrap();
        tricks_of(declarer.side(), won)
    }

    /// The same if it is found by trying no more than so many cards, and otherwise `None`. What was found by then is kept, so that
    /// where the same is asked again it takes fewer.
    pub fn tricks_within(
        &mut self,
        trump: Option<Suit>,
        declarer: Seat,
        cards_tried: u64,
    ) -> Option<u8>
        ensures tricks { IfSome result (λ tricks. tricks ≡ declarer_tricks trump self.old declarer) }
        ensures few { IfSome result (λ tricks. tricks ≤ 13) }
        ensures deal { self.new ≡ self.old }
    {
        let limit = self.search.tried.saturating_add(cards_tried);
        let won = self.won_within(trump, declarer, Some(limit))?;
        Some(tricks_of(declarer.side(), won))
    }

    /// The tricks that North and South win then; `None` where so many cards, with those before, do not suffice.
    fn won_within(&mut self, trump: Option<Suit>, declarer: Seat, limit: Option<u64>) -> Option<u8>
        ensures won { IfSome result (λ won. won ≡ worth_with trump (4 * 13) (dealt self.old) (clockwise_from declarer 1) []) }
        ensures few { IfSome result (λ won. won ≤ 13) }
        ensures ended { IsNone result → IsSome limit }
        ensures deal { self.new ≡ self.old }
    {
        self.search.trump = trump;
        self.search.limit = limit;
        let hands = self.hands;
        let won = tricks_won(
            &mut self.search,
            &mut self.table,
            &hands,
            declarer.left(),
            13,
            self.won,
        )?;
        self.won = won;
        Some(won)
    }

    /// The same where the play begins with these cards: the tricks that the declarer then takes in all, dummy's among them, and
    /// after all 52 those that were taken. `None` where one of the cards may not be played in its turn (Law 44).
    pub fn tricks_after(
        &mut self,
        trump: Option<Suit>,
        declarer: Seat,
        cards: &[Card],
    ) -> Option<u8>
        ensures tricks { IfSome result (λ tricks. tricks ≡ tricks_after trump self.old declarer cards.now) }
        ensures few { IfSome result (λ tricks. tricks ≤ 13) }
        ensures none { IsNone result ↔ (are_legal trump (first_moment self.old declarer) cards.now ≡ false) }
        ensures deal { self.new ≡ self.old }
    {
        self.search.trump = trump;
        self.search.limit = None;
        let hands = self.hands;
        let won = won_from(
            &mut self.search,
            &mut self.table,
            &hands,
            declarer,
            cards,
            self.won,
        )?;
        self.won = won;
        Some(tricks_of(declarer.side(), won))
    }

    /// What each of these cards cost from the first on, in their order. `None` where one of them may not be played in its turn.
    /// The declarer's tricks before the first card, with those that the defenders gave away, are the tricks after the last card
    /// with those that the declarer's side gave away.
    pub fn costs(
        &mut self,
        trump: Option<Suit>,
        declarer: Seat,
        cards: &[Card],
    ) -> Option<ArrayVec<CardCost, DECK>>
        ensures costs { IfSome result (λ costs. costs.items ≡ costs_of trump (first_moment self.old declarer) cards.now) }
        ensures explained { IfSome result (λ costs. ExplainsTricks trump self.old declarer cards.now costs.items) }
        ensures none { IsNone result ↔ (are_legal trump (first_moment self.old declarer) cards.now ≡ false) }
        ensures deal { self.new ≡ self.old }
    {
        self.search.trump = trump;
        self.search.limit = None;
        let hands = self.hands;
        let costs = costs_in_all(
            &mut self.search,
            &mut self.table,
            &hands,
            declarer,
            cards,
            self.won,
        );
        costs
    }
}

/// Of thirteen tricks those of a side, where North and South win so many.
fn tricks_of(side: Side, won: u8) -> u8
    requires { won ≤ 13 }
    ensures { result ≡ tricks_of side won }
{
    match side {
        Side::NorthSouth => won,
        Side::EastWest => 13 - won,
    }
}
