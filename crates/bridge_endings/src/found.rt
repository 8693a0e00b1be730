//! What a search has found of hands.
ghost use Rattle.std.specs.Prelude.{◌≡◌, ◌*◌, ◌<◌, IsTrue, IfSome};
ghost use Rattle.bridge_endings.specs.Worth.{dealt};
ghost use Rattle.bridge_endings.specs.Left.{all_lengths};
ghost use Rattle.bridge_endings.specs.SearchValue.{IsAnswerTo, IsFound, IsNothing, IsTrueAt, Tells};

use crate::answer::Answer;
use crate::asked::Asked;
use crate::bounds::{Bounds, narrowed};
use crate::like_hands::{hold_alike, lengths_of};
use bridge_cards::{Card, CardSet, Seat, Suit};

/// What something found tells of whether so many tricks are reached.
#[derive(Clone, Copy)]
pub enum Told {
    /// The answer.
    Answer(Answer),
    /// That it is open: its bounds are true of the hands, and do not settle it.
    Open,
    /// Nothing: it is of others.
    Other,
}

/// What was found of hands at the start of a trick.
#[derive(Clone, Copy)]
pub struct Found {
    /// The hands.
    pub hands: [CardSet; 4],
    /// Their cards that counted: the same is true where each hand has as many cards of each suit, and these are where they are.
    pub counts: CardSet,
    /// How many cards of each suit they have.
    pub lengths: u64,
    /// The trump suit, if there is one.
    pub trump: Option<Suit>,
    /// The seat to lead.
    pub leader: Seat,
    /// How many tricks are left.
    pub tricks: u8,
    /// Bounds of what North and South win of them.
    pub bounds: Bounds,
    /// The card to try first the next time.
    pub best: Card,
}

impl Found {
    /// What is true of no cards: nobody wins a trick.
    pub fn nothing() -> Found
        ensures { IsNothing result }
    {
        let hands = [CardSet::new(); 4];
        Found {
            hands,
            counts: CardSet::new(),
            lengths: lengths_of(&hands),
            trump: None,
            leader: Seat::North,
            tricks: 0,
            bounds: Bounds { least: 0, most: 0 },
            best: Card::default(),
        }
    }

    /// What an answer tells of the hands of which it was asked.
    pub fn by(asked: &Asked, answer: &Answer) -> Found
        requires some { 0 < asked.now.need }
        requires lengths { asked.now.lengths ≡ all_lengths asked.now.hands }
        requires answer { IsAnswerTo asked.now answer.now }
        ensures { IsFound result }
    {
        let none = Bounds {
            least: 0,
            most: asked.tricks,
        };
        Found {
            hands: asked.hands,
            counts: answer.counts,
            lengths: asked.lengths,
            trump: asked.trump,
            leader: asked.leader,
            tricks: asked.tricks,
            bounds: narrowed(none, asked.need, answer.yes),
            best: answer.best,
        }
    }

    /// What it tells of what is asked.
    pub fn tells(&self, asked: &Asked) -> Told
        requires found { IsFound self.now }
        requires lengths { asked.now.lengths ≡ all_lengths asked.now.hands }
        ensures { Tells asked.now.trump (4 * asked.now.tricks) asked.now.need (dealt asked.now.hands) asked.now.leader result }
    {
        if !self.is_of(
            &asked.hands,
            asked.lengths,
            asked.trump,
            asked.leader,
            asked.tricks,
        ) {
            return Told::Other;
        }
        if asked.need <= self.bounds.least {
            return Told::Answer(self.answer(true));
        }
        if asked.need > self.bounds.most {
            return Told::Answer(self.answer(false));
        }
        Told::Open
    }

    /// The answer, with the cards that counted.
    fn answer(&self, yes: bool) -> Answer
        ensures yes { result.yes ≡ yes }
        ensures counts { result.counts ≡ self.now.counts }
    {
        Answer {
            yes,
            counts: self.counts,
            best: Card::default(),
        }
    }

    /// What both tell of its hands, where the same cards counted and the other is true of them too.
    pub fn with(&self, other: &Found) -> Option<Found>
        requires found { IsFound self.now × IsFound other.now }
        ensures { IfSome result (λ both. IsFound both) }
    {
        if self.counts != other.counts
            || !other.is_of(
                &self.hands,
                self.lengths,
                self.trump,
                self.leader,
                self.tricks,
            )
        {
            return None;
        }
        Some(Found {
            bounds: Bounds {
                least: self.bounds.least.max(other.bounds.least),
                most: self.bounds.most.min(other.bounds.most),
            },
            ..*self
        })
    }

    /// Whether it is true of the hands too: trumps, leader and tricks are the same, the hands have as many cards of each suit,
    /// and the cards that counted are where they were.
    fn is_of(
        &self,
        hands: &[CardSet; 4],
        lengths: u64,
        trump: Option<Suit>,
        leader: Seat,
        tricks: u8,
    ) -> bool
        requires found { IsFound self.now }
        requires lengths { lengths ≡ all_lengths hands.now }
        ensures { IsTrue result → IsTrueAt self.now trump (4 * tricks) (dealt hands.now) leader }
    {
        if self.lengths != lengths || self.leader != leader {
            return false;
        }
        if self.tricks != tricks || self.trump != trump {
            return false;
        }
        hold_alike(&self.hands, hands, self.counts)
    }
}
