//! Top trumps: a seat wins as many tricks as it has trumps that the other side cannot beat, whatever is played.
ghost use Rattle.std.specs.Prelude.{◌≡◌, ◌*◌, [], Some, IfSome, IsTrue, count_by};
ghost use Rattle.bridge_cards.specs.declared.seat.Seat.{Seat};
ghost use Rattle.bridge_cards.specs.CardSet.{has_card, deck};
ghost use Rattle.bridge_cards.specs.Seat.{side_of};
ghost use Rattle.bridge_endings.specs.Agree.{IsDealtOut, IsUpward};
ghost use Rattle.bridge_endings.specs.Left.{left_to};
ghost use Rattle.bridge_endings.specs.SearchValue.{IsAnswer};
ghost use Rattle.bridge_endings.specs.Trumps.{NoneOfTheirs, FourHave, IsSettledBy, AreTopTrumps};

use crate::answer::{Answer, upwards};
use crate::search::{Search, held, is_sought};
use bridge_cards::{Card, CardSet, Seat, Side, Suit};

impl Search {
    /// Whether North and South win `need` of so many tricks left, whoever leads to the first of them, if the top trumps of a
    /// seat settle that.
    pub fn settled_by_trumps(
        &self,
        hands: &[CardSet; 4],
        left: CardSet,
        tricks: u8,
        need: u8,
    ) -> Option<Answer>
        requires { IsDealtOut (left_to hands.now left) }
        ensures { IfSome result (λ answer. (leader : Seat) → IsAnswer self.now.trump (4 * tricks) need answer (left_to hands.now left) leader []) }
    {
        let trumps = left.of_suit(self.trump?).len();
        let few = need.min(tricks.saturating_add(1).saturating_sub(need));
        if trumps < usize::from(few) {
            return None;
        }
        for seat in Seat::ALL {
            if let Some(answer) = self.settled_by_seat(hands, left, seat, tricks, need) {
                return Some(answer);
            }
        }
        None
    }

    /// The same by the top trumps of that seat.
    fn settled_by_seat(
        &self,
        hands: &[CardSet; 4],
        left: CardSet,
        seat: Seat,
        tricks: u8,
        need: u8,
    ) -> Option<Answer>
        requires { IsDealtOut (left_to hands.now left) }
        ensures { IfSome result (λ answer. (leader : Seat) → IsAnswer self.now.trump (4 * tricks) need answer (left_to hands.now left) leader []) }
    {
        let trump = self.trump?;
        let won = settling(seat, tricks, need);
        let counts = top_trumps(hands, left, seat, trump, won)?;
        if !have_each(hands, left, tricks) {
            return None;
        }
        Some(Answer {
            yes: is_sought(seat),
            counts,
            best: Card::default(),
        })
    }
}

/// Whether each seat has so many cards left.
pub fn have_each(hands: &[CardSet; 4], left: CardSet, tricks: u8) -> bool
    ensures { IsTrue result → FourHave (left_to hands.now left) tricks }
{
    let north = cards_of(hands, left, Seat::North);
    let east = cards_of(hands, left, Seat::East);
    let south = cards_of(hands, left, Seat::South);
    let west = cards_of(hands, left, Seat::West);
    let many = usize::from(tricks);
    north == many && east == many && south == many && west == many
}

/// How many cards the seat has left.
fn cards_of(hands: &[CardSet; 4], left: CardSet, seat: Seat) -> usize
    ensures { result ≡ count_by (left_to hands.now left seat) deck }
{
    held(hands, left, seat).len()
}

/// So many tricks of the seat's side settle whether North and South win `need` of those left.
pub fn settling(seat: Seat, tricks: u8, need: u8) -> usize
    ensures { IsSettledBy (side_of seat) result tricks need }
{
    match seat.side() {
        Side::NorthSouth => usize::from(need),
        Side::EastWest => (usize::from(tricks) + 1).saturating_sub(usize::from(need)),
    }
}

/// The trumps from that one on with which the seat has so many of them, if the other side has none of these.
fn top_trumps(
    hands: &[CardSet; 4],
    left: CardSet,
    seat: Seat,
    trump: Suit,
    won: usize,
) -> Option<CardSet>
    ensures upward { IfSome result (λ tops. IsUpward (has_card tops)) }
    ensures tops { IfSome result (λ tops. AreTopTrumps (Some trump) (has_card tops) (left_to hands.now left) seat won) }
{
    let own = held(hands, left, seat);
    let trumps = own.of_suit(trump);
    let lowest = lowest_of(trumps, won)?;
    if !trumps.has(lowest) {
        return None;
    }
    let tops = upwards(lowest);
    if !are_not_theirs(tops, hands, left, seat) {
        return None;
    }
    if tops.intersection(own).len() < won {
        return None;
    }
    Some(tops)
}

/// The lowest of so many of the cards, the highest; `None` where there are fewer.
fn lowest_of(cards: CardSet, many: usize) -> Option<Card> {
    if cards.len() < many {
        return None;
    }
    let mut highest = cards;
    for _ in many..cards.len() {
        if let Some(card) = highest.lowest() {
            highest = highest.without(card);
        }
    }
    highest.lowest()
}

/// Whether the side of the others has none of the cards.
fn are_not_theirs(cards: CardSet, hands: &[CardSet; 4], left: CardSet, seat: Seat) -> bool
    ensures { IsTrue result → NoneOfTheirs (has_card cards) (left_to hands.now left) seat }
{
    let next = held(hands, left, seat.clockwise(1));
    let last = held(hands, left, seat.clockwise(3));
    let theirs = next.union(last);
    theirs.intersection(cards).is_empty()
}
