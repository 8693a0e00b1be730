//! What the cards of a play cost: the tricks of each moment are asked for in turn over one table, from those of the moment before.
ghost use Rattle.std.specs.Prelude.{◌≡◌, ℕ, ◌+◌, ◌≤◌, ◌↔◌, nat_le, true, false, None, IfSome, IsNone};
ghost use Rattle.bridge_cards.specs.Deal.{IsDeal};
ghost use Rattle.bridge_cards.specs.Seat.{side_of};
ghost use Rattle.bridge_endings.specs.Between.{IsBounded};
ghost use Rattle.bridge_endings.specs.SearchValue.{GoesOn, IsTable};
ghost use Rattle.bridge_endings.specs.PlayedCards.{seen, IsMoment, IsNoBetter, first_moment, turn_at, may_play, after_card, after_cards, are_legal, won_in_all, cost_of, costs_of, IsExplained};

use crate::bounds::{Bounds, narrowed};
use crate::card_cost::{CardCost, given_away};
use crate::entry::Entry;
use crate::moment::Moment;
use crate::search::Search;
use arrayvec::ArrayVec;
use bridge_cards::{Card, CardSet, DECK, Seat, Side};

/// Whether North and South win so many tricks in the whole deal.
fn reaches_in_all(search: &mut Search, table: &mut [Entry], moment: &Moment, need: u8) -> bool
    requires table { IsTable table.old }
    requires moment { IsMoment search.old.trump moment.now }
    requires endless { search.old.limit ≡ None }
    ensures reached { result ≡ nat_le need (won_in_all search.old.trump (seen moment.now)) }
    ensures later { GoesOn search.old search.new }
    ensures table { IsTable table.new }
{
    let answer = search
        .reaches_at(
            table,
            &moment.hands,
            moment.left,
            &moment.trick,
            moment.tricks,
            need.saturating_sub(moment.won),
        )
        .unwrap();
    answer.yes
}

/// The tricks that North and South win in the whole deal, which are between the bounds; a guess is asked for first, and then one
/// more or one less.
fn won_in_all(
    search: &mut Search,
    table: &mut [Entry],
    moment: &Moment,
    known: Bounds,
    guess: u8,
) -> u8
    requires table { IsTable table.old }
    requires moment { IsMoment search.old.trump moment.now }
    requires endless { search.old.limit ≡ None }
    requires bounded { IsBounded (won_in_all search.old.trump (seen moment.now)) known }
    ensures won { result ≡ won_in_all search.old.trump (seen moment.now) }
    ensures later { GoesOn search.old search.new }
    ensures table { IsTable table.new }
{
    let mut bounds = known;
    while bounds.least < bounds.most {
        let need = guess.max(bounds.least + 1).min(bounds.most);
        let reached = reaches_in_all(search, table, moment, need);
        bounds = narrowed(bounds, need, reached);
    }
    bounds.least
}

/// The bounds before anything is known.
fn all_bounds() -> Bounds
    ensures { (won : ℕ) → won ≤ 13 → IsBounded won result }
{
    Bounds { least: 0, most: 13 }
}

/// The bounds after a card of the side, where North and South won so many before it: no card brings its side more.
fn bounds_after(side: Side, before: u8) -> Bounds
    ensures { (after : ℕ) → after ≤ 13 → IsNoBetter side before after → IsBounded after result }
{
    match side {
        Side::NorthSouth => Bounds {
            least: 0,
            most: before,
        },
        Side::EastWest => Bounds {
            least: before,
            most: 13,
        },
    }
}

/// The tricks of North and South in a whole deal that begins with these cards; `None` where one of them may not be played.
pub fn won_from(
    search: &mut Search,
    table: &mut [Entry],
    hands: &[CardSet; 4],
    declarer: Seat,
    cards: &[Card],
    guess: u8,
) -> Option<u8>
    requires deal { IsTable table.old × IsDeal hands.now }
    requires endless { search.old.limit ≡ None }
    ensures won { IfSome result (λ won. won ≡ won_in_all search.old.trump (after_cards search.old.trump (first_moment hands.now declarer) cards.now)) }
    ensures few { IfSome result (λ won. won ≤ 13) }
    ensures none { IsNone result ↔ (are_legal search.old.trump (first_moment hands.now declarer) cards.now ≡ false) }
    ensures table { IsTable table.new }
{
    let moment = Moment::after_all(hands, search.trump, declarer, cards)?;
    Some(won_in_all(search, table, &moment, all_bounds(), guess))
}

/// What follows a card.
#[derive(Drop)]
struct Played {
    /// The moment after it.
    moment: Moment,
    /// The tricks that North and South then win in all.
    won: u8,
    /// What it cost.
    cost: CardCost,
}

/// What follows a card, before which North and South win so many tricks in all.
fn play(search: &mut Search, table: &mut [Entry], moment: &Moment, card: Card, before: u8) -> Played
    requires moment { IsTable table.old × IsMoment search.old.trump moment.now }
    requires endless { search.old.limit ≡ None }
    requires legal { may_play (seen moment.now) card ≡ true }
    requires before { before ≡ won_in_all search.old.trump (seen moment.now) }
    ensures moment { IsMoment search.old.trump result.moment × (seen result.moment ≡ after_card search.old.trump (seen moment.now) card) }
    ensures won { result.won ≡ won_in_all search.old.trump (seen result.moment) }
    ensures better { IsNoBetter (side_of (turn_at (seen moment.now))) before result.won }
    ensures cost { result.cost ≡ cost_of search.old.trump (seen moment.now) card }
    ensures later { GoesOn search.old search.new }
    ensures table { IsTable table.new }
{
    let seat = moment.turn();
    let next = moment.after(card);
    let known = bounds_after(seat.side(), before);
    let won = won_in_all(search, table, &next, known, before);
    Played {
        moment: next,
        won,
        cost: CardCost {
            card,
            seat,
            tricks: given_away(seat.side(), before, won),
        },
    }
}

/// What each of these cards costs in a deal that begins with them; `None` where one of them may not be played.
pub(crate) fn costs_in_all(
    search: &mut Search,
    table: &mut [Entry],
    hands: &[CardSet; 4],
    declarer: Seat,
    cards: &[Card],
    guess: u8,
) -> Option<ArrayVec<CardCost, DECK>>
    requires deal { IsTable table.old × IsDeal hands.now }
    requires endless { search.old.limit ≡ None }
    ensures costs { IfSome result (λ costs. costs.items ≡ costs_of search.old.trump (first_moment hands.now declarer) cards.now) }
    ensures explained { IfSome result (λ costs. IsExplained search.old.trump (first_moment hands.now declarer)
        (after_cards search.old.trump (first_moment hands.now declarer) cards.now) costs.items) }
    ensures few { IfSome result (λ costs. won_in_all search.old.trump (after_cards search.old.trump (first_moment hands.now declarer) cards.now) ≤ 13) }
    ensures none { IsNone result ↔ (are_legal search.old.trump (first_moment hands.now declarer) cards.now ≡ false) }
    ensures table { IsTable table.new }
{
    let mut moment = Moment::first(hands, search.trump, declarer);
    let mut won = won_in_all(search, table, &moment, all_bounds(), guess);
    let mut costs = ArrayVec::new();
    for card in cards {
        if !moment.legal().has(*card) {
            return None;
        }
        let after = play(search, table, &moment, *card, won);
        costs.push(after.cost);
        won = after.won;
        moment = after.moment;
    }
    Some(costs)
}
