//! Whether North and South win at least so many of the tricks left.
ghost use Rattle.std.specs.Prelude.{◌≡◌, ◌-◌, ◌*◌, ◌<◌, ◌≤◌, length, MatchBool, IsTrue, IfSome, IsNone, IsSome, []};
ghost use Rattle.bridge_cards.specs.Seat.{side_of};
ghost use Rattle.bridge_endings.specs.Worth.{dealt, trick_for};
ghost use Rattle.bridge_endings.specs.Left.{left_to, is_sought, IsForegone};
ghost use Rattle.bridge_endings.specs.Agree.{IsDealtOut};
ghost use Rattle.bridge_endings.specs.SearchValue.{GoesOn, IsAnswer, IsAnswerAt, IsAnswerWith, IsTable};

use crate::answer::{Answer, all_tried, still_to_try, upwards, without_cards};
use crate::asked::Asked;
use crate::closed::{all_cards, cards_left, closed_hands, gaps, opened};
use crate::entry::Entry;
use crate::found::Found;
use crate::like_hands::lengths_of;
use crate::search::{Search, is_sought, legal_cards};
use crate::sure_card::settled_by_one;
use crate::table::{look_up, note};
use crate::trick::Trick;
use bridge_cards::{Card, CardSet, Seat, Side};

impl Search {
    /// Whether North and South win at least `need` of so many tricks, the first of which is the one that is being played.
    pub fn reaches_at(
        &mut self,
        table: &mut [Entry],
        hands: &[CardSet; 4],
        left: CardSet,
        trick: &Trick,
        tricks: u8,
        need: u8,
    ) -> Option<Answer>
        requires part { (length trick.now.cards < 4) × (length trick.now.cards ≤ 4 * tricks) }
        requires given { (trick.now.trump ≡ self.old.trump) × IsTable table.old × IsDealtOut (left_to hands.now left) }
        ensures answer { IfSome result (IsAnswerAt self.old.trump tricks need (left_to hands.now left) trick.now) }
        ensures ended { IsNone result → IsSome self.old.limit }
        ensures later { GoesOn self.old self.new }
        ensures table { IsTable table.new }
    {
        if trick.len() == 0 {
            self.reaches_from(table, hands, left, trick.turn(), tricks, need)
        } else {
            self.reaches(table, hands, left, trick, tricks, need, None)
        }
    }

    /// Whether North and South win at least `need` of so many tricks left, to the first of which that seat leads.
    #[cycle(search)]
    pub fn reaches_from(
        &mut self,
        table: &mut [Entry],
        hands: &[CardSet; 4],
        left: CardSet,
        leader: Seat,
        tricks: u8,
        need: u8,
    ) -> Option<Answer>
        requires table { IsTable table.old }
        requires dealt { IsDealtOut (left_to hands.now left) }
        ensures answer { IfSome result (λ answer. IsAnswer self.old.trump (4 * tricks) need answer (left_to hands.now left) leader []) }
        ensures ended { IsNone result → IsSome self.old.limit }
        ensures later { GoesOn self.old self.new }
        ensures table { IsTable table.new }
    {
        let trick = Trick::new(self.trump, leader);
        if is_settled(&trick, tricks, need) {
            return Some(without_cards(need));
        }
        if tricks < 3 {
            return self.reaches(table, hands, left, &trick, tricks, need, None);
        }
        if let Some(answer) = self.seen_at_once(hands, left, leader, tricks, need) {
            return Some(answer);
        }
        let cards = cards_left(hands, left);
        let gone = gaps(all_cards(hands).difference(left), left);
        self.reaches_closed(table, &cards, gone, &trick, tricks, need)
    }

    /// The answer where it is seen without a search: by top trumps, or by one sure trick of the leader's side.
    fn seen_at_once(
        &self,
        hands: &[CardSet; 4],
        left: CardSet,
        leader: Seat,
        tricks: u8,
        need: u8,
    ) -> Option<Answer>
        requires some { 0 < tricks }
        requires dealt { IsDealtOut (left_to hands.now left) }
        ensures { IfSome result (λ answer. IsAnswer self.now.trump (4 * tricks) need answer (left_to hands.now left) leader []) }
    {
        if let Some(answer) = self.settled_by_trumps(hands, left, tricks, need) {
            return Some(answer);
        }
        if let Some(answer) = self.settled_by_top_cards(hands, left, leader, tricks, need) {
            return Some(answer);
        }
        if need != settled_by_one(leader, tricks) {
            return None;
        }
        let card = self.sure_card(hands, left, leader)?;
        Some(Answer {
            yes: is_sought(leader),
            counts: upwards(card),
            best: card,
        })
    }

    /// The same, asked of the hands closed up over the cards that are gone.
    #[cycle(search)]
    fn reaches_closed(
        &mut self,
        table: &mut [Entry],
        hands: &[CardSet; 4],
        gone: CardSet,
        trick: &Trick,
        tricks: u8,
        need: u8,
    ) -> Option<Answer>
        requires table { IsTable table.old }
        requires dealt { IsDealtOut (dealt hands.now) }
        requires first { (trick.now.cards ≡ []) × (trick.now.trump ≡ self.old.trump) }
        requires some { 0 < need }
        ensures answer { IfSome result (λ answer. IsAnswer self.old.trump (4 * tricks) need answer (dealt hands.now) trick.now.leader []) }
        ensures ended { IsNone result → IsSome self.old.limit }
        ensures later { GoesOn self.old self.new }
        ensures table { IsTable table.new }
    {
        let all = all_cards(hands);
        let gaps = gone.difference(all);
        let Some(gap) = gaps.lowest() else {
            return self.reaches_kept(table, hands, all, trick, tricks, need);
        };
        let hands = closed_hands(hands, gap);
        let answer = self.reaches_closed(table, &hands, gaps.without(gap), trick, tricks, need)?;
        Some(Answer {
            counts: opened(answer.counts, gap),
            ..answer
        })
    }

    /// The same of hands of which the table may know it.
    #[cycle(search)]
    fn reaches_kept(
        &mut self,
        table: &mut [Entry],
        hands: &[CardSet; 4],
        left: CardSet,
        trick: &Trick,
        tricks: u8,
        need: u8,
    ) -> Option<Answer>
        requires table { IsTable table.old }
        requires dealt { IsDealtOut (left_to hands.now left) }
        requires all { left_to hands.now left ≡ dealt hands.now }
        requires first { (trick.now.cards ≡ []) × (trick.now.trump ≡ self.old.trump) }
        requires some { 0 < need }
        ensures answer { IfSome result (λ answer. IsAnswer self.old.trump (4 * tricks) need answer (dealt hands.now) trick.now.leader []) }
        ensures ended { IsNone result → IsSome self.old.limit }
        ensures later { GoesOn self.old self.new }
        ensures table { IsTable table.new }
    {
        let asked = Asked {
            hands: *hands,
            lengths: lengths_of(hands),
            trump: self.trump,
            leader: trick.turn(),
            tricks,
            need,
        };
        let known = look_up(table, &self.heads, &asked);
        if known.answer.is_some() {
            return known.answer;
        }
        let answer = self.reaches(table, hands, left, trick, tricks, need, known.best)?;
        let found = Found::by(&asked, &answer);
        note(table, &mut self.heads, &found, known.place, &mut self.last);
        Some(answer)
    }

    /// The same at any card of a trick, with which so many tricks are left.
    #[cycle(search)]
    fn reaches(
        &mut self,
        table: &mut [Entry],
        hands: &[CardSet; 4],
        left: CardSet,
        trick: &Trick,
        tricks: u8,
        need: u8,
        best: Option<Card>,
    ) -> Option<Answer>
        requires part { (length trick.now.cards < 4) × (length trick.now.cards ≤ 4 * tricks) }
        requires given { (trick.now.trump ≡ self.old.trump) × IsTable table.old × IsDealtOut (left_to hands.now left) }
        ensures answer { IfSome result (IsAnswerAt self.old.trump tricks need (left_to hands.now left) trick.now) }
        ensures ended { IsNone result → IsSome self.old.limit }
        ensures later { GoesOn self.old self.new }
        ensures table { IsTable table.new }
    {
        if is_settled(trick, tricks, need) {
            return Some(without_cards(need));
        }
        let legal = legal_cards(hands, left, trick);
        if legal.is_empty() {
            return Some(without_cards(need));
        }
        let sought = is_sought(trick.turn());
        let mut order = self.order(hands, left, legal, trick, best);
        let (mut rest, mut counts) = (legal, CardSet::new());
        while let Some(card) = self.next_card(hands, left, rest, trick, &mut order) {
            let answer = self.reaches_with(table, hands, left, trick, card, tricks, need)?;
            if answer.yes == sought {
                return Some(answer.by(card));
            }
            rest = still_to_try(rest, card, answer.counts);
            counts = counts.union(answer.counts);
        }
        let first = self.next_card(hands, left, legal, trick, &mut order);
        Some(all_tried(sought, counts, first.unwrap_or_default()))
    }

    /// Whether they do once the card is played.
    #[cycle(search)]
    fn reaches_with(
        &mut self,
        table: &mut [Entry],
        hands: &[CardSet; 4],
        left: CardSet,
        trick: &Trick,
        card: Card,
        tricks: u8,
        need: u8,
    ) -> Option<Answer>
        requires part { (length trick.now.cards < 4) × (0 < tricks) }
        requires trump { trick.now.trump ≡ self.old.trump }
        requires given { IsTable table.old × IsDealtOut (left_to hands.now left) }
        ensures answer { IfSome result (IsAnswerWith self.old.trump tricks need (left_to hands.now left) trick.now card) }
        ensures ended { IsNone result → IsSome self.old.limit }
        ensures later { GoesOn self.old self.new }
        ensures table { IsTable table.new }
    {
        self.count_card()?;
        let left = left.without(card);
        let trick = trick.with(card);
        if trick.len() < 4 {
            return self.reaches(table, hands, left, &trick, tricks, need, None);
        }
        let winner = trick.winner();
        let need = need_after(winner, need);
        let answer = self.reaches_from(table, hands, left, winner, tricks - 1, need)?;
        Some(Answer {
            yes: answer.yes,
            counts: answer.counts.union(trick.rank_that_counts()),
            best: card,
        })
    }
}

/// Whether a trick begins at which nothing need be searched: no tricks are needed, or more than are left.
fn is_settled(trick: &Trick, tricks: u8, need: u8) -> bool
    requires part { length trick.now.cards < 4 }
    requires enough { length trick.now.cards ≤ 4 * tricks }
    ensures cases { MatchBool result (IsForegone (length trick.now.cards) tricks need) (length trick.now.cards < 4 * tricks) }
    ensures needless { length trick.now.cards ≡ 0 → need ≡ 0 → IsTrue result }
{
    trick.len() == 0 && (need == 0 || need > tricks)
}

/// How many more tricks North and South need once the seat has won one.
fn need_after(winner: Seat, need: u8) -> u8
    ensures { result ≡ need - trick_for (side_of winner) }
{
    if winner.side() == Side::NorthSouth {
        need.saturating_sub(1)
    } else {
        need
    }
}
