//! What a player is shown of the current play of the table.
ghost use Rattle.std.specs.Prelude.{◌≡◌, ◌≤◌, length, take, [], None, Some, map, All, MatchResult, Err};
ghost use Rattle.std.specs.Option.{option_map};
ghost use Rattle.bridge_cards.specs.CardSet.{cards_of};
ghost use Rattle.bridge_play.specs.Trick.{whole_tricks};
ghost use Rattle.session_rules.specs.See.{shown_among, shown_with, plain_trick, last_trick, shown_dummy, cards_left};
ghost use Rattle.bridge_table.specs.Kept.{plain_of, IsTied, IsTiedIn};
ghost use Rattle.bridge_cards.specs.Board.{dealer_of};
ghost use Rattle.session_rules.specs.Views.{plain_seen, IsViewOf, IsViewAmong};

use crate::record::Record;
use crate::table::{current, deal_on};
use arrayvec::ArrayVec;
use bridge_auction::Auction;
use bridge_cards::{BoardNumber, Card, CardSet, Deal, Seat, Side, dealer, vulnerability_of};
use bridge_play::Play;
use session_rules::{BoardIndex, PlayId, Refused, RoundNumber, TableNumber, Trick, View};

/// The first four cards.
fn first_four(cards: &[Card]) -> &[Card]
    ensures { result.now ≡ take 4 cards.now }
{
    if cards.len() <= 4 { cards } else { &cards[..4] }
}

/// A whole trick, or the one that is not, the tricks counted from 0.
pub fn trick_at(play: &Play, trick: usize) -> Trick
    requires { trick ≤ whole_tricks play.now.cards }
    ensures { plain_seen result ≡ plain_trick play.now.contract play.now.cards trick }
{
    let (_, rest) = play.cards().split_at(4 * trick);
    let mut cards = ArrayVec::new();
    cards.try_extend_from_slice(first_four(rest)).unwrap();
    Trick {
        leader: play.leader(trick),
        cards,
    }
}

/// The last of the whole tricks.
pub fn last_trick(play: &Play) -> Option<Trick>
    ensures { option_map plain_seen result ≡ last_trick play.now.contract play.now.cards }
{
    let whole = play.cards().len() / 4;
    if whole == 0 {
        None
    } else {
        Some(trick_at(play, whole - 1))
    }
}

/// The cards that a seat still holds in a play.
pub fn left_in(play: &Play, seat: Seat) -> CardSet
    ensures { cards_of result ≡ cards_left play.now.hands play.now.cards seat }
{
    play.remaining(seat)
}

/// Dummy's cards that are left, once a card was played.
pub fn dummy_in(play: &Play) -> Option<CardSet>
    ensures { option_map cards_of result ≡ shown_dummy play.now }
{
    if play.cards().is_empty() {
        None
    } else {
        Some(left_in(play, play.contract().declarer.clockwise(2)))
    }
}

/// The cards of a seat as they were dealt.
pub fn dealt_to(deal: &Deal, seat: Seat) -> CardSet
    ensures { cards_of result ≡ cards_left deal.now [] seat }
{
    deal.hand(seat)
}

/// The view before there is a contract.
fn view_of_auction<'a>(
    board: BoardNumber,
    auction: &'a Auction,
    id: PlayId,
    seat: Seat,
    deal: &Deal,
) -> View<'a>
    requires { auction.now.dealer ≡ dealer_of board }
    ensures { IsViewOf id.round id.table seat (shown_with id.index seat deal.now board auction.now.calls None) result }
{
    View {
        play: id,
        board,
        seat,
        dealer: dealer(board),
        vulnerability: vulnerability_of(board),
        in_play: false,
        turn: auction.turn(),
        calls_made: auction.calls().len() as u16,
        cards_made: 0,
        claims_made: 0,
        hand: dealt_to(deal, seat),
        dummy: None,
        calls: auction.calls(),
        trick: None,
        last: None,
        tricks_ns: 0,
        tricks_ew: 0,
        claim: None,
    }
}

/// The view once there is a contract.
fn view_of_play<'a>(
    board: BoardNumber,
    auction: &'a Auction,
    play: &Play,
    id: PlayId,
    seat: Seat,
) -> View<'a>
    ensures { IsViewOf id.round id.table seat (shown_with id.index seat play.now.hands board auction.now.calls (Some play.now)) result }
{
    let cards_made = play.cards().len();
    let trick = trick_at(play, cards_made / 4);
    let turn = trick.leader.clockwise(trick.cards.len());
    View {
        play: id,
        board,
        seat,
        dealer: dealer(board),
        vulnerability: vulnerability_of(board),
        in_play: true,
        turn,
        calls_made: auction.calls().len() as u16,
        cards_made: cards_made as u8,
        claims_made: play.claims(),
        hand: left_in(play, seat),
        dummy: dummy_in(play),
        calls: auction.calls(),
        trick: Some(trick),
        last: last_trick(play),
        tricks_ns: play.tricks_won(Side::NorthSouth),
        tricks_ew: play.tricks_won(Side::EastWest),
        claim: play.claim().map(|claim| (claim.claimer, claim.tricks)),
    }
}

/// The view of the play of a record, of those hands.
pub fn view_of<'a>(kept: &'a Record, id: PlayId, seat: Seat, deal: &Deal) -> View<'a>
    requires { IsTied deal.now kept.now }
    ensures { IsViewOf id.round id.table seat (shown_with id.index seat deal.now kept.now.board kept.now.auction.calls kept.now.play) result }
{
    match &kept.play {
        None => view_of_auction(kept.board, &kept.auction, id, seat, deal),
        Some(play) => view_of_play(kept.board, &kept.auction, play, id, seat),
    }
}

/// The view of the current play among the records of a table: `NotCurrent` where there is none, `NotDealt`.
pub fn view_among<'a>(
    table: &'a [Record],
    deals: &[Option<Deal>],
    round: RoundNumber,
    number: TableNumber,
    seat: Seat,
) -> Result<View<'a>, Refused>
    requires tied { All (IsTiedIn deals.now) table.now }
    requires few { length table.now ≤ 3 }
    ensures { MatchResult result (IsViewAmong deals.now (map plain_of table.now) round number seat) (λ refused. shown_among deals.now seat (map plain_of table.now) ≡ Err refused) }
{
    let index = current(table).ok_or(Refused::NotCurrent)?;
    let kept = &table[index];
    let deal = deal_on(deals, kept.board).ok_or(Refused::NotDealt)?;
    let id = PlayId {
        round,
        table: number,
        index: BoardIndex::new(index as u8 + 1).unwrap(),
    };
    Ok(view_of(kept, id, seat, deal))
}
