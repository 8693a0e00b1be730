//! The record of a play, read from its part.
ghost use Rattle.std.specs.Prelude.{◌≡◌, ◌≢◌, ◌≤◌, List, [], length, map, unwrap_or, IfSome, IfNone, All, Any, None, false};
ghost use Rattle.bridge_cards.specs.Board.{dealer_of};
ghost use Rattle.bridge_auction.specs.declared.call.Call.{Call as CallType};
ghost use Rattle.bridge_auction.specs.Call.{call_number, call_at};
ghost use Rattle.bridge_auction.specs.Legal.{IsLegal};
ghost use Rattle.bridge_play.specs.Play.{IsClaimCount};
ghost use Rattle.session_rules.specs.Record.{PlainRecord, play_of};
ghost use Rattle.bridge_table.specs.Kept.{plain_of, IsTiedIn};
ghost use Rattle.session_rules.specs.StateRange.{IsOfFourSeats, IsRulingInRange, IsRecordInRange, AreHandsOrNone};
ghost use Rattle.session_rules.specs.Valid.{IsValidRecord};
ghost use Rattle.session_bytes.specs.Reading.{some_call, fields_in, fields_of, plain_from, IsPlayed, may_stand, is_untouched, is_in_place, IsReadFrom, IsOfNoRecord};

use crate::record_bytes::is_agreed;
use crate::record_fields::{RecordFields, read_fields};
use arrayvec::ArrayVec;
use bridge_auction::{Auction, Call};
use bridge_cards::{BoardNumber, Card, Deal, Scoring, dealer};
use bridge_play::{ClaimCount, Play};
use bridge_table::{Record, deal_on};
use session_rules::Ruling;
use session_store::{DiskFormat, PAYLOAD_BYTES};

/// The record of a play of that board and round that the part was written of in that format; `None` where it is the part of no record that
/// is valid by the deals in the current round.
pub fn read_record(
    format: DiskFormat,
    scoring: Scoring,
    part: &[u8],
    board: BoardNumber,
    deals: &[Option<Deal>],
    now: u8,
    round: u8,
) -> Option<Record>
    requires few { length part.now ≤ 480 }
    requires deals { All AreHandsOrNone deals.now }
    ensures read { IfSome result (IsReadFrom format scoring deals.now now round board part.now) }
    ensures none { IfNone result (IsOfNoRecord format scoring deals.now now round board part.now) }
{
    let Some(fields) = read_fields(format, part) else {
        return None;
    };
    record_of(scoring, &fields, board, deals, now, round)
}

/// The calls of those numbers.
fn calls_of(numbers: &[u8]) -> Option<ArrayVec<Call, PAYLOAD_BYTES>>
    requires { length numbers.now ≤ 480 }
    ensures calls { IfSome result (λ calls. map some_call calls.items ≡ map call_at numbers.now) }
    ensures none { IfNone result (Any (λ number. call_at number ≡ None) numbers.now) }
{
    let mut calls = ArrayVec::new();
    for number in numbers {
        calls.push(Call::from_number(*number)?);
    }
    Some(calls)
}

/// The cards of those numbers.
fn cards_of(numbers: &[u8]) -> Option<ArrayVec<Card, PAYLOAD_BYTES>>
    requires { length numbers.now ≤ 480 }
    ensures cards { IfSome result (λ cards. cards.items ≡ numbers.now) }
    ensures none { IfNone result (Any (λ number. 52 ≤ number) numbers.now) }
{
    let mut cards = ArrayVec::new();
    for number in numbers {
        cards.push(Card::new(*number)?);
    }
    Some(cards)
}

/// The auction of the calls of those numbers, which has some only where the board is dealt.
fn auction_of(numbers: &[u8], board: BoardNumber, is_dealt: bool) -> Option<Auction>
    requires { length numbers.now ≤ 480 }
    ensures dealer { IfSome result (λ auction. auction.dealer ≡ dealer_of board) }
    ensures calls { IfSome result (λ auction. map call_number auction.calls ≡ numbers.now) }
    ensures legal { IfSome result (λ auction. IsLegal auction.calls) }
    ensures dealt { IfSome result (λ auction. is_dealt ≡ false → auction.calls ≡ []) }
    ensures none { IfNone result ((calls : List CallType) → IsLegal calls → (is_dealt ≡ false → calls ≡ []) → map call_number calls ≢ numbers.now) }
{
    if !is_dealt && !numbers.is_empty() {
        return None;
    }
    let calls = calls_of(numbers)?;
    Auction::from_calls(dealer(board), calls.as_slice())
}

/// The play of the deal after the auction with the cards and the claims of the fields; none where there is no contract. The
/// board is what the clauses name the auction's dealer by.
fn play_of(
    auction: &Auction,
    board: BoardNumber,
    deal: Option<Deal>,
    fields: &RecordFields<'_>,
) -> Option<Option<Play>>
    requires few { length fields.now.cards.now ≤ 480 }
    requires claims { IsClaimCount fields.now.claims }
    requires dealer { auction.now.dealer ≡ dealer_of board }
    requires dealt { deal ≡ None → auction.now.calls ≡ [] }
    requires deal { AreHandsOrNone deal }
    ensures play { IfSome result (λ play. play ≡ play_of (unwrap_or deal []) (plain_from board auction.now.calls (fields_in fields.now))) }
    ensures played { IfSome result (λ play. IsPlayed (unwrap_or deal []) (plain_from board auction.now.calls (fields_in fields.now))) }
    ensures none { IfNone result (IsPlayed (unwrap_or deal []) (plain_from board auction.now.calls (fields_in fields.now)) → ⊥) }
{
    let Some(contract) = auction.contract() else {
        let is_unplayed = fields.cards.is_empty() && fields.claim.is_none();
        return if is_unplayed { Some(None) } else { None };
    };
    let deal = deal?;
    let cards = cards_of(fields.cards)?;
    let play = Play::from_parts(
        &deal,
        contract,
        cards.as_slice(),
        fields.claims,
        fields.claim,
    )?;
    Some(Some(play))
}

/// Whether a ruling of tricks stands only where the play is over, and one of averages where the scoring is by matchpoints.
fn may_stand(scoring: Scoring, kept: &Record) -> bool
    ensures { result ≡ may_stand scoring kept.now.play kept.now.ruling }
{
    match kept.ruling {
        Some(Ruling::Tricks(_)) => match &kept.play {
            Some(play) => play.is_over(),
            None => false,
        },
        Some(Ruling::Adjusted { .. }) => match scoring {
            Scoring::MatchPoints => true,
            Scoring::Imps => false,
        },
        Some(Ruling::Void | Ruling::Assigned { .. }) | None => true,
    }
}

/// Whether no call was made in a play, no claim was, and no ruling stands.
fn is_untouched(kept: &Record) -> bool
    ensures { result ≡ is_untouched kept.now }
{
    kept.auction.calls().is_empty() && kept.claims.number() == 0 && kept.ruling.is_none()
}

/// Whether the record may be one of that round in the current one.
fn is_in_place(scoring: Scoring, kept: &Record, now: u8, round: u8) -> bool
    ensures { result ≡ is_in_place scoring now round kept.now }
{
    may_stand(scoring, kept)
        && (round <= now || is_untouched(kept))
        && (now <= round || !kept.is_open())
}

/// The record of the fields.
fn record_of(
    scoring: Scoring,
    fields: &RecordFields<'_>,
    board: BoardNumber,
    deals: &[Option<Deal>],
    now: u8,
    round: u8,
) -> Option<Record>
    requires calls { length fields.now.calls.now ≤ 480 }
    requires cards { length fields.now.cards.now ≤ 480 }
    requires answers { IfSome fields.now.claim IsOfFourSeats }
    requires ruled { IfSome fields.now.ruling IsRulingInRange }
    requires deals { All AreHandsOrNone deals.now }
    ensures board { IfSome result (λ kept. kept.board ≡ board) }
    ensures fields { IfSome result (λ kept. fields_of (plain_of kept) ≡ fields_in fields.now) }
    ensures valid { IfSome result (λ kept. IsValidRecord scoring deals.now now round (plain_of kept)) }
    ensures in_range { IfSome result (λ kept. IsRecordInRange (plain_of kept)) }
    ensures ruling { IfSome result (λ kept. kept.ruling ≡ fields.now.ruling) }
    ensures tied { IfSome result (IsTiedIn deals.now) }
    ensures none { IfNone result ((plain : PlainRecord) → plain.board ≡ board → IsValidRecord scoring deals.now now round plain → IsRecordInRange plain → fields_of plain ≢ fields_in fields.now) }
{
    let deal = deal_on(deals, board).copied();
    let auction = auction_of(fields.calls, board, deal.is_some())?;
    let claims = ClaimCount::new(fields.claims)?;
    let play = play_of(&auction, board, deal, fields)?;
    let kept = Record {
        board,
        auction,
        claims,
        play,
        ruling: fields.ruling,
    };
    if is_agreed(&kept) == fields.agreed && is_in_place(scoring, &kept, now, round) {
        Some(kept)
    } else {
        None
    }
}
