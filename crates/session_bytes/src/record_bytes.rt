//! The part of a play in the second format: its record, or eight zeros where nothing has happened.
ghost use Rattle.std.specs.Prelude.{◌≡◌, ◌+◌, ◌<◌, ◌≤◌, ◌++◌, [], length, map};
ghost use Rattle.bridge_cards.specs.Board.{dealer_of};
ghost use Rattle.bridge_auction.specs.Call.{call_number};
ghost use Rattle.session_rules.specs.Record.{empty_record};
ghost use Rattle.bridge_table.specs.Kept.{plain_of};
ghost use Rattle.session_bytes.specs.Parts.{two_bytes, text_bytes, agreed_byte, is_agreed_in, claim_bytes, ruling_bytes, record_part};
ghost use Rattle.session_store.specs.declared.disk_format.DiskFormat.TheVariants.{Two};

use crate::assigned_bytes::assigned_byte;
use crate::part_bytes::{put, value_if};
use arrayvec::ArrayVec;
use bridge_auction::Call;
use bridge_cards::{Card, Seat};
use bridge_play::Claim;
use bridge_table::Record;
use session_rules::Ruling;
use session_store::PAYLOAD_BYTES;

/// Adds the number of the calls in two bytes, and then a byte for each.
fn put_calls(part: &mut ArrayVec<u8, PAYLOAD_BYTES>, calls: &[Call])
    requires { length part.old.items + 2 + length calls.now ≤ 480 }
    ensures { part.new.items ≡ part.old.items ++ two_bytes (length calls.now) ++ map call_number calls.now }
{
    put(part, &(calls.len() as u16).to_be_bytes());
    for call in calls {
        part.push(call.number());
    }
}

/// Adds the number of the cards, and then a byte for each.
fn put_cards(part: &mut ArrayVec<u8, PAYLOAD_BYTES>, cards: &[Card])
    requires room { length part.old.items + 1 + length cards.now ≤ 480 }
    requires short { length cards.now < 256 }
    ensures { part.new.items ≡ part.old.items ++ text_bytes cards.now }
{
    part.push(cards.len() as u8);
    for card in cards {
        part.push(card.number());
    }
}

/// Who has agreed to the claim, in a bit for each seat.
fn agreed_byte(claim: &Claim) -> u8
    ensures { result ≡ agreed_byte claim.now }
{
    value_if(claim.has_agreed(Seat::North), 1)
        + value_if(claim.has_agreed(Seat::East), 2)
        + value_if(claim.has_agreed(Seat::South), 4)
        + value_if(claim.has_agreed(Seat::West), 8)
}

/// Adds a claim that is agreed or not, if there is one.
fn put_claim(part: &mut ArrayVec<u8, PAYLOAD_BYTES>, claim: &Option<Claim>, agreed: bool)
    requires { length part.old.items + 4 ≤ 480 }
    ensures { part.new.items ≡ part.old.items ++ claim_bytes agreed claim.now }
{
    match claim {
        None => put(part, &[0]),
        Some(claim) => {
            let mark = if agreed { 2 } else { 1 };
            let agreed = agreed_byte(claim);
            put(part, &[mark, claim.claimer.number(), claim.tricks, agreed]);
        }
    }
}

/// Adds the kind of a ruling, 0 where there is none, and its two numbers, which are 0 where it has no use for them.
fn put_ruling(part: &mut ArrayVec<u8, PAYLOAD_BYTES>, ruling: &Option<Ruling>)
    requires { length part.old.items + 3 ≤ 480 }
    ensures { part.new.items ≡ part.old.items ++ ruling_bytes Two ruling.now }
{
    match ruling {
        None => put(part, &[0, 0, 0]),
        Some(Ruling::Tricks(tricks)) => put(part, &[1, tricks.number(), 0]),
        Some(Ruling::Void) => put(part, &[2, 0, 0]),
        Some(Ruling::Adjusted { ns, ew }) => put(part, &[3, ns.percent(), ew.percent()]),
        Some(Ruling::Assigned { contract, tricks }) => {
            put(
                part,
                &[4, contract.bid.number(), assigned_byte(contract, *tricks)],
            )
        }
    }
}

/// The cards of a record.
fn cards_of(kept: &Record) -> &[Card]
    ensures cards { result.now ≡ (plain_of kept.now).cards }
    ensures few { length result.now ≤ 52 }
{
    match &kept.play {
        Some(play) => play.cards(),
        None => &[],
    }
}

/// How many claims were made.
fn claims_of(kept: &Record) -> u8
    ensures { result ≡ (plain_of kept.now).claims }
{
    match &kept.play {
        Some(play) => play.claims(),
        None => kept.claims.number(),
    }
}

/// The claim that stands or was agreed.
fn claim_of(kept: &Record) -> Option<Claim>
    ensures { result ≡ (plain_of kept.now).claim }
{
    kept.play.as_ref()?.claim()
}

/// Whether there is a claim, and all have agreed whom it asks.
pub fn is_agreed(kept: &Record) -> bool
    requires { kept.now.auction.dealer ≡ dealer_of kept.now.board }
    ensures { result ≡ is_agreed_in (plain_of kept.now) }
{
    let Some(contract) = kept.auction.contract() else {
        return false;
    };
    match claim_of(kept) {
        Some(claim) => claim.is_agreed(&contract),
        None => false,
    }
}

/// Writes the part of a play into an empty list.
pub fn write_record(kept: &Record, part: &mut ArrayVec<u8, PAYLOAD_BYTES>)
    requires dealer { kept.now.auction.dealer ≡ dealer_of kept.now.board }
    requires empty { part.old.items ≡ [] }
    ensures { part.new.items ≡ record_part Two (plain_of kept.now) }
{
    put_calls(part, kept.auction.calls());
    put_cards(part, cards_of(kept));
    put(part, &[claims_of(kept)]);
    put_claim(part, &claim_of(kept), is_agreed(kept));
    put_ruling(part, &kept.ruling);
}

/// Writes the part of a play in which nothing has happened into an empty list.
pub fn write_empty(part: &mut ArrayVec<u8, PAYLOAD_BYTES>)
    requires { part.old.items ≡ [] }
    ensures { part.new.items ≡ record_part Two (empty_record 0) }
{
    put(part, &[0; 8]);
}
