//! What the part of a play says, read from left to right.
ghost use Rattle.std.specs.Prelude.{◌≡◌, ◌≢◌, ◌≤◌, length, IfSome, IfNone};
ghost use Rattle.std.specs.Option.{option_map};
ghost use Rattle.session_rules.specs.Record.{PlainRecord};
ghost use Rattle.session_bytes.specs.Parts.{HasRecord, record_part};
ghost use Rattle.session_rules.specs.StateRange.{IsRecordInRange};
ghost use Rattle.session_bytes.specs.ClaimRead.{seat_numbered, claimed_by, marked_at, claim_at};
ghost use Rattle.session_bytes.specs.Reading.{AreFieldsOf, fields_in, bytes_at, calls_at, cards_at, tricks_ruling, adjusted_by, assigned_by, short_ruling_at, long_ruling_at, ruling_at, claims_at, fields_at};

use crate::assigned_bytes::{assigned_contract, assigned_tricks};
use bridge_cards::Seat;
use bridge_play::Claim;
use session_rules::{Average, Ruling, TrickCount};
use session_store::DiskFormat;

/// What the part of a play says.
#[derive(Clone, Copy)]
pub struct RecordFields<'a> {
    /// The numbers of the calls.
    pub calls: &'a [u8],
    /// The numbers of the cards.
    pub cards: &'a [u8],
    /// How many claims were made.
    pub claims: u8,
    /// The claim that stands or was agreed.
    pub claim: Option<Claim>,
    /// Whether the claim is marked as agreed.
    pub agreed: bool,
    /// The latest ruling, unless it was taken back.
    pub ruling: Option<Ruling>,
}

/// The fields of a part of that format, if it has them and no byte is left.
pub fn read_fields(format: DiskFormat, part: &[u8]) -> Option<RecordFields<'_>>
    ensures value { option_map fields_in result ≡ fields_at format part.now }
    ensures written { IfSome result (λ fields. AreFieldsOf format part.now (fields_in fields)) }
    ensures other { IfNone result ((plain : PlainRecord) → length plain.calls ≤ 319 → IsRecordInRange plain → HasRecord format plain → record_part format plain ≢ part.now) }
{
    fields_at(format, part)
}

/// The same, from left to right.
fn fields_at(format: DiskFormat, part: &[u8]) -> Option<RecordFields<'_>>
    ensures { option_map fields_in result ≡ fields_at format part.now }
{
    let (calls, rest) = read_calls(part)?;
    let (cards, rest) = read_cards(rest)?;
    read_claims(format, calls, cards, rest)
}

/// So many bytes, and those behind them.
fn take_bytes(count: usize, bytes: &[u8]) -> Option<(&[u8], &[u8])>
    ensures { option_map (λ both. (both.0.now, both.1.now)) result ≡ bytes_at count bytes.now }
{
    if bytes.len() < count {
        return None;
    }
    Some(bytes.split_at(count))
}

/// The calls, of which the number stands in two bytes.
fn read_calls(bytes: &[u8]) -> Option<(&[u8], &[u8])>
    ensures { option_map (λ both. (both.0.now, both.1.now)) result ≡ calls_at bytes.now }
{
    let [high, low, rest @ ..] = bytes else {
        return None;
    };
    take_bytes(usize::from(u16::from_be_bytes([*high, *low])), rest)
}

/// The cards, of which the number stands in one byte.
fn read_cards(bytes: &[u8]) -> Option<(&[u8], &[u8])>
    ensures { option_map (λ both. (both.0.now, both.1.now)) result ≡ cards_at bytes.now }
{
    let [count, rest @ ..] = bytes else {
        return None;
    };
    take_bytes(usize::from(*count), rest)
}

/// The fields behind the calls and the cards.
fn read_claims<'a>(
    format: DiskFormat,
    calls: &'a [u8],
    cards: &'a [u8],
    bytes: &[u8],
) -> Option<RecordFields<'a>>
    ensures { option_map fields_in result ≡ claims_at format calls.now cards.now bytes.now }
{
    let [claims, rest @ ..] = bytes else {
        return None;
    };
    let (claim, agreed, rest) = read_claim(rest)?;
    let ruling = read_ruling(format, rest)?;
    Some(RecordFields {
        calls,
        cards,
        claims: *claims,
        claim,
        agreed,
        ruling,
    })
}

/// The claim, if there is one, and whether it is marked as agreed.
fn read_claim(bytes: &[u8]) -> Option<(Option<Claim>, bool, &[u8])>
    ensures { option_map (λ all. (all.0, all.1, all.2.now)) result ≡ claim_at bytes.now }
{
    let [mark, rest @ ..] = bytes else {
        return None;
    };
    match mark {
        0 => Some((None, false, rest)),
        1 => read_marked(false, rest),
        2 => read_marked(true, rest),
        _ => None,
    }
}

/// The claim behind its mark.
fn read_marked(agreed: bool, bytes: &[u8]) -> Option<(Option<Claim>, bool, &[u8])>
    ensures { option_map (λ all. (all.0, all.1, all.2.now)) result ≡ marked_at agreed bytes.now }
{
    let [seat, tricks, bits, rest @ ..] = bytes else {
        return None;
    };
    let claim = claimed_by(*seat, *tricks, *bits)?;
    Some((Some(claim), agreed, rest))
}

/// The claim of these numbers: who claims, how many tricks, and who has agreed by a bit for each seat.
fn claimed_by(seat: u8, tricks: u8, bits: u8) -> Option<Claim>
    ensures { result ≡ claimed_by seat tricks bits }
{
    if bits > 15 {
        return None;
    }
    let claimer = seat_numbered(seat)?;
    Some(Claim {
        claimer,
        tricks,
        agreed: [
            bits % 2 == 1,
            bits / 2 % 2 == 1,
            bits / 4 % 2 == 1,
            bits / 8 % 2 == 1,
        ],
    })
}

/// The seat of that number.
fn seat_numbered(number: u8) -> Option<Seat>
    ensures { result ≡ seat_numbered number }
{
    match number {
        0 => Some(Seat::North),
        1 => Some(Seat::East),
        2 => Some(Seat::South),
        3 => Some(Seat::West),
        _ => None,
    }
}

/// The ruling, if there is one, behind which no byte is left.
fn read_ruling(format: DiskFormat, bytes: &[u8]) -> Option<Option<Ruling>>
    ensures { result ≡ ruling_at format bytes.now }
{
    match format {
        DiskFormat::One => read_short_ruling(bytes),
        DiskFormat::Two => read_long_ruling(bytes),
    }
}

/// The ruling of a kind, and of tricks where it is one of these.
fn read_short_ruling(bytes: &[u8]) -> Option<Option<Ruling>>
    ensures { result ≡ short_ruling_at bytes.now }
{
    match bytes {
        [0] => Some(None),
        [2] => Some(Some(Ruling::Void)),
        [1, tricks] => tricks_ruling(*tricks),
        _ => None,
    }
}

/// The ruling of a kind and two numbers, which are 0 where it has no use for them.
fn read_long_ruling(bytes: &[u8]) -> Option<Option<Ruling>>
    ensures { result ≡ long_ruling_at bytes.now }
{
    match bytes {
        [0, 0, 0] => Some(None),
        [1, tricks, 0] => tricks_ruling(*tricks),
        [2, 0, 0] => Some(Some(Ruling::Void)),
        [3, ns, ew] => adjusted_by(*ns, *ew),
        [4, first, second] => assigned_by(*first, *second),
        _ => None,
    }
}

/// The ruling of so many tricks, or none where these are too many.
fn tricks_ruling(tricks: u8) -> Option<Option<Ruling>>
    ensures { result ≡ tricks_ruling tricks }
{
    let tricks = TrickCount::new(tricks)?;
    Some(Some(Ruling::Tricks(tricks)))
}

/// The averages of so many per cent, or none where one is not 40, 50 or 60.
fn adjusted_by(ns: u8, ew: u8) -> Option<Option<Ruling>>
    ensures { result ≡ adjusted_by ns ew }
{
    let ns = Average::of_percent(ns)?;
    let ew = Average::of_percent(ew)?;
    Some(Some(Ruling::Adjusted { ns, ew }))
}

/// The assigned score of these two bytes, or none where they are of no contract.
fn assigned_by(first: u8, second: u8) -> Option<Option<Ruling>>
    ensures { result ≡ assigned_by first second }
{
    let contract = assigned_contract(first, second)?;
    let tricks = assigned_tricks(second);
    Some(Some(Ruling::Assigned { contract, tricks }))
}
