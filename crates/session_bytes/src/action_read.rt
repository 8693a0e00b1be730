//! The action that bytes of the disk are those of.
ghost use Rattle.std.specs.Prelude.{◌≡◌, ◌≢◌, ◌<◌, IfSome, IfNone, length};
ghost use Rattle.session_rules.specs.declared.action.Action.{Action as ActionType};
ghost use Rattle.session_bytes.specs.ActionRange.{IsInRange};
ghost use Rattle.session_bytes.specs.ActionBytes.{HasAction, action_bytes, action_of, action_in, turn_in, deed_in, ruling_in, correction_in, averages_in, assigned_in, play_in, deal_in, undeal_in, back_in, hands_in, hand_in, only_byte, at_end};

use crate::assigned_bytes::{assigned_contract, assigned_tricks};
use bridge_auction::Call;
use bridge_cards::{BoardNumber, Card, CardSet};
use bridge_config::Key;
use session_rules::{
    Action, Average, BoardIndex, Correction, Deed, MadeCount, PlayId, RoundNumber, TableNumber,
    TrickCount,
};
use session_store::DiskFormat;

/// The action that these bytes were written of on a disk of that format; `None` for bytes of none.
pub fn read_action(format: DiskFormat, bytes: &[u8]) -> Option<Action>
    ensures value { result ≡ action_of format bytes.now }
    ensures written { IfSome result (λ action. action_bytes action ≡ bytes.now) }
    ensures other { IfNone result ((action : ActionType) → IsInRange action → HasAction format action → action_bytes action ≢ bytes.now) }
{
    let [kind, a, b, c, d, rest @ ..] = bytes else {
        return None;
    };
    let key = Key(u32::from_be_bytes([*a, *b, *c, *d]));
    read_behind_key(format, *kind, key, rest)
}

/// The action of that kind, by the bytes behind the key.
fn read_behind_key(format: DiskFormat, kind: u8, key: Key, bytes: &[u8]) -> Option<Action>
    ensures { result ≡ action_in format kind key bytes.now }
{
    match kind {
        1 => read_deal_action(key, bytes),
        7 => {
            let round = RoundNumber::new(only_byte(bytes)?)?;
            Some(Action::NextRound { key, round })
        }
        0..=6 => read_turn(kind, key, bytes),
        12 => read_back(format, key, bytes),
        13 => read_undeal(format, key, bytes),
        _ => read_ruling(format, kind, key, bytes),
    }
}

/// The deal of a board, by the bytes behind the key.
fn read_deal_action(key: Key, bytes: &[u8]) -> Option<Action>
    ensures { result ≡ deal_in key bytes.now }
{
    let (board, rest) = bytes.split_first()?;
    let board = BoardNumber::new(*board)?;
    let hands = read_hands(rest)?;
    Some(Action::Deal { key, board, hands })
}

/// The board whose deal is taken back, by the bytes behind the key. The first format has no such action.
fn read_undeal(format: DiskFormat, key: Key, bytes: &[u8]) -> Option<Action>
    ensures { result ≡ undeal_in format key bytes.now }
{
    match format {
        DiskFormat::One => None,
        DiskFormat::Two => {
            let board = BoardNumber::new(only_byte(bytes)?)?;
            Some(Action::Undeal { key, board })
        }
    }
}

/// The play in which the latest thing is taken back, by the bytes behind the key. The first format has no such action.
fn read_back(format: DiskFormat, key: Key, bytes: &[u8]) -> Option<Action>
    ensures { result ≡ back_in format key bytes.now }
{
    match format {
        DiskFormat::One => None,
        DiskFormat::Two => match bytes {
            [round, table, index] => {
                let play = play_of(*round, *table, *index)?;
                Some(Action::Back { key, play })
            }
            _ => None,
        },
    }
}

/// Four hands.
pub fn read_hands(bytes: &[u8]) -> Option<[CardSet; 4]>
    ensures { result ≡ hands_in bytes.now }
{
    if bytes.len() != 32 {
        return None;
    }
    Some([
        read_hand(&bytes[..8])?,
        read_hand(&bytes[8..16])?,
        read_hand(&bytes[16..24])?,
        read_hand(&bytes[24..])?,
    ])
}

/// A hand.
fn read_hand(bytes: &[u8]) -> Option<CardSet>
    requires { length bytes.now ≡ 8 }
    ensures { result ≡ hand_in bytes.now }
{
    CardSet::from_bits(u64::from_be_bytes([
        bytes[0], bytes[1], bytes[2], bytes[3], bytes[4], bytes[5], bytes[6], bytes[7],
    ]))
}

/// A player's action of that kind, by the bytes behind the key.
fn read_turn(kind: u8, key: Key, bytes: &[u8]) -> Option<Action>
    ensures { result ≡ turn_in kind key bytes.now }
{
    let [board, high, low, rest @ ..] = bytes else {
        return None;
    };
    let board = BoardNumber::new(*board)?;
    let at = MadeCount::new(u16::from_be_bytes([*high, *low]))?;
    let deed = read_deed(kind, rest)?;
    Some(Action::of_player(key, board, at, deed))
}

/// What a player does by an action of that kind, by the bytes behind the count.
fn read_deed(kind: u8, bytes: &[u8]) -> Option<Deed>
    ensures { result ≡ deed_in kind bytes.now }
{
    match kind {
        2 => Some(Deed::Call(Call::from_number(only_byte(bytes)?)?)),
        3 => Some(Deed::Card(Card::new(only_byte(bytes)?)?)),
        4 => Some(Deed::Claim(TrickCount::new(only_byte(bytes)?)?)),
        5 => at_end(bytes, Deed::Agree),
        6 => at_end(bytes, Deed::Refuse),
        _ => None,
    }
}

/// A ruling of that kind, by the bytes behind the key.
fn read_ruling(format: DiskFormat, kind: u8, key: Key, bytes: &[u8]) -> Option<Action>
    ensures { result ≡ ruling_in format kind key bytes.now }
{
    let [round, table, index, rest @ ..] = bytes else {
        return None;
    };
    let play = play_of(*round, *table, *index)?;
    let correction = read_correction(format, kind, rest)?;
    Some(Action::of_ruling(key, play, correction))
}

/// What is ruled by an action of that kind, by the bytes behind the play.
fn read_correction(format: DiskFormat, kind: u8, bytes: &[u8]) -> Option<Correction>
    ensures { result ≡ correction_in format kind bytes.now }
{
    match kind {
        8 => Some(Correction::Tricks(TrickCount::new(only_byte(bytes)?)?)),
        9 => at_end(bytes, Correction::Void),
        10 => at_end(bytes, Correction::Restore),
        11 => read_averages(format, bytes),
        14 => read_assigned(format, bytes),
        _ => None,
    }
}

/// The averages of both sides in per cent, which the first format does not have.
fn read_averages(format: DiskFormat, bytes: &[u8]) -> Option<Correction>
    ensures { result ≡ averages_in format bytes.now }
{
    match format {
        DiskFormat::One => None,
        DiskFormat::Two => match bytes {
            [ns, ew] => {
                let ns = Average::of_percent(*ns)?;
                let ew = Average::of_percent(*ew)?;
                Some(Correction::Adjust { ns, ew })
            }
            _ => None,
        },
    }
}

/// The contract and the tricks of an assigned score, which the first format does not have.
fn read_assigned(format: DiskFormat, bytes: &[u8]) -> Option<Correction>
    ensures { result ≡ assigned_in format bytes.now }
{
    match format {
        DiskFormat::One => None,
        DiskFormat::Two => match bytes {
            [first, second] => {
                let contract = assigned_contract(*first, *second)?;
                let tricks = assigned_tricks(*second);
                Some(Correction::Assign { contract, tricks })
            }
            _ => None,
        },
    }
}

/// The play of these numbers, if each is within its range.
fn play_of(round: u8, table: u8, index: u8) -> Option<PlayId>
    ensures { result ≡ play_in round table index }
{
    let round = RoundNumber::new(round)?;
    let table = TableNumber::new(table)?;
    let index = BoardIndex::new(index)?;
    Some(PlayId {
        round,
        table,
        index,
    })
}

/// The byte, if it is the only one.
fn only_byte(bytes: &[u8]) -> Option<u8>
    ensures { result ≡ only_byte bytes.now }
{
    match bytes {
        [byte] => Some(*byte),
        _ => None,
    }
}

/// The value, if no byte is left.
fn at_end<T: Copy>(bytes: &[u8], value: T) -> Option<T>
    ensures { result ≡ at_end bytes.now value }
{
    if bytes.is_empty() { Some(value) } else { None }
}
