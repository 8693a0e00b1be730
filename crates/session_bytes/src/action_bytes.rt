//! The bytes of an action on the disk.
ghost use Rattle.std.specs.Prelude.{◌≡◌, ◌<◌, ◌≤◌, ◌+◌, ◌++◌, ◌∷◌, [], length, flat_map, All};
ghost use Rattle.bridge_cards.specs.Board.{IsBoard};
ghost use Rattle.bridge_cards.specs.CardSet.{IsCardSet};
ghost use Rattle.session_rules.specs.StateRange.{IsCorrectionInRange};
ghost use Rattle.session_bytes.specs.ActionRange.{IsDeedInRange, IsActInRange, IsInRange, IsKey, IsTurn, IsPlayIdInRange};
ghost use Rattle.session_bytes.specs.ActionBytes.{headed, turn_bytes, play_bytes, hand_bytes, deed_kind, deed_bytes, correction_kind, correction_bytes, act_bytes, action_bytes};

use crate::assigned_bytes::assigned_byte;
use arrayvec::ArrayVec;
use bridge_cards::{BoardNumber, CardSet};
use bridge_config::Key;
use session_rules::{Act, Action, Correction, Deed, MadeCount, PlayId};
use session_store::PAYLOAD_BYTES;

/// Clears `bytes`, and writes the action's into it: at most 38.
pub fn write_action(action: &Action, bytes: &mut ArrayVec<u8, PAYLOAD_BYTES>)
    ensures bytes { bytes.new.items ≡ action_bytes action.now }
    ensures range { IsInRange action.now }
{
    bytes.clear();
    push_act(&action.act(), bytes);
}

/// Adds who does what.
fn push_act(act: &Act, bytes: &mut ArrayVec<u8, PAYLOAD_BYTES>)
    requires { bytes.old.items ≡ [] }
    ensures bytes { bytes.new.items ≡ act_bytes act.now }
    ensures range { IsActInRange act.now }
{
    match *act {
        Act::Player {
            key,
            board,
            at,
            deed,
        } => {
            push_turn(deed_kind(&deed), key, board, at, bytes);
            push_deed(&deed, bytes);
        }
        Act::Deal { key, board, hands } => {
            push_board(1, key, board, bytes);
            push_hands(&hands, bytes);
        }
        Act::Undeal { key, board } => push_board(13, key, board, bytes),
        Act::RoundEnd { key, round } => {
            push_head(7, key, bytes);
            bytes.push(round.number());
        }
        Act::Back { key, play } => push_play(12, key, play, bytes),
        Act::Ruling {
            key,
            play,
            correction,
        } => {
            push_play(correction_kind(&correction), key, play, bytes);
            push_correction(&correction, bytes);
        }
    }
}

/// The kind of a player's action.
fn deed_kind(deed: &Deed) -> u8
    ensures { result ≡ deed_kind deed.now }
{
    match *deed {
        Deed::Call(_) => 2,
        Deed::Card(_) => 3,
        Deed::Claim(_) => 4,
        Deed::Agree => 5,
        Deed::Refuse => 6,
    }
}

/// Adds the call, the card or the tricks.
fn push_deed(deed: &Deed, bytes: &mut ArrayVec<u8, PAYLOAD_BYTES>)
    requires { length bytes.old.items < 480 }
    ensures bytes { bytes.new.items ≡ bytes.old.items ++ deed_bytes deed.now }
    ensures range { IsDeedInRange deed.now }
{
    match *deed {
        Deed::Call(call) => bytes.push(call.number()),
        Deed::Card(card) => bytes.push(card.number()),
        Deed::Claim(tricks) => bytes.push(tricks.number()),
        Deed::Agree | Deed::Refuse => {}
    }
}

/// The kind of a ruling.
fn correction_kind(correction: &Correction) -> u8
    ensures { result ≡ correction_kind correction.now }
{
    match *correction {
        Correction::Tricks(_) => 8,
        Correction::Void => 9,
        Correction::Restore => 10,
        Correction::Adjust { .. } => 11,
        Correction::Assign { .. } => 14,
    }
}

/// Adds the tricks of a ruling, the averages of both sides in per cent, or the two bytes of an assigned score.
fn push_correction(correction: &Correction, bytes: &mut ArrayVec<u8, PAYLOAD_BYTES>)
    requires { length bytes.old.items + 2 ≤ 480 }
    ensures bytes { bytes.new.items ≡ bytes.old.items ++ correction_bytes correction.now }
    ensures range { IsCorrectionInRange correction.now }
{
    match *correction {
        Correction::Tricks(tricks) => bytes.push(tricks.number()),
        Correction::Adjust { ns, ew } => {
            bytes.push(ns.percent());
            bytes.push(ew.percent());
        }
        Correction::Assign { contract, tricks } => {
            bytes.push(contract.bid.number());
            bytes.push(assigned_byte(&contract, tricks));
        }
        Correction::Void | Correction::Restore => {}
    }
}

/// Adds the kind and the key.
fn push_head(kind: u8, key: Key, bytes: &mut ArrayVec<u8, PAYLOAD_BYTES>)
    requires { bytes.old.items ≡ [] }
    ensures bytes { bytes.new.items ≡ headed kind key.0 [] }
    ensures few { length bytes.new.items ≡ 5 }
    ensures range { IsKey key }
{
    bytes.push(kind);
    bytes.try_extend_from_slice(&key.0.to_be_bytes()).unwrap();
}

/// Adds the kind, the key and the board.
fn push_board(kind: u8, key: Key, board: BoardNumber, bytes: &mut ArrayVec<u8, PAYLOAD_BYTES>)
    requires { bytes.old.items ≡ [] }
    ensures bytes { bytes.new.items ≡ headed kind key.0 (board ∷ []) }
    ensures few { length bytes.new.items ≡ 6 }
    ensures range { IsKey key × IsBoard board }
{
    push_head(kind, key, bytes);
    bytes.push(board.number());
}

/// Adds the kind, the key, the board and the number of calls, cards or claims made before.
fn push_turn(
    kind: u8,
    key: Key,
    board: BoardNumber,
    at: MadeCount,
    bytes: &mut ArrayVec<u8, PAYLOAD_BYTES>,
)
    requires { bytes.old.items ≡ [] }
    ensures bytes { bytes.new.items ≡ headed kind key.0 (turn_bytes board at []) }
    ensures few { length bytes.new.items ≡ 8 }
    ensures range { IsKey key × IsTurn board at }
{
    push_head(kind, key, bytes);
    bytes.push(board.number());
    bytes
        .try_extend_from_slice(&at.number().to_be_bytes())
        .unwrap();
}

/// Adds the kind, the key and the play.
fn push_play(kind: u8, key: Key, play: PlayId, bytes: &mut ArrayVec<u8, PAYLOAD_BYTES>)
    requires { bytes.old.items ≡ [] }
    ensures bytes { bytes.new.items ≡ headed kind key.0 (play_bytes play []) }
    ensures few { length bytes.new.items ≡ 8 }
    ensures range { IsKey key × IsPlayIdInRange play }
{
    push_head(kind, key, bytes);
    bytes.push(play.round.number());
    bytes.push(play.table.number());
    bytes.push(play.index.number());
}

/// Adds the four hands.
fn push_hands(hands: &[CardSet; 4], bytes: &mut ArrayVec<u8, PAYLOAD_BYTES>)
    requires { length bytes.old.items + 32 ≤ 480 }
    ensures bytes { bytes.new.items ≡ bytes.old.items ++ flat_map hand_bytes hands.now }
    ensures range { (length hands.now ≡ 4) × All IsCardSet hands.now }
{
    let [north, east, south, west] = *hands;
    push_hand(north, bytes);
    push_hand(east, bytes);
    push_hand(south, bytes);
    push_hand(west, bytes);
}

/// Adds a hand.
fn push_hand(hand: CardSet, bytes: &mut ArrayVec<u8, PAYLOAD_BYTES>)
    requires { length bytes.old.items + 8 ≤ 480 }
    ensures bytes { bytes.new.items ≡ bytes.old.items ++ hand_bytes hand }
    ensures few { length bytes.new.items ≡ length bytes.old.items + 8 }
    ensures range { IsCardSet hand }
{
    bytes
        .try_extend_from_slice(&hand.bits().to_be_bytes())
        .unwrap();
}
