//! What an action names is within its ranges, by the types of its fields.
ghost use Rattle.std.specs.Prelude.{◌≡◌, length, All};
ghost use Rattle.bridge_auction.specs.Call.{IsCall};
ghost use Rattle.bridge_cards.specs.Board.{IsBoard};
ghost use Rattle.bridge_cards.specs.Card.{IsCard};
ghost use Rattle.bridge_cards.specs.CardSet.{IsCardSet};
ghost use Rattle.session_bytes.specs.ActionRange.{IsDeedInRange, IsActInRange, IsInRange, IsKey, IsTurn, IsPlayIdInRange};
ghost use Rattle.session_rules.specs.Numbers.{IsRoundNumber, IsTrickCount};
ghost use Rattle.session_rules.specs.StateRange.{IsCorrectionInRange};

use bridge_auction::Call;
use bridge_cards::{BoardNumber, Card, CardSet};
use bridge_config::Key;
use session_rules::{Act, Action, Correction, Deed, MadeCount, PlayId, RoundNumber, TrickCount};

/// Each number that an action names is within its range.
pub fn ranges_of_action(action: &Action)
    ensures { IsInRange action.now }
{
    ranges_of_act(action.act());
}

/// The same of who does what.
fn ranges_of_act(act: Act)
    ensures { IsActInRange act }
{
    match act {
        Act::Player {
            key,
            board,
            at,
            deed,
        } => {
            ranges_of_turn(key, board, at);
            range_of_deed(deed);
        }
        Act::Deal { key, board, hands } => ranges_of_deal(key, board, &hands),
        Act::Undeal { key, board } => ranges_of_board(key, board),
        Act::RoundEnd { key, round } => ranges_of_round(key, round),
        Act::Back { key, play } => ranges_of_play(key, play),
        Act::Ruling {
            key,
            play,
            correction,
        } => {
            ranges_of_play(key, play);
            range_of_correction(correction);
        }
    }
}

/// What a player names who acts.
fn ranges_of_turn(key: Key, board: BoardNumber, at: MadeCount)
    ensures { IsKey key × IsTurn board at }
{}

/// What a player does.
fn range_of_deed(deed: Deed)
    ensures { IsDeedInRange deed }
{
    match deed {
        Deed::Call(call) => range_of_call(call),
        Deed::Card(card) => range_of_card(card),
        Deed::Claim(tricks) => range_of_tricks(tricks),
        Deed::Agree | Deed::Refuse => {}
    }
}

/// A call is one of the 38.
fn range_of_call(call: Call)
    ensures { IsCall call }
{}

/// A card is one of the 52.
fn range_of_card(card: Card)
    ensures { IsCard card }
{}

/// Tricks are at most 13.
fn range_of_tricks(tricks: TrickCount)
    ensures { IsTrickCount tricks }
{}

/// What a deal names.
fn ranges_of_deal(key: Key, board: BoardNumber, hands: &[CardSet; 4])
    ensures named { IsKey key × IsBoard board }
    ensures hands { (length hands.now ≡ 4) × All IsCardSet hands.now }
{
    let [north, east, south, west] = *hands;
    range_of_hand(north);
    range_of_hand(east);
    range_of_hand(south);
    range_of_hand(west);
}

/// The board whose deal is taken back.
fn ranges_of_board(key: Key, board: BoardNumber)
    ensures { IsKey key × IsBoard board }
{}

/// A hand is a set of cards.
fn range_of_hand(hand: CardSet)
    ensures { IsCardSet hand }
{}

/// What the end of a round names.
fn ranges_of_round(key: Key, round: RoundNumber)
    ensures { IsKey key × IsRoundNumber round }
{}

/// The play that a ruling names.
fn ranges_of_play(key: Key, play: PlayId)
    ensures { IsKey key × IsPlayIdInRange play }
{}

/// What a ruling says.
fn range_of_correction(correction: Correction)
    ensures { IsCorrectionInRange correction }
{
    let _ruling = correction.ruling();
}
