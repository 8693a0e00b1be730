//! The plays of a pair that are over.
ghost use Rattle.std.specs.Prelude.{◌≡◌, ◌++◌, OnOk, Contains};
ghost use Rattle.std.specs.Option.{option_to_list};
ghost use Rattle.bridge_results.specs.Plays.{has_outcome};
ghost use Rattle.bridge_results.specs.ScoreCard.{side_at};
ghost use Rattle.session_rules.specs.Numbers.{IsBoardIndex};
ghost use Rattle.session_rules.specs.Outcome.{HasFewTricks};
ghost use Rattle.session_rules.specs.StateRange.{IsSession};
ghost use Rattle.board_replies.specs.KnownPlay.{seen_play};
ghost use Rattle.board_replies.specs.OwnPlays.{is_over_in, own_play_at, own_plays_at, own_plays_in, own_plays};
ghost use Rattle.board_replies.specs.Told.{known_text, own_text};

use crate::beside::push_beside;
use crate::known_play::{KnownPlay, is_finished, known_at};
use crate::play_lines::push_play;
use bridge_cards::Side;
use bridge_movement::Row;
use bridge_results::Results;
use bridge_session::Session;
use session_rules::Outcome;
use std::alloc::AllocError;

/// Whether something came of a play.
fn has_outcome(outcome: Outcome) -> bool
    ensures { result ≡ has_outcome outcome }
{
    !matches!(outcome, Outcome::Unfinished)
}

/// Whether the play of a row is over in a round: it is finished, or ruled out and its round has ended.
fn is_over_in(round: u8, row: Row, known: &KnownPlay<'_>) -> bool
    ensures { result ≡ is_over_in round row (seen_play known.now) }
{
    has_outcome(known.outcome) && (is_finished(known) || row.round < round)
}

/// The side on which a pair sits in a row.
fn side_at(pair: u8, row: Row) -> Option<Side>
    ensures { result ≡ side_at pair row }
{
    if row.ns == pair {
        Some(Side::NorthSouth)
    } else if row.ew == pair {
        Some(Side::EastWest)
    } else {
        None
    }
}

/// A session, its results, and whether players are told of other tables.
#[derive(Clone, Copy)]
pub(crate) struct Telling<'a> {
    /// The session.
    pub session: &'a Session,
    /// Its results.
    pub results: &'a Results<'a>,
    /// Whether players are told of other tables.
    pub is_open: bool,
}

/// Adds the lines of the play of which so much is known, and of other tables on its board, if it is over.
fn push_known(
    text: &mut Vec<u8>,
    told: &Telling<'_>,
    row: Row,
    side: Side,
    index: u8,
    known: &KnownPlay<'_>,
) -> Result<(), AllocError>
    requires tricks { HasFewTricks known.now.outcome }
    requires results { told.now.results.now ≡ told.now.session.now }
    ensures { OnOk result (text.new.items ≡ text.old.items ++ known_text told.now.session.now told.now.is_open row side index (seen_play known.now)) }
{
    if !is_over_in(told.session.round(), row, known) {
        return Ok(());
    }
    push_play(
        text,
        told.session.config().fields(),
        row,
        index,
        Some(side),
        known,
    )?;
    push_beside(
        text,
        told.session,
        told.results,
        told.is_open,
        side,
        row,
        known.board,
    )
}

/// Adds the lines of the play of the board at an index of a row's set, if it is over.
fn push_own_play_at(
    text: &mut Vec<u8>,
    told: &Telling<'_>,
    row: Row,
    side: Side,
    index: u8,
) -> Result<(), AllocError>
    requires session { IsSession told.now.session.now }
    requires results { told.now.results.now ≡ told.now.session.now }
    requires row { Contains told.now.session.now.configuration.movement.rows row }
    requires index { IsBoardIndex index }
    ensures { OnOk result (text.new.items ≡ text.old.items ++ own_text told.now.session.now told.now.is_open (option_to_list (own_play_at told.now.session.now row side index))) }
{
    match known_at(told.session, row, index) {
        Some(known) => push_known(text, told, row, side, index, &known),
        None => Ok(()),
    }
}

/// Adds the lines of the plays of a row's set.
fn push_own_plays_at(
    text: &mut Vec<u8>,
    told: &Telling<'_>,
    row: Row,
    side: Side,
) -> Result<(), AllocError>
    requires session { IsSession told.now.session.now }
    requires results { told.now.results.now ≡ told.now.session.now }
    requires row { Contains told.now.session.now.configuration.movement.rows row }
    ensures { OnOk result (text.new.items ≡ text.old.items ++ own_text told.now.session.now told.now.is_open (own_plays_at told.now.session.now row side)) }
{
    push_own_play_at(text, told, row, side, 1)?;
    push_own_play_at(text, told, row, side, 2)?;
    push_own_play_at(text, told, row, side, 3)
}

/// Adds the lines of the plays of a row's set, if the pair sat there.
fn push_own_plays_in(
    text: &mut Vec<u8>,
    told: &Telling<'_>,
    pair: u8,
    row: Row,
) -> Result<(), AllocError>
    requires session { IsSession told.now.session.now }
    requires results { told.now.results.now ≡ told.now.session.now }
    requires row { Contains told.now.session.now.configuration.movement.rows row }
    ensures { OnOk result (text.new.items ≡ text.old.items ++ own_text told.now.session.now told.now.is_open (own_plays_in told.now.session.now pair row)) }
{
    match side_at(pair, row) {
        Some(side) => push_own_plays_at(text, told, row, side),
        None => Ok(()),
    }
}

/// Adds the lines of a pair's plays that are over, by round and by the index in the set.
pub(crate) fn push_own_plays(
    text: &mut Vec<u8>,
    told: &Telling<'_>,
    pair: u8,
) -> Result<(), AllocError>
    requires { told.now.results.now ≡ told.now.session.now }
    ensures { OnOk result (text.new.items ≡ text.old.items ++ own_text told.now.session.now told.now.is_open (own_plays told.now.session.now pair)) }
{
    // What each session is, which a clause of this call states.
    let _parts = told.session.parts();
    let rows = told.session.config().fields().movement.rows();
    for row in rows {
        push_own_plays_in(text, told, pair, *row)?;
    }
    Ok(())
}
