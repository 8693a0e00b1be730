//! What the director is told of one play, whatever its state.
ghost use Rattle.std.specs.Prelude.{◌≡◌, ◌++◌, OnOk, IfSome, None, Contains};
ghost use Rattle.std.specs.Option.{option_copied};
ghost use Rattle.bridge_config.specs.ConfigValue.{configuration_of};
ghost use Rattle.line_replies.specs.ReplyTexts.{listed_text};
ghost use Rattle.session_rules.specs.Numbers.{IsBoardIndex};
ghost use Rattle.session_rules.specs.Outcome.{HasFewTricks};
ghost use Rattle.session_rules.specs.State.{director_answer};
ghost use Rattle.session_rules.specs.StateRange.{IsSession};
ghost use Rattle.board_replies.specs.KnownPlay.{known_at, seen_play};
ghost use Rattle.board_replies.specs.PlayLines.{play_lines};
ghost use Rattle.board_replies.specs.Director.{row_named, dealt_text, known_text, one_text, one_by};

use crate::known_play::{KnownPlay, known_at};
use crate::play_lines::push_play;
use crate::text::{push_short, push_str};
use bridge_config::{Config, ConfigFields, Key};
use bridge_movement::Row;
use bridge_session::Session;
use bridge_table::{check_director, row_of};
use line_replies::ShortReply;
use session_rules::{PlayId, Refused, RoundNumber, TableNumber};
use std::alloc::AllocError;

/// The row of a table in a round, if there is one.
fn row_named(config: &Config, round: RoundNumber, table: TableNumber) -> Option<Row>
    ensures row { result ≡ row_named config.now round table }
    ensures there { IfSome result (Contains config.now.movement.rows) }
{
    let index = row_of(config, round, table)?;
    Some(*config.fields().movement.rows().get(index)?)
}

/// Adds the lines of a play.
fn push_listed(
    text: &mut Vec<u8>,
    fields: &ConfigFields,
    row: Row,
    index: u8,
    known: &KnownPlay<'_>,
) -> Result<(), AllocError>
    requires { HasFewTricks known.now.outcome }
    ensures { OnOk result (text.new.items ≡ text.old.items ++ listed_text (play_lines (configuration_of fields.now) row index None (seen_play known.now))) }
{
    push_str(text, "OK\n")?;
    push_play(text, fields, row, index, None, known)?;
    push_str(text, ".\n")
}

/// Adds what is told of a play that is known, once its board is dealt.
fn push_dealt(
    text: &mut Vec<u8>,
    fields: &ConfigFields,
    row: Row,
    index: u8,
    known: &KnownPlay<'_>,
) -> Result<(), AllocError>
    requires { HasFewTricks known.now.outcome }
    ensures { OnOk result (text.new.items ≡ text.old.items ++ dealt_text (configuration_of fields.now) row index (seen_play known.now) (option_copied known.now.deal)) }
{
    match known.deal {
        Some(_) => push_listed(text, fields, row, index, known),
        None => push_short(text, ShortReply::Refused(Refused::NotDealt)),
    }
}

/// Adds what is told of the play of the board at an index of a row's set.
fn push_in_row(text: &mut Vec<u8>, session: &Session, row: Row, index: u8) -> Result<(), AllocError>
    requires session { IsSession session.now }
    requires row { Contains session.now.configuration.movement.rows row }
    requires index { IsBoardIndex index }
    ensures { OnOk result (text.new.items ≡ text.old.items ++ known_text session.now.configuration row index (known_at session.now row index)) }
{
    match known_at(session, row, index) {
        Some(known) => push_dealt(text, session.config().fields(), row, index, &known),
        None => push_short(text, ShortReply::Refused(Refused::NoSuchPlay)),
    }
}

/// Adds what is told of a play.
fn push_one(text: &mut Vec<u8>, session: &Session, play: PlayId) -> Result<(), AllocError>
    ensures { OnOk result (text.new.items ≡ text.old.items ++ one_text session.now play) }
{
    // What each session is, which a clause of this call states.
    let _parts = session.parts();
    let index = play.index.number();
    match row_named(session.config(), play.round, play.table) {
        Some(row) => push_in_row(text, session, row, index),
        None => push_short(text, ShortReply::Refused(Refused::NoSuchPlay)),
    }
}

/// Adds what is told of a play to the director alone.
pub(crate) fn push_one_to(
    text: &mut Vec<u8>,
    session: &Session,
    key: Key,
    play: PlayId,
) -> Result<(), AllocError>
    ensures { OnOk result (text.new.items ≡ text.old.items ++ one_by session.now play (director_answer session.now.configuration key.0)) }
{
    match check_director(session.config(), key) {
        Ok(()) => push_one(text, session, play),
        Err(refused) => push_short(text, ShortReply::Refused(refused)),
    }
}
