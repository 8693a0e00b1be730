//! What complete lines ask for.
ghost use Rattle.std.specs.Prelude.{◌≡◌};
ghost use Rattle.line_text.specs.Words.{spaced_words};
ghost use Rattle.table_server.specs.Asked.{Asks, AsksByWords, AsksIn};
ghost use Rattle.table_server.specs.CorrectionLine.{correction_of, asked_to_correct};

use crate::correction_lines::read_correction;
use crate::line_command::read_line_command;
use crate::line_set::LineSet;
use bridge_config::Key;
use bridge_session::{Action, Field, PlayId};
use line_text::{LINE_BYTES, without_return};

/// What a line asks to be told.
#[derive(Clone, Copy)]
pub enum Question {
    /// That all that was accepted is confirmed.
    Sync,
    /// The view of a player.
    See {
        /// The key of who asks.
        key: Key,
    },
    /// The ranking of a field.
    Rank {
        /// The key of who asks.
        key: Key,
        /// The field.
        field: Field,
    },
    /// The worth of a play's ending after so many cards.
    Solve {
        /// The key of who asks.
        key: Key,
        /// The play.
        play: PlayId,
        /// After how many cards, 0 to 52.
        cards: u8,
    },
    /// The results in Portable Bridge Notation.
    Pbn {
        /// The key of who asks.
        key: Key,
    },
}

/// What a complete line asks for.
#[derive(Clone, Copy)]
pub enum Asked {
    /// A change of the session.
    Change(Action),
    /// To be told something, which changes nothing.
    Told(Question),
    /// Nothing: the line states no command.
    BadLine,
    /// Nothing: the line has more than 128 bytes.
    LongLine,
}

/// What a line of the protocol asks for that is not too long, without its ending.
fn asked_by_words(line: &[u8]) -> Asked
    ensures { AsksByWords line.now result }
{
    match read_line_command(line) {
        Ok(command) => command.asks(),
        Err(_) => Asked::BadLine,
    }
}

/// What a correction asks for that is not too long, without its ending.
fn asked_to_correct(line: &[u8]) -> Asked
    ensures { result ≡ asked_to_correct (correction_of (spaced_words line.now)) }
{
    match read_correction(line) {
        Some(action) => Asked::Change(action),
        None => Asked::BadLine,
    }
}

/// What a complete line of that set asks for, without its line feed. One carriage return at its end is dropped from what is
/// read.
pub fn asked_in(lines: LineSet, line: &[u8]) -> Asked
    ensures { AsksIn lines line.now result }
{
    if line.len() > LINE_BYTES {
        return Asked::LongLine;
    }
    match lines {
        LineSet::Protocol => asked_by_words(without_return(line)),
        LineSet::Corrections => asked_to_correct(without_return(line)),
    }
}

/// What a complete line of the protocol asks for, likewise.
pub fn asked_by(line: &[u8]) -> Asked
    ensures { Asks line.now result }
{
    asked_in(LineSet::Protocol, line)
}
