//! What the lines of the director state, behind their keyword.
ghost use Rattle.std.specs.Prelude.{◌≡◌};
ghost use Rattle.line_text.specs.Words.{spaced_words};
ghost use Rattle.table_server.specs.LineCommand.{shuffle_line, next_line, tricks_line, void_line, restore_line, average_words, adjust_line};

use crate::command::Command;
use crate::line_words::{
    next_average, next_board, next_key, read_average, read_round, read_seed, read_tricks,
};
use crate::named_play::{next_play, read_play};
use bridge_session::Average;
use line_text::only_word;

/// Reads what follows `SHUFFLE`.
#[tactic(auto, unfolding(crate::specs::LineCommand::shuffle_line))]
pub fn read_shuffle_line(text: &[u8]) -> Option<Command>
    ensures { result ≡ shuffle_line (spaced_words text.now) }
{
    let mut rest = text;
    let key = next_key(&mut rest)?;
    let board = next_board(&mut rest)?;
    let seed = read_seed(only_word(rest)?)?;
    Some(Command::Shuffle { key, board, seed })
}

/// Reads what follows `NEXT`.
#[tactic(auto, unfolding(crate::specs::LineCommand::next_line))]
pub fn read_next_line(text: &[u8]) -> Option<Command>
    ensures { result ≡ next_line (spaced_words text.now) }
{
    let mut rest = text;
    let key = next_key(&mut rest)?;
    let round = read_round(only_word(rest)?)?;
    Some(Command::Next { key, round })
}

/// Reads what follows `TRICKS`.
#[tactic(auto, unfolding(crate::specs::LineCommand::tricks_line))]
pub fn read_tricks_line(text: &[u8]) -> Option<Command>
    ensures { result ≡ tricks_line (spaced_words text.now) }
{
    let mut rest = text;
    let key = next_key(&mut rest)?;
    let play = next_play(&mut rest)?;
    let tricks = read_tricks(only_word(rest)?)?;
    Some(Command::Tricks { key, play, tricks })
}

/// Reads what follows `VOID`.
#[tactic(auto, unfolding(crate::specs::LineCommand::void_line))]
pub fn read_void_line(text: &[u8]) -> Option<Command>
    ensures { result ≡ void_line (spaced_words text.now) }
{
    let mut rest = text;
    let key = next_key(&mut rest)?;
    let play = read_play(rest)?;
    Some(Command::Void { key, play })
}

/// Reads what follows `RESTORE`.
#[tactic(auto, unfolding(crate::specs::LineCommand::restore_line))]
pub fn read_restore_line(text: &[u8]) -> Option<Command>
    ensures { result ≡ restore_line (spaced_words text.now) }
{
    let mut rest = text;
    let key = next_key(&mut rest)?;
    let play = read_play(rest)?;
    Some(Command::Restore { key, play })
}

/// The averages of both sides that a text of two words names.
#[tactic(auto, unfolding(crate::specs::LineCommand::average_words))]
fn read_averages(text: &[u8]) -> Option<(Average, Average)>
    ensures { result ≡ average_words (spaced_words text.now) }
{
    let mut rest = text;
    let ns = next_average(&mut rest)?;
    let ew = read_average(only_word(rest)?)?;
    Some((ns, ew))
}

/// Reads what follows `ADJUST`.
#[tactic(auto, unfolding(crate::specs::LineCommand::adjust_line))]
pub fn read_adjust_line(text: &[u8]) -> Option<Command>
    ensures { result ≡ adjust_line (spaced_words text.now) }
{
    let mut rest = text;
    let key = next_key(&mut rest)?;
    let play = next_play(&mut rest)?;
    let (ns, ew) = read_averages(rest)?;
    Some(Command::Adjust { key, play, ns, ew })
}
