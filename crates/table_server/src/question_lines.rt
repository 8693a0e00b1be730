//! What the lines that only ask state, behind their keyword.
ghost use Rattle.std.specs.Prelude.{◌≡◌};
ghost use Rattle.line_text.specs.Words.{spaced_words};
ghost use Rattle.table_server.specs.LineCommand.{solve_line, see_line, rank_line, pbn_line};

use crate::command::Command;
use crate::line_words::{next_key, read_cards, read_field};
use crate::named_play::next_play;
use line_replies::read_key;
use line_text::only_word;

/// Reads what follows `SEE`.
#[tactic(auto, unfolding(crate::specs::LineCommand::see_line))]
pub fn read_see_line(text: &[u8]) -> Option<Command>
    ensures { result ≡ see_line (spaced_words text.now) }
{
    let key = read_key(only_word(text)?)?;
    Some(Command::See { key })
}

/// Reads what follows `RANK`.
#[tactic(auto, unfolding(crate::specs::LineCommand::rank_line))]
pub fn read_rank_line(text: &[u8]) -> Option<Command>
    ensures { result ≡ rank_line (spaced_words text.now) }
{
    let mut rest = text;
    let key = next_key(&mut rest)?;
    let field = read_field(only_word(rest)?)?;
    Some(Command::Rank { key, field })
}

/// Reads what follows `SOLVE`.
#[tactic(auto, unfolding(crate::specs::LineCommand::solve_line))]
pub fn read_solve_line(text: &[u8]) -> Option<Command>
    ensures { result ≡ solve_line (spaced_words text.now) }
{
    let mut rest = text;
    let key = next_key(&mut rest)?;
    let play = next_play(&mut rest)?;
    let cards = read_cards(only_word(rest)?)?;
    Some(Command::Solve { key, play, cards })
}

/// Reads what follows `PBN`.
#[tactic(auto, unfolding(crate::specs::LineCommand::pbn_line))]
pub fn read_pbn_line(text: &[u8]) -> Option<Command>
    ensures { result ≡ pbn_line (spaced_words text.now) }
{
    let key = read_key(only_word(text)?)?;
    Some(Command::Pbn { key })
}
