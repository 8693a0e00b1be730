//! The play that words of a line name.
ghost use Rattle.std.specs.Prelude.{◌≡◌};
ghost use Rattle.line_text.specs.Words.{spaced_words};
ghost use Rattle.table_server.specs.LineWords.{FoundAs};
ghost use Rattle.table_server.specs.LineCommand.{play_words, play_and_words};

use crate::line_words::{next_index, next_round, next_table, read_index};
use bridge_session::PlayId;
use line_text::only_word;

/// The play that a text of three words names.
#[tactic(auto, unfolding(crate::specs::LineCommand::play_words))]
pub fn read_play(text: &[u8]) -> Option<PlayId>
    ensures { result ≡ play_words (spaced_words text.now) }
{
    let mut rest = text;
    let round = next_round(&mut rest)?;
    let table = next_table(&mut rest)?;
    let index = read_index(only_word(rest)?)?;
    Some(PlayId {
        round,
        table,
        index,
    })
}

/// Takes the play that the first three words of a text name from them.
#[tactic(auto, unfolding(crate::specs::LineCommand::play_and_words))]
pub fn next_play(text: &mut &[u8]) -> Option<PlayId>
    ensures { FoundAs (λ play. (play, spaced_words text.new.now)) result (play_and_words (spaced_words text.old.now)) }
{
    let round = next_round(text)?;
    let table = next_table(text)?;
    let index = next_index(text)?;
    Some(PlayId {
        round,
        table,
        index,
    })
}
