//! What the lines of players state, behind their keyword.
ghost use Rattle.std.specs.Prelude.{◌≡◌};
ghost use Rattle.line_text.specs.Words.{spaced_words};
ghost use Rattle.table_server.specs.LineWords.{FoundAs};
ghost use Rattle.table_server.specs.LineCommand.{turn_words, turn_and_words, call_line, card_line, claim_line, agree_line, refuse_line};

use crate::command::Command;
use crate::line_words::{next_board, next_key, next_made, read_card_word, read_made, read_tricks};
use bridge_auction::read_call;
use bridge_cards::BoardNumber;
use bridge_config::Key;
use bridge_session::MadeCount;
use line_text::only_word;

/// Who acts, where and when.
#[derive(Clone, Copy)]
pub struct Turn {
    /// The player's key.
    pub key: Key,
    /// The board that he plays.
    pub board: BoardNumber,
    /// How many calls, cards or claims were made before; of an answer the number of the claim.
    pub at: MadeCount,
}

/// Takes the turn that the first three words of a text name from them.
#[tactic(auto, unfolding(crate::specs::LineCommand::turn_and_words))]
fn next_turn(text: &mut &[u8]) -> Option<Turn>
    ensures { FoundAs (λ turn. (turn, spaced_words text.new.now)) result (turn_and_words (spaced_words text.old.now)) }
{
    let key = next_key(text)?;
    let board = next_board(text)?;
    let at = next_made(text)?;
    Some(Turn { key, board, at })
}

/// The turn that a text of three words names.
#[tactic(auto, unfolding(crate::specs::LineCommand::turn_words))]
fn read_turn(text: &[u8]) -> Option<Turn>
    ensures { result ≡ turn_words (spaced_words text.now) }
{
    let mut rest = text;
    let key = next_key(&mut rest)?;
    let board = next_board(&mut rest)?;
    let at = read_made(only_word(rest)?)?;
    Some(Turn { key, board, at })
}

/// Reads what follows `CALL`.
#[tactic(auto, unfolding(crate::specs::LineCommand::call_line))]
pub fn read_call_line(text: &[u8]) -> Option<Command>
    ensures { result ≡ call_line (spaced_words text.now) }
{
    let mut rest = text;
    let turn = next_turn(&mut rest)?;
    let call = read_call(only_word(rest)?)?;
    let Turn { key, board, at } = turn;
    Some(Command::Call {
        key,
        board,
        at,
        call,
    })
}

/// Reads what follows `CARD`.
#[tactic(auto, unfolding(crate::specs::LineCommand::card_line))]
pub fn read_card_line(text: &[u8]) -> Option<Command>
    ensures { result ≡ card_line (spaced_words text.now) }
{
    let mut rest = text;
    let turn = next_turn(&mut rest)?;
    let card = read_card_word(only_word(rest)?)?;
    let Turn { key, board, at } = turn;
    Some(Command::Card {
        key,
        board,
        at,
        card,
    })
}

/// Reads what follows `CLAIM`.
#[tactic(auto, unfolding(crate::specs::LineCommand::claim_line))]
pub fn read_claim_line(text: &[u8]) -> Option<Command>
    ensures { result ≡ claim_line (spaced_words text.now) }
{
    let mut rest = text;
    let turn = next_turn(&mut rest)?;
    let tricks = read_tricks(only_word(rest)?)?;
    let Turn { key, board, at } = turn;
    Some(Command::Claim {
        key,
        board,
        at,
        tricks,
    })
}

/// Reads what follows `AGREE`.
#[tactic(auto, unfolding(crate::specs::LineCommand::agree_line))]
pub fn read_agree_line(text: &[u8]) -> Option<Command>
    ensures { result ≡ agree_line (spaced_words text.now) }
{
    let Turn { key, board, at } = read_turn(text)?;
    Some(Command::Agree { key, board, at })
}

/// Reads what follows `REFUSE`.
#[tactic(auto, unfolding(crate::specs::LineCommand::refuse_line))]
pub fn read_refuse_line(text: &[u8]) -> Option<Command>
    ensures { result ≡ refuse_line (spaced_words text.now) }
{
    let Turn { key, board, at } = read_turn(text)?;
    Some(Command::Refuse { key, board, at })
}
