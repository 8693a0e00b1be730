//! The command that a line of the protocol states.
ghost use Rattle.std.specs.Prelude.{◌≡◌, Some, None, IfOk, IfErr};
ghost use Rattle.line_text.specs.Words.{spaced_words};
ghost use Rattle.table_server.specs.declared.command.Command.{Command as CommandType};
ghost use Rattle.table_server.specs.LineCommand.{reading_line, director_line, plain_line, deal_words, ReadsDeal, ReadsLine};

use crate::command::{BadLine, Command};
use crate::director_lines::{
    read_adjust_line, read_next_line, read_restore_line, read_shuffle_line, read_tricks_line,
    read_void_line,
};
use crate::line_words::{next_board, next_key};
use crate::player_lines::{
    read_agree_line, read_call_line, read_card_line, read_claim_line, read_refuse_line,
};
use crate::question_lines::{read_pbn_line, read_rank_line, read_see_line, read_solve_line};
use bridge_cards::{BoardNumber, read_hands};
use bridge_config::Key;
use line_text::first_word;

/// The command that the line states, without its line feed; `BadLine` where it states none.
///
/// The words of a line are its keyword and what follows, with single spaces between; numbers are decimal without leading
/// zeros, a key from 0 to 4,294,967,295, a board from 1 to 36, `at` from 0 to 999, tricks from 0 to 13, a round and a table
/// from 1 to 12, an index from 1 to 3, a field 1 or 2, and cards from 0 to 52.
pub fn read_line_command(line: &[u8]) -> Result<Command, BadLine>
    // The line states the command that is found, and no other.
    ensures found { IfOk result (λ command. ReadsLine line.now (Some command)) }
    ensures only { IfOk result (λ command. (other : CommandType) → ReadsLine line.now (Some other) → other ≡ command) }
    ensures bad { IfErr result (λ refused. ReadsLine line.now None) }
    ensures none { IfErr result (λ refused. (command : CommandType) → ¬ ReadsLine line.now (Some command)) }
{
    match read_line(line) {
        Some(command) => Ok(command),
        None => Err(BadLine),
    }
}

fn read_line(line: &[u8]) -> Option<Command>
    ensures { ReadsLine line.now result }
{
    match first_word(line) {
        Some((keyword, rest)) => {
            if keyword == b"DEAL".as_slice() {
                read_deal_line(rest)
            } else {
                read_plain_line(keyword, rest)
            }
        }
        None => {
            if line == b"SYNC".as_slice() {
                Some(Command::Sync)
            } else {
                None
            }
        }
    }
}

/// Reads what follows `DEAL`.
fn read_deal_line(text: &[u8]) -> Option<Command>
    ensures { ReadsDeal (deal_words (spaced_words text.now)) result }
{
    let mut rest = text;
    let key = next_key(&mut rest)?;
    let board = next_board(&mut rest)?;
    read_dealt(key, board, rest)
}

/// The command that deals a board the hands of a text.
fn read_dealt(key: Key, board: BoardNumber, text: &[u8]) -> Option<Command>
    ensures { ReadsDeal (Some (record { key = key; board = board; text = text.now })) result }
{
    let hands = read_hands(text)?;
    Some(Command::Deal { key, board, hands })
}

/// Reads a line of a player's action, or another, by its first word.
fn read_plain_line(keyword: &[u8], text: &[u8]) -> Option<Command>
    ensures { result ≡ plain_line keyword.now (spaced_words text.now) }
{
    if keyword == b"CALL".as_slice() {
        read_call_line(text)
    } else if keyword == b"CARD".as_slice() {
        read_card_line(text)
    } else if keyword == b"CLAIM".as_slice() {
        read_claim_line(text)
    } else if keyword == b"AGREE".as_slice() {
        read_agree_line(text)
    } else if keyword == b"REFUSE".as_slice() {
        read_refuse_line(text)
    } else {
        read_director_line(keyword, text)
    }
}

/// Reads a line of the director's action, or another, by its first word.
fn read_director_line(keyword: &[u8], text: &[u8]) -> Option<Command>
    ensures { result ≡ director_line keyword.now (spaced_words text.now) }
{
    if keyword == b"SHUFFLE".as_slice() {
        read_shuffle_line(text)
    } else if keyword == b"NEXT".as_slice() {
        read_next_line(text)
    } else if keyword == b"TRICKS".as_slice() {
        read_tricks_line(text)
    } else if keyword == b"VOID".as_slice() {
        read_void_line(text)
    } else if keyword == b"ADJUST".as_slice() {
        read_adjust_line(text)
    } else if keyword == b"RESTORE".as_slice() {
        read_restore_line(text)
    } else {
        read_reading_line(keyword, text)
    }
}

/// Reads a line that asks for something and changes nothing, by its first word.
fn read_reading_line(keyword: &[u8], text: &[u8]) -> Option<Command>
    ensures { result ≡ reading_line keyword.now (spaced_words text.now) }
{
    if keyword == b"SEE".as_slice() {
        read_see_line(text)
    } else if keyword == b"RANK".as_slice() {
        read_rank_line(text)
    } else if keyword == b"SOLVE".as_slice() {
        read_solve_line(text)
    } else if keyword == b"PBN".as_slice() {
        read_pbn_line(text)
    } else {
        None
    }
}
