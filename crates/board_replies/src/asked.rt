//! What a body asks for.
ghost use Rattle.std.specs.Prelude.{◌≡◌, option_and_then};
ghost use Rattle.line_text.specs.Words.{spaced_words};
ghost use Rattle.line_replies.specs.KeyWord.{number_of_word, key_of_word};
ghost use Rattle.board_replies.specs.Asked.{twelve_of_word, play_by_words, play_of_words, switch_of_word, asked_after, asked_of, key_in, has_wrong_key};

use bridge_config::Key;
use bridge_session::Session;
use bridge_table::is_nobodys;
use line_replies::{read_key, read_number};
use line_text::{first_word, only_word};
use session_rules::{BoardIndex, PlayId, RoundNumber, TableNumber};

/// What a body asks for.
#[derive(Clone, Copy, Debug, PartialEq, Eq)]
pub enum Asked {
    /// All that the holder of the key is told.
    Whole(Key),
    /// One play, of which the director is told.
    OnePlay(Key, PlayId),
    /// That players be told of other tables, or not.
    Switch(Key, bool),
}

impl Asked {
    /// The key by which something is asked.
    fn key(self) -> Key
        ensures { result.0 ≡ key_in self }
    {
        match self {
            Asked::Whole(key) | Asked::OnePlay(key, _) | Asked::Switch(key, _) => key,
        }
    }
}

/// Whether these bytes ask by a key that is nobody's in this session.
pub fn has_wrong_key(session: &Session, bytes: &[u8]) -> bool
    ensures { result ≡ has_wrong_key session.now.configuration bytes.now }
{
    match read_asked(bytes) {
        Some(asked) => is_nobodys(session.config(), asked.key()),
        None => false,
    }
}

/// A round, 1 to 12.
fn read_round(word: &[u8]) -> Option<RoundNumber>
    ensures { result ≡ twelve_of_word word.now }
{
    let number = read_number(1, RoundNumber::MAX as u32, word)?;
    Some(RoundNumber::new(number as u8).unwrap())
}

/// A table, 1 to 12.
fn read_table(word: &[u8]) -> Option<TableNumber>
    ensures { result ≡ twelve_of_word word.now }
{
    let number = read_number(1, TableNumber::MAX as u32, word)?;
    Some(TableNumber::new(number as u8).unwrap())
}

/// The index of a board in its set, 1 to 3.
fn read_index(word: &[u8]) -> Option<BoardIndex>
    ensures { result ≡ number_of_word 1 3 word.now }
{
    let number = read_number(1, BoardIndex::MAX as u32, word)?;
    Some(BoardIndex::new(number as u8).unwrap())
}

/// The play that three words name.
fn read_numbers(round: &[u8], table: &[u8], index: &[u8]) -> Option<PlayId>
    ensures { result ≡ play_by_words round.now table.now index.now }
{
    let round = read_round(round)?;
    let table = read_table(table)?;
    let index = read_index(index)?;
    Some(PlayId {
        round,
        table,
        index,
    })
}

/// The play that a text of three words names.
fn read_play(text: &[u8]) -> Option<PlayId>
    ensures { result ≡ play_of_words (spaced_words text.now) }
{
    let (round, rest) = first_word(text)?;
    let (table, rest) = first_word(rest)?;
    let index = only_word(rest)?;
    read_numbers(round, table, index)
}

/// Whether other tables are to be told of.
fn read_switch(word: &[u8]) -> Option<bool>
    ensures { result ≡ switch_of_word word.now }
{
    if word == b"OPEN".as_slice() {
        Some(true)
    } else if word == b"SHUT".as_slice() {
        Some(false)
    } else {
        None
    }
}

/// What the words after a key ask for.
fn read_after(key: Key, rest: &[u8]) -> Option<Asked>
    ensures { result ≡ asked_after key (spaced_words rest.now) }
{
    match only_word(rest) {
        Some(word) => Some(Asked::Switch(key, read_switch(word)?)),
        None => Some(Asked::OnePlay(key, read_play(rest)?)),
    }
}

/// What is asked for by the key that is the first word, and the words after it.
fn read_more(key: &[u8], rest: &[u8]) -> Option<Asked>
    ensures { result ≡ option_and_then (λ key. asked_after key (spaced_words rest.now)) (key_of_word key.now) }
{
    read_after(read_key(key)?, rest)
}

/// What these bytes ask for.
pub fn read_asked(bytes: &[u8]) -> Option<Asked>
    ensures { result ≡ asked_of bytes.now }
{
    match first_word(bytes) {
        Some((key, rest)) => read_more(key, rest),
        None => Some(Asked::Whole(read_key(bytes)?)),
    }
}
