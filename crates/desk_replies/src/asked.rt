//! What is asked of the desk.
ghost use Rattle.std.specs.Prelude.{◌≡◌, Some};
ghost use Rattle.std.specs.Option.{option_map};
ghost use Rattle.line_replies.specs.KeyWord.{number_of_word};
ghost use Rattle.desk_replies.specs.Asked.{parted, order_alone, order_with, order_of, asked_by, asked_of, has_wrong_key};

use crate::plain_text::PlainText;
use bridge_config::Key;
use bridge_session::Session;
use bridge_table::is_nobodys;
use line_replies::{read_key, read_number};
use line_text::split_once;
use session_rules::TableNumber;

/// The most minutes of a clock.
const MOST_MINUTES: u32 = 240;

/// The most characters of a notice.
const NOTICE_CHARACTERS: usize = 200;

/// The most characters of a call and of a statement.
const TABLE_CHARACTERS: usize = 100;

/// What the holder of a key asks of the desk.
#[derive(Drop)]
pub struct Asked {
    /// The key.
    pub key: Key,
    /// What its holder asks.
    pub order: Order,
}

/// What is asked of the desk.
#[derive(Drop)]
pub enum Order {
    /// What stands.
    Look,
    /// That the director's notice be this.
    Notice(PlainText),
    /// That no notice be shown.
    NoNotice,
    /// That the round's clock run for so many minutes from now, 1 to 240.
    Clock(u8),
    /// That no clock run.
    NoClock,
    /// That the call of a table be taken down, 1 to 12.
    Answered(u8),
    /// That the director come to the player's table, with what the player says.
    Call(PlainText),
    /// That this be the statement of the player's claim (Law 68C).
    State(PlainText),
    /// That it be told that the player refuses the claim which he is asked for.
    Refuse,
}

/// What stands before the first space and after it, where there is one.
fn parted(text: &[u8]) -> Option<(&[u8], &[u8])>
    ensures { option_map (λ parts. (parts.0.now, parts.1.now)) result ≡ parted text.now }
{
    split_once(text, b' ')
}

/// So many minutes, 1 to 240.
fn read_minutes(word: &[u8]) -> Option<u8>
    ensures { result ≡ number_of_word 1 240 word.now }
{
    let number = read_number(1, MOST_MINUTES, word)?;
    Some(number as u8)
}

/// A table, 1 to 12.
fn read_table(word: &[u8]) -> Option<u8>
    ensures { result ≡ number_of_word 1 12 word.now }
{
    let number = read_number(1, TableNumber::MAX as u32, word)?;
    Some(number as u8)
}

/// What a word alone asks for.
fn read_alone(word: &[u8]) -> Option<Order>
    ensures { result ≡ order_alone word.now }
{
    if word == b"NOTICE".as_slice() {
        Some(Order::NoNotice)
    } else if word == b"CLOCK".as_slice() {
        Some(Order::NoClock)
    } else if word == b"CALL".as_slice() {
        Some(Order::Call(PlainText::empty()))
    } else if word == b"REFUSAL".as_slice() {
        Some(Order::Refuse)
    } else {
        None
    }
}

/// What a word and the text after it ask for.
fn read_with(word: &[u8], text: &[u8]) -> Option<Order>
    ensures { result ≡ order_with word.now text.now }
{
    if word == b"NOTICE".as_slice() {
        Some(Order::Notice(PlainText::read(1, NOTICE_CHARACTERS, text)?))
    } else if word == b"CLOCK".as_slice() {
        Some(Order::Clock(read_minutes(text)?))
    } else if word == b"ANSWERED".as_slice() {
        Some(Order::Answered(read_table(text)?))
    } else if word == b"CALL".as_slice() {
        Some(Order::Call(PlainText::read(1, TABLE_CHARACTERS, text)?))
    } else if word == b"STATEMENT".as_slice() {
        Some(Order::State(PlainText::read(1, TABLE_CHARACTERS, text)?))
    } else {
        None
    }
}

/// What stands after a key.
fn read_order(text: &[u8]) -> Option<Order>
    ensures { result ≡ order_of text.now }
{
    match parted(text) {
        Some((word, rest)) => read_with(word, rest),
        None => read_alone(text),
    }
}

/// What is asked by the key of a word, and the text after it.
fn read_keyed(word: &[u8], text: &[u8]) -> Option<Asked>
    ensures { result ≡ asked_by word.now (order_of text.now) }
{
    let key = read_key(word)?;
    let order = read_order(text)?;
    Some(Asked { key, order })
}

/// What is asked by a key alone.
fn read_look(word: &[u8]) -> Option<Asked>
    ensures { result ≡ asked_by word.now (Some Order.Look) }
{
    let key = read_key(word)?;
    Some(Asked {
        key,
        order: Order::Look,
    })
}

/// What these bytes ask for.
pub fn read_asked(bytes: &[u8]) -> Option<Asked>
    ensures { result ≡ asked_of bytes.now }
{
    match parted(bytes) {
        Some((key, rest)) => read_keyed(key, rest),
        None => read_look(bytes),
    }
}

/// Whether these bytes ask by a key that is nobody's in this session.
pub fn has_wrong_key(session: &Session, bytes: &[u8]) -> bool
    ensures { result ≡ has_wrong_key session.now.configuration bytes.now }
{
    match read_asked(bytes) {
        Some(asked) => is_nobodys(session.config(), asked.key),
        None => false,
    }
}
