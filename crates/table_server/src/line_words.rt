//! What the words of a line of the protocol state.
ghost use Rattle.std.specs.Prelude.{◌≡◌, ◌+◌, ◌*◌, ◌<◌, ◌≤◌, length, map, true};
ghost use Rattle.std.specs.List.{list_all, range_with_len};
ghost use Rattle.line_text.specs.Words.{spaced_words};
ghost use Rattle.line_replies.specs.KeyWord.{key_of_word};
ghost use Rattle.table_server.specs.LineWords.{FoundAs, board_of_word, made_of_word, tricks_of_word, average_of_word, round_of_word, table_of_word, index_of_word, cards_of_word, field_of_word, card_of_word, is_lower_hex, hex_value, hex_byte, seed_of, first_of};

use bridge_cards::{BoardNumber, Card, DECK, read_card};
use bridge_config::Key;
use bridge_session::{Average, BoardIndex, Field, MadeCount, RoundNumber, TableNumber, TrickCount};
use line_replies::{read_key, read_number};
use line_text::first_word;

/// A board, 1 to 36.
pub fn read_board(word: &[u8]) -> Option<BoardNumber>
    ensures { result ≡ board_of_word word.now }
{
    let number = read_number(1, BoardNumber::MAX as u32, word)?;
    Some(BoardNumber::new(number as u8).unwrap())
}

/// How many calls, cards or claims were made, 0 to 999.
pub fn read_made(word: &[u8]) -> Option<MadeCount>
    ensures { result ≡ made_of_word word.now }
{
    let number = read_number(0, MadeCount::MAX as u32, word)?;
    Some(MadeCount::new(number as u16).unwrap())
}

/// A number of tricks, 0 to 13.
pub fn read_tricks(word: &[u8]) -> Option<TrickCount>
    ensures { result ≡ tricks_of_word word.now }
{
    let number = read_number(0, TrickCount::MAX as u32, word)?;
    Some(TrickCount::new(number as u8).unwrap())
}

/// An average: 40, 50 or 60 per cent.
pub fn read_average(word: &[u8]) -> Option<Average>
    ensures { result ≡ average_of_word word.now }
{
    let percent = read_number(40, 60, word)?;
    Average::of_percent(percent as u8)
}

/// A round, 1 to 12.
pub fn read_round(word: &[u8]) -> Option<RoundNumber>
    ensures { result ≡ round_of_word word.now }
{
    let number = read_number(1, RoundNumber::MAX as u32, word)?;
    Some(RoundNumber::new(number as u8).unwrap())
}

/// A table, 1 to 12.
pub fn read_table(word: &[u8]) -> Option<TableNumber>
    ensures { result ≡ table_of_word word.now }
{
    let number = read_number(1, TableNumber::MAX as u32, word)?;
    Some(TableNumber::new(number as u8).unwrap())
}

/// The index of a board in its set, 1 to 3.
pub fn read_index(word: &[u8]) -> Option<BoardIndex>
    ensures { result ≡ index_of_word word.now }
{
    let number = read_number(1, BoardIndex::MAX as u32, word)?;
    Some(BoardIndex::new(number as u8).unwrap())
}

/// How many cards were played before an ending, 0 to 52.
pub fn read_cards(word: &[u8]) -> Option<u8>
    ensures { result ≡ cards_of_word word.now }
{
    let number = read_number(0, DECK as u32, word)?;
    Some(number as u8)
}

/// A field, `1` or `2`.
pub fn read_field(word: &[u8]) -> Option<Field>
    ensures { result ≡ field_of_word word.now }
{
    if word == b"1".as_slice() {
        Some(Field::First)
    } else if word == b"2".as_slice() {
        Some(Field::Second)
    } else {
        None
    }
}

/// A card, as `SK` or `HT`.
pub fn read_card_word(word: &[u8]) -> Option<Card>
    ensures { result ≡ card_of_word word.now }
{
    read_card(word)
}

/// Whether the byte is a digit from `0` to `9` or from `a` to `f`.
fn is_lower_hex(digit: u8) -> bool
    ensures { result ≡ is_lower_hex digit }
{
    digit.is_ascii_digit() || (b'a'..=b'f').contains(&digit)
}

fn are_lower_hex(word: &[u8]) -> bool
    ensures { result ≡ list_all is_lower_hex word.now }
{
    word.iter().all(|digit| is_lower_hex(*digit))
}

/// The value of a hexadecimal digit.
fn hex_value(digit: u8) -> u8
    requires { is_lower_hex digit ≡ true }
    ensures value { result ≡ hex_value digit }
    ensures most { result ≤ 15 }
{
    if digit.is_ascii_digit() {
        digit - b'0'
    } else {
        digit - (b'a' - 10)
    }
}

/// The byte of the pair of digits at that index, the pairs counted from 0.
fn hex_byte(word: &[u8], index: usize) -> u8
    requires digits { list_all is_lower_hex word.now ≡ true }
    requires within { 2 * index + 1 < length word.now }
    ensures { result ≡ hex_byte word.now index }
{
    16 * hex_value(word[2 * index]) + hex_value(word[2 * index + 1])
}

/// The bytes of 64 digits.
fn seed_bytes(word: &[u8]) -> [u8; 32]
    requires digits { list_all is_lower_hex word.now ≡ true }
    requires count { length word.now ≡ 64 }
    ensures { result ≡ map (hex_byte word.now) (range_with_len 0 32) }
{
    let mut seed = [0; 32];
    for index in 0..32 {
        seed[index] = hex_byte(word, index);
    }
    seed
}

/// A seed: 64 digits from `0` to `9` or from `a` to `f`, two a byte.
pub fn read_seed(word: &[u8]) -> Option<[u8; 32]>
    ensures { result ≡ seed_of word.now }
{
    if word.len() == 64 && are_lower_hex(word) {
        Some(seed_bytes(word))
    } else {
        None
    }
}

/// Takes the key that several words begin with from them.
pub fn next_key(text: &mut &[u8]) -> Option<Key>
    ensures { FoundAs (λ key. (key, spaced_words text.new.now)) result (first_of key_of_word (spaced_words text.old.now)) }
{
    let (word, rest) = first_word(text)?;
    let key = read_key(word)?;
    *text = rest;
    Some(key)
}

/// Takes the board that several words begin with from them.
pub fn next_board(text: &mut &[u8]) -> Option<BoardNumber>
    ensures { FoundAs (λ board. (board, spaced_words text.new.now)) result (first_of board_of_word (spaced_words text.old.now)) }
{
    let (word, rest) = first_word(text)?;
    let board = read_board(word)?;
    *text = rest;
    Some(board)
}

/// Takes from several words how many calls, cards or claims were made, where they begin with it.
pub fn next_made(text: &mut &[u8]) -> Option<MadeCount>
    ensures { FoundAs (λ made. (made, spaced_words text.new.now)) result (first_of made_of_word (spaced_words text.old.now)) }
{
    let (word, rest) = first_word(text)?;
    let made = read_made(word)?;
    *text = rest;
    Some(made)
}

/// Takes the round that several words begin with from them.
pub fn next_round(text: &mut &[u8]) -> Option<RoundNumber>
    ensures { FoundAs (λ round. (round, spaced_words text.new.now)) result (first_of round_of_word (spaced_words text.old.now)) }
{
    let (word, rest) = first_word(text)?;
    let round = read_round(word)?;
    *text = rest;
    Some(round)
}

/// Takes the table that several words begin with from them.
pub fn next_table(text: &mut &[u8]) -> Option<TableNumber>
    ensures { FoundAs (λ table. (table, spaced_words text.new.now)) result (first_of table_of_word (spaced_words text.old.now)) }
{
    let (word, rest) = first_word(text)?;
    let table = read_table(word)?;
    *text = rest;
    Some(table)
}

/// Takes the index of a board that several words begin with from them.
pub fn next_index(text: &mut &[u8]) -> Option<BoardIndex>
    ensures { FoundAs (λ index. (index, spaced_words text.new.now)) result (first_of index_of_word (spaced_words text.old.now)) }
{
    let (word, rest) = first_word(text)?;
    let index = read_index(word)?;
    *text = rest;
    Some(index)
}

/// Takes the average that several words begin with from them.
pub fn next_average(text: &mut &[u8]) -> Option<Average>
    ensures { FoundAs (λ average. (average, spaced_words text.new.now)) result (first_of average_of_word (spaced_words text.old.now)) }
{
    let (word, rest) = first_word(text)?;
    let average = read_average(word)?;
    *text = rest;
    Some(average)
}
