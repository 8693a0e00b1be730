//! What a word of a line states: a number, and a key.
ghost use Rattle.std.specs.Prelude.{◌≡◌, ◌≤◌, IfSome};
ghost use Rattle.line_replies.specs.KeyWord.{number_of_word, key_of_word};

use bridge_config::Key;
use line_text::{is_numeral, value_of};

/// The number of a numeral, from low to high.
pub fn read_number(low: u32, high: u32, word: &[u8]) -> Option<u32>
    ensures value { result ≡ number_of_word low high word.now }
    ensures least { IfSome result (λ number. low ≤ number) }
    ensures most { IfSome result (λ number. number ≤ high) }
{
    if !is_numeral(word) {
        return None;
    }
    match value_of(word) {
        Some(value) if (low..=high).contains(&value) => Some(value),
        _ => None,
    }
}

/// A key, 0 to 4,294,967,295.
pub fn read_key(word: &[u8]) -> Option<Key>
    ensures { result ≡ key_of_word word.now }
{
    let number = read_number(0, u32::MAX, word)?;
    Some(Key(number))
}
