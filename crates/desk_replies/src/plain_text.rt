//! Texts that are typed.
ghost use Rattle.std.specs.Prelude.{◌≡◌, ◌≤◌, if◌then◌else◌, [], length, Some, None};
ghost use Rattle.std.specs.Str.{chars};
ghost use Rattle.std.specs.List.{list_all};
ghost use Rattle.desk_replies.specs.PlainText.{is_control, turns_direction, is_plain, has_plain, plain_text_of};

use arrayvec::ArrayString;
use std::marker::Model;

/// The most characters of a text.
pub const MOST_CHARACTERS: usize = 200;

/// The room for so many: UTF-8 has at most 4 bytes for a character.
const TEXT_BYTES: usize = 4 * MOST_CHARACTERS;

/// A text of at most 200 characters.
#[derive(Drop)]
pub struct PlainText {
    kept: ArrayString<TEXT_BYTES>,
}

impl Model for PlainText {
    ghost use Rattle.std.specs.Prelude.{ℕ, List};

    ghost Value = { List ℕ };

    ghost view = { λ text. text.kept.bytes };
}

/// Whether it is a control character, or the end of a line or of a paragraph.
fn is_control(character: u32) -> bool
    ensures { result ≡ is_control character }
{
    character <= 31 || (127..=159).contains(&character) || (8232..=8233).contains(&character)
}

/// Whether a character turns the direction of those beside it.
fn turns_direction(character: u32) -> bool
    ensures { result ≡ turns_direction character }
{
    character == 1564
        || (8206..=8207).contains(&character)
        || (8234..=8238).contains(&character)
        || (8294..=8297).contains(&character)
}

/// Whether a character shows itself, and does nothing to others.
fn is_plain(character: char) -> bool
    ensures { result ≡ is_plain character }
{
    !is_control(u32::from(character)) && !turns_direction(u32::from(character))
}

/// Whether each character is plain.
fn all_plain(text: &str) -> bool
    ensures { result ≡ list_all is_plain (chars text.now) }
{
    text.chars().all(is_plain)
}

/// How many characters a text has.
fn count_of(text: &str) -> usize
    ensures { result ≡ length (chars text.now) }
{
    text.chars().count()
}

/// Whether it is so many characters, each of which is plain.
fn has_plain(low: usize, high: usize, text: &str) -> bool
    ensures { result ≡ has_plain low high text.now }
{
    let count = count_of(text);
    all_plain(text) && low <= count && count <= high
}

impl PlainText {
    /// No character.
    pub fn empty() -> PlainText
        ensures { result ≡ [] }
    {
        PlainText {
            kept: ArrayString::new(),
        }
    }

    /// A text of so many characters.
    fn keep(text: &str) -> PlainText
        requires { length (chars text.now) ≤ MOST_CHARACTERS }
        ensures { result ≡ text.now }
    {
        let mut kept = ArrayString::new();
        kept.push_str(text);
        PlainText { kept }
    }

    /// The text, where it is so many characters, each of which is plain.
    fn keep_plain(low: usize, high: usize, text: &str) -> Option<PlainText>
        requires { high ≤ MOST_CHARACTERS }
        ensures { result ≡ (if has_plain low high text.now then Some text.now else None) }
    {
        if has_plain(low, high, text) {
            Some(PlainText::keep(text))
        } else {
            None
        }
    }

    /// The text of these bytes, where they are so many characters in UTF-8 that show themselves: no control character, no end of
    /// a line, and none that turns the direction of those beside it.
    pub fn read(low: usize, high: usize, bytes: &[u8]) -> Option<PlainText>
        requires { high ≤ MOST_CHARACTERS }
        ensures { result ≡ plain_text_of low high bytes.now }
    {
        match str::from_utf8(bytes) {
            Ok(text) => PlainText::keep_plain(low, high, text),
            Err(_) => None,
        }
    }

    /// The text, of at most 800 bytes.
    pub fn as_str(&self) -> &str
        ensures text { result.now ≡ self.now }
        ensures short { length result.now ≤ TEXT_BYTES }
    {
        self.kept.as_str()
    }
}
