//! Names brought to ASCII.
ghost use Rattle.std.specs.Prelude.{◌≡◌, ◌≤◌, [], ◌∷◌, chars, length, true};
ghost use Rattle.bridge_config.specs.Limits.{is_name};
ghost use Rattle.evening_draft.specs.AsciiName.{with_byte, with_bytes, small_spelling, spelling, with_letters, with_character, with_characters, ascii_name, player_letter, player_word, player_name};

use arrayvec::{ArrayString, ArrayVec};
use bridge_config::{NAME_BYTES, read_name};
use line_text::{inline, number_text};
use unicode_normalization::Form;
use unicode_normalization::char::decomposition;

/// Bytes of a name, inline.
type Kept = ArrayVec<u8, NAME_BYTES>;

/// Adds a byte, where there is room.
fn push_byte(kept: &mut Kept, byte: u8)
    ensures { kept.new.items ≡ with_byte kept.old.items byte }
{
    if kept.len() < NAME_BYTES {
        kept.push(byte);
    }
}

/// Adds bytes, as far as there is room.
fn push_bytes(kept: &mut Kept, bytes: &[u8])
    ensures { kept.new.items ≡ with_bytes kept.old.items bytes.now }
{
    for byte in bytes {
        push_byte(kept, *byte);
    }
}

/// How a small letter is spelled in ASCII that no decomposition brings there; of any other character nothing.
fn small_spelling(c: char) -> &'static [u8]
    ensures { result.now ≡ small_spelling c }
{
    match c {
        'ł' => b"l",
        'đ' => b"d",
        'ð' => b"d",
        'ø' => b"o",
        'æ' => b"ae",
        'œ' => b"oe",
        'þ' => b"th",
        'ß' => b"ss",
        'ı' => b"i",
        'ħ' => b"h",
        'ŋ' => b"n",
        'ŧ' => b"t",
        'ə' => b"e",
        'ĸ' => b"q",
        _ => b"",
    }
}

/// The same of any letter.
fn spelling(c: char) -> &'static [u8]
    ensures { result.now ≡ spelling c }
{
    match c {
        'Ł' => b"L",
        'Đ' => b"D",
        'Ð' => b"D",
        'Ø' => b"O",
        'Æ' => b"AE",
        'Œ' => b"OE",
        'Þ' => b"Th",
        'ẞ' => b"SS",
        'Ħ' => b"H",
        'Ŋ' => b"N",
        'Ŧ' => b"T",
        'Ə' => b"E",
        small => small_spelling(small),
    }
}

/// Adds a letter or digit of ASCII, and of another letter its spelling; any other character is left out.
fn push_letter(kept: &mut Kept, c: char)
    ensures { kept.new.items ≡ with_letters kept.old.items (c ∷ []) }
{
    if c.is_ascii_alphanumeric() {
        push_byte(kept, c as u8);
    } else {
        push_bytes(kept, spelling(c));
    }
}

/// Adds what is kept of the characters.
fn push_letters(kept: &mut Kept, characters: &[char])
    ensures { kept.new.items ≡ with_letters kept.old.items characters.now }
{
    for c in characters {
        push_letter(kept, *c);
    }
}

/// Adds what is kept of a character.
fn push_character(kept: &mut Kept, c: char)
    ensures { kept.new.items ≡ with_character kept.old.items c }
{
    if c != ' ' {
        push_letters(kept, decomposition(c, Form::Nfkd, &mut ['\0'; 3]));
    } else if !kept.is_empty() {
        push_byte(kept, b'.');
    }
}

/// What is kept of a name.
fn kept_of(name: &str) -> Kept
    ensures { result.items ≡ with_characters [] (chars name.now) }
{
    let mut kept = Kept::new();
    for c in name.chars() {
        push_character(&mut kept, c);
    }
    kept
}

/// The name as a configuration has it: its letters and digits brought to ASCII, decomposed and without their marks, a dot
/// for each blank, at most 24 bytes. A letter that has no decomposition is spelled as everybody does: `L` for `Ł`, `ss` for
/// `ß`. What has no such letter is left out, and a name of which nothing is left is `Player`.
pub fn ascii_name(name: &str) -> ArrayString<NAME_BYTES>
    ensures name { result.bytes ≡ ascii_name name.now }
    ensures form { is_name result.bytes ≡ true }
{
    match read_name(kept_of(name).as_slice()) {
        Some(read) => read,
        None => inline(b"Player"),
    }
}

/// The letter of a player.
fn player_letter(first: bool) -> &'static str
    ensures letter { result.now ≡ player_letter first }
    ensures short { length result.now ≤ 1 }
{
    if first { "a" } else { "b" }
}

/// The word for a player of whose name nothing is left.
#[tactic(auto, using(crate::proofs::PlayerWord::word_is_name))]
fn player_word(pair: u8, first: bool) -> ArrayString<NAME_BYTES>
    ensures word { result.bytes ≡ player_word pair first }
    ensures form { is_name result.bytes ≡ true }
{
    let mut word = ArrayString::new();
    word.push_str("Player");
    word.push_str(number_text(u32::from(pair)).as_str());
    word.push_str(player_letter(first));
    word
}

/// The same of the first or the second player of the pair of that number; where nothing is left, `Player7a` or `Player7b`, so
/// that two players can be told apart.
pub fn player_name(name: &str, pair: u8, first: bool) -> ArrayString<NAME_BYTES>
    ensures name { result.bytes ≡ player_name pair first name.now }
    ensures form { is_name result.bytes ≡ true }
{
    match read_name(kept_of(name).as_slice()) {
        Some(read) => read,
        None => player_word(pair, first),
    }
}
