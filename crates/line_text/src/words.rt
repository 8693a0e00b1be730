//! The words of a line, which single spaces separate.
ghost use Rattle.std.specs.Prelude.{◌≡◌, ◌≤◌, ◌∷◌, [], MatchOption, None, true, length};
ghost use Rattle.std.specs.Option.{option_map};
ghost use Rattle.std.specs.List.{list_all};
ghost use Rattle.std.specs.Char.{is_ascii};
ghost use Rattle.line_text.specs.Words.{spaced_words, words_of, only_word, five_words, word_after, five_after};
ghost use Rattle.line_text.specs.WordViews.{view_of_five};

use crate::lines::LINE_BYTES;
use crate::split::split_once;
use arrayvec::ArrayString;

/// Five words of a line.
#[derive(Clone, Copy)]
pub struct Five<'a> {
    /// The first word.
    pub first: &'a [u8],
    /// The second word.
    pub second: &'a [u8],
    /// The third word.
    pub third: &'a [u8],
    /// The fourth word.
    pub fourth: &'a [u8],
    /// The fifth word.
    pub fifth: &'a [u8],
}

/// The first word and the text after its space; `None` where there is one word alone.
pub fn first_word(text: &[u8]) -> Option<(&[u8], &[u8])>
    ensures { MatchOption result
        (spaced_words text.now ≡ text.now ∷ [])
        (λ parts. spaced_words text.now ≡ parts.0.now ∷ spaced_words parts.1.now) }
{
    split_once(text, b' ')
}

/// The text, where it is one word alone.
pub fn only_word(text: &[u8]) -> Option<&[u8]>
    ensures { option_map (λ word. word.now) result ≡ only_word (spaced_words text.now) }
{
    match first_word(text) {
        None => Some(text),
        Some(_) => None,
    }
}

/// The text after the keyword and a space, in a line that is not too long.
fn after_keyword<'a>(keyword: &[u8], line: &'a [u8]) -> Option<&'a [u8]>
    ensures word { MatchOption result
        (word_after keyword.now (words_of line.now) ≡ None)
        (λ rest. word_after keyword.now (words_of line.now) ≡ only_word (spaced_words rest.now)) }
    ensures five { MatchOption result
        (five_after keyword.now (words_of line.now) ≡ None)
        (λ rest. five_after keyword.now (words_of line.now) ≡ five_words (spaced_words rest.now)) }
{
    if line.len() > LINE_BYTES {
        return None;
    }
    let (first, rest) = first_word(line)?;
    if first != keyword {
        return None;
    }
    Some(rest)
}

/// The word after the keyword, in a line of these two words.
pub fn word_after<'a>(keyword: &[u8], line: &'a [u8]) -> Option<&'a [u8]>
    ensures { option_map (λ word. word.now) result ≡ word_after keyword.now (words_of line.now) }
{
    only_word(after_keyword(keyword, line)?)
}

/// The five words after the keyword, in a line of these six words.
pub fn five_after<'a>(keyword: &[u8], line: &'a [u8]) -> Option<Five<'a>>
    ensures { option_map view_of_five result ≡ five_after keyword.now (words_of line.now) }
{
    five_words(after_keyword(keyword, line)?)
}

/// The words of a text of five words.
fn five_words(text: &[u8]) -> Option<Five<'_>>
    ensures { option_map view_of_five result ≡ five_words (spaced_words text.now) }
{
    let (first, rest) = first_word(text)?;
    let (second, rest) = first_word(rest)?;
    let (third, rest) = first_word(rest)?;
    let (fourth, rest) = first_word(rest)?;
    let fifth = only_word(rest)?;
    Some(Five {
        first,
        second,
        third,
        fourth,
        fifth,
    })
}

/// The word as an inline text.
pub fn inline<const N: usize>(word: &[u8]) -> ArrayString<N>
    requires ascii { list_all is_ascii word.now ≡ true }
    requires fits { length word.now ≤ N }
    ensures { result.bytes ≡ word.now }
{
    let mut text = ArrayString::new();
    text.push_str(str::from_utf8(word).unwrap());
    text
}
