//! Lines of words.
ghost use Rattle.std.specs.Prelude.{◌≡◌, ◌+◌, ◌≤◌, ◌++◌, ◌∷◌, [], length};
ghost use Rattle.arrayvec.specs.ArrayVec.{array_vec_len};
ghost use Rattle.line_text.specs.Words.{spaced};
ghost use Rattle.evening_draft.specs.ConfigText.{ended, words_of};

use line_text::Five;
use page_layout::{PAGE_BYTES, PageText, push_bytes};

/// Adds a blank and a word.
fn push_word(text: &mut PageText, word: &[u8])
    requires { array_vec_len text.old + (1 + length word.now) ≤ PAGE_BYTES }
    ensures text { text.new.items ≡ text.old.items ++ (32 ∷ word.now) }
    ensures room { array_vec_len text.new ≡ array_vec_len text.old + (1 + length word.now) }
{
    text.push(b' ');
    push_bytes(text, word);
}

/// A line of a keyword and a word.
#[tactic(auto, unfolding(crate::specs::ConfigText::ended))]
pub fn line_of_two(keyword: &[u8], word: &[u8]) -> PageText
    requires keyword { length keyword.now ≤ 24 }
    requires word { length word.now ≤ 24 }
    ensures text { result.items ≡ ended (spaced (keyword.now ∷ word.now ∷ [])) }
    ensures short { array_vec_len result ≤ 50 }
{
    let mut text = PageText::new();
    push_bytes(&mut text, keyword);
    push_word(&mut text, word);
    text.push(b'\n');
    text
}

/// A line of a keyword and five words.
#[tactic(auto, unfolding(crate::specs::ConfigText::ended))]
pub fn line_of_six(keyword: &[u8], words: Five<'_>) -> PageText
    requires keyword { length keyword.now ≤ 24 }
    requires first { (length words.first.now ≤ 24) × (length words.second.now ≤ 24) }
    requires later { (length words.third.now ≤ 24) × (length words.fourth.now ≤ 24) × (length words.fifth.now ≤ 24) }
    ensures { result.items ≡ ended (spaced (keyword.now ∷ words_of words.entry)) }
{
    let mut text = PageText::new();
    push_bytes(&mut text, keyword);
    push_word(&mut text, words.first);
    push_word(&mut text, words.second);
    push_word(&mut text, words.third);
    push_word(&mut text, words.fourth);
    push_word(&mut text, words.fifth);
    text.push(b'\n');
    text
}
