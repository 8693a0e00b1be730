//! A key as a slip has it.
ghost use Rattle.std.specs.Prelude.{◌≡◌, ◌+◌, ◌≤◌, ◌++◌, length};
ghost use Rattle.arrayvec.specs.ArrayVec.{array_vec_len};
ghost use Rattle.evening_slips.specs.Slips.{with_group, in_threes, key_words};

use arrayvec::ArrayVec;
use bridge_config::Key;
use line_text::number_text;

/// The room for a key, in bytes.
const KEY_BYTES: usize = 32;

/// A key as a slip has it.
pub type KeyText = ArrayVec<u8, KEY_BYTES>;

/// Adds bytes.
fn push(text: &mut KeyText, bytes: &[u8])
    requires { array_vec_len text.old + length bytes.now ≤ KEY_BYTES }
    ensures { text.new.items ≡ text.old.items ++ bytes.now }
{
    text.try_extend_from_slice(bytes).unwrap();
}

/// Adds a group of digits, behind a blank unless it is the first.
fn push_group(text: &mut KeyText, group: &[u8])
    requires { array_vec_len text.old + 1 + length group.now ≤ KEY_BYTES }
    ensures text { text.new.items ≡ with_group text.old.items group.now }
    ensures room { array_vec_len text.new ≤ array_vec_len text.old + 1 + length group.now }
{
    if !text.is_empty() {
        push(text, b" ");
    }
    push(text, group);
}

/// At most ten digits in groups of three, counted from the last.
#[tactic(auto, unfolding(crate::specs::Slips::in_threes))]
fn in_threes(digits: &[u8]) -> KeyText
    requires { length digits.now ≤ 10 }
    ensures text { result.items ≡ in_threes digits.now }
    ensures short { length result.items ≤ 14 }
{
    let count = digits.len();
    let first = count.saturating_sub(9);
    let second = count.saturating_sub(6);
    let third = count.saturating_sub(3);
    let mut text = KeyText::new();
    push_group(&mut text, &digits[..first]);
    push_group(&mut text, &digits[first..second]);
    push_group(&mut text, &digits[second..third]);
    push_group(&mut text, &digits[third..]);
    text
}

/// A key, its digits in threes.
#[tactic(auto, unfolding(crate::specs::Slips::key_words))]
pub fn key_words(key: Key) -> KeyText
    ensures text { result.items ≡ key_words key.0 }
    ensures short { length result.items ≤ 18 }
{
    let mut text = KeyText::new();
    push(&mut text, b"Key ");
    push(
        &mut text,
        in_threes(number_text(key.0).as_str().as_bytes()).as_slice(),
    );
    text
}
