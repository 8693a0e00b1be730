//! Numbers as texts.
ghost use Rattle.std.specs.Prelude.{◌≡◌, ◌+◌, ◌/◌, ◌%◌, ◌<◌, ◌≤◌, ◌++◌, length};
ghost use Rattle.std.specs.Fmt.{decimal, signed_decimal};
ghost use Rattle.line_text.specs.Decimals.{two_digits, tenths_text, hundredths_text, percent_text};

use arrayvec::ArrayString;
use itoa::Buffer;

/// The room for the text of a number: 20 digits, a point and a decimal.
pub const NUMBER_BYTES: usize = 22;

/// The text of a number.
pub type NumberText = ArrayString<NUMBER_BYTES>;

/// A number in decimal digits.
pub fn number_text(number: u32) -> NumberText
    ensures text { result.bytes ≡ decimal number }
    ensures short { length result.bytes ≤ 10 }
{
    let mut text = NumberText::new();
    text.push_str(Buffer::new().format(number));
    text
}

/// A number in decimal digits, after a minus sign where it is below 0.
pub fn signed_text(number: i64) -> NumberText
    ensures text { result.bytes ≡ signed_decimal number }
    ensures short { length result.bytes ≤ 20 }
{
    let mut text = NumberText::new();
    text.push_str(Buffer::new().format(number));
    text
}

/// A number of tenths in units with one decimal, as `1.2`.
pub fn tenths_text(tenths: u64) -> NumberText
    ensures text { result.bytes ≡ tenths_text tenths }
    ensures short { length result.bytes ≤ 22 }
{
    let mut text = NumberText::new();
    text.push_str(Buffer::new().format(tenths / 10));
    text.push_str(".");
    text.push(char::from(b'0' + (tenths % 10) as u8));
    text
}

/// Adds a number below 100 in two digits.
fn push_two_digits(text: &mut NumberText, number: u32)
    requires small { number < 100 }
    requires room { length text.old.bytes + 2 ≤ NUMBER_BYTES }
    ensures text { text.new.bytes ≡ text.old.bytes ++ two_digits number }
{
    text.push(char::from(b'0' + (number / 10) as u8));
    text.push(char::from(b'0' + (number % 10) as u8));
}

/// A number of hundredths in units with two decimals, as `33.33`.
pub fn hundredths_text(hundredths: u32) -> NumberText
    ensures text { result.bytes ≡ hundredths_text hundredths }
    ensures short { length result.bytes ≤ 13 }
{
    let mut text = NumberText::new();
    text.push_str(Buffer::new().format(hundredths / 100));
    text.push_str(".");
    push_two_digits(&mut text, hundredths % 100);
    text
}

/// A percentage of so many hundredths with two decimals, as `33.33`, or `-` where there is none.
pub fn percent_text(hundredths: Option<u32>) -> NumberText
    ensures text { result.bytes ≡ percent_text hundredths }
    ensures short { length result.bytes ≤ 13 }
{
    match hundredths {
        Some(hundredths) => hundredths_text(hundredths),
        None => {
            let mut text = NumberText::new();
            text.push_str("-");
            text
        }
    }
}
