//! The date of a day.
ghost use Rattle.std.specs.Prelude.{◌≡◌, ◌↔◌, ◌/◌, pos, IsSome, IfSome};
ghost use Rattle.jiff_core.specs.Calendar.{IsEpochDay};
ghost use Rattle.evening_draft.specs.Wishing.{two_digits, date_text, IsDateAt};

use arrayvec::ArrayString;
use jiff_core::civil::Date;
use line_text::number_text;

/// The seconds of a day.
const DAY_SECONDS: u64 = 86_400;

/// The room for a date, in bytes.
const DATE_TEXT_BYTES: usize = 40;

/// A date, as `2026.03.14`.
pub type DateText = ArrayString<DATE_TEXT_BYTES>;

/// A number in two digits.
fn two_digits(number: u8) -> ArrayString<12>
    ensures { result.bytes ≡ two_digits number }
{
    let mut text = ArrayString::new();
    if number < 10 {
        text.push_str("0");
    }
    text.push_str(number_text(u32::from(number)).as_str());
    text
}

/// A date, as `2026.03.14`.
#[tactic(auto, unfolding(crate::specs::Wishing::date_text))]
fn date_text(date: Date) -> DateText
    ensures { result.bytes ≡ date_text date }
{
    let mut text = DateText::new();
    text.push_str(number_text(u32::from(date.year.unsigned_abs())).as_str());
    text.push_str(".");
    text.push_str(two_digits(date.month).as_str());
    text.push_str(".");
    text.push_str(two_digits(date.day).as_str());
    text
}

/// The date so many seconds after the beginning of 1970, by UTC, as `2026.03.14`; `None` after the year 9999.
pub fn date_at(seconds: u64) -> Option<DateText>
    ensures date { IfSome result (λ text. IsDateAt seconds text.bytes) }
    ensures within { IsSome result ↔ IsEpochDay (pos (seconds / 86400)) }
{
    match Date::from_unix_epoch_day((seconds / DAY_SECONDS) as i64) {
        Ok(date) => Some(date_text(date)),
        Err(_) => None,
    }
}
