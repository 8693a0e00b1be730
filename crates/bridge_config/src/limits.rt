//! The limits of names, dates and keys.
ghost use Rattle.std.specs.Prelude.{◌≡◌, ◌↔◌, IsTrue, map, length, Some, None, if◌then◌else◌};
ghost use Rattle.std.specs.Option.{option_map};
ghost use Rattle.std.specs.List.{list_all};
ghost use Rattle.bridge_config.specs.ConfigValue.{key_number};
ghost use Rattle.bridge_config.specs.Limits.{is_name_byte, is_name, is_date_form, is_date_within, number_of_digits, stands_in, AreKeys};

use crate::fields::{DATE_BYTES, Key, NAME_BYTES};
use arrayvec::ArrayString;
use line_text::{are_digits, inline};

/// Whether the byte may stand in a name.
fn is_name_byte(byte: u8) -> bool
    ensures { result ≡ is_name_byte byte }
{
    byte.is_ascii_alphanumeric() || byte == b'.' || byte == b'-' || byte == b'_'
}

/// Whether each of the bytes may stand in a name.
fn are_name_bytes(text: &[u8]) -> bool
    ensures { result ≡ list_all is_name_byte text.now }
{
    text.iter().all(|byte| is_name_byte(*byte))
}

/// Whether the bytes are a name.
pub fn is_name(text: &[u8]) -> bool
    ensures { result ≡ is_name text.now }
{
    are_name_bytes(text) && !text.is_empty() && text.len() <= NAME_BYTES
}

/// The name that the bytes are, of 1 to 24 ASCII letters, digits, dots, hyphens and underscores; `None` where they are none.
pub fn read_name(text: &[u8]) -> Option<ArrayString<NAME_BYTES>>
    ensures { option_map (λ name. name.bytes) result ≡ (if is_name text.now then Some text.now else None) }
{
    if is_name(text) {
        Some(inline(text))
    } else {
        None
    }
}

/// The date that the bytes are by their form, whether there is such a day or not; `None` where they are none.
pub fn read_date(text: &[u8]) -> Option<ArrayString<DATE_BYTES>>
    ensures { option_map (λ date. date.bytes) result ≡ (if is_date_form text.now then Some text.now else None) }
{
    if is_date_form(text) {
        Some(inline(text))
    } else {
        None
    }
}

/// Whether the bytes have a date's form: four, two and two digits with dots between.
pub fn is_date_form(text: &[u8]) -> bool
    ensures { result ≡ is_date_form text.now }
{
    text.len() == DATE_BYTES
        && text[4] == b'.'
        && text[7] == b'.'
        && are_digits(&text[..4])
        && are_digits(&text[5..7])
        && are_digits(&text[8..])
}

/// Whether the month is from 01 to 12 and the day from 01 to 31.
pub fn is_date_within(date: &[u8]) -> bool
    requires { length date.now ≡ DATE_BYTES }
    ensures { result ≡ is_date_within date.now }
{
    (1..=12).contains(&number_of_digits(date[5], date[6]))
        && (1..=31).contains(&number_of_digits(date[8], date[9]))
}

/// The number of two digits.
fn number_of_digits(tens: u8, ones: u8) -> u32
    ensures { result ≡ number_of_digits tens ones }
{
    10 * u32::from(tens.saturating_sub(b'0')) + u32::from(ones.saturating_sub(b'0'))
}

/// Whether no key stands twice.
pub fn are_keys(keys: &[u32]) -> bool
    ensures { IsTrue result ↔ AreKeys keys.now }
{
    for (index, key) in keys.iter().enumerate() {
        let (_, later) = keys.split_at(index + 1);
        if later.contains(key) {
            return false;
        }
    }
    true
}

/// Whether the key is among those.
pub fn stands_in(keys: &[Key], key: Key) -> bool
    ensures { result ≡ stands_in (map key_number keys.now) (key_number key) }
{
    keys.contains(&key)
}
