//! Decimal numerals: digits without a leading zero.
ghost use Rattle.std.specs.Prelude.{◌≡◌, ◌<◌, MatchOption, true};
ghost use Rattle.std.specs.List.{list_all};
ghost use Rattle.std.specs.Char.{is_ascii_digit};
ghost use Rattle.std.specs.Str.Parse.{digits_value};
ghost use Rattle.line_text.specs.Numeral.{is_numeral};

/// Whether each byte is a decimal digit.
pub fn are_digits(text: &[u8]) -> bool
    ensures { result ≡ list_all is_ascii_digit text.now }
{
    text.iter().all(|byte| byte.is_ascii_digit())
}

/// Whether the word is decimal digits without a leading zero.
pub fn is_numeral(word: &[u8]) -> bool
    ensures { result ≡ is_numeral word.now }
{
    are_digits(word) && !word.is_empty() && (word.len() == 1 || word[0] != b'0')
}

/// The number of a numeral; `None` where it is above 4,294,967,295.
pub fn value_of(word: &[u8]) -> Option<u32>
    requires { is_numeral word.now ≡ true }
    ensures { MatchOption result (4294967295 < digits_value 10 word.now) (λ value. value ≡ digits_value 10 word.now) }
{
    let text = str::from_utf8(word).unwrap();
    text.parse::<u32>().ok()
}
