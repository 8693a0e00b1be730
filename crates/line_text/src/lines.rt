//! Lines of bytes.
ghost use Rattle.std.specs.Prelude.{◌≡◌, ◌∷◌, [], MatchOption};
ghost use Rattle.std.specs.Str.Lines.{lines, strip_carriage_return};

use crate::split::split_once;

/// The most bytes of a line without its line feed. In a line of a table a carriage return before that counts, in a line of a
/// configuration it does not.
pub const LINE_BYTES: usize = 128;

/// The first line of the text, without one carriage return before its line feed, and what stands after it; `None` where the
/// text is empty.
pub fn first_line(text: &[u8]) -> Option<(&[u8], &[u8])>
    ensures { MatchOption result (lines text.now ≡ []) (λ parts. lines text.now ≡ parts.0.now ∷ lines parts.1.now) }
{
    match split_once(text, b'\n') {
        Some((line, rest)) => Some((without_return(line), rest)),
        None if text.is_empty() => None,
        None => Some((text, &text[text.len()..])),
    }
}

/// The line without one carriage return at its end.
pub fn without_return(line: &[u8]) -> &[u8]
    ensures { result.now ≡ strip_carriage_return line.now }
{
    line.strip_suffix(b"\r").unwrap_or(line)
}
