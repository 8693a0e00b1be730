//! The line that answers a refused line.
ghost use Rattle.std.specs.Prelude.{◌≡◌, ◌+◌, ◌≤◌, ◌++◌, length};
ghost use Rattle.arrayvec.specs.ArrayString.{array_string_len};
ghost use Rattle.line_text.specs.Refusal.{refusal_line};

use arrayvec::ArrayString;
use itoa::Buffer;

/// Adds the line of a refusal: `ERR`, its number and its name.
pub fn push_refusal<const N: usize>(text: &mut ArrayString<N>, number: u8, name: &str)
    requires { array_string_len text.old + (9 + length name.now) ≤ N }
    ensures line { text.new.bytes ≡ text.old.bytes ++ refusal_line number name.now }
    ensures room { array_string_len text.new ≤ array_string_len text.old + (9 + length name.now) }
{
    text.push_str("ERR ");
    text.push_str(Buffer::new().format(number));
    text.push_str(" ");
    text.push_str(name);
    text.push_str("\n");
}
