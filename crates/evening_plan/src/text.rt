//! Numbers in a part of a text.
ghost use Rattle.std.specs.Prelude.{◌≡◌, ◌+◌, ◌≤◌, ◌++◌};
ghost use Rattle.std.specs.Fmt.{decimal};
ghost use Rattle.arrayvec.specs.ArrayVec.{array_vec_len};

use itoa::Buffer;
use page_layout::{PAGE_BYTES, PageText, push_bytes};

/// Adds a number in decimal digits.
pub fn push_number(text: &mut PageText, number: u32)
    requires { array_vec_len text.old + 10 ≤ PAGE_BYTES }
    ensures text { text.new.items ≡ text.old.items ++ decimal number }
    ensures room { array_vec_len text.new ≤ array_vec_len text.old + 10 }
{
    push_bytes(text, Buffer::new().format(number).as_bytes());
}
