//! The fields of a row.
ghost use Rattle.std.specs.Prelude.{◌≡◌, ◌≤◌, ◌+◌, ◌++◌, length};
ghost use Rattle.std.specs.Fmt.{decimal};
ghost use Rattle.arrayvec.specs.ArrayVec.{array_vec_len};
ghost use Rattle.bridge_results.specs.TablesText.{after_comma};

use line_text::number_text;
use page_layout::{PageText, push_bytes};

/// Adds a field behind a comma.
pub fn push_field(text: &mut PageText, field: &[u8])
    requires room { array_vec_len text.old ≤ 2000 }
    requires short { length field.now ≤ 60 }
    ensures text { text.new.items ≡ text.old.items ++ after_comma field.now }
    ensures room { array_vec_len text.new ≤ array_vec_len text.old + 61 }
{
    push_bytes(text, b",");
    push_bytes(text, field);
}

/// Adds a number behind a comma.
pub fn push_number(text: &mut PageText, number: u8)
    requires { array_vec_len text.old ≤ 2000 }
    ensures text { text.new.items ≡ text.old.items ++ after_comma (decimal number) }
    ensures room { array_vec_len text.new ≤ array_vec_len text.old + 61 }
{
    push_field(text, number_text(u32::from(number)).as_str().as_bytes());
}
