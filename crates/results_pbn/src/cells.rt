//! The cells of a row.
ghost use Rattle.std.specs.Prelude.{◌≡◌, ◌+◌, ◌≤◌, ◌++◌, length, replicate};
ghost use Rattle.arrayvec.specs.ArrayVec.{array_vec_len};
ghost use Rattle.page_layout.specs.declared.format.Align.TheVariants.{Right};
ghost use Rattle.page_layout.specs.Table.{in_width};
ghost use Rattle.results_pbn.specs.Cells.{or_dash, right_cell, left_cell};

use page_layout::{PAGE_BYTES, PageText, push_bytes};

/// Adds so many blanks.
pub fn push_blanks(text: &mut PageText, count: usize)
    requires { array_vec_len text.old + count ≤ PAGE_BYTES }
    ensures text { text.new.items ≡ text.old.items ++ replicate count 32 }
    ensures room { array_vec_len text.new ≡ array_vec_len text.old + count }
{
    for _blank in 0..count {
        text.push(b' ');
    }
}

/// A text, or a dash where it is empty.
fn or_dash(text: &[u8]) -> &[u8]
    ensures text { result.now ≡ or_dash text.now }
    ensures short { length result.now ≤ length text.now + 1 }
{
    if text.is_empty() { b"-" } else { text }
}

/// Adds a text at the right of so many columns.
pub fn push_right(text: &mut PageText, width: usize, cell: &[u8])
    requires room { array_vec_len text.old ≤ 2000 }
    requires width { width ≤ 7 }
    requires short { length cell.now ≤ 61 }
    ensures text { text.new.items ≡ text.old.items ++ in_width width Right cell.now }
    ensures room { array_vec_len text.new ≤ array_vec_len text.old + 67 }
{
    push_blanks(text, width.saturating_sub(cell.len()));
    push_bytes(text, cell);
}

/// Adds a cell at the right of its column, behind a blank.
pub fn push_right_cell(text: &mut PageText, width: usize, cell: &[u8])
    requires room { array_vec_len text.old ≤ 1900 }
    requires width { width ≤ 7 }
    requires short { length cell.now ≤ 60 }
    ensures text { text.new.items ≡ text.old.items ++ right_cell width cell.now }
    ensures room { array_vec_len text.new ≤ array_vec_len text.old + 70 }
{
    push_bytes(text, b" ");
    push_right(text, width, or_dash(cell));
}

/// Adds a cell at the left of its column, behind a blank.
pub fn push_left_cell(text: &mut PageText, width: usize, cell: &[u8])
    requires room { array_vec_len text.old ≤ 1900 }
    requires width { width ≤ 6 }
    requires short { length cell.now ≤ 60 }
    ensures text { text.new.items ≡ text.old.items ++ left_cell width cell.now }
    ensures room { array_vec_len text.new ≤ array_vec_len text.old + 70 }
{
    let shown = or_dash(cell);
    push_bytes(text, b" ");
    push_bytes(text, shown);
    push_blanks(text, width.saturating_sub(shown.len()));
}
