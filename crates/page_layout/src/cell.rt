//! The cells of a table.
ghost use Rattle.std.specs.Prelude.{◌≡◌, ◌+◌, ◌*◌, ◌≤◌, ◌++◌, length};
ghost use Rattle.arrayvec.specs.ArrayVec.{array_vec_len};
ghost use Rattle.page_layout.specs.Table.{align_class, html_cell, plain_cell, cell_text, title_text, cell_room};

use crate::escape::push_html;
use crate::format::{Align, Column, Content, Format};
use crate::text::{PAGE_BYTES, PageText, push_blanks, push_bytes};

/// The class of a cell at that side, with the end of its tag.
pub(crate) fn align_class(align: Align) -> &'static [u8]
    ensures text { result.now ≡ align_class align }
    ensures short { length result.now ≤ 11 }
{
    match align {
        Align::Left => b">",
        Align::Right => b" class=\"r\">",
    }
}

/// Adds a cell of HTML between its tags.
fn push_html_cell(
    text: &mut PageText,
    start: &[u8],
    end: &[u8],
    align: Align,
    content: Content,
    cell: &[u8],
)
    requires start { length start.now ≤ 15 }
    requires end { length end.now ≤ 5 }
    requires room { array_vec_len text.old + (31 + 31 * length cell.now) ≤ PAGE_BYTES }
    ensures text { text.new.items ≡ text.old.items ++ html_cell start.now end.now align content cell.now }
    ensures room { array_vec_len text.new ≤ array_vec_len text.old + (31 + 31 * length cell.now) }
{
    push_bytes(text, start);
    push_bytes(text, align_class(align));
    push_html(text, content, cell);
    push_bytes(text, end);
}

/// Adds a cell of plain text: two blanks, and the text in the width of the column.
fn push_plain_cell(text: &mut PageText, width: usize, align: Align, cell: &[u8])
    requires { array_vec_len text.old + (2 + width + length cell.now) ≤ PAGE_BYTES }
    ensures text { text.new.items ≡ text.old.items ++ plain_cell width align cell.now }
    ensures room { array_vec_len text.new ≤ array_vec_len text.old + (2 + width + length cell.now) }
{
    push_bytes(text, b"  ");
    let blanks = width.saturating_sub(cell.len());
    match align {
        Align::Left => {
            push_bytes(text, cell);
            push_blanks(text, blanks);
        }
        Align::Right => {
            push_blanks(text, blanks);
            push_bytes(text, cell);
        }
    }
}

/// Adds a cell of a column.
pub fn push_cell(text: &mut PageText, format: Format, column: &Column, cell: &[u8])
    requires { array_vec_len text.old + cell_room column.now cell.now ≤ PAGE_BYTES }
    ensures text { text.new.items ≡ text.old.items ++ cell_text format column.now cell.now }
    ensures room { array_vec_len text.new ≤ array_vec_len text.old + cell_room column.now cell.now }
{
    match format {
        Format::Plain => push_plain_cell(text, column.width, column.align, cell),
        Format::Html => push_html_cell(text, b"<td", b"</td>", column.align, column.content, cell),
    }
}

/// Adds the title of a column.
pub fn push_title(text: &mut PageText, format: Format, column: &Column, title: &[u8])
    requires { array_vec_len text.old + cell_room column.now title.now ≤ PAGE_BYTES }
    ensures text { text.new.items ≡ text.old.items ++ title_text format column.now title.now }
    ensures room { array_vec_len text.new ≤ array_vec_len text.old + cell_room column.now title.now }
{
    match format {
        Format::Plain => push_plain_cell(text, column.width, column.align, title),
        Format::Html => push_html_cell(
            text,
            b"<th scope=\"col\"",
            b"</th>",
            column.align,
            Content::Words,
            title,
        ),
    }
}
