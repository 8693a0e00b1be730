//! Rows of an HTML table whose cells may lead to other parts of the page.
ghost use Rattle.std.specs.Prelude.{◌≡◌, ◌+◌, ◌≤◌, ◌++◌, length, map};
ghost use Rattle.arrayvec.specs.ArrayVec.{array_vec_len};
ghost use Rattle.page_layout.specs.Linked.{link_start, link_end, linked_cell, linked_cells, linked_row, linked_cell_room, linked_row_room};

use crate::cell::align_class;
use crate::escape::push_html;
use crate::format::Column;
use crate::text::{PAGE_BYTES, PageText, push_bytes};

/// Adds what begins a link to the part of that id; no id is no link.
fn push_link_start(text: &mut PageText, target: &[u8])
    requires { array_vec_len text.old + (12 + length target.now) ≤ PAGE_BYTES }
    ensures text { text.new.items ≡ text.old.items ++ link_start target.now }
    ensures room { array_vec_len text.new ≤ array_vec_len text.old + (12 + length target.now) }
{
    if !target.is_empty() {
        push_bytes(text, b"<a href=\"#");
        push_bytes(text, target);
        push_bytes(text, b"\">");
    }
}

/// What ends a link.
fn link_end(target: &[u8]) -> &'static [u8]
    ensures text { result.now ≡ link_end target.now }
    ensures short { length result.now ≤ 4 }
{
    if target.is_empty() { b"" } else { b"</a>" }
}

/// Adds a cell of a column, that leads to a part of the page.
fn push_linked_cell(text: &mut PageText, column: &Column, target: &[u8], cell: &[u8])
    requires { array_vec_len text.old + linked_cell_room column.now target.now cell.now ≤ PAGE_BYTES }
    ensures text { text.new.items ≡ text.old.items ++ linked_cell column.now target.now cell.now }
    ensures room { array_vec_len text.new ≤ array_vec_len text.old + linked_cell_room column.now target.now cell.now }
{
    push_bytes(text, b"<td");
    push_bytes(text, align_class(column.align));
    push_link_start(text, target);
    push_html(text, column.content, cell);
    push_bytes(text, link_end(target));
    push_bytes(text, b"</td>");
}

/// Adds the cells of a row.
fn push_linked_cells(text: &mut PageText, columns: &[Column], targets: &[&[u8]], cells: &[&[u8]])
    requires targets { length columns.now ≡ length targets.now }
    requires cells { length columns.now ≡ length cells.now }
    requires room { array_vec_len text.old + linked_row_room columns.now (map (λ target. target.now) targets.now) (map (λ cell. cell.now) cells.now) ≤ PAGE_BYTES }
    ensures text { text.new.items ≡ text.old.items ++ linked_cells columns.now (map (λ target. target.now) targets.now) (map (λ cell. cell.now) cells.now) }
    ensures room { array_vec_len text.new ≤ array_vec_len text.old + linked_row_room columns.now (map (λ target. target.now) targets.now) (map (λ cell. cell.now) cells.now) }
{
    for index in 0..cells.len() {
        push_linked_cell(text, &columns[index], targets[index], cells[index]);
    }
}

/// Adds a row of cells in HTML, one for each column, each with the id of the part of the page that it leads to, or nothing.
#[tactic(auto, unfolding(crate::specs::Linked::linked_row))]
pub fn push_linked_row(text: &mut PageText, columns: &[Column], targets: &[&[u8]], cells: &[&[u8]])
    requires targets { length columns.now ≡ length targets.now }
    requires cells { length columns.now ≡ length cells.now }
    requires room { array_vec_len text.old + (10 + linked_row_room columns.now (map (λ target. target.now) targets.now) (map (λ cell. cell.now) cells.now)) ≤ PAGE_BYTES }
    ensures text { text.new.items ≡ text.old.items ++ linked_row columns.now (map (λ target. target.now) targets.now) (map (λ cell. cell.now) cells.now) }
    ensures room { array_vec_len text.new ≤ array_vec_len text.old + (10 + linked_row_room columns.now (map (λ target. target.now) targets.now) (map (λ cell. cell.now) cells.now)) }
{
    push_bytes(text, b"<tr>");
    push_linked_cells(text, columns, targets, cells);
    push_bytes(text, b"</tr>\n");
}
