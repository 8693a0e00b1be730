//! Tables: columns with or without titles, and rows of cells.
ghost use Rattle.std.specs.Prelude.{◌≡◌, ◌+◌, ◌≤◌, ◌++◌, length, map};
ghost use Rattle.arrayvec.specs.ArrayVec.{array_vec_len};
ghost use Rattle.page_layout.specs.Table.{cells_text, titles_text, row_start, row_end, row_text, title_row_start, title_row_end, title_row, table_start, table_end, row_room};

use crate::cell::{push_cell, push_title};
use crate::format::{Column, Format};
use crate::text::{PAGE_BYTES, PageText, push_bytes};

/// Adds the cells of a row.
fn push_cells(text: &mut PageText, format: Format, columns: &[Column], cells: &[&[u8]])
    requires each { length columns.now ≡ length cells.now }
    requires room { array_vec_len text.old + row_room columns.now (map (λ cell. cell.now) cells.now) ≤ PAGE_BYTES }
    ensures text { text.new.items ≡ text.old.items ++ cells_text format columns.now (map (λ cell. cell.now) cells.now) }
    ensures room { array_vec_len text.new ≤ array_vec_len text.old + row_room columns.now (map (λ cell. cell.now) cells.now) }
{
    for index in 0..cells.len() {
        push_cell(text, format, &columns[index], cells[index]);
    }
}

/// Adds the titles of columns.
fn push_title_cells(text: &mut PageText, format: Format, columns: &[Column], titles: &[&[u8]])
    requires each { length columns.now ≡ length titles.now }
    requires room { array_vec_len text.old + row_room columns.now (map (λ title. title.now) titles.now) ≤ PAGE_BYTES }
    ensures text { text.new.items ≡ text.old.items ++ titles_text format columns.now (map (λ title. title.now) titles.now) }
    ensures room { array_vec_len text.new ≤ array_vec_len text.old + row_room columns.now (map (λ title. title.now) titles.now) }
{
    for index in 0..titles.len() {
        push_title(text, format, &columns[index], titles[index]);
    }
}

/// What begins a row.
fn row_start(format: Format) -> &'static [u8]
    ensures text { result.now ≡ row_start format }
    ensures short { length result.now ≤ 4 }
{
    match format {
        Format::Plain => b"",
        Format::Html => b"<tr>",
    }
}

/// What ends a row.
fn row_end(format: Format) -> &'static [u8]
    ensures text { result.now ≡ row_end format }
    ensures short { length result.now ≤ 6 }
{
    match format {
        Format::Plain => b"\n",
        Format::Html => b"</tr>\n",
    }
}

/// Adds a row of cells, one for each column.
pub fn push_row(text: &mut PageText, format: Format, columns: &[Column], cells: &[&[u8]])
    requires each { length columns.now ≡ length cells.now }
    requires room { array_vec_len text.old + (10 + row_room columns.now (map (λ cell. cell.now) cells.now)) ≤ PAGE_BYTES }
    ensures text { text.new.items ≡ text.old.items ++ row_text format columns.now (map (λ cell. cell.now) cells.now) }
    ensures room { array_vec_len text.new ≤ array_vec_len text.old + (10 + row_room columns.now (map (λ cell. cell.now) cells.now)) }
{
    push_bytes(text, row_start(format));
    push_cells(text, format, columns, cells);
    push_bytes(text, row_end(format));
}

/// What begins the row of titles.
fn title_row_start(format: Format) -> &'static [u8]
    ensures text { result.now ≡ title_row_start format }
    ensures short { length result.now ≤ 11 }
{
    match format {
        Format::Plain => b"",
        Format::Html => b"<thead><tr>",
    }
}

/// What ends the row of titles.
fn title_row_end(format: Format) -> &'static [u8]
    ensures text { result.now ≡ title_row_end format }
    ensures short { length result.now ≤ 14 }
{
    match format {
        Format::Plain => b"\n",
        Format::Html => b"</tr></thead>\n",
    }
}

/// Adds the row of titles, one for each column.
pub fn push_titles(text: &mut PageText, format: Format, columns: &[Column], titles: &[&[u8]])
    requires each { length columns.now ≡ length titles.now }
    requires room { array_vec_len text.old + (25 + row_room columns.now (map (λ title. title.now) titles.now)) ≤ PAGE_BYTES }
    ensures text { text.new.items ≡ text.old.items ++ title_row format columns.now (map (λ title. title.now) titles.now) }
    ensures room { array_vec_len text.new ≤ array_vec_len text.old + (25 + row_room columns.now (map (λ title. title.now) titles.now)) }
{
    push_bytes(text, title_row_start(format));
    push_title_cells(text, format, columns, titles);
    push_bytes(text, title_row_end(format));
}

/// Adds what begins a table.
pub fn push_table_start(text: &mut PageText, format: Format)
    requires { array_vec_len text.old + 8 ≤ PAGE_BYTES }
    ensures text { text.new.items ≡ text.old.items ++ table_start format }
    ensures room { array_vec_len text.new ≤ array_vec_len text.old + 8 }
{
    match format {
        Format::Plain => {}
        Format::Html => push_bytes(text, b"<table>\n"),
    }
}

/// Adds what ends a table: in plain text an empty line.
pub fn push_table_end(text: &mut PageText, format: Format)
    requires { array_vec_len text.old + 9 ≤ PAGE_BYTES }
    ensures text { text.new.items ≡ text.old.items ++ table_end format }
    ensures room { array_vec_len text.new ≤ array_vec_len text.old + 9 }
{
    match format {
        Format::Plain => push_bytes(text, b"\n"),
        Format::Html => push_bytes(text, b"</table>\n"),
    }
}
