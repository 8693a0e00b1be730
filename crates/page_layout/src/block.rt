//! Headings, captions and paragraphs.
ghost use Rattle.std.specs.Prelude.{◌≡◌, ◌+◌, ◌*◌, ◌≤◌, ◌++◌, length};
ghost use Rattle.arrayvec.specs.ArrayVec.{array_vec_len};
ghost use Rattle.page_layout.specs.Table.{caption_text};
ghost use Rattle.page_layout.specs.Html.{html_text};
ghost use Rattle.page_layout.specs.declared.format.Content.TheVariants.{Words};
ghost use Rattle.page_layout.specs.Page.{block_text, heading_gap, heading_start, heading_end, heading_text, paragraph_text};

use crate::escape::push_html;
use crate::format::{Content, Format, Level};
use crate::text::{PAGE_BYTES, PageText, push_bytes};

/// Adds words of HTML between their tags.
fn push_tagged(text: &mut PageText, start: &[u8], end: &[u8], words: &[u8])
    requires { array_vec_len text.old + (length start.now + 31 * length words.now + length end.now) ≤ PAGE_BYTES }
    ensures text { text.new.items ≡ text.old.items ++ ((start.now ++ html_text Words words.now) ++ end.now) }
    ensures room { array_vec_len text.new ≤ array_vec_len text.old + (length start.now + 31 * length words.now + length end.now) }
{
    push_bytes(text, start);
    push_html(text, Content::Words, words);
    push_bytes(text, end);
}

/// Adds words on a line of their own: in HTML between their tags.
fn push_block(text: &mut PageText, format: Format, start: &[u8], end: &[u8], words: &[u8])
    requires start { length start.now ≤ 4 }
    requires end { length end.now ≤ 5 }
    requires room { array_vec_len text.old + (10 + 31 * length words.now) ≤ PAGE_BYTES }
    ensures text { text.new.items ≡ text.old.items ++ block_text format start.now end.now words.now }
    ensures room { array_vec_len text.new ≤ array_vec_len text.old + (10 + 31 * length words.now) }
{
    match format {
        Format::Plain => push_bytes(text, words),
        Format::Html => push_tagged(text, start, end, words),
    }
    push_bytes(text, b"\n");
}

/// What begins a heading in HTML.
fn heading_start(level: Level) -> &'static [u8]
    ensures text { result.now ≡ heading_start level }
    ensures short { length result.now ≡ 4 }
{
    match level {
        Level::Title => b"<h1>",
        Level::Sheet => b"<h2>",
        Level::Part => b"<h3>",
    }
}

/// What ends a heading in HTML.
fn heading_end(level: Level) -> &'static [u8]
    ensures text { result.now ≡ heading_end level }
    ensures short { length result.now ≡ 5 }
{
    match level {
        Level::Title => b"</h1>",
        Level::Sheet => b"</h2>",
        Level::Part => b"</h3>",
    }
}

/// What stands before a heading in plain text: an empty line, but for the title.
fn heading_gap(format: Format, level: Level) -> &'static [u8]
    ensures text { result.now ≡ heading_gap format level }
    ensures short { length result.now ≤ 1 }
{
    match (format, level) {
        (Format::Html, _) | (Format::Plain, Level::Title) => b"",
        (Format::Plain, Level::Sheet | Level::Part) => b"\n",
    }
}

/// Adds a heading.
pub fn push_heading(text: &mut PageText, format: Format, level: Level, words: &[u8])
    requires { array_vec_len text.old + (11 + 31 * length words.now) ≤ PAGE_BYTES }
    ensures text { text.new.items ≡ text.old.items ++ heading_text format level words.now }
    ensures room { array_vec_len text.new ≤ array_vec_len text.old + (11 + 31 * length words.now) }
{
    push_bytes(text, heading_gap(format, level));
    push_block(
        text,
        format,
        heading_start(level),
        heading_end(level),
        words,
    );
}

/// Adds the caption of a table, which stands behind what begins it. Plain text has none.
pub fn push_caption(text: &mut PageText, format: Format, words: &[u8])
    requires { array_vec_len text.old + (20 + 31 * length words.now) ≤ PAGE_BYTES }
    ensures text { text.new.items ≡ text.old.items ++ caption_text format words.now }
    ensures room { array_vec_len text.new ≤ array_vec_len text.old + (20 + 31 * length words.now) }
{
    match format {
        Format::Plain => {}
        Format::Html => push_tagged(text, b"<caption>", b"</caption>\n", words),
    }
}

/// Adds a paragraph.
pub fn push_paragraph(text: &mut PageText, format: Format, words: &[u8])
    requires { array_vec_len text.old + (10 + 31 * length words.now) ≤ PAGE_BYTES }
    ensures text { text.new.items ≡ text.old.items ++ paragraph_text format words.now }
    ensures room { array_vec_len text.new ≤ array_vec_len text.old + (10 + 31 * length words.now) }
{
    push_block(text, format, b"<p>", b"</p>", words);
}
