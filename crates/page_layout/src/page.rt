//! A page: its head, its sections and its end.
ghost use Rattle.std.specs.Prelude.{◌≡◌, ◌+◌, ◌*◌, ◌≤◌, ◌++◌, length};
ghost use Rattle.arrayvec.specs.ArrayVec.{array_vec_len};
ghost use Rattle.page_layout.specs.Page.{page_start, page_end, section_class, section_start, section_end};

use crate::escape::push_html;
use crate::format::{Content, Format, Section};
use crate::style::{PAGE_START, PAGE_STYLE};
use crate::text::{PAGE_BYTES, PageText, push_bytes};

/// Adds what begins a page of that title: in HTML its head and its style, in plain text nothing.
pub fn push_page_start(text: &mut PageText, format: Format, title: &[u8])
    requires { array_vec_len text.old + (8192 + 31 * length title.now) ≤ PAGE_BYTES }
    ensures text { text.new.items ≡ text.old.items ++ page_start format title.now }
    ensures room { array_vec_len text.new ≤ array_vec_len text.old + (8192 + 31 * length title.now) }
{
    match format {
        Format::Plain => {}
        Format::Html => {
            push_bytes(text, PAGE_START);
            push_html(text, Content::Words, title);
            push_bytes(text, PAGE_STYLE);
        }
    }
}

/// Adds what ends a page.
pub fn push_page_end(text: &mut PageText, format: Format)
    requires { array_vec_len text.old + 16 ≤ PAGE_BYTES }
    ensures text { text.new.items ≡ text.old.items ++ page_end format }
    ensures room { array_vec_len text.new ≤ array_vec_len text.old + 16 }
{
    match format {
        Format::Plain => {}
        Format::Html => push_bytes(text, b"</body>\n</html>\n"),
    }
}

/// The class of a section, by which it is printed.
fn section_class(section: Section) -> &'static [u8]
    ensures text { result.now ≡ section_class section }
    ensures short { length result.now ≤ 9 }
{
    match section {
        Section::Sheet => b"sheet",
        Section::Traveller => b"traveller",
        Section::ScoreCard => b"card",
    }
}

/// Adds what begins a section.
pub fn push_section_start(text: &mut PageText, format: Format, section: Section)
    requires { array_vec_len text.old + 28 ≤ PAGE_BYTES }
    ensures text { text.new.items ≡ text.old.items ++ section_start format section }
    ensures room { array_vec_len text.new ≤ array_vec_len text.old + 28 }
{
    match format {
        Format::Plain => {}
        Format::Html => {
            push_bytes(text, b"<section class=\"");
            push_bytes(text, section_class(section));
            push_bytes(text, b"\">\n");
        }
    }
}

/// Adds what ends a section.
pub fn push_section_end(text: &mut PageText, format: Format)
    requires { array_vec_len text.old + 11 ≤ PAGE_BYTES }
    ensures text { text.new.items ≡ text.old.items ++ section_end format }
    ensures room { array_vec_len text.new ≤ array_vec_len text.old + 11 }
{
    match format {
        Format::Plain => {}
        Format::Html => push_bytes(text, b"</section>\n"),
    }
}
