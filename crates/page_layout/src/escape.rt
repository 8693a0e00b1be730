//! Texts in HTML.
ghost use Rattle.std.specs.Prelude.{◌≡◌, ◌+◌, ◌*◌, ◌≤◌, ◌++◌, length};
ghost use Rattle.arrayvec.specs.ArrayVec.{array_vec_len};
ghost use Rattle.page_layout.specs.Html.{escaped_byte, suited_byte, html_byte, html_text};

use crate::format::Content;
use crate::text::{PAGE_BYTES, PageText, push_bytes};

/// The most bytes that one is written as.
pub const BYTE_ROOM: usize = 31;

/// Adds a byte that is no mark of HTML.
fn push_escaped(text: &mut PageText, byte: u8)
    requires { array_vec_len text.old + 6 ≤ PAGE_BYTES }
    ensures text { text.new.items ≡ text.old.items ++ escaped_byte byte }
    ensures room { array_vec_len text.new ≤ array_vec_len text.old + 6 }
{
    match byte {
        b'&' => push_bytes(text, b"&amp;"),
        b'<' => push_bytes(text, b"&lt;"),
        b'>' => push_bytes(text, b"&gt;"),
        b'"' => push_bytes(text, b"&quot;"),
        b'\'' => push_bytes(text, b"&#39;"),
        other => text.push(other),
    }
}

/// Adds a byte, or the symbol of a suit for its letter.
fn push_suited(text: &mut PageText, byte: u8)
    requires { array_vec_len text.old + BYTE_ROOM ≤ PAGE_BYTES }
    ensures text { text.new.items ≡ text.old.items ++ suited_byte byte }
    ensures room { array_vec_len text.new ≤ array_vec_len text.old + BYTE_ROOM }
{
    match byte {
        b'S' => push_bytes(text, b"<span class=\"s\">&spades;</span>"),
        b'H' => push_bytes(text, b"<span class=\"h\">&hearts;</span>"),
        b'D' => push_bytes(text, b"<span class=\"d\">&diams;</span>"),
        b'C' => push_bytes(text, b"<span class=\"c\">&clubs;</span>"),
        other => push_escaped(text, other),
    }
}

/// Adds a byte of a text of that content.
fn push_html_byte(text: &mut PageText, content: Content, byte: u8)
    requires { array_vec_len text.old + BYTE_ROOM ≤ PAGE_BYTES }
    ensures text { text.new.items ≡ text.old.items ++ html_byte content byte }
    ensures room { array_vec_len text.new ≤ array_vec_len text.old + BYTE_ROOM }
{
    match content {
        Content::Words => push_escaped(text, byte),
        Content::Cards => push_suited(text, byte),
    }
}

/// Adds a text of that content, as HTML shows it.
pub fn push_html(text: &mut PageText, content: Content, words: &[u8])
    requires { array_vec_len text.old + BYTE_ROOM * length words.now ≤ PAGE_BYTES }
    ensures text { text.new.items ≡ text.old.items ++ html_text content words.now }
    ensures room { array_vec_len text.new ≤ array_vec_len text.old + BYTE_ROOM * length words.now }
{
    for byte in words {
        push_html_byte(text, content, *byte);
    }
}
