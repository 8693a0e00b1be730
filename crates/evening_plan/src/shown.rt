//! A line as it can be shown.
ghost use Rattle.std.specs.Prelude.{◌≡◌, ◌+◌, ◌*◌, ◌<◌, ◌≤◌, ◌++◌, length, flat_map};
ghost use Rattle.std.specs.Option.{option_map};
ghost use Rattle.arrayvec.specs.ArrayVec.{array_vec_len};
ghost use Rattle.line_text.specs.Streams.{stream, Written};
ghost use Rattle.evening_plan.specs.Shown.{hex_digit, shown_byte, shown_text, shown_words, shown_line};

use crate::text::push_number;
use line_text::write_text;
use page_layout::{PAGE_BYTES, PageText, push_bytes};
use std::io::{Error, Write};

/// The most bytes of a line that are shown.
const SHOWN_BYTES: usize = 80;

/// A digit of base 16.
fn hex_digit(digit: u8) -> u8
    requires { digit < 16 }
    ensures { result ≡ hex_digit digit }
{
    if digit < 10 { 48 + digit } else { 55 + digit }
}

/// Adds a printable byte of ASCII as it is, and any other as its number in base 16, as `<0D>`.
fn push_shown_byte(text: &mut PageText, byte: u8)
    requires { array_vec_len text.old + 4 ≤ PAGE_BYTES }
    ensures text { text.new.items ≡ text.old.items ++ shown_byte byte }
    ensures room { array_vec_len text.new ≤ array_vec_len text.old + 4 }
{
    if 32 <= byte && byte <= 126 {
        text.push(byte);
    } else {
        push_bytes(
            text,
            &[b'<', hex_digit(byte / 16), hex_digit(byte % 16), b'>'],
        );
    }
}

/// Adds bytes as they can be shown.
fn push_shown_bytes(text: &mut PageText, bytes: &[u8])
    requires { array_vec_len text.old + 4 * length bytes.now ≤ PAGE_BYTES }
    ensures text { text.new.items ≡ text.old.items ++ flat_map shown_byte bytes.now }
    ensures room { array_vec_len text.new ≤ array_vec_len text.old + 4 * length bytes.now }
{
    for byte in bytes {
        push_shown_byte(text, *byte);
    }
}

/// Adds the first 80 bytes of a line, and a mark where there are more.
fn push_shown_text(text: &mut PageText, line: &[u8])
    requires { array_vec_len text.old + 323 ≤ PAGE_BYTES }
    ensures text { text.new.items ≡ text.old.items ++ shown_text line.now }
    ensures room { array_vec_len text.new ≤ array_vec_len text.old + 323 }
{
    push_shown_bytes(text, &line[..line.len().min(SHOWN_BYTES)]);
    if line.len() > SHOWN_BYTES {
        push_bytes(text, b" ..");
    }
}

/// Adds the line itself, where there is one.
fn push_shown_words(text: &mut PageText, line: Option<&[u8]>)
    requires { array_vec_len text.old + 323 ≤ PAGE_BYTES }
    ensures text { text.new.items ≡ text.old.items ++ shown_words (option_map (λ shown. shown.now) line.entry) }
    ensures room { array_vec_len text.new ≤ array_vec_len text.old + 323 }
{
    match line {
        Some(line) => push_shown_text(text, line),
        None => push_bytes(text, b"(none)"),
    }
}

/// The line of that number.
#[tactic(auto, unfolding(crate::specs::Shown::shown_line))]
fn shown_line(number: u32, line: Option<&[u8]>) -> PageText
    ensures { result.items ≡ shown_line number (option_map (λ shown. shown.now) line.entry) }
{
    let mut text = PageText::new();
    push_bytes(&mut text, b"line ");
    push_number(&mut text, number);
    push_bytes(&mut text, b": ");
    push_shown_words(&mut text, line);
    push_bytes(&mut text, b"\n");
    text
}

/// Writes the line of that number.
pub fn write_shown<W: Write>(number: u32, line: Option<&[u8]>, writer: &mut W) -> Result<(), Error>
    ensures { Written (stream W.contents writer.old writer.new) (shown_line number (option_map (λ shown. shown.now) line.entry)) result }
{
    let text = shown_line(number, line);
    write_text(writer, text.as_slice())
}
