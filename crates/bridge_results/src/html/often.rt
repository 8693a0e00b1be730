//! How often each score of a board was made, as bars, in HTML.
ghost use Rattle.std.specs.Prelude.{◌≡◌, ◌+◌, ◌≤◌, ◌++◌, length, flat_map};
ghost use Rattle.std.specs.Fmt.{signed_decimal};
ghost use Rattle.arrayvec.specs.ArrayVec.{array_vec_len};
ghost use Rattle.line_text.specs.Streams.{stream, Written};
ghost use Rattle.page_layout.specs.Table.{table_end};
ghost use Rattle.page_layout.specs.declared.format.Format.TheVariants.{Html};
ghost use Rattle.bridge_results.specs.HtmlOften.{rect, bar, often_row, often_head, often_table, often_html};

use crate::frequency::{Frequency, frequencies};
use crate::pages::board::write_table_end;
use crate::traveller::BoardLine;
use line_text::{NumberText, number_text, signed_text, write_text};
use page_layout::{Format, PageText, push_bytes};
use std::io::{Error, Write};

/// Adds a part of a bar, so many parts wide.
fn push_rect(text: &mut PageText, width: u32)
    requires { array_vec_len text.old ≤ 1000 }
    ensures text { text.new.items ≡ text.old.items ++ rect width }
    ensures room { array_vec_len text.new ≤ array_vec_len text.old + 40 }
{
    let width = number_text(width);
    push_bytes(text, b"<rect width=\"");
    push_bytes(text, width.as_str().as_bytes());
    push_bytes(text, b"\" height=\"1\"/>");
}

/// Adds a bar of so many parts, of which the first ones are filled.
fn push_bar(text: &mut PageText, parts: u32, filled: u32)
    requires { array_vec_len text.old ≤ 500 }
    ensures text { text.new.items ≡ text.old.items ++ bar parts filled }
    ensures room { array_vec_len text.new ≤ array_vec_len text.old + 200 }
{
    let width = number_text(parts);
    push_bytes(text, b"<svg viewBox=\"0 0 ");
    push_bytes(text, width.as_str().as_bytes());
    push_bytes(
        text,
        b" 1\" preserveAspectRatio=\"none\" aria-hidden=\"true\">",
    );
    push_rect(text, parts);
    push_rect(text, filled);
    push_bytes(text, b"</svg>");
}

/// A score.
fn score_text(frequency: &Frequency) -> NumberText
    ensures text { result.bytes ≡ signed_decimal frequency.now.score }
    ensures short { length result.bytes ≤ 20 }
{
    signed_text(i64::from(frequency.score))
}

/// Writes the row of a score of a board of so many plays.
#[tactic(auto, unfolding(crate::specs::HtmlOften::often_row))]
fn write_row<W: Write>(plays: u32, frequency: &Frequency, writer: &mut W) -> Result<(), Error>
    ensures { Written (stream W.contents writer.old writer.new) (often_row plays frequency.now) result }
{
    let score = score_text(frequency);
    let count = u32::from(frequency.count);
    let times = number_text(count);
    let mut text = PageText::new();
    push_bytes(&mut text, b"<tr><th scope=\"row\" class=\"r\">");
    push_bytes(&mut text, score.as_str().as_bytes());
    push_bytes(&mut text, b"</th><td>");
    push_bar(&mut text, plays, count);
    push_bytes(&mut text, b"</td><td>");
    push_bytes(&mut text, times.as_str().as_bytes());
    push_bytes(&mut text, b"&times;</td></tr>\n");
    write_text(writer, text.as_slice())
}

/// Writes the rows of the scores of so many plays.
fn write_rows<W: Write>(plays: u32, frequencies: &[Frequency], writer: &mut W) -> Result<(), Error>
    ensures { Written (stream W.contents writer.old writer.new) (flat_map (often_row plays) frequencies.now) result }
{
    for frequency in frequencies {
        write_row(plays, frequency, writer)?;
    }
    Ok(())
}

/// Writes what stands above the rows.
#[tactic(auto, unfolding(crate::specs::HtmlOften::often_head))]
fn write_head<W: Write>(writer: &mut W) -> Result<(), Error>
    ensures { Written (stream W.contents writer.old writer.new) often_head result }
{
    write_text(
        writer,
        b"<table class=\"often\">\n<caption>How often</caption>\n",
    )
}

/// Writes the table of scores of so many plays.
fn write_bars<W: Write>(plays: u32, frequencies: &[Frequency], writer: &mut W) -> Result<(), Error>
    ensures { Written (stream W.contents writer.old writer.new) (often_head ++ (flat_map (often_row plays) frequencies.now ++ table_end Html)) result }
{
    write_head(writer)?;
    write_rows(plays, frequencies, writer)?;
    write_table_end(Format::Html, writer)
}

/// Writes the table of scores of so many plays, if there is one.
fn write_table<W: Write>(plays: u32, frequencies: &[Frequency], writer: &mut W) -> Result<(), Error>
    ensures { Written (stream W.contents writer.old writer.new) (often_table plays frequencies.now) result }
{
    if frequencies.is_empty() {
        return write_text(writer, b"");
    }
    write_bars(plays, frequencies, writer)
}

/// Writes how often each score of these lines was made.
pub fn write_often<W: Write>(lines: &[BoardLine], writer: &mut W) -> Result<(), Error>
    requires { length lines.now ≤ 144 }
    ensures { Written (stream W.contents writer.old writer.new) (often_html lines.now) result }
{
    let made = frequencies(lines);
    write_table(lines.len() as u32, made.as_slice(), writer)
}
