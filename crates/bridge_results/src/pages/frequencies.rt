//! How often each score of a board was made.
ghost use Rattle.std.specs.Prelude.{◌≤◌, length, flat_map};
ghost use Rattle.line_text.specs.Streams.{stream, Written};
ghost use Rattle.bridge_results.specs.Frequencies.{frequencies_of};
ghost use Rattle.bridge_results.specs.BoardText.{frequency_row, frequency_titles, frequencies_text};

use crate::frequency::{Frequency, frequencies};
use crate::pages::board::write_table_end;
use crate::pages::cells::gain_cell;
use crate::pages::columns::FREQUENCY_COLUMNS;
use crate::traveller::BoardLine;
use bridge_cards::Scoring;
use line_text::{number_text, signed_text, write_text};
use page_layout::{Format, PageText, push_row, push_table_start, push_titles};
use std::io::{Error, Write};

/// Writes the row of a score: how often it was made, and what each side gains by it.
fn write_frequency<W: Write>(
    format: Format,
    scoring: Scoring,
    frequency: &Frequency,
    writer: &mut W,
) -> Result<(), Error>
    ensures { Written (stream W.contents writer.old writer.new) (frequency_row format scoring frequency.now) result }
{
    let score = signed_text(i64::from(frequency.score));
    let count = number_text(u32::from(frequency.count));
    let ns_gain = gain_cell(scoring, Some(frequency.ns_gain));
    let ew_gain = gain_cell(scoring, Some(frequency.ew_gain));
    let cells = [
        score.as_str().as_bytes(),
        count.as_str().as_bytes(),
        ns_gain.as_str().as_bytes(),
        ew_gain.as_str().as_bytes(),
    ];
    let mut text = PageText::new();
    push_row(&mut text, format, &FREQUENCY_COLUMNS, &cells);
    write_text(writer, text.as_slice())
}

/// Writes what stands above the rows of frequencies.
fn write_frequency_titles<W: Write>(format: Format, writer: &mut W) -> Result<(), Error>
    ensures { Written (stream W.contents writer.old writer.new) (frequency_titles format) result }
{
    let mut text = PageText::new();
    push_table_start(&mut text, format);
    push_titles(
        &mut text,
        format,
        &FREQUENCY_COLUMNS,
        &[b"Score", b"Times", b"NS gain", b"EW gain"],
    );
    write_text(writer, text.as_slice())
}

/// Writes the rows of frequencies.
fn write_frequency_rows<W: Write>(
    format: Format,
    scoring: Scoring,
    frequencies: &[Frequency],
    writer: &mut W,
) -> Result<(), Error>
    ensures { Written (stream W.contents writer.old writer.new) (flat_map (frequency_row format scoring) frequencies.now) result }
{
    for frequency in frequencies {
        write_frequency(format, scoring, frequency, writer)?;
    }
    Ok(())
}

/// Writes frequencies.
fn write_frequencies<W: Write>(
    format: Format,
    scoring: Scoring,
    frequencies: &[Frequency],
    writer: &mut W,
) -> Result<(), Error>
    ensures { Written (stream W.contents writer.old writer.new) (frequencies_text format scoring frequencies.now) result }
{
    write_frequency_titles(format, writer)?;
    write_frequency_rows(format, scoring, frequencies, writer)?;
    write_table_end(format, writer)
}

/// Writes how often each score of these lines was made.
pub fn write_frequencies_of<W: Write>(
    format: Format,
    scoring: Scoring,
    lines: &[BoardLine],
    writer: &mut W,
) -> Result<(), Error>
    requires { length lines.now ≤ 144 }
    ensures { Written (stream W.contents writer.old writer.new) (frequencies_text format scoring (frequencies_of lines.now)) result }
{
    let made = frequencies(lines);
    write_frequencies(format, scoring, made.as_slice(), writer)
}
