//! The ranking of the pairs of several sections as a sheet, in plain text of at most 100 columns or in HTML.
ghost use Rattle.std.specs.Prelude.{◌≡◌, ◌≤◌, ◌+◌, ◌++◌, length, flat_map};
ghost use Rattle.arrayvec.specs.ArrayVec.{array_vec_len};
ghost use Rattle.line_text.specs.Streams.{stream, Written};
ghost use Rattle.page_layout.specs.Page.{section_end};
ghost use Rattle.page_layout.specs.Table.{table_end};
ghost use Rattle.bridge_config.specs.ConfigValue.{pair_names};
ghost use Rattle.event_ranking.specs.EventText.{field_words, among_words, heading_words, sheet_head, wide_row, section_row, sheet_text};

use crate::event::scoring_of;
use crate::letters::section_letters;
use crate::ranking::SectionRanked;
use crate::rows::{push_wide_titles, wide_row};
use arrayvec::ArrayVec;
use bridge_cards::Scoring;
use bridge_config::Config;
use bridge_ranking::Field;
use bridge_session::Session;
use line_text::write_text;
use page_layout::{
    Format, Level, PageText, Section, push_caption, push_heading, push_section_end,
    push_section_start, push_table_end, push_table_start,
};
use std::io::{Error, Write};

/// Among which pairs a ranking is.
#[derive(Clone, Copy, Debug, PartialEq, Eq)]
pub enum Among {
    /// Those of all sections.
    Event,
    /// Those of the section of that number, from 1.
    Section(u8),
}

/// The words of a heading.
type Words = ArrayVec<u8, 40>;

/// What a heading says of the field.
fn field_words(field: Field) -> &'static [u8]
    ensures text { result.now ≡ field_words field }
    ensures short { length result.now ≤ 9 }
{
    match field {
        Field::First => b", field 1",
        Field::Second => b", field 2",
    }
}

/// Adds words to a heading.
fn push_words(words: &mut Words, bytes: &[u8])
    requires { array_vec_len words.old + length bytes.now ≤ 40 }
    ensures text { words.new.items ≡ words.old.items ++ bytes.now }
    ensures room { array_vec_len words.new ≡ array_vec_len words.old + length bytes.now }
{
    words.try_extend_from_slice(bytes).unwrap();
}

/// What a heading says of all sections.
fn event_words() -> Words
    ensures text { result.items ≡ among_words Among.Event }
    ensures short { array_vec_len result ≤ 23 }
{
    let mut words = Words::new();
    push_words(&mut words, b"Ranking of all sections");
    words
}

/// What a heading says of a section.
fn section_words(section: u8) -> Words
    ensures text { result.items ≡ among_words (Among.Section section) }
    ensures short { array_vec_len result ≤ 23 }
{
    let mut words = Words::new();
    push_words(&mut words, b"Ranking of section ");
    push_words(&mut words, section_letters(section).as_str().as_bytes());
    words
}

/// What a heading says of the sections.
fn among_words(among: Among) -> Words
    ensures text { result.items ≡ among_words among }
    ensures short { array_vec_len result ≤ 23 }
{
    match among {
        Among::Event => event_words(),
        Among::Section(section) => section_words(section),
    }
}

/// The heading of a ranking.
fn heading_words(among: Among, field: Field) -> Words
    ensures text { result.items ≡ heading_words among field }
    ensures short { array_vec_len result ≤ 40 }
{
    let mut words = among_words(among);
    push_words(&mut words, field_words(field));
    words
}

/// Writes what stands before the rows of a ranking.
fn write_head<W: Write>(
    format: Format,
    scoring: Scoring,
    among: Among,
    field: Field,
    writer: &mut W,
) -> Result<(), Error>
    ensures { Written (stream W.contents writer.old writer.new) (sheet_head format scoring among field) result }
{
    let words = heading_words(among, field);
    let mut text = PageText::new();
    push_section_start(&mut text, format, Section::Sheet);
    push_heading(&mut text, format, Level::Sheet, words.as_slice());
    push_table_start(&mut text, format);
    push_caption(&mut text, format, words.as_slice());
    push_wide_titles(&mut text, format, scoring);
    write_text(writer, text.as_slice())
}

/// The row of a pair of a configuration.
fn row_of(format: Format, scoring: Scoring, config: &Config, ranked: &SectionRanked) -> PageText
    ensures { result.items ≡ wide_row format scoring (pair_names config.now.pairs ranked.now.pair) ranked.now }
{
    wide_row(format, scoring, config.fields().pairs.as_slice(), ranked)
}

/// The row of a pair of one of the sections.
fn section_row(
    format: Format,
    scoring: Scoring,
    sections: &[Session],
    ranked: &SectionRanked,
) -> PageText
    ensures { result.items ≡ section_row format scoring sections.now ranked.now }
{
    match sections.get(usize::from(ranked.section.saturating_sub(1))) {
        Some(session) => row_of(format, scoring, session.config(), ranked),
        None => wide_row(format, scoring, &[], ranked),
    }
}

/// Writes the row of a pair.
fn write_row<W: Write>(
    format: Format,
    scoring: Scoring,
    sections: &[Session],
    ranked: &SectionRanked,
    writer: &mut W,
) -> Result<(), Error>
    ensures { Written (stream W.contents writer.old writer.new) (section_row format scoring sections.now ranked.now) result }
{
    let row = section_row(format, scoring, sections, ranked);
    write_text(writer, row.as_slice())
}

/// Writes the rows of a ranking.
fn write_rows<W: Write>(
    format: Format,
    scoring: Scoring,
    sections: &[Session],
    ranking: &[SectionRanked],
    writer: &mut W,
) -> Result<(), Error>
    ensures { Written (stream W.contents writer.old writer.new) (flat_map (section_row format scoring sections.now) ranking.now) result }
{
    for ranked in ranking {
        write_row(format, scoring, sections, ranked, writer)?;
    }
    Ok(())
}

/// Writes what stands after the rows of a ranking.
fn write_end<W: Write>(format: Format, writer: &mut W) -> Result<(), Error>
    ensures { Written (stream W.contents writer.old writer.new) (table_end format ++ section_end format) result }
{
    let mut text = PageText::new();
    push_table_end(&mut text, format);
    push_section_end(&mut text, format);
    write_text(writer, text.as_slice())
}

/// Writes a ranking of the pairs of these sections as a sheet: a row for each, in order, with its section and its names. It takes no
/// memory.
///
/// It stops at the writer's first error, or with `WriteZero` where a write takes no byte: the writer then has a prefix of the text.
pub fn write_ranking<W: Write>(
    format: Format,
    sections: &[Session],
    among: Among,
    field: Field,
    ranking: &[SectionRanked],
    writer: &mut W,
) -> Result<(), Error>
    ensures { Written (stream W.contents writer.old writer.new) (sheet_text format sections.now among field ranking.now) result }
{
    let scoring = scoring_of(sections);
    write_head(format, scoring, among, field, writer)?;
    write_rows(format, scoring, sections, ranking, writer)?;
    write_end(format, writer)
}
