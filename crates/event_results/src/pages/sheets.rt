//! The rankings over all sections, and those of each section.
ghost use Rattle.std.specs.Prelude.{◌≤◌, ◌<◌, length, flat_map};
ghost use Rattle.std.specs.List.{range_with_len};
ghost use Rattle.line_text.specs.Streams.{stream, Written};
ghost use Rattle.event_results.specs.EventPage.{ranked_sheet, both_sheets, section_sheets, all_sheets};

use crate::rankings::FieldRankings;
use bridge_ranking::Field;
use bridge_session::Session;
use event_ranking::{Among, SectionRanked, write_ranking};
use line_text::write_text;
use page_layout::Format;
use std::io::{Error, Write};

/// Writes a ranking as a sheet, if it has a line.
fn write_ranked<W: Write>(
    format: Format,
    sections: &[Session],
    among: Among,
    field: Field,
    ranking: &[SectionRanked],
    writer: &mut W,
) -> Result<(), Error>
    ensures { Written (stream W.contents writer.old writer.new) (ranked_sheet format sections.now among field ranking.now) result }
{
    if ranking.is_empty() {
        return write_text(writer, b"");
    }
    write_ranking(format, sections, among, field, ranking, writer)
}

/// Writes the rankings of both fields.
fn write_both<W: Write>(
    format: Format,
    sections: &[Session],
    among: Among,
    first: &[SectionRanked],
    second: &[SectionRanked],
    writer: &mut W,
) -> Result<(), Error>
    ensures { Written (stream W.contents writer.old writer.new) (both_sheets format sections.now among first.now second.now) result }
{
    write_ranked(format, sections, among, Field::First, first, writer)?;
    write_ranked(format, sections, among, Field::Second, second, writer)
}

/// Writes the rankings of the section at an index.
fn write_section<W: Write>(
    format: Format,
    sections: &[Session],
    first: &FieldRankings,
    second: &FieldRankings,
    index: usize,
    writer: &mut W,
) -> Result<(), Error>
    requires { index < 40 }
    ensures { Written (stream W.contents writer.old writer.new) (section_sheets format sections.now first.now second.now index) result }
{
    let among = Among::Section(index as u8 + 1);
    let (first, second) = (first.of_section(index), second.of_section(index));
    write_both(format, sections, among, first, second, writer)
}

/// Writes the rankings of the sections, by number.
fn write_sections<W: Write>(
    format: Format,
    sections: &[Session],
    first: &FieldRankings,
    second: &FieldRankings,
    writer: &mut W,
) -> Result<(), Error>
    requires { length sections.now ≤ 40 }
    ensures { Written (stream W.contents writer.old writer.new) (flat_map (section_sheets format sections.now first.now second.now) (range_with_len 0 (length sections.now))) result }
{
    for index in 0..sections.len() {
        write_section(format, sections, first, second, index, writer)?;
    }
    Ok(())
}

/// Writes the rankings of both fields over all sections, and those of each section.
pub fn write_sheets<W: Write>(
    format: Format,
    sections: &[Session],
    first: &FieldRankings,
    second: &FieldRankings,
    writer: &mut W,
) -> Result<(), Error>
    requires { length sections.now ≤ 40 }
    ensures { Written (stream W.contents writer.old writer.new) (all_sheets format sections.now first.now second.now) result }
{
    let (all, others) = (first.over_all(), second.over_all());
    write_both(format, sections, Among::Event, all, others, writer)?;
    write_sections(format, sections, first, second, writer)
}
