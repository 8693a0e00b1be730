//! The ranking of a field, with the names of the pairs.
ghost use Rattle.std.specs.Prelude.{◌≡◌, ◌≤◌, ◌++◌, length, map, flat_map, unsigned_abs};
ghost use Rattle.std.specs.Fmt.{signed_decimal};
ghost use Rattle.line_text.specs.Decimals.{tenths_text as tenths};
ghost use Rattle.line_text.specs.Streams.{stream, Written};
ghost use Rattle.bridge_config.specs.ConfigValue.{pair_of};
ghost use Rattle.page_layout.specs.Page.{section_end};
ghost use Rattle.page_layout.specs.Table.{table_end};
ghost use Rattle.bridge_results.specs.RankingText.{field_words, share_row, sum_row, ranked_row, ranked_titles, field_head, field_text};

use crate::pages::columns::{SHARE_COLUMNS, SUM_COLUMNS};
use crate::pages::shown::{CELL_BYTES, names_cell};
use bridge_config::PairFields;
use bridge_ranking::Field;
use bridge_score::{Ranked, Scoring, share_percent};
use evening_draft::PairNames;
use line_text::{NumberText, number_text, percent_text, signed_text, tenths_text, write_text};
use page_layout::{
    Format, Level, PageText, Section, push_heading, push_row, push_section_end, push_section_start,
    push_table_end, push_table_start, push_titles,
};
use std::io::{Error, Write};

/// The matchpoints of a pair.
pub fn points_cell(ranked: &Ranked) -> NumberText
    ensures text { result.bytes ≡ tenths (unsigned_abs ranked.now.value) }
    ensures short { length result.bytes ≤ 22 }
{
    tenths_text(u64::from(ranked.value.unsigned_abs()))
}

/// The IMPs of a pair.
pub fn imps_cell(ranked: &Ranked) -> NumberText
    ensures text { result.bytes ≡ signed_decimal ranked.now.value }
    ensures short { length result.bytes ≤ 20 }
{
    signed_text(i64::from(ranked.value))
}

/// The row of a pair by matchpoints.
fn share_row(format: Format, names: &str, ranked: &Ranked) -> PageText
    requires { length names.now ≤ CELL_BYTES }
    ensures { result.items ≡ share_row format names.now ranked.now }
{
    let place = number_text(u32::from(ranked.place));
    let pair = number_text(u32::from(ranked.pair));
    let value = points_cell(ranked);
    let available = tenths_text(u64::from(ranked.available));
    let percent = percent_text(share_percent(ranked));
    let cells = [
        place.as_str().as_bytes(),
        pair.as_str().as_bytes(),
        names.as_bytes(),
        value.as_str().as_bytes(),
        available.as_str().as_bytes(),
        percent.as_str().as_bytes(),
    ];
    let mut text = PageText::new();
    push_row(&mut text, format, &SHARE_COLUMNS, &cells);
    text
}

/// The row of a pair by IMPs.
fn sum_row(format: Format, names: &str, ranked: &Ranked) -> PageText
    requires { length names.now ≤ CELL_BYTES }
    ensures { result.items ≡ sum_row format names.now ranked.now }
{
    let place = number_text(u32::from(ranked.place));
    let pair = number_text(u32::from(ranked.pair));
    let value = imps_cell(ranked);
    let cells = [
        place.as_str().as_bytes(),
        pair.as_str().as_bytes(),
        names.as_bytes(),
        value.as_str().as_bytes(),
    ];
    let mut text = PageText::new();
    push_row(&mut text, format, &SUM_COLUMNS, &cells);
    text
}

/// The row of a pair.
fn ranked_row(
    format: Format,
    scoring: Scoring,
    names: Option<&[PairNames]>,
    pairs: &[PairFields],
    ranked: &Ranked,
) -> PageText
    ensures { result.items ≡ ranked_row format scoring names.entry (map pair_of pairs.now) ranked.now }
{
    let cell = names_cell(format, names, pairs, ranked.pair);
    match scoring {
        Scoring::MatchPoints => share_row(format, cell.as_str(), ranked),
        Scoring::Imps => sum_row(format, cell.as_str(), ranked),
    }
}

/// Writes the row of a pair.
fn write_row<W: Write>(
    format: Format,
    scoring: Scoring,
    names: Option<&[PairNames]>,
    pairs: &[PairFields],
    ranked: &Ranked,
    writer: &mut W,
) -> Result<(), Error>
    ensures { Written (stream W.contents writer.old writer.new) (ranked_row format scoring names.entry (map pair_of pairs.now) ranked.now) result }
{
    let row = ranked_row(format, scoring, names, pairs, ranked);
    write_text(writer, row.as_slice())
}

/// Writes the rows of a ranking.
fn write_rows<W: Write>(
    format: Format,
    scoring: Scoring,
    names: Option<&[PairNames]>,
    pairs: &[PairFields],
    ranking: &[Ranked],
    writer: &mut W,
) -> Result<(), Error>
    ensures { Written (stream W.contents writer.old writer.new) (flat_map (ranked_row format scoring names.entry (map pair_of pairs.now)) ranking.now) result }
{
    for ranked in ranking {
        write_row(format, scoring, names, pairs, ranked, writer)?;
    }
    Ok(())
}

/// The heading of a field.
fn field_words(field: Field) -> &'static [u8]
    ensures text { result.now ≡ field_words field }
    ensures short { length result.now ≤ 16 }
{
    match field {
        Field::First => b"Ranking, field 1",
        Field::Second => b"Ranking, field 2",
    }
}

/// Adds the titles of a ranking.
pub fn push_ranked_titles(text: &mut PageText, format: Format, scoring: Scoring)
    requires { length text.old.items ≤ 2000 }
    ensures { text.new.items ≡ text.old.items ++ ranked_titles format scoring }
{
    match scoring {
        Scoring::MatchPoints => push_titles(
            text,
            format,
            &SHARE_COLUMNS,
            &[b"Place", b"Pair", b"Names", b"MP", b"Available", b"%"],
        ),
        Scoring::Imps => push_titles(
            text,
            format,
            &SUM_COLUMNS,
            &[b"Place", b"Pair", b"Names", b"IMPs"],
        ),
    }
}

/// Writes what stands before the rows of a ranking.
fn write_head<W: Write>(
    format: Format,
    scoring: Scoring,
    field: Field,
    writer: &mut W,
) -> Result<(), Error>
    ensures { Written (stream W.contents writer.old writer.new) (field_head format scoring field) result }
{
    let mut text = PageText::new();
    push_section_start(&mut text, format, Section::Sheet);
    push_heading(&mut text, format, Level::Sheet, field_words(field));
    push_table_start(&mut text, format);
    push_ranked_titles(&mut text, format, scoring);
    write_text(writer, text.as_slice())
}

/// Writes what stands after the rows of a ranking.
pub fn write_end<W: Write>(format: Format, writer: &mut W) -> Result<(), Error>
    ensures { Written (stream W.contents writer.old writer.new) (table_end format ++ section_end format) result }
{
    let mut text = PageText::new();
    push_table_end(&mut text, format);
    push_section_end(&mut text, format);
    write_text(writer, text.as_slice())
}

/// Writes the ranking of a field, with the names of a list or the configuration's.
pub fn write_field<W: Write>(
    format: Format,
    scoring: Scoring,
    names: Option<&[PairNames]>,
    pairs: &[PairFields],
    field: Field,
    ranking: &[Ranked],
    writer: &mut W,
) -> Result<(), Error>
    ensures { Written (stream W.contents writer.old writer.new) (field_text format scoring names.entry (map pair_of pairs.now) field ranking.now) result }
{
    write_head(format, scoring, field, writer)?;
    write_rows(format, scoring, names, pairs, ranking, writer)?;
    write_end(format, writer)
}
