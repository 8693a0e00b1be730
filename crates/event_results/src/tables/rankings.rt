//! The rankings over all sections as a table.
ghost use Rattle.std.specs.Prelude.{◌≡◌, ◌≤◌, map, flat_map};
ghost use Rattle.arrayvec.specs.ArrayVec.{array_vec_len};
ghost use Rattle.line_text.specs.Streams.{stream, Written};
ghost use Rattle.bridge_config.specs.ConfigValue.{pair_of};
ghost use Rattle.bridge_ranking.specs.declared.field.Field.TheVariants.{First, Second};
ghost use Rattle.event_ranking.specs.EventRanking.{scoring_of};
ghost use Rattle.event_results.specs.EventTables.{pair_fields, ranked_fields, ranked_row, field_rows, ranking_titles, rankings_table, WritesEventRankings};

use crate::results::EventResults;
use crate::tables::section::section_field;
use bridge_cards::Scoring;
use bridge_config::{Config, PairFields, player_name};
use bridge_ranking::Field;
use bridge_results::tables::fields::{push_field, push_number};
use bridge_results::tables::rankings::{field_number, value_fields};
use bridge_session::Session;
use event_ranking::{SectionRanked, scoring_of};
use line_text::{number_text, write_text};
use page_layout::{PageText, push_bytes};
use std::io::{Error, Write};

/// The section, the field, the place, the pair, and the names of its players.
#[tactic(auto, unfolding(crate::specs::EventTables::pair_fields))]
fn pair_fields(pairs: &[PairFields], field: Field, ranked: &SectionRanked) -> PageText
    ensures text { result.items ≡ pair_fields (map pair_of pairs.now) field ranked.now }
    ensures short { array_vec_len result ≤ 300 }
{
    let first = player_name(pairs, ranked.pair, true);
    let second = player_name(pairs, ranked.pair, false);
    let place = number_text(u32::from(ranked.place));
    let mut text = section_field(ranked.section);
    push_bytes(&mut text, field_number(field));
    push_field(&mut text, place.as_str().as_bytes());
    push_number(&mut text, ranked.pair);
    push_field(&mut text, first.as_bytes());
    push_field(&mut text, second.as_bytes());
    text
}

/// The row of a pair, with its names among these pairs of its section.
#[tactic(auto, unfolding(crate::specs::EventTables::ranked_fields))]
fn ranked_fields(
    scoring: Scoring,
    pairs: &[PairFields],
    field: Field,
    ranked: &SectionRanked,
) -> PageText
    ensures { result.items ≡ ranked_fields scoring (map pair_of pairs.now) field ranked.now }
{
    let mut text = pair_fields(pairs, field, ranked);
    push_bytes(
        &mut text,
        value_fields(scoring, &ranked.unplaced()).as_slice(),
    );
    push_bytes(&mut text, b"\r\n");
    text
}

/// The row of a pair of a configuration.
fn row_of(scoring: Scoring, config: &Config, field: Field, ranked: &SectionRanked) -> PageText
    ensures { result.items ≡ ranked_fields scoring config.now.pairs field ranked.now }
{
    ranked_fields(scoring, config.fields().pairs.as_slice(), field, ranked)
}

/// The row of a pair of one of the sections.
fn ranked_row(
    scoring: Scoring,
    sections: &[Session],
    field: Field,
    ranked: &SectionRanked,
) -> PageText
    ensures { result.items ≡ ranked_row scoring sections.now field ranked.now }
{
    match sections.get(usize::from(ranked.section.saturating_sub(1))) {
        Some(session) => row_of(scoring, session.config(), field, ranked),
        None => ranked_fields(scoring, &[], field, ranked),
    }
}

/// Writes the row of a pair.
fn write_row<W: Write>(
    scoring: Scoring,
    sections: &[Session],
    field: Field,
    ranked: &SectionRanked,
    writer: &mut W,
) -> Result<(), Error>
    ensures { Written (stream W.contents writer.old writer.new) (ranked_row scoring sections.now field ranked.now) result }
{
    let row = ranked_row(scoring, sections, field, ranked);
    write_text(writer, row.as_slice())
}

/// Writes the rows of a ranking.
fn write_rows<W: Write>(
    scoring: Scoring,
    sections: &[Session],
    field: Field,
    ranking: &[SectionRanked],
    writer: &mut W,
) -> Result<(), Error>
    ensures { Written (stream W.contents writer.old writer.new) (flat_map (ranked_row scoring sections.now field) ranking.now) result }
{
    for ranked in ranking {
        write_row(scoring, sections, field, ranked, writer)?;
    }
    Ok(())
}

/// Writes the rows of a field.
fn write_field<W: Write>(
    sections: &[Session],
    field: Field,
    ranking: &[SectionRanked],
    writer: &mut W,
) -> Result<(), Error>
    ensures { Written (stream W.contents writer.old writer.new) (field_rows sections.now field ranking.now) result }
{
    write_rows(scoring_of(sections), sections, field, ranking, writer)
}

/// Writes what stands above the rows.
fn write_titles<W: Write>(writer: &mut W) -> Result<(), Error>
    ensures { Written (stream W.contents writer.old writer.new) ranking_titles result }
{
    write_text(
        writer,
        b"section,field,place,pair,first_player,second_player,score,available,percent\r\n",
    )
}

/// Writes titles and rows.
fn write_table<W: Write>(
    sections: &[Session],
    first: &[SectionRanked],
    second: &[SectionRanked],
    writer: &mut W,
) -> Result<(), Error>
    ensures { Written (stream W.contents writer.old writer.new) (rankings_table sections.now first.now second.now) result }
{
    write_titles(writer)?;
    write_field(sections, Field::First, first, writer)?;
    write_field(sections, Field::Second, second, writer)
}

/// Writes the rankings over all sections as comma-separated values: below a row of titles a row for each pair of the first field,
/// in order, and then of the second, with the letters of its section and its place among the pairs of all. It takes no memory.
///
/// It stops at the writer's first error, or with `WriteZero` where a write takes no byte: the writer then has a prefix of
/// the text.
pub fn write_event_rankings<W: Write>(
    results: &EventResults<'_>,
    writer: &mut W,
) -> Result<(), Error>
    ensures { WritesEventRankings (stream W.contents writer.old writer.new) results.now result }
{
    let first = results.ranking(Field::First);
    let second = results.ranking(Field::Second);
    write_table(results.sections(), first, second, writer)
}
