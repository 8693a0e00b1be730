//! The table of the rankings over all sections.
ghost use Rattle.std.specs.Prelude.{◌≡◌, ◌≤◌, flat_map};
ghost use Rattle.arrayvec.specs.ArrayVec.{array_vec_len};
ghost use Rattle.line_text.specs.Streams.{stream, Written};
ghost use Rattle.results_pbn.specs.Totals.{names_cell};
ghost use Rattle.event_pbn.specs.EventTotals.{total_columns, place_cells, names_on, total_row, has_any, total_table};

use crate::cells::section_cell;
use bridge_cards::Scoring;
use bridge_config::Config;
use bridge_ranking::Field;
use bridge_session::Session;
use event_ranking::SectionRanked;
use line_text::{number_text, write_text};
use page_layout::{PageText, push_bytes};
use results_pbn::cells::push_right_cell;
use results_pbn::totals::{names_cell, section_text, value_cells};
use std::io::{Error, Write};

/// The section, the direction, the place and the pair.
#[tactic(auto, unfolding(crate::specs::EventTotals::place_cells))]
fn place_cells(two: bool, field: Field, ranked: &SectionRanked) -> PageText
    ensures cells { result.items ≡ place_cells two field ranked.now }
    ensures short { array_vec_len result ≤ 300 }
{
    let place = number_text(u32::from(ranked.place));
    let pair = number_text(u32::from(ranked.pair));
    let mut text = section_cell(ranked.section);
    push_bytes(&mut text, section_text(two, field));
    push_right_cell(&mut text, 3, place.as_str().as_bytes());
    push_right_cell(&mut text, 2, pair.as_str().as_bytes());
    text
}

/// The names of a pair of a configuration, which end a row.
fn names_in(config: &Config, pair: u8) -> PageText
    ensures cell { result.items ≡ names_cell config.now.pairs pair }
    ensures short { array_vec_len result ≤ 300 }
{
    names_cell(config.fields().pairs.as_slice(), pair)
}

/// The names of a pair of one of the sections.
fn names_on(sections: &[Session], ranked: &SectionRanked) -> PageText
    ensures cell { result.items ≡ names_on sections.now ranked.now }
    ensures short { array_vec_len result ≤ 300 }
{
    match sections.get(usize::from(ranked.section.saturating_sub(1))) {
        Some(session) => names_in(session.config(), ranked.pair),
        None => names_cell(&[], ranked.pair),
    }
}

/// The row of a pair.
#[tactic(auto, unfolding(crate::specs::EventTotals::total_row))]
fn total_row(
    two: bool,
    scoring: Scoring,
    sections: &[Session],
    field: Field,
    ranked: &SectionRanked,
) -> PageText
    ensures { result.items ≡ total_row two scoring sections.now field ranked.now }
{
    let mut text = place_cells(two, field, ranked);
    push_bytes(
        &mut text,
        value_cells(7, scoring, &ranked.unplaced()).as_slice(),
    );
    push_bytes(&mut text, names_on(sections, ranked).as_slice());
    text
}

/// Writes the row of a pair.
fn write_row<W: Write>(
    two: bool,
    scoring: Scoring,
    sections: &[Session],
    field: Field,
    ranked: &SectionRanked,
    writer: &mut W,
) -> Result<(), Error>
    ensures { Written (stream W.contents writer.old writer.new) (total_row two scoring sections.now field ranked.now) result }
{
    let row = total_row(two, scoring, sections, field, ranked);
    write_text(writer, row.as_slice())
}

/// Writes the rows of a ranking.
fn write_rows<W: Write>(
    two: bool,
    scoring: Scoring,
    sections: &[Session],
    field: Field,
    ranking: &[SectionRanked],
    writer: &mut W,
) -> Result<(), Error>
    ensures { Written (stream W.contents writer.old writer.new) (flat_map (total_row two scoring sections.now field) ranking.now) result }
{
    for ranked in ranking {
        write_row(two, scoring, sections, field, ranked, writer)?;
    }
    Ok(())
}

/// The columns.
#[tactic(auto, unfolding(crate::specs::EventTotals::total_columns))]
fn total_columns(scoring: Scoring) -> &'static [u8]
    ensures { result.now ≡ total_columns scoring }
{
    match scoring {
        Scoring::MatchPoints =>
            b"[TotalScoreTable \"Section\\2L;Direction\\1L;Rank\\3R;PairId\\2R;TotalScoreMP\\7R;TotalPercentage\\6R;Names\"]\n",
        Scoring::Imps =>
            b"[TotalScoreTable \"Section\\2L;Direction\\1L;Rank\\3R;PairId\\2R;TotalIMP\\7R;Names\"]\n",
    }
}

/// Whether a ranking has a pair.
fn has_any(ranking: &[SectionRanked]) -> bool
    ensures { result ≡ has_any ranking.now }
{
    !ranking.is_empty()
}

/// Writes the table.
pub fn write_total_table<W: Write>(
    scoring: Scoring,
    sections: &[Session],
    first: &[SectionRanked],
    second: &[SectionRanked],
    writer: &mut W,
) -> Result<(), Error>
    ensures { Written (stream W.contents writer.old writer.new) (total_table scoring sections.now first.now second.now) result }
{
    let two = has_any(second);
    write_text(writer, total_columns(scoring))?;
    write_rows(two, scoring, sections, Field::First, first, writer)?;
    write_rows(two, scoring, sections, Field::Second, second, writer)
}
