//! The rankings of a session as a table.
ghost use Rattle.std.specs.Prelude.{◌≡◌, ◌≤◌, length, map, flat_map, Option};
ghost use Rattle.arrayvec.specs.ArrayVec.{array_vec_len};
ghost use Rattle.line_text.specs.Streams.{stream, Written};
ghost use Rattle.bridge_config.specs.ConfigValue.{pair_of};
ghost use Rattle.bridge_score.specs.declared.ranking.Ranked.{Ranked};
ghost use Rattle.bridge_cards.specs.declared.scoring.Scoring.TheVariants.{MatchPoints, Imps};
ghost use Rattle.bridge_ranking.specs.declared.field.Field.TheVariants.{First, Second};
ghost use Rattle.bridge_results.specs.RankingText.{ranked_items};
ghost use Rattle.bridge_results.specs.TablesText.{field_number, pair_fields, value_fields, ranked_fields, field_rows, ranking_titles, rankings_table, WritesRankings};

use crate::pages::ranking::{imps_cell, points_cell};
use crate::results::Results;
use crate::tables::fields::{push_field, push_number};
use bridge_config::{Config, PairFields, player_name};
use bridge_ranking::Field;
use bridge_score::{Ranked, Scoring, share_percent};
use bridge_session::{Ranking, Session};
use line_text::{percent_text, tenths_text, write_text};
use page_layout::{PageText, push_bytes};
use std::io::{Error, Write};

/// The number of a field.
pub fn field_number(field: Field) -> &'static [u8]
    ensures text { result.now ≡ field_number field }
    ensures short { length result.now ≤ 1 }
{
    match field {
        Field::First => b"1",
        Field::Second => b"2",
    }
}

/// The field, the place, the pair, and the names of its players.
#[tactic(auto, unfolding(crate::specs::TablesText::pair_fields))]
fn pair_fields(pairs: &[PairFields], field: Field, ranked: &Ranked) -> PageText
    ensures text { result.items ≡ pair_fields (map pair_of pairs.now) field ranked.now }
    ensures short { array_vec_len result ≤ 300 }
{
    let first = player_name(pairs, ranked.pair, true);
    let second = player_name(pairs, ranked.pair, false);
    let mut text = PageText::new();
    push_bytes(&mut text, field_number(field));
    push_number(&mut text, ranked.place);
    push_number(&mut text, ranked.pair);
    push_field(&mut text, first.as_bytes());
    push_field(&mut text, second.as_bytes());
    text
}

/// The matchpoints, those available and the percentage.
#[tactic(auto, unfolding(crate::specs::TablesText::value_fields))]
fn share_fields(ranked: &Ranked) -> PageText
    ensures text { result.items ≡ value_fields MatchPoints ranked.now }
    ensures short { array_vec_len result ≤ 300 }
{
    let value = points_cell(ranked);
    let available = tenths_text(u64::from(ranked.available));
    let percent = percent_text(share_percent(ranked));
    let mut text = PageText::new();
    push_field(&mut text, value.as_str().as_bytes());
    push_field(&mut text, available.as_str().as_bytes());
    push_field(&mut text, percent.as_str().as_bytes());
    text
}

/// The IMPs, and two empty fields.
#[tactic(auto, unfolding(crate::specs::TablesText::value_fields))]
fn sum_fields(ranked: &Ranked) -> PageText
    ensures text { result.items ≡ value_fields Imps ranked.now }
    ensures short { array_vec_len result ≤ 300 }
{
    let value = imps_cell(ranked);
    let mut text = PageText::new();
    push_field(&mut text, value.as_str().as_bytes());
    push_bytes(&mut text, b",,");
    text
}

/// What a pair gained.
pub fn value_fields(scoring: Scoring, ranked: &Ranked) -> PageText
    ensures text { result.items ≡ value_fields scoring ranked.now }
    ensures short { array_vec_len result ≤ 300 }
{
    match scoring {
        Scoring::MatchPoints => share_fields(ranked),
        Scoring::Imps => sum_fields(ranked),
    }
}

/// The row of a pair.
#[tactic(auto, unfolding(crate::specs::TablesText::ranked_fields))]
fn ranked_fields(scoring: Scoring, pairs: &[PairFields], field: Field, ranked: &Ranked) -> PageText
    ensures { result.items ≡ ranked_fields scoring (map pair_of pairs.now) field ranked.now }
{
    let mut text = pair_fields(pairs, field, ranked);
    push_bytes(&mut text, value_fields(scoring, ranked).as_slice());
    push_bytes(&mut text, b"\r\n");
    text
}

/// Writes the row of a pair.
fn write_row<W: Write>(
    scoring: Scoring,
    pairs: &[PairFields],
    field: Field,
    ranked: &Ranked,
    writer: &mut W,
) -> Result<(), Error>
    ensures { Written (stream W.contents writer.old writer.new) (ranked_fields scoring (map pair_of pairs.now) field ranked.now) result }
{
    let row = ranked_fields(scoring, pairs, field, ranked);
    write_text(writer, row.as_slice())
}

/// Writes the rows of a ranking.
fn write_rows<W: Write>(
    scoring: Scoring,
    pairs: &[PairFields],
    field: Field,
    ranking: &[Ranked],
    writer: &mut W,
) -> Result<(), Error>
    ensures { Written (stream W.contents writer.old writer.new) (flat_map (ranked_fields scoring (map pair_of pairs.now) field) ranking.now) result }
{
    for ranked in ranking {
        write_row(scoring, pairs, field, ranked, writer)?;
    }
    Ok(())
}

/// Writes the rows of a field of a configuration's pairs.
fn write_rows_of<W: Write>(
    config: &Config,
    field: Field,
    ranking: &[Ranked],
    writer: &mut W,
) -> Result<(), Error>
    ensures { Written (stream W.contents writer.old writer.new) (flat_map (ranked_fields config.now.scoring config.now.pairs field) ranking.now) result }
{
    let fields = config.fields();
    write_rows(
        fields.scoring,
        fields.pairs.as_slice(),
        field,
        ranking,
        writer,
    )
}

/// Writes the rows of a field, if there is such a field.
fn write_field<W: Write>(
    config: &Config,
    field: Field,
    ranking: &Option<Ranking>,
    writer: &mut W,
) -> Result<(), Error>
    ensures { Written (stream W.contents writer.old writer.new) (field_rows config.now field (ranked_items ranking.now)) result }
{
    match ranking {
        Some(ranking) => write_rows_of(config, field, ranking.as_slice(), writer),
        None => write_text(writer, b""),
    }
}

/// Writes what stands above the rows.
fn write_titles<W: Write>(writer: &mut W) -> Result<(), Error>
    ensures { Written (stream W.contents writer.old writer.new) ranking_titles result }
{
    write_text(
        writer,
        b"field,place,pair,first_player,second_player,score,available,percent\r\n",
    )
}

/// Writes titles and rows.
fn write_table<W: Write>(
    config: &Config,
    first: &Option<Ranking>,
    second: &Option<Ranking>,
    writer: &mut W,
) -> Result<(), Error>
    ensures { Written (stream W.contents writer.old writer.new) (rankings_table config.now (ranked_items first.now) (ranked_items second.now)) result }
{
    write_titles(writer)?;
    write_field(config, Field::First, first, writer)?;
    write_field(config, Field::Second, second, writer)
}

/// Writes the rankings of the session as comma-separated values: below a row of titles a row for each pair of the first field, in
/// order, and then of the second where there is one. It takes no memory.
///
/// It stops at the writer's first error, or with `WriteZero` where a write takes no byte: the writer then has a prefix of
/// the text.
pub fn write_rankings_table<W: Write>(session: &Session, writer: &mut W) -> Result<(), Error>
    ensures { WritesRankings (stream W.contents writer.old writer.new) session.now result }
{
    let results = Results::new(session);
    let first = results.ranking(Field::First);
    let second = results.ranking(Field::Second);
    write_table(session.config(), &first, &second, writer)
}
