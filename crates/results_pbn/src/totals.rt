//! The table of the rankings.
ghost use Rattle.std.specs.Prelude.{◌≡◌, ◌≤◌, length, map, flat_map, is_some, Option};
ghost use Rattle.arrayvec.specs.ArrayVec.{array_vec_len};
ghost use Rattle.line_text.specs.Streams.{stream, Written};
ghost use Rattle.bridge_config.specs.ConfigValue.{pair_of};
ghost use Rattle.bridge_cards.specs.declared.scoring.Scoring.TheVariants.{MatchPoints, Imps};
ghost use Rattle.bridge_results.specs.RankingText.{ranked_items};
ghost use Rattle.results_pbn.specs.Totals.{total_columns, section_text, place_cells, value_cells, names_cell, total_row, field_rows, seen, total_table, totals_on, lower, first_board};

use crate::cells::push_right_cell;
use bridge_cards::{BoardNumber, Scoring};
use bridge_config::{Config, PairFields, pair_names};
use bridge_ranking::Field;
use bridge_results::TablePlay;
use bridge_score::{Ranked, share_percent};
use bridge_session::Ranking;
use line_text::{number_text, percent_text, signed_text, tenths_text, write_text};
use page_layout::{PageText, push_bytes};
use std::io::{Error, Write};

/// The rankings, and the board in whose game they stand.
#[derive(Drop)]
pub struct Totals {
    /// The board's number.
    pub board: u8,
    /// The ranking of the first field.
    pub first: Option<Ranking>,
    /// The ranking of the second field, if there is one.
    pub second: Option<Ranking>,
}

/// The lower of a board and that of a play.
fn lower(board: u8, play: &TablePlay) -> u8
    ensures { result ≡ lower board play.now }
{
    let other = play.board.number();
    if other < board { other } else { board }
}

/// The first board of plays; 37 where there are none.
pub fn first_board(plays: &[TablePlay]) -> u8
    ensures { result ≡ first_board plays.now }
{
    let mut board = 37;
    for play in plays {
        board = lower(board, play);
    }
    board
}

/// In which section a pair sits.
pub fn section_text(two: bool, field: Field) -> &'static [u8]
    ensures text { result.now ≡ section_text two field }
    ensures short { length result.now ≤ 1 }
{
    match field {
        Field::First if two => b"N",
        Field::Second if two => b"E",
        _ => b"-",
    }
}

/// The section, the place and the pair.
#[tactic(auto, unfolding(crate::specs::Totals::place_cells))]
fn place_cells(two: bool, field: Field, ranked: &Ranked) -> PageText
    ensures cells { result.items ≡ place_cells two field ranked.now }
    ensures short { array_vec_len result ≤ 300 }
{
    let place = number_text(u32::from(ranked.place));
    let pair = number_text(u32::from(ranked.pair));
    let mut text = PageText::new();
    push_bytes(&mut text, section_text(two, field));
    push_right_cell(&mut text, 2, place.as_str().as_bytes());
    push_right_cell(&mut text, 2, pair.as_str().as_bytes());
    text
}

/// The matchpoints and the percentage.
#[tactic(auto, unfolding(crate::specs::Totals::value_cells))]
fn share_cells(width: usize, ranked: &Ranked) -> PageText
    requires { width ≤ 7 }
    ensures cells { result.items ≡ value_cells width MatchPoints ranked.now }
    ensures short { array_vec_len result ≤ 300 }
{
    let value = tenths_text(u64::from(ranked.value.unsigned_abs()));
    let percent = percent_text(share_percent(ranked));
    let mut text = PageText::new();
    push_right_cell(&mut text, width, value.as_str().as_bytes());
    push_right_cell(&mut text, 6, percent.as_str().as_bytes());
    text
}

/// The IMPs.
#[tactic(auto, unfolding(crate::specs::Totals::value_cells))]
fn sum_cells(width: usize, ranked: &Ranked) -> PageText
    requires { width ≤ 7 }
    ensures cells { result.items ≡ value_cells width Imps ranked.now }
    ensures short { array_vec_len result ≤ 300 }
{
    let value = signed_text(i64::from(ranked.value));
    let mut text = PageText::new();
    push_right_cell(&mut text, width, value.as_str().as_bytes());
    text
}

/// What a pair gained: matchpoints or IMPs in a column of that width, and the percentage of matchpoints.
pub fn value_cells(width: usize, scoring: Scoring, ranked: &Ranked) -> PageText
    requires { width ≤ 7 }
    ensures cells { result.items ≡ value_cells width scoring ranked.now }
    ensures short { array_vec_len result ≤ 300 }
{
    match scoring {
        Scoring::MatchPoints => share_cells(width, ranked),
        Scoring::Imps => sum_cells(width, ranked),
    }
}

/// The names of a pair's players, which end a row.
#[tactic(auto, unfolding(crate::specs::Totals::names_cell))]
pub fn names_cell(pairs: &[PairFields], pair: u8) -> PageText
    ensures cell { result.items ≡ names_cell (map pair_of pairs.now) pair }
    ensures short { array_vec_len result ≤ 300 }
{
    let names = pair_names(pairs, pair);
    let mut text = PageText::new();
    push_bytes(&mut text, b" \"");
    push_bytes(&mut text, names.as_str().as_bytes());
    push_bytes(&mut text, b"\"\n");
    text
}

/// The row of a pair.
#[tactic(auto, unfolding(crate::specs::Totals::total_row))]
fn total_row(
    two: bool,
    scoring: Scoring,
    pairs: &[PairFields],
    field: Field,
    ranked: &Ranked,
) -> PageText
    ensures { result.items ≡ total_row two scoring (map pair_of pairs.now) field ranked.now }
{
    let mut text = place_cells(two, field, ranked);
    push_bytes(&mut text, value_cells(6, scoring, ranked).as_slice());
    push_bytes(&mut text, names_cell(pairs, ranked.pair).as_slice());
    text
}

/// Writes the row of a pair.
fn write_row<W: Write>(
    two: bool,
    scoring: Scoring,
    pairs: &[PairFields],
    field: Field,
    ranked: &Ranked,
    writer: &mut W,
) -> Result<(), Error>
    ensures { Written (stream W.contents writer.old writer.new) (total_row two scoring (map pair_of pairs.now) field ranked.now) result }
{
    let row = total_row(two, scoring, pairs, field, ranked);
    write_text(writer, row.as_slice())
}

/// Writes the rows of a ranking.
fn write_rows<W: Write>(
    two: bool,
    scoring: Scoring,
    pairs: &[PairFields],
    field: Field,
    ranking: &[Ranked],
    writer: &mut W,
) -> Result<(), Error>
    ensures { Written (stream W.contents writer.old writer.new) (flat_map (total_row two scoring (map pair_of pairs.now) field) ranking.now) result }
{
    for ranked in ranking {
        write_row(two, scoring, pairs, field, ranked, writer)?;
    }
    Ok(())
}

/// Writes the rows of a field of a configuration's pairs.
fn write_rows_of<W: Write>(
    two: bool,
    config: &Config,
    field: Field,
    ranking: &[Ranked],
    writer: &mut W,
) -> Result<(), Error>
    ensures { Written (stream W.contents writer.old writer.new) (flat_map (total_row two config.now.scoring config.now.pairs field) ranking.now) result }
{
    let fields = config.fields();
    let pairs = fields.pairs.as_slice();
    write_rows(two, fields.scoring, pairs, field, ranking, writer)
}

/// Writes the rows of a field, if there is such a field.
fn write_field<W: Write>(
    two: bool,
    config: &Config,
    field: Field,
    ranking: &Option<Ranking>,
    writer: &mut W,
) -> Result<(), Error>
    ensures { Written (stream W.contents writer.old writer.new) (field_rows two config.now field (ranked_items ranking.now)) result }
{
    match ranking {
        Some(ranking) => write_rows_of(two, config, field, ranking.as_slice(), writer),
        None => write_text(writer, b""),
    }
}

/// The columns.
#[tactic(auto, unfolding(crate::specs::Totals::total_columns))]
fn total_columns(scoring: Scoring) -> &'static [u8]
    ensures { result.now ≡ total_columns scoring }
{
    match scoring {
        Scoring::MatchPoints =>
            b"[TotalScoreTable \"Section\\1L;Rank\\2R;PairId\\2R;TotalScoreMP\\6R;TotalPercentage\\6R;Names\"]\n",
        Scoring::Imps =>
            b"[TotalScoreTable \"Section\\1L;Rank\\2R;PairId\\2R;TotalIMP\\6R;Names\"]\n",
    }
}

/// Writes the columns.
fn write_columns<W: Write>(config: &Config, writer: &mut W) -> Result<(), Error>
    ensures { Written (stream W.contents writer.old writer.new) (total_columns config.now.scoring) result }
{
    write_text(writer, total_columns(config.fields().scoring))
}

/// Whether there are two fields.
fn has_second(totals: &Totals) -> bool
    ensures { result ≡ is_some (seen totals.now).second }
{
    totals.second.is_some()
}

/// Writes the table.
fn write_table<W: Write>(config: &Config, totals: &Totals, writer: &mut W) -> Result<(), Error>
    ensures { Written (stream W.contents writer.old writer.new) (total_table config.now (seen totals.now)) result }
{
    let two = has_second(totals);
    write_columns(config, writer)?;
    write_field(two, config, Field::First, &totals.first, writer)?;
    write_field(two, config, Field::Second, &totals.second, writer)
}

/// Writes the table in the game of its board.
pub fn write_totals<W: Write>(
    config: &Config,
    totals: &Totals,
    board: BoardNumber,
    writer: &mut W,
) -> Result<(), Error>
    ensures { Written (stream W.contents writer.old writer.new) (totals_on config.now (seen totals.now) board) result }
{
    if board.number() == totals.board {
        write_table(config, totals, writer)
    } else {
        write_text(writer, b"")
    }
}
