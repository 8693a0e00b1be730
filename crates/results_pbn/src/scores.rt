//! The table of the results of a board.
ghost use Rattle.std.specs.Prelude.{◌≡◌, ◌≤◌, ◌++◌, [], length, flat_map};
ghost use Rattle.std.specs.Option.{option_map_or};
ghost use Rattle.std.specs.Fmt.{signed_decimal};
ghost use Rattle.arrayvec.specs.ArrayVec.{array_vec_len};
ghost use Rattle.line_text.specs.Streams.{stream, Written};
ghost use Rattle.results_pbn.specs.Scores.{play_columns, gain_columns, meeting_cells, contract_text, outcome_cells, gain_cells, score_row, score_table};

use crate::cells::{push_left_cell, push_right, push_right_cell};
use bridge_cards::Scoring;
use bridge_movement::Row;
use bridge_results::BoardLine;
use bridge_results::pages::board::side_gain;
use bridge_results::pages::cells::{
    CellText, bid_cell, declarer_cell, lead_cell, line_score, tricks_cell,
};
use line_text::{NumberText, number_text, signed_text, write_text};
use page_layout::{PageText, push_bytes};
use session_rules::Outcome;
use std::io::{Error, Write};

/// The round, the table, and the pairs that met.
#[tactic(auto, unfolding(crate::specs::Scores::meeting_cells))]
fn meeting_cells(row: &Row) -> PageText
    ensures cells { result.items ≡ meeting_cells row.now }
    ensures short { array_vec_len result ≤ 300 }
{
    let round = number_text(u32::from(row.round));
    let table = number_text(u32::from(row.table));
    let ns = number_text(u32::from(row.ns));
    let ew = number_text(u32::from(row.ew));
    let mut text = PageText::new();
    push_right(&mut text, 2, round.as_str().as_bytes());
    push_right_cell(&mut text, 2, table.as_str().as_bytes());
    push_right_cell(&mut text, 2, ns.as_str().as_bytes());
    push_right_cell(&mut text, 2, ew.as_str().as_bytes());
    text
}

/// That nobody bid.
fn passed_text() -> CellText
    ensures { result.bytes ≡ contract_text Outcome.PassedOut }
{
    let mut text = CellText::new();
    text.push_str("Pass");
    text
}

/// The contract that a play has, by a ruling or not, or that nobody bid.
fn contract_text(outcome: Outcome) -> CellText
    ensures text { result.bytes ≡ contract_text outcome }
    ensures short { length result.bytes ≤ 22 }
{
    match outcome {
        Outcome::Played { contract, .. } => bid_cell(&contract),
        Outcome::Assigned { contract, .. } => bid_cell(&contract),
        Outcome::PassedOut => passed_text(),
        _ => CellText::new(),
    }
}

/// The contract, its declarer, the tricks and the opening lead.
#[tactic(auto, unfolding(crate::specs::Scores::outcome_cells))]
fn outcome_cells(line: &BoardLine) -> PageText
    ensures cells { result.items ≡ outcome_cells line.now }
    ensures short { array_vec_len result ≤ 300 }
{
    let play = &line.play;
    let contract = contract_text(play.outcome);
    let tricks = tricks_cell(play.outcome);
    let lead = lead_cell(play.lead);
    let mut text = PageText::new();
    push_left_cell(&mut text, 5, contract.as_str().as_bytes());
    push_left_cell(&mut text, 1, declarer_cell(play.outcome).as_bytes());
    push_right_cell(&mut text, 2, tricks.as_str().as_bytes());
    push_left_cell(&mut text, 2, lead.as_str().as_bytes());
    text
}

/// The score of North and South, if there is one.
fn score_text(score: Option<i32>) -> NumberText
    ensures text { result.bytes ≡ option_map_or signed_decimal score [] }
    ensures short { length result.bytes ≤ 20 }
{
    match score {
        Some(score) => signed_text(i64::from(score)),
        None => NumberText::new(),
    }
}

/// The score of North and South, and what each side gained.
#[tactic(auto, unfolding(crate::specs::Scores::gain_cells))]
fn gain_cells(scoring: Scoring, line: &BoardLine) -> PageText
    ensures cells { result.items ≡ gain_cells scoring line.now }
    ensures short { array_vec_len result ≤ 300 }
{
    let score = score_text(line_score(line.comparison));
    let ns_gain = side_gain(scoring, line.comparison, true);
    let ew_gain = side_gain(scoring, line.comparison, false);
    let mut text = PageText::new();
    push_right_cell(&mut text, 6, score.as_str().as_bytes());
    push_right_cell(&mut text, 6, ns_gain.as_str().as_bytes());
    push_right_cell(&mut text, 6, ew_gain.as_str().as_bytes());
    text
}

/// The row of a line.
#[tactic(auto, unfolding(crate::specs::Scores::score_row))]
fn score_row(scoring: Scoring, line: &BoardLine) -> PageText
    ensures { result.items ≡ score_row scoring line.now }
{
    let mut text = meeting_cells(&line.play.row);
    push_bytes(&mut text, outcome_cells(line).as_slice());
    push_bytes(&mut text, gain_cells(scoring, line).as_slice());
    push_bytes(&mut text, b"\n");
    text
}

/// Writes the row of a line.
pub fn write_row<W: Write>(scoring: Scoring, line: &BoardLine, writer: &mut W) -> Result<(), Error>
    ensures { Written (stream W.contents writer.old writer.new) (score_row scoring line.now) result }
{
    write_text(writer, score_row(scoring, line).as_slice())
}

/// Writes the rows of lines.
fn write_rows<W: Write>(scoring: Scoring, lines: &[BoardLine], writer: &mut W) -> Result<(), Error>
    ensures { Written (stream W.contents writer.old writer.new) (flat_map (score_row scoring) lines.now) result }
{
    for line in lines {
        write_row(scoring, line, writer)?;
    }
    Ok(())
}

/// The columns of what was gained.
#[tactic(auto, unfolding(crate::specs::Scores::gain_columns))]
pub fn gain_columns(scoring: Scoring) -> &'static [u8]
    ensures text { result.now ≡ gain_columns scoring }
    ensures short { length result.now ≤ 30 }
{
    match scoring {
        Scoring::MatchPoints => b"MP_NS\\6R;MP_EW\\6R\"]\n",
        Scoring::Imps => b"IMP_NS\\6R;IMP_EW\\6R\"]\n",
    }
}

/// All columns.
#[tactic(auto, unfolding(crate::specs::Scores::play_columns))]
fn score_columns(scoring: Scoring) -> PageText
    ensures { result.items ≡ play_columns ++ gain_columns scoring }
{
    let mut text = PageText::new();
    push_bytes(
        &mut text,
        b"[ScoreTable \"Round\\2R;Table\\2R;PairId_NS\\2R;PairId_EW\\2R;Contract\\5L;Declarer\\1L;Result\\2R;Lead\\2L;Score_NS\\6R;",
    );
    push_bytes(&mut text, gain_columns(scoring));
    text
}

/// Writes all columns.
fn write_columns<W: Write>(scoring: Scoring, writer: &mut W) -> Result<(), Error>
    ensures { Written (stream W.contents writer.old writer.new) (play_columns ++ gain_columns scoring) result }
{
    write_text(writer, score_columns(scoring).as_slice())
}

/// Writes the table of the lines of a board.
pub fn write_scores<W: Write>(
    scoring: Scoring,
    lines: &[BoardLine],
    writer: &mut W,
) -> Result<(), Error>
    ensures { Written (stream W.contents writer.old writer.new) (score_table scoring lines.now) result }
{
    write_columns(scoring, writer)?;
    write_rows(scoring, lines, writer)
}
