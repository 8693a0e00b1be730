//! The plays of a session as a table.
ghost use Rattle.std.specs.Prelude.{◌≡◌, ◌≤◌, flat_map};
ghost use Rattle.arrayvec.specs.ArrayVec.{array_vec_len};
ghost use Rattle.line_text.specs.Streams.{stream, Written};
ghost use Rattle.bridge_results.specs.TablesText.{meeting_fields, outcome_fields, gain_fields, play_row, play_titles, board_rows, all_rows, plays_table};

use crate::pages::board::side_gain;
use crate::pages::cells::{
    contract_cell, declarer_cell, lead_cell, line_score, score_cell, tricks_cell,
};
use crate::results::Results;
use crate::tables::fields::{push_field, push_number};
use crate::traveller::BoardLine;
use bridge_cards::{BoardNumber, Scoring};
use bridge_config::Config;
use bridge_movement::Row;
use bridge_session::Session;
use line_text::{number_text, write_text};
use page_layout::{PageText, push_bytes};
use std::io::{Error, Write};

/// The board, the round, the table, and the pairs that met.
#[tactic(auto, unfolding(crate::specs::TablesText::meeting_fields))]
fn meeting_fields(board: BoardNumber, row: &Row) -> PageText
    ensures text { result.items ≡ meeting_fields board row.now }
    ensures short { array_vec_len result ≤ 300 }
{
    let mut text = PageText::new();
    push_bytes(
        &mut text,
        number_text(u32::from(board.number())).as_str().as_bytes(),
    );
    push_number(&mut text, row.round);
    push_number(&mut text, row.table);
    push_number(&mut text, row.ns);
    push_number(&mut text, row.ew);
    text
}

/// The contract, its declarer, the opening lead and the tricks.
#[tactic(auto, unfolding(crate::specs::TablesText::outcome_fields))]
fn outcome_fields(line: &BoardLine) -> PageText
    ensures text { result.items ≡ outcome_fields line.now }
    ensures short { array_vec_len result ≤ 300 }
{
    let play = &line.play;
    let contract = contract_cell(play.outcome);
    let lead = lead_cell(play.lead);
    let tricks = tricks_cell(play.outcome);
    let mut text = PageText::new();
    push_field(&mut text, contract.as_str().as_bytes());
    push_field(&mut text, declarer_cell(play.outcome).as_bytes());
    push_field(&mut text, lead.as_str().as_bytes());
    push_field(&mut text, tricks.as_str().as_bytes());
    text
}

/// The score and what each side gained.
#[tactic(auto, unfolding(crate::specs::TablesText::gain_fields))]
fn gain_fields(scoring: Scoring, line: &BoardLine) -> PageText
    ensures text { result.items ≡ gain_fields scoring line.now }
    ensures short { array_vec_len result ≤ 300 }
{
    let score = score_cell(line.play.outcome, line_score(line.comparison));
    let ns_gain = side_gain(scoring, line.comparison, true);
    let ew_gain = side_gain(scoring, line.comparison, false);
    let mut text = PageText::new();
    push_field(&mut text, score.as_str().as_bytes());
    push_field(&mut text, ns_gain.as_str().as_bytes());
    push_field(&mut text, ew_gain.as_str().as_bytes());
    text
}

/// The row of a play.
#[tactic(auto, unfolding(crate::specs::TablesText::play_row))]
pub fn play_row(scoring: Scoring, board: BoardNumber, line: &BoardLine) -> PageText
    ensures { result.items ≡ play_row scoring board line.now }
{
    let mut text = meeting_fields(board, &line.play.row);
    push_bytes(&mut text, outcome_fields(line).as_slice());
    push_bytes(&mut text, gain_fields(scoring, line).as_slice());
    push_bytes(&mut text, b"\r\n");
    text
}

/// Writes the row of a play.
fn write_row<W: Write>(
    scoring: Scoring,
    board: BoardNumber,
    line: &BoardLine,
    writer: &mut W,
) -> Result<(), Error>
    ensures { Written (stream W.contents writer.old writer.new) (play_row scoring board line.now) result }
{
    write_text(writer, play_row(scoring, board, line).as_slice())
}

/// Writes the rows of the lines of a board.
fn write_rows<W: Write>(
    scoring: Scoring,
    board: BoardNumber,
    lines: &[BoardLine],
    writer: &mut W,
) -> Result<(), Error>
    ensures { Written (stream W.contents writer.old writer.new) (flat_map (play_row scoring board) lines.now) result }
{
    for line in lines {
        write_row(scoring, board, line, writer)?;
    }
    Ok(())
}

/// Writes the rows of the lines of a board, by a configuration's scoring.
fn write_lines<W: Write>(
    config: &Config,
    board: BoardNumber,
    lines: &[BoardLine],
    writer: &mut W,
) -> Result<(), Error>
    ensures { Written (stream W.contents writer.old writer.new) (flat_map (play_row config.now.scoring board) lines.now) result }
{
    let fields = config.fields();
    write_rows(fields.scoring, board, lines, writer)
}

/// Writes the rows of a board.
fn write_board_rows<W: Write>(
    session: &Session,
    results: &Results<'_>,
    board: BoardNumber,
    writer: &mut W,
) -> Result<(), Error>
    requires { results.now ≡ session.now }
    ensures { Written (stream W.contents writer.old writer.new) (board_rows session.now board) result }
{
    let lines = results.traveller(board);
    write_lines(session.config(), board, lines.as_slice(), writer)
}

/// Writes the rows of all boards, by number.
fn write_all_rows<W: Write>(
    session: &Session,
    results: &Results<'_>,
    writer: &mut W,
) -> Result<(), Error>
    requires { results.now ≡ session.now }
    ensures { Written (stream W.contents writer.old writer.new) (all_rows session.now) result }
{
    for number in 1..37 {
        let board = BoardNumber::new(number).unwrap();
        write_board_rows(session, results, board, writer)?;
    }
    Ok(())
}

/// Writes what stands above the rows.
fn write_titles<W: Write>(writer: &mut W) -> Result<(), Error>
    ensures { Written (stream W.contents writer.old writer.new) play_titles result }
{
    write_text(
        writer,
        b"board,round,table,ns,ew,contract,by,lead,tricks,score,ns_gain,ew_gain\r\n",
    )
}

/// Writes titles and rows.
fn write_table<W: Write>(
    session: &Session,
    results: &Results<'_>,
    writer: &mut W,
) -> Result<(), Error>
    requires { results.now ≡ session.now }
    ensures { Written (stream W.contents writer.old writer.new) (plays_table session.now) result }
{
    write_titles(writer)?;
    write_all_rows(session, results, writer)
}

/// Writes the plays of the session of which something came, as comma-separated values: below a row of titles a row for each, by
/// board and in the order of its traveller, with the fields that the traveller has. It takes no memory.
///
/// It stops at the writer's first error, or with `WriteZero` where a write takes no byte: the writer then has a prefix of
/// the text.
pub fn write_plays_table<W: Write>(session: &Session, writer: &mut W) -> Result<(), Error>
    ensures { Written (stream W.contents writer.old writer.new) (plays_table session.now) result }
{
    let results = Results::new(session);
    write_table(session, &results, writer)
}
