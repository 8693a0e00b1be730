//! What other tables did on a board, and what it is worth so far.
ghost use Rattle.std.specs.Prelude.{◌≡◌, ◌≤◌, ◌∷◌, ◌++◌, [], OnOk, length, codes, unsigned_abs, position, sum_by};
ghost use Rattle.std.specs.Fmt.{decimal};
ghost use Rattle.line_text.specs.Decimals.{tenths_text};
ghost use Rattle.std.specs.List.{filter_map};
ghost use Rattle.std.specs.Option.{option_to_list};
ghost use Rattle.line_text.specs.Lines.{lines_text};
ghost use Rattle.line_replies.specs.ReplyTexts.{each_spaced};
ghost use Rattle.bridge_results.specs.PlayCells.{line_score};
ghost use Rattle.board_replies.specs.Beside.{is_here, other_line, other_in, score_count, most_points, gain_for, worth_words, compared_here, worth_line, board_beside, beside};

use crate::result_line::push_result;
use crate::text::{push_end, push_number, push_signed, push_str, push_word};
use bridge_cards::{BoardNumber, Scoring, Side};
use bridge_movement::Row;
use bridge_ranking::PlayResult;
use bridge_results::{BoardLine, Comparison, Results};
use bridge_session::Session;
use line_text::{number_text, tenths_text};
use std::alloc::AllocError;

/// Whether a line of a traveller is that of the row.
fn is_here(row: Row, line: &BoardLine) -> bool
    ensures { result ≡ is_here row line.now }
{
    line.play.row.round == row.round && line.play.row.table == row.table
}

/// The score of North and South, which a void or adjusted play has not.
fn line_score(comparison: Option<Comparison>) -> Option<i32>
    ensures { result ≡ line_score comparison }
{
    match comparison?.result {
        PlayResult::Score(score) => Some(score),
        PlayResult::Averages { .. } => None,
    }
}

/// Adds the line of another table.
fn push_other_line(text: &mut Vec<u8>, line: &BoardLine) -> Result<(), AllocError>
    ensures { OnOk result (text.new.items ≡ text.old.items ++ (other_line line.now ++ 10 ∷ [])) }
{
    push_str(text, "OTHER")?;
    push_number(text, line.play.row.table)?;
    push_number(text, line.play.row.ns)?;
    push_number(text, line.play.row.ew)?;
    push_result(text, line.play.outcome, line_score(line.comparison))?;
    push_end(text)
}

/// Adds the line of a table, where it is not that of the row.
fn push_other(text: &mut Vec<u8>, row: Row, line: &BoardLine) -> Result<(), AllocError>
    ensures { OnOk result (text.new.items ≡ text.old.items ++ lines_text (option_to_list (other_in row line.now))) }
{
    if is_here(row, line) {
        Ok(())
    } else {
        push_other_line(text, line)
    }
}

/// Adds the lines of the other tables.
fn push_others(text: &mut Vec<u8>, row: Row, lines: &[BoardLine]) -> Result<(), AllocError>
    ensures { OnOk result (text.new.items ≡ text.old.items ++ lines_text (filter_map (other_in row) lines.now)) }
{
    for line in lines {
        push_other(text, row, line)?;
    }
    Ok(())
}

/// 1 for a line with a score.
fn score_count(line: &BoardLine) -> u8
    ensures count { result ≡ score_count line.now }
    ensures most { result ≤ 1 }
{
    u8::from(line_score(line.comparison).is_some())
}

/// How many lines have a score.
fn count_scores(lines: &[BoardLine]) -> u32
    requires { length lines.now ≤ 144 }
    ensures { result ≡ sum_by score_count lines.now }
{
    lines.iter().map(|line| u32::from(score_count(line))).sum()
}

/// The most matchpoints that there are: 2 for each other score.
fn most_points(lines: &[BoardLine]) -> u32
    requires { length lines.now ≤ 144 }
    ensures { result ≡ most_points lines.now }
{
    2 * count_scores(lines).saturating_sub(1)
}

/// The index of the line of the row.
fn index_here(row: Row, lines: &[BoardLine]) -> Option<usize>
    ensures { result ≡ position (is_here row) lines.now }
{
    lines.iter().position(|line| is_here(row, line))
}

/// How the play of the row compares, by the lines of its board.
fn compared_here(row: Row, lines: &[BoardLine]) -> Option<Comparison>
    ensures { result ≡ compared_here row lines.now }
{
    let index = index_here(row, lines)?;
    lines.get(index)?.comparison
}

/// What a side gained.
fn gain_for(side: Side, compared: &Comparison) -> i32
    ensures { result ≡ gain_for side compared.now }
{
    match side {
        Side::NorthSouth => compared.ns_gain,
        Side::EastWest => compared.ew_gain,
    }
}

/// Adds matchpoints, which are in tenths, and how many there are at most.
fn push_share(text: &mut Vec<u8>, gain: i32, most: u32) -> Result<(), AllocError>
    ensures { OnOk result (text.new.items ≡ text.old.items ++ 32 ∷ ((tenths_text (unsigned_abs gain) ++ codes "/") ++ decimal most)) }
{
    push_word(text, tenths_text(u64::from(gain.unsigned_abs())).as_str())?;
    push_str(text, "/")?;
    push_str(text, number_text(most).as_str())
}

/// Adds what a play is worth to a side so far.
fn push_worth(
    text: &mut Vec<u8>,
    scoring: Scoring,
    side: Side,
    most: u32,
    compared: Option<Comparison>,
) -> Result<(), AllocError>
    ensures { OnOk result (text.new.items ≡ text.old.items ++ each_spaced (worth_words scoring side most compared)) }
{
    match compared {
        Some(compared) => {
            let gain = gain_for(side, &compared);
            match scoring {
                Scoring::MatchPoints => push_share(text, gain, most),
                Scoring::Imps => push_signed(text, gain),
            }
        }
        None => push_word(text, "-"),
    }
}

/// Adds the line of what a play is worth to a side so far.
fn push_worth_line(
    text: &mut Vec<u8>,
    scoring: Scoring,
    side: Side,
    row: Row,
    lines: &[BoardLine],
) -> Result<(), AllocError>
    requires { length lines.now ≤ 144 }
    ensures { OnOk result (text.new.items ≡ text.old.items ++ (worth_line scoring side row lines.now ++ 10 ∷ [])) }
{
    push_str(text, "WORTH")?;
    let compared = compared_here(row, lines);
    push_worth(text, scoring, side, most_points(lines), compared)?;
    push_end(text)
}

/// Adds the lines of the other tables that have finished a board, and of what it is worth.
fn push_board(
    text: &mut Vec<u8>,
    scoring: Scoring,
    side: Side,
    row: Row,
    lines: &[BoardLine],
) -> Result<(), AllocError>
    requires { length lines.now ≤ 144 }
    ensures { OnOk result (text.new.items ≡ text.old.items ++ lines_text (board_beside scoring side row lines.now)) }
{
    push_others(text, row, lines)?;
    push_worth_line(text, scoring, side, row, lines)
}

/// Adds the same, where players are told of other tables.
pub(crate) fn push_beside(
    text: &mut Vec<u8>,
    session: &Session,
    results: &Results<'_>,
    is_open: bool,
    side: Side,
    row: Row,
    board: BoardNumber,
) -> Result<(), AllocError>
    requires { results.now ≡ session.now }
    ensures { OnOk result (text.new.items ≡ text.old.items ++ lines_text (beside session.now is_open side row board)) }
{
    if !is_open {
        return Ok(());
    }
    let scoring = session.config().fields().scoring;
    let lines = results.traveller(board);
    push_board(text, scoring, side, row, lines.as_slice())
}
