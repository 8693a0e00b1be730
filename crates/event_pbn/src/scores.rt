//! The table of the results of a board in all sections.
ghost use Rattle.std.specs.Prelude.{◌≡◌, ◌++◌, flat_map};
ghost use Rattle.line_text.specs.Streams.{stream, Written};
ghost use Rattle.results_pbn.specs.Scores.{gain_columns};
ghost use Rattle.event_pbn.specs.SectionScores.{play_columns, section_row, section_scores};

use crate::cells::section_cell;
use bridge_cards::Scoring;
use event_results::SectionPlay;
use line_text::write_text;
use page_layout::{PageText, push_bytes};
use results_pbn::scores::{gain_columns, write_row};
use std::io::{Error, Write};

/// Writes the row of a play.
fn write_section_row<W: Write>(
    scoring: Scoring,
    play: &SectionPlay,
    writer: &mut W,
) -> Result<(), Error>
    ensures { Written (stream W.contents writer.old writer.new) (section_row scoring play.now) result }
{
    write_text(writer, section_cell(play.section).as_slice())?;
    write_row(scoring, &play.line, writer)
}

/// Writes the rows of plays.
fn write_rows<W: Write>(
    scoring: Scoring,
    plays: &[SectionPlay],
    writer: &mut W,
) -> Result<(), Error>
    ensures { Written (stream W.contents writer.old writer.new) (flat_map (section_row scoring) plays.now) result }
{
    for play in plays {
        write_section_row(scoring, play, writer)?;
    }
    Ok(())
}

/// All columns.
#[tactic(auto, unfolding(crate::specs::SectionScores::play_columns))]
fn score_columns(scoring: Scoring) -> PageText
    ensures { result.items ≡ play_columns ++ gain_columns scoring }
{
    let mut text = PageText::new();
    push_bytes(
        &mut text,
        b"[ScoreTable \"Section\\2L;Round\\2R;Table\\2R;PairId_NS\\2R;PairId_EW\\2R;Contract\\5L;Declarer\\1L;Result\\2R;Lead\\2L;Score_NS\\6R;",
    );
    push_bytes(&mut text, gain_columns(scoring));
    text
}

/// Writes all columns.
fn write_columns<W: Write>(scoring: Scoring, writer: &mut W) -> Result<(), Error>
    ensures { Written (stream W.contents writer.old writer.new) (play_columns ++ gain_columns scoring) result }
{
    write_text(writer, score_columns(scoring).as_slice())
}

/// Writes the table of the plays of a board.
pub fn write_section_scores<W: Write>(
    scoring: Scoring,
    plays: &[SectionPlay],
    writer: &mut W,
) -> Result<(), Error>
    ensures { Written (stream W.contents writer.old writer.new) (section_scores scoring plays.now) result }
{
    write_columns(scoring, writer)?;
    write_rows(scoring, plays, writer)
}
