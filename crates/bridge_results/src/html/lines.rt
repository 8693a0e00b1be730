//! The traveller of a board in HTML.
ghost use Rattle.std.specs.Prelude.{◌≡◌, ◌≤◌, ◌++◌, length};
ghost use Rattle.std.specs.Fmt.{decimal};
ghost use Rattle.line_text.specs.Streams.{stream, Written};
ghost use Rattle.page_layout.specs.declared.format.Format.TheVariants.{Html};
ghost use Rattle.bridge_cards.specs.declared.scoring.Scoring.TheVariants.{MatchPoints, Imps};
ghost use Rattle.bridge_results.specs.BoardText.{side_gain};
ghost use Rattle.bridge_results.specs.HtmlBoard.{gain_for, side_percent, html_line, html_line_titles, html_lines_head, html_lines, html_traveller};

use crate::compare::Comparison;
use crate::html::cells::{percent_cell, perhaps_card, result_cell};
use crate::html::columns::{SHARE_LINE_COLUMNS, SUM_LINE_COLUMNS};
use crate::html::links::{linked_row, pair_target, play_target};
use crate::pages::board::{side_gain, write_table_end};
use crate::pages::cells::{declarer_cell, line_score, score_cell};
use crate::traveller::BoardLine;
use bridge_cards::Scoring;
use line_text::{NumberText, number_text, write_text};
use page_layout::{Format, PageText, push_bytes, push_titles};
use std::io::{Error, Write};

/// What North and South gained, or else East and West.
fn gain_for(compared: Comparison, ns: bool) -> i32
    ensures { result ≡ gain_for ns compared }
{
    if ns {
        compared.ns_gain
    } else {
        compared.ew_gain
    }
}

/// What a side gained, in per cent of what was available.
fn side_percent(line: &BoardLine, available: u32, ns: bool) -> NumberText
    ensures text { result.bytes ≡ side_percent line.now available ns }
    ensures short { length result.bytes ≤ 13 }
{
    match line.comparison {
        Some(compared) => percent_cell(Some(gain_for(compared, ns)), available),
        None => percent_cell(None, available),
    }
}

/// The number of a pair.
fn pair_text(pair: u8) -> NumberText
    ensures text { result.bytes ≡ decimal pair }
    ensures short { length result.bytes ≤ 10 }
{
    number_text(u32::from(pair))
}

/// What a side gained, in matchpoints.
fn points(line: &BoardLine, ns: bool) -> NumberText
    ensures text { result.bytes ≡ side_gain MatchPoints line.now.comparison ns }
    ensures short { length result.bytes ≤ 22 }
{
    side_gain(Scoring::MatchPoints, line.comparison, ns)
}

/// The row of a line by matchpoints.
fn share_line(line: &BoardLine, available: u32) -> PageText
    ensures { result.items ≡ html_line MatchPoints available line.now }
{
    let play = &line.play;
    let (ns, ew) = (pair_text(play.row.ns), pair_text(play.row.ew));
    let (made, lead) = (result_cell(play.outcome), perhaps_card(play.lead));
    let score = score_cell(play.outcome, line_score(line.comparison));
    let (ns_gain, ew_gain) = (points(line, true), points(line, false));
    let ns_percent = side_percent(line, available, true);
    let ew_percent = side_percent(line, available, false);
    let cells = [
        ns.as_str().as_bytes(),
        ew.as_str().as_bytes(),
        made.as_str().as_bytes(),
        declarer_cell(play.outcome).as_bytes(),
        lead.as_str().as_bytes(),
        score.as_str().as_bytes(),
        ns_gain.as_str().as_bytes(),
        ew_gain.as_str().as_bytes(),
        ns_percent.as_str().as_bytes(),
        ew_percent.as_str().as_bytes(),
    ];
    let (first, second) = (pair_target(play.row.ns), pair_target(play.row.ew));
    let third = play_target(play);
    let targets = [
        first.as_str().as_bytes(),
        second.as_str().as_bytes(),
        third.as_str().as_bytes(),
        b"",
        b"",
        b"",
        b"",
        b"",
        b"",
        b"",
    ];
    linked_row(&SHARE_LINE_COLUMNS, &targets, &cells)
}

/// The row of a line by IMPs.
fn sum_line(line: &BoardLine, available: u32) -> PageText
    ensures { result.items ≡ html_line Imps available line.now }
{
    let play = &line.play;
    let (ns, ew) = (pair_text(play.row.ns), pair_text(play.row.ew));
    let (made, lead) = (result_cell(play.outcome), perhaps_card(play.lead));
    let score = score_cell(play.outcome, line_score(line.comparison));
    let ns_gain = side_gain(Scoring::Imps, line.comparison, true);
    let ew_gain = side_gain(Scoring::Imps, line.comparison, false);
    let cells = [
        ns.as_str().as_bytes(),
        ew.as_str().as_bytes(),
        made.as_str().as_bytes(),
        declarer_cell(play.outcome).as_bytes(),
        lead.as_str().as_bytes(),
        score.as_str().as_bytes(),
        ns_gain.as_str().as_bytes(),
        ew_gain.as_str().as_bytes(),
    ];
    let (first, second) = (pair_target(play.row.ns), pair_target(play.row.ew));
    let third = play_target(play);
    let targets = [
        first.as_str().as_bytes(),
        second.as_str().as_bytes(),
        third.as_str().as_bytes(),
        b"",
        b"",
        b"",
        b"",
        b"",
    ];
    linked_row(&SUM_LINE_COLUMNS, &targets, &cells)
}

/// Writes the row of a line.
fn write_line<W: Write>(
    scoring: Scoring,
    available: u32,
    line: &BoardLine,
    writer: &mut W,
) -> Result<(), Error>
    ensures { Written (stream W.contents writer.old writer.new) (html_line scoring available line.now) result }
{
    match scoring {
        Scoring::MatchPoints => write_text(writer, share_line(line, available).as_slice()),
        Scoring::Imps => write_text(writer, sum_line(line, available).as_slice()),
    }
}

/// Writes the rows of a traveller.
fn write_rows<W: Write>(
    scoring: Scoring,
    available: u32,
    lines: &[BoardLine],
    writer: &mut W,
) -> Result<(), Error>
    ensures { Written (stream W.contents writer.old writer.new) (html_lines scoring available lines.now) result }
{
    for line in lines {
        write_line(scoring, available, line, writer)?;
    }
    Ok(())
}

/// Adds the titles of a traveller by matchpoints.
fn push_share_titles(text: &mut PageText)
    requires { length text.old.items ≤ 2000 }
    ensures { text.new.items ≡ text.old.items ++ html_line_titles MatchPoints }
{
    push_titles(
        text,
        Format::Html,
        &SHARE_LINE_COLUMNS,
        &[
            b"NS",
            b"EW",
            b"Contract",
            b"By",
            b"Lead",
            b"Score",
            b"NS MP",
            b"EW MP",
            b"NS %",
            b"EW %",
        ],
    );
}

/// Adds the titles of a traveller by IMPs.
fn push_sum_titles(text: &mut PageText)
    requires { length text.old.items ≤ 2000 }
    ensures { text.new.items ≡ text.old.items ++ html_line_titles Imps }
{
    push_titles(
        text,
        Format::Html,
        &SUM_LINE_COLUMNS,
        &[
            b"NS",
            b"EW",
            b"Contract",
            b"By",
            b"Lead",
            b"Score",
            b"NS IMPs",
            b"EW IMPs",
        ],
    );
}

/// Adds the titles of a traveller.
fn push_line_titles(text: &mut PageText, scoring: Scoring)
    requires { length text.old.items ≤ 2000 }
    ensures { text.new.items ≡ text.old.items ++ html_line_titles scoring }
{
    match scoring {
        Scoring::MatchPoints => push_share_titles(text),
        Scoring::Imps => push_sum_titles(text),
    }
}

/// Writes what stands above the rows of a traveller.
#[tactic(auto, unfolding(crate::specs::HtmlBoard::html_lines_head))]
fn write_lines_head<W: Write>(scoring: Scoring, writer: &mut W) -> Result<(), Error>
    ensures { Written (stream W.contents writer.old writer.new) (html_lines_head scoring) result }
{
    let mut text = PageText::new();
    push_bytes(
        &mut text,
        b"<table class=\"lines\">\n<caption>Results</caption>\n",
    );
    push_line_titles(&mut text, scoring);
    write_text(writer, text.as_slice())
}

/// Writes a traveller.
pub fn write_traveller<W: Write>(
    scoring: Scoring,
    available: u32,
    lines: &[BoardLine],
    writer: &mut W,
) -> Result<(), Error>
    ensures { Written (stream W.contents writer.old writer.new) (html_traveller scoring available lines.now) result }
{
    write_lines_head(scoring, writer)?;
    write_rows(scoring, available, lines, writer)?;
    write_table_end(Format::Html, writer)
}
