//! What is shown of a table's play of a board before it is opened: the pairs and what came of it.
ghost use Rattle.std.specs.Prelude.{◌≡◌, ◌≤◌, length, map};
ghost use Rattle.line_text.specs.Streams.{stream, Written};
ghost use Rattle.bridge_config.specs.ConfigValue.{pair_of};
ghost use Rattle.bridge_results.specs.HtmlCourse.{pair_behind, meeting_words, first_names, second_names, summary_end, summary_html};

use crate::html::cells::result_cell;
use crate::pages::cells::declarer_cell;
use crate::pages::shown::shown_pair;
use crate::play::TablePlay;
use arrayvec::ArrayString;
use bridge_config::PairFields;
use evening_draft::PairNames;
use line_text::{number_text, write_text};
use page_layout::{Content, Format, PageText, push_bytes, push_html, push_paragraph};
use std::io::{Error, Write};

/// A pair's number and its names, behind what stands before them. Names that are read from right to left leave the rest in its place.
fn pair_behind(
    before: &[u8],
    names: Option<&[PairNames]>,
    pairs: &[PairFields],
    pair: u8,
) -> PageText
    requires { length before.now ≤ 24 }
    ensures { result.items ≡ pair_behind before.now names.entry (map pair_of pairs.now) pair }
{
    let number = number_text(u32::from(pair));
    let shown = shown_pair(names, pairs, pair);
    let mut text = PageText::new();
    push_bytes(&mut text, before);
    push_html(&mut text, Content::Words, number.as_str().as_bytes());
    push_bytes(&mut text, b" <bdi>");
    push_html(&mut text, Content::Words, shown.as_str().as_bytes());
    push_bytes(&mut text, b"</bdi>");
    text
}

/// Writes the pair that sat North and South.
#[tactic(auto, unfolding(crate::specs::HtmlCourse::first_names))]
fn write_first<W: Write>(
    names: Option<&[PairNames]>,
    pairs: &[PairFields],
    play: &TablePlay,
    writer: &mut W,
) -> Result<(), Error>
    ensures { Written (stream W.contents writer.old writer.new) (first_names names.entry (map pair_of pairs.now) play.now) result }
{
    let text = pair_behind(b"<details>\n<summary>", names, pairs, play.row.ns);
    write_text(writer, text.as_slice())
}

/// Writes the pair that sat East and West.
#[tactic(auto, unfolding(crate::specs::HtmlCourse::second_names))]
fn write_second<W: Write>(
    names: Option<&[PairNames]>,
    pairs: &[PairFields],
    play: &TablePlay,
    writer: &mut W,
) -> Result<(), Error>
    ensures { Written (stream W.contents writer.old writer.new) (second_names names.entry (map pair_of pairs.now) play.now) result }
{
    let text = pair_behind(b", ", names, pairs, play.row.ew);
    write_text(writer, text.as_slice())
}

/// The round and the table.
fn meeting_words(play: &TablePlay) -> ArrayString<40>
    ensures text { result.bytes ≡ meeting_words play.now }
    ensures short { length result.bytes ≤ 40 }
{
    let mut text = ArrayString::new();
    text.push_str("Round ");
    text.push_str(number_text(u32::from(play.row.round)).as_str());
    text.push_str(", table ");
    text.push_str(number_text(u32::from(play.row.table)).as_str());
    text
}

/// Writes what came of the play, its declarer, and where it was played.
#[tactic(auto, unfolding(crate::specs::HtmlCourse::summary_end))]
fn write_summary_end<W: Write>(play: &TablePlay, writer: &mut W) -> Result<(), Error>
    ensures { Written (stream W.contents writer.old writer.new) (summary_end play.now) result }
{
    let made = result_cell(play.outcome);
    let meeting = meeting_words(play);
    let mut text = PageText::new();
    push_bytes(&mut text, b": ");
    push_html(&mut text, Content::Cards, made.as_str().as_bytes());
    push_bytes(&mut text, b" ");
    push_html(
        &mut text,
        Content::Words,
        declarer_cell(play.outcome).as_bytes(),
    );
    push_bytes(&mut text, b"</summary>\n");
    push_paragraph(&mut text, Format::Html, meeting.as_str().as_bytes());
    write_text(writer, text.as_slice())
}

/// Writes the pairs, what came of the play, and where it was played.
pub fn write_summary<W: Write>(
    names: Option<&[PairNames]>,
    pairs: &[PairFields],
    play: &TablePlay,
    writer: &mut W,
) -> Result<(), Error>
    ensures { Written (stream W.contents writer.old writer.new) (summary_html names.entry (map pair_of pairs.now) play.now) result }
{
    write_first(names, pairs, play, writer)?;
    write_second(names, pairs, play, writer)?;
    write_summary_end(play, writer)
}
