//! The results of several sections as a page, whole.
ghost use Rattle.std.specs.Prelude.{◌≤◌, length};
ghost use Rattle.line_text.specs.Streams.{stream, Written};
ghost use Rattle.event_results.specs.EventHead.{event_head};
ghost use Rattle.event_results.specs.EventPage.{first_event, rest_text, page_text, WritesEventPage};

use crate::pages::boards::write_board_sheet;
use crate::pages::head::event_head;
use crate::pages::sheets::write_sheets;
use crate::rankings::FieldRankings;
use crate::results::EventResults;
use bridge_config::Config;
use bridge_ranking::Field;
use bridge_results::Makeable;
use bridge_results::pages::page::write_page_end;
use bridge_session::Session;
use line_text::write_text;
use page_layout::Format;
use std::io::{Error, Write};

/// Writes the head of the page, by a configuration.
fn write_head<W: Write>(
    format: Format,
    config: &Config,
    sections: u32,
    writer: &mut W,
) -> Result<(), Error>
    ensures { Written (stream W.contents writer.old writer.new) (event_head format config.now sections) result }
{
    let text = event_head(format, config, sections);
    write_text(writer, text.as_slice())
}

/// Writes the head of the page, by the first section's configuration.
fn write_first_event<W: Write>(
    format: Format,
    sections: &[Session],
    writer: &mut W,
) -> Result<(), Error>
    requires { length sections.now ≤ 40 }
    ensures { Written (stream W.contents writer.old writer.new) (first_event format sections.now) result }
{
    match sections.first() {
        Some(session) => write_head(format, session.config(), sections.len() as u32, writer),
        None => write_text(writer, b""),
    }
}

/// Writes the boards, and what ends the page.
fn write_rest<W: Write>(
    format: Format,
    boards: &[Option<Makeable>],
    results: &EventResults<'_>,
    writer: &mut W,
) -> Result<(), Error>
    ensures { Written (stream W.contents writer.old writer.new) (rest_text format boards.now results.now) result }
{
    write_board_sheet(format, boards, results, writer)?;
    write_page_end(format, writer)
}

/// Writes the page with these rankings.
fn write_page<W: Write>(
    format: Format,
    boards: &[Option<Makeable>],
    results: &EventResults<'_>,
    first: &FieldRankings,
    second: &FieldRankings,
    writer: &mut W,
) -> Result<(), Error>
    ensures { Written (stream W.contents writer.old writer.new) (page_text format boards.now results.now first.now second.now) result }
{
    let sections = results.sections();
    write_first_event(format, sections, writer)?;
    write_sheets(format, sections, first, second, writer)?;
    write_rest(format, boards, results, writer)
}

/// Writes the results of several sections as a page: the event of the first section, the ranking of each field over all sections and
/// in each section, and each board that was played with its traveller over all sections. Below the hands of a board stands what
/// could be made on it, as far as the boards tell. It takes no memory.
///
/// It stops at the writer's first error, or with `WriteZero` where a write takes no byte: the writer then has a prefix of
/// the text.
pub fn write_event_results<W: Write>(
    format: Format,
    boards: &[Option<Makeable>],
    results: &EventResults<'_>,
    writer: &mut W,
) -> Result<(), Error>
    ensures { WritesEventPage (stream W.contents writer.old writer.new) format boards.now results.now result }
{
    let first = results.rankings(Field::First);
    let second = results.rankings(Field::Second);
    write_page(format, boards, results, first, second, writer)
}
