//! What is written of several sections as one field, for the commands `results` and `export`.
ghost use Rattle.std.specs.Prelude.{◌≤◌, length};
ghost use Rattle.line_text.specs.Streams.{stream};
ghost use Rattle.event_ranking.specs.OneField.{IsField};
ghost use Rattle.event_results.specs.EventTables.{plays_table};
ghost use Rattle.club_commands.specs.Ended.{Writes};
ghost use Rattle.club_commands.specs.Results.{Tells};
ghost use Rattle.club_commands.specs.Events.{IsEventPage, IsEventGames, IsEventRankings, IsBoardsText, TellsWithoutBoards, TellsBoardsFound, TellsBoards, TellsEventObject, TellsAskedOf, TellsEvent};

use crate::fault::RunFault;
use crate::output::write_output;
use crate::results::page_format;
use bridge_results::Makeable;
use bridge_session::Session;
use command_line::{EventAsked, ExportAsked};
use event_object::event_object_text;
use event_pbn::write_event_games;
use event_results::{EventResults, write_event_plays, write_event_rankings, write_event_results};
use makeable_deals::Progress;
use page_layout::Format;
use session_analysis::event_boards_of;
use session_store::StoreFault;
use std::alloc::Global;
use std::io::Write;
use table_server::ServeFault;

/// A text of an event that has what could be made on each board, where that is known.
#[derive(Clone, Copy)]
pub enum BoardsText {
    /// The results as a page.
    Page(Format),
    /// The games of Portable Bridge Notation.
    Games,
}

/// Writes the page with what could be made on these boards.
fn write_page<W: Write>(
    format: Format,
    results: &EventResults<'_>,
    boards: &[Option<Makeable>],
    output: &mut W,
) -> Result<(), RunFault>
    ensures { Tells (IsEventPage format boards.now) results.now (stream W.contents output.old output.new) result }
{
    match write_event_results(format, boards, results, output) {
        Ok(()) => Ok(()),
        Err(_) => Err(RunFault::Stream(ServeFault::Write)),
    }
}

/// Writes the games so.
fn write_games<W: Write>(
    results: &EventResults<'_>,
    boards: &[Option<Makeable>],
    output: &mut W,
) -> Result<(), RunFault>
    ensures { Tells (IsEventGames boards.now) results.now (stream W.contents output.old output.new) result }
{
    match write_event_games(results, boards, output) {
        Ok(()) => Ok(()),
        Err(_) => Err(RunFault::Stream(ServeFault::Write)),
    }
}

/// Writes a text with what could be made on these boards.
fn write_boards<W: Write>(
    text: BoardsText,
    results: &EventResults<'_>,
    boards: &[Option<Makeable>],
    output: &mut W,
) -> Result<(), RunFault>
    ensures { Tells (IsBoardsText text boards.now) results.now (stream W.contents output.old output.new) result }
{
    match text {
        BoardsText::Page(format) => write_page(format, results, boards, output),
        BoardsText::Games => write_games(results, boards, output),
    }
}

/// Writes it without what could be made, and then the fault is that memory was refused.
fn write_without_boards<W: Write>(
    text: BoardsText,
    results: &EventResults<'_>,
    output: &mut W,
) -> Result<(), RunFault>
    ensures { TellsWithoutBoards text results.now (stream W.contents output.old output.new) result }
{
    write_boards(text, results, &[], output)?;
    Err(RunFault::Store(StoreFault::NoMemory))
}

/// Writes it with what could be made on each board; or where memory is refused, without.
fn write_boards_found<W: Write>(
    alloc: Global,
    progress: Progress,
    text: BoardsText,
    results: &EventResults<'_>,
    output: &mut W,
) -> Result<(), RunFault>
    ensures { TellsBoardsFound text results.now (stream W.contents output.old output.new) result }
{
    let mut progress = progress;
    let found = event_boards_of(alloc, results.sections(), &mut progress);
    progress.end();
    match found {
        Ok(boards) => write_boards(text, results, boards.as_slice(), output),
        Err(_) => write_without_boards(text, results, output),
    }
}

/// Writes it so, or where no analysis is wished, without.
fn write_text_of<W: Write>(
    alloc: Global,
    progress: Progress,
    text: BoardsText,
    no_analysis: bool,
    results: &EventResults<'_>,
    output: &mut W,
) -> Result<(), RunFault>
    ensures { TellsBoards text no_analysis results.now (stream W.contents output.old output.new) result }
{
    if no_analysis {
        write_boards(text, results, &[], output)
    } else {
        write_boards_found(alloc, progress, text, results, output)
    }
}

/// Writes the plays as comma-separated values.
fn write_plays<W: Write>(results: &EventResults<'_>, output: &mut W) -> Result<(), RunFault>
    ensures { Writes (stream W.contents output.old output.new) (plays_table results.now) result }
{
    write_event_plays(results, output).or(Err(RunFault::Stream(ServeFault::Write)))
}

/// Writes the rankings so.
fn write_rankings<W: Write>(results: &EventResults<'_>, output: &mut W) -> Result<(), RunFault>
    ensures { Tells IsEventRankings results.now (stream W.contents output.old output.new) result }
{
    match write_event_rankings(results, output) {
        Ok(()) => Ok(()),
        Err(_) => Err(RunFault::Stream(ServeFault::Write)),
    }
}

/// Writes all as one object, unless memory is refused.
fn write_object<W: Write>(
    alloc: Global,
    results: &EventResults<'_>,
    output: &mut W,
) -> Result<(), RunFault>
    requires { IsField results.now }
    ensures { TellsEventObject results.now (stream W.contents output.old output.new) result }
{
    match event_object_text(alloc, results) {
        Ok(text) => write_output(output, text.as_str()),
        Err(_) => Err(RunFault::Store(StoreFault::NoMemory)),
    }
}

/// Writes what is asked for.
fn write_asked<W: Write>(
    alloc: Global,
    progress: Progress,
    results: &EventResults<'_>,
    asked: EventAsked,
    output: &mut W,
) -> Result<(), RunFault>
    requires { IsField results.now }
    ensures { TellsAskedOf asked results.now (stream W.contents output.old output.new) result }
{
    match asked {
        EventAsked::Page(page) => {
            let text = BoardsText::Page(page_format(page.html));
            write_text_of(alloc, progress, text, page.no_analysis, results, output)
        }
        EventAsked::Export(ExportAsked::Plays) => write_plays(results, output),
        EventAsked::Export(ExportAsked::Rankings) => write_rankings(results, output),
        EventAsked::Export(ExportAsked::Object) => write_object(alloc, results, output),
        EventAsked::Export(ExportAsked::Games { no_analysis }) => write_text_of(
            alloc,
            progress,
            BoardsText::Games,
            no_analysis,
            results,
            output,
        ),
    }
}

/// Writes what is asked for of sections that are one field, unless memory is refused before.
pub fn tell_event<W: Write>(
    alloc: Global,
    progress: Progress,
    sections: &[Session],
    asked: EventAsked,
    output: &mut W,
) -> Result<(), RunFault>
    requires few { length sections.now ≤ 40 }
    requires field { IsField sections.now }
    ensures { TellsEvent asked sections.now (stream W.contents output.old output.new) result }
{
    match EventResults::new(alloc, sections) {
        Ok(results) => write_asked(alloc, progress, &results, asked, output),
        Err(_) => Err(RunFault::Store(StoreFault::NoMemory)),
    }
}
