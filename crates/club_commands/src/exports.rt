//! The command `export`.
ghost use Rattle.line_text.specs.Streams.{stream};
ghost use Rattle.sector_disk.specs.File.{file_disk};
ghost use Rattle.bridge_results.specs.TablesText.{plays_table, IsRankingsTable};
ghost use Rattle.club_commands.specs.Ended.{Writes};
ghost use Rattle.club_commands.specs.Exports.{TellsObject, TellsGamesWithout, TellsGamesFound, TellsGames, TellsExport};
ghost use Rattle.club_commands.specs.Results.{Tells, ReadsAnd};
ghost use Rattle.results_pbn.specs.Games.{IsGamesText};

use crate::fault::RunFault;
use bridge_results::{Makeable, write_plays_table, write_rankings_table};
use bridge_session::Session;
use club_disk::{ClubDisk, Left, read_disk};
use command_line::ExportAsked;
use line_text::write_text;
use makeable_deals::Progress;
use results_object::object_text;
use results_pbn::write_results_games;
use sector_disk::SectorDisk;
use session_analysis::boards_of;
use session_store::StoreFault;
use std::alloc::Global;
use std::io::Write;
use table_server::ServeFault;

/// Writes the plays of a session as comma-separated values.
fn write_plays<W: Write>(session: &Session, output: &mut W) -> Result<(), RunFault>
    ensures { Writes (stream W.contents output.old output.new) (plays_table session.now) result }
{
    write_plays_table(session, output).or(Err(RunFault::Stream(ServeFault::Write)))
}

/// Writes its rankings so.
fn write_rankings<W: Write>(session: &Session, output: &mut W) -> Result<(), RunFault>
    ensures { Tells IsRankingsTable session.now (stream W.contents output.old output.new) result }
{
    match write_rankings_table(session, output) {
        Ok(()) => Ok(()),
        Err(_) => Err(RunFault::Stream(ServeFault::Write)),
    }
}

/// Writes a text.
fn write_whole<W: Write>(text: &str, output: &mut W) -> Result<(), RunFault>
    ensures { Writes (stream W.contents output.old output.new) text.now result }
{
    write_text(output, text.as_bytes()).or(Err(RunFault::Stream(ServeFault::Write)))
}

/// Writes it as one object, unless memory is refused.
fn write_object<W: Write>(alloc: Global, session: &Session, output: &mut W) -> Result<(), RunFault>
    ensures { TellsObject session.now (stream W.contents output.old output.new) result }
{
    match object_text(alloc, session) {
        Ok(text) => write_whole(text.as_str(), output),
        Err(_) => Err(RunFault::Store(StoreFault::NoMemory)),
    }
}

/// Writes it as games of Portable Bridge Notation, with what could be made on these boards.
fn write_games<W: Write>(
    session: &Session,
    boards: &[Option<Makeable>],
    output: &mut W,
) -> Result<(), RunFault>
    ensures { Tells (IsGamesText boards.now) session.now (stream W.contents output.old output.new) result }
{
    match write_results_games(session, boards, output) {
        Ok(()) => Ok(()),
        Err(_) => Err(RunFault::Stream(ServeFault::Write)),
    }
}

/// Writes them without what could be made, and then the fault is that memory was refused.
fn write_games_without<W: Write>(session: &Session, output: &mut W) -> Result<(), RunFault>
    ensures { TellsGamesWithout session.now (stream W.contents output.old output.new) result }
{
    write_games(session, &[], output)?;
    Err(RunFault::Store(StoreFault::NoMemory))
}

/// Writes them with what could be made on each board; or where memory is refused, without.
fn write_games_found<W: Write>(
    alloc: Global,
    progress: Progress,
    session: &Session,
    output: &mut W,
) -> Result<(), RunFault>
    ensures { TellsGamesFound session.now (stream W.contents output.old output.new) result }
{
    let mut progress = progress;
    let found = boards_of(alloc, session, &mut progress);
    progress.end();
    match found {
        Ok(boards) => write_games(session, boards.as_slice(), output),
        Err(_) => write_games_without(session, output),
    }
}

/// Writes the games that are asked for.
fn write_asked<W: Write>(
    alloc: Global,
    progress: Progress,
    session: &Session,
    no_analysis: bool,
    output: &mut W,
) -> Result<(), RunFault>
    ensures { TellsGames no_analysis session.now (stream W.contents output.old output.new) result }
{
    if no_analysis {
        write_games(session, &[], output)
    } else {
        write_games_found(alloc, progress, session, output)
    }
}

/// Writes what is asked for.
fn write_export<W: Write>(
    alloc: Global,
    progress: Progress,
    session: &Session,
    asked: ExportAsked,
    output: &mut W,
) -> Result<(), RunFault>
    ensures { TellsExport asked session.now (stream W.contents output.old output.new) result }
{
    match asked {
        ExportAsked::Plays => write_plays(session, output),
        ExportAsked::Rankings => write_rankings(session, output),
        ExportAsked::Object => write_object(alloc, session, output),
        ExportAsked::Games { no_analysis } => {
            write_asked(alloc, progress, session, no_analysis, output)
        }
    }
}

/// Reads the session that a disk holds, to which nothing is written, and exports it.
fn export_disk<D: SectorDisk, W: Write>(
    alloc: Global,
    progress: Progress,
    asked: ExportAsked,
    disk: &mut D,
    output: &mut W,
) -> Result<(), RunFault>
    ensures { ReadsAnd (TellsExport asked) D.disk (stream W.contents output.old output.new) result disk.old disk.new }
{
    match read_disk(alloc, disk) {
        Ok(session) => write_export(alloc, progress, &session, asked, output),
        Err(cause) => Err(RunFault::Store(cause)),
    }
}

/// The same, and hands the disk out.
pub fn export_over<W: Write>(
    alloc: Global,
    progress: Progress,
    asked: ExportAsked,
    disk: ClubDisk,
    output: &mut W,
) -> Left<ClubDisk, RunFault>
    ensures { ReadsAnd (TellsExport asked) file_disk (stream W.contents output.old output.new) result.ended disk result.disk }
{
    let mut disk = disk;
    let ended = export_disk(alloc, progress, asked, &mut disk, output);
    Left { disk, ended }
}
