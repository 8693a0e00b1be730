//! The results of a session, as the commands `rank`, `pbn` and `results` write them, and the command `results`.
ghost use Rattle.std.specs.Prelude.{◌≡◌};
ghost use Rattle.line_text.specs.Streams.{stream};
ghost use Rattle.bridge_pbn.specs.Games.{session_text};
ghost use Rattle.bridge_results.specs.Costs.{seen, no_analysis};
ghost use Rattle.bridge_results.specs.ResultsText.{IsNamedPageText};
ghost use Rattle.club_commands.specs.Results.{field_heading, IsFieldText, IsRankingText, page_format, Tells, plays_in, TellsWithout, TellsAnalysed, TellsAsked, TellsPage, ReadsAndTells};
ghost use Rattle.club_commands.specs.Ended.{Writes};
ghost use Rattle.sector_disk.specs.File.{file_disk};

use crate::fault::RunFault;
use crate::listed::refuse_list;
use crate::output::write_output;
use bridge_pbn::write_pbn;
use bridge_results::{Analysis, write_results_with};
use bridge_session::{Field, Session};
use club_disk::{ClubDisk, Left, read_disk};
use command_line::PageAsked;
use evening_commands::{EveningFault, has_pairs};
use evening_draft::PairNames;
use makeable_deals::Progress;
use page_layout::Format;
use sector_disk::SectorDisk;
use session_analysis::{Plays, analysis_of};
use session_store::StoreFault;
use std::alloc::Global;
use std::io::Write;
use table_server::{ReplyText, ServeFault, push_pairs};

/// The heading of a field.
fn heading(field: Field) -> &'static str
    ensures { result.now ≡ field_heading field }
{
    match field {
        Field::First => "FIELD 1\n",
        Field::Second => "FIELD 2\n",
    }
}

/// The heading of a field and the lines of its pairs, as the director's ranking has them; nothing where there is no such
/// field.
fn field_text(session: &Session, field: Field) -> ReplyText
    ensures { IsFieldText session.now field result.bytes }
{
    let fields = session.config().fields();
    let mut text = ReplyText::new();
    match session.ranking(fields.director, field) {
        Ok(ranking) => {
            text.push_str(heading(field));
            push_pairs(&mut text, fields.scoring, ranking.as_slice());
            text
        }
        Err(_) => text,
    }
}

/// Writes the ranking of each field.
pub fn write_ranking<W: Write>(session: &Session, output: &mut W) -> Result<(), RunFault>
    ensures { Tells IsRankingText session.now (stream W.contents output.old output.new) result }
{
    let first = field_text(session, Field::First);
    let second = field_text(session, Field::Second);
    write_output(output, first.as_str())?;
    write_output(output, second.as_str())
}

/// Writes the results in Portable Bridge Notation.
pub fn write_games<W: Write>(session: &Session, output: &mut W) -> Result<(), RunFault>
    ensures { Writes (stream W.contents output.old output.new) (session_text session.now) result }
{
    write_pbn(session, output).or(Err(RunFault::Stream(ServeFault::Write)))
}

/// The format that `--html` asks for, and that without it.
pub fn page_format(html: bool) -> Format
    ensures { result ≡ page_format html }
{
    if html { Format::Html } else { Format::Plain }
}

/// Writes the results as a page, with these names or the configuration's, and with what was found.
fn write_named<W: Write>(
    session: &Session,
    format: Format,
    names: Option<&[PairNames]>,
    analysis: &Analysis<'_>,
    output: &mut W,
) -> Result<(), RunFault>
    ensures { Tells (IsNamedPageText format names.entry (seen analysis.now)) session.now (stream W.contents output.old output.new) result }
{
    match write_results_with(session, names, analysis, format, output) {
        Ok(()) => Ok(()),
        Err(_) => Err(RunFault::Stream(ServeFault::Write)),
    }
}

/// Writes the page without an analysis.
fn write_plain<W: Write>(
    session: &Session,
    format: Format,
    names: Option<&[PairNames]>,
    output: &mut W,
) -> Result<(), RunFault>
    ensures { Tells (IsNamedPageText format names.entry no_analysis) session.now (stream W.contents output.old output.new) result }
{
    let analysis = Analysis {
        boards: &[],
        plays: &[],
    };
    write_named(session, format, names, &analysis, output)
}

/// The same, and then the fault is that memory was refused.
fn write_without<W: Write>(
    session: &Session,
    format: Format,
    names: Option<&[PairNames]>,
    output: &mut W,
) -> Result<(), RunFault>
    ensures { TellsWithout format names.entry session.now (stream W.contents output.old output.new) result }
{
    write_plain(session, format, names, output)?;
    Err(RunFault::Store(StoreFault::NoMemory))
}

/// Whether a page of that format shows what cards cost: the plays stand in HTML alone.
fn plays_in(format: Format) -> Plays
    ensures { result ≡ plays_in format }
{
    match format {
        Format::Plain => Plays::LeftOut,
        Format::Html => Plays::Found,
    }
}

/// Writes the page with what is found of the session; or where memory is refused, without.
fn write_analysed<W: Write>(
    alloc: Global,
    progress: Progress,
    session: &Session,
    format: Format,
    names: Option<&[PairNames]>,
    output: &mut W,
) -> Result<(), RunFault>
    ensures { TellsAnalysed format names.entry session.now (stream W.contents output.old output.new) result }
{
    let mut progress = progress;
    let found = analysis_of(alloc, session, plays_in(format), &mut progress);
    progress.end();
    match found {
        Ok(found) => write_named(session, format, names, &found.analysis(), output),
        Err(_) => write_without(session, format, names, output),
    }
}

/// Writes the page that is asked for.
fn write_asked<W: Write>(
    alloc: Global,
    progress: Progress,
    session: &Session,
    page: PageAsked,
    names: Option<&[PairNames]>,
    output: &mut W,
) -> Result<(), RunFault>
    ensures { TellsAsked page names.entry session.now (stream W.contents output.old output.new) result }
{
    let format = page_format(page.html);
    if page.no_analysis {
        write_plain(session, format, names, output)
    } else {
        write_analysed(alloc, progress, session, format, names, output)
    }
}

/// The same; or that the list has another number of pairs, which is the fault.
fn write_page<W: Write>(
    alloc: Global,
    progress: Progress,
    session: &Session,
    page: PageAsked,
    names: Option<&[PairNames]>,
    output: &mut W,
) -> Result<(), RunFault>
    ensures { TellsPage page names.entry session.now (stream W.contents output.old output.new) result }
{
    if has_pairs(names, session.config()) {
        write_asked(alloc, progress, session, page, names, output)
    } else {
        refuse_list(EveningFault::OtherPairs, output)
    }
}

/// Reads the session that a disk holds, to which nothing is written, and writes its results as a page.
fn tell_disk<D: SectorDisk, W: Write>(
    alloc: Global,
    progress: Progress,
    page: PageAsked,
    names: Option<&[PairNames]>,
    disk: &mut D,
    output: &mut W,
) -> Result<(), RunFault>
    ensures { ReadsAndTells page names.entry D.disk (stream W.contents output.old output.new) result
        disk.old disk.new }
{
    match read_disk(alloc, disk) {
        Ok(session) => write_page(alloc, progress, &session, page, names, output),
        Err(cause) => Err(RunFault::Store(cause)),
    }
}

/// The same, and hands the disk out.
pub fn results_over<W: Write>(
    alloc: Global,
    progress: Progress,
    page: PageAsked,
    names: Option<&[PairNames]>,
    disk: ClubDisk,
    output: &mut W,
) -> Left<ClubDisk, RunFault>
    ensures { ReadsAndTells page names.entry file_disk (stream W.contents output.old output.new) result.ended
        disk result.disk }
{
    let mut disk = disk;
    let ended = tell_disk(alloc, progress, page, names, &mut disk, output);
    Left { disk, ended }
}
