//! The commands over the session on a disk, by their words.
ghost use Rattle.std.specs.Prelude.{None};
ghost use Rattle.line_text.specs.Streams.{stream};
ghost use Rattle.table_server.specs.declared.line_set.LineSet.TheVariants.{Corrections};
ghost use Rattle.club_commands.specs.Listed.{WithList};
ghost use Rattle.club_commands.specs.Run.{ShowsWeb, RunsWeb};
ghost use Rattle.club_commands.specs.Works.{HasListed, HasWorked};
ghost use Rattle.club_commands.specs.declared.work.Listed.TheVariants.{Results as ListedResults};
ghost use Rattle.club_commands.specs.declared.work.Service.TheVariants.{Connections, Input};
ghost use Rattle.club_commands.specs.declared.work.Work.TheVariants.{Export, Serve, Tell};

use crate::copied::{TwoDisks, show_copied};
use crate::fault::RunFault;
use crate::listed::run_listed;
use crate::machine::Machine;
use crate::on_disk::run_over;
use crate::work::{Listed, Misfit, Service, Shown, Told, Work};
use command_line::{ExportAsked, PageAsked, WebWords};
use std::alloc::Global;
use std::io::{Read, Write};
use table_pages::PageTexts;
use table_server::LineSet;

/// Opens the session that the disk in a file holds, and answers the lines of the input, which are of that set, over it.
pub fn serve_set<S: Machine, R: Read, W: Write>(
    rt: &S,
    alloc: Global,
    disk: &str,
    set: LineSet,
    input: &mut R,
    output: &mut W,
) -> Result<(), RunFault>
    ensures { HasWorked (stream R.remaining input.old input.new) (stream W.contents output.old output.new) result
        (Serve (Input set)) }
{
    serve(rt, alloc, disk, Service::Input(set), input, output)
}

/// The same with corrections.
pub fn correct<S: Machine, R: Read, W: Write>(
    rt: &S,
    alloc: Global,
    disk: &str,
    input: &mut R,
    output: &mut W,
) -> Result<(), RunFault>
    ensures { HasWorked (stream R.remaining input.old input.new) (stream W.contents output.old output.new) result
        (Serve (Input Corrections)) }
{
    serve_set(rt, alloc, disk, LineSet::Corrections, input, output)
}

/// The same with the lines of so many connections.
pub fn accept<S: Machine, R: Read, W: Write>(
    rt: &S,
    alloc: Global,
    disk: &str,
    port: u16,
    count: u16,
    input: &mut R,
    output: &mut W,
) -> Result<(), RunFault>
    ensures { HasWorked (stream R.remaining input.old input.new) (stream W.contents output.old output.new) result
        (Serve (Connections port count)) }
{
    let service = Service::Connections { port, count };
    serve(rt, alloc, disk, service, input, output)
}

/// Opens the session that the disk in a file holds, and shows its tables to browsers, with the names of a list where one is given.
fn show_tables<S: Machine, R: Read, W: Write>(
    rt: &S,
    alloc: Global,
    texts: PageTexts,
    disk: &str,
    pages: &WebWords<'_>,
    input: &mut R,
    output: &mut W,
) -> Result<(), RunFault>
    ensures { ShowsWeb texts disk.entry pages.now None (stream R.remaining input.old input.new) (stream W.contents output.old output.new) result }
{
    let listed = Listed::Pages {
        texts,
        host: pages.host,
        minutes: pages.minutes,
        disk,
        misfit: Misfit::Refused,
    };
    run_listed(rt, alloc, disk, &listed, pages.names, input, output)
}

/// The same, or over the session that the disks in two files hold.
pub fn run_web<S: Machine, R: Read, W: Write>(
    rt: &S,
    alloc: Global,
    texts: PageTexts,
    disk: &str,
    pages: &WebWords<'_>,
    input: &mut R,
    output: &mut W,
) -> Result<(), RunFault>
    ensures { RunsWeb texts disk.entry pages.now (stream R.remaining input.old input.new) (stream W.contents output.old output.new) result }
{
    match pages.copy {
        None => show_tables(rt, alloc, texts, disk, pages, input, output),
        Some(copy) => {
            let shown = Shown {
                texts,
                host: pages.host,
                minutes: pages.minutes,
                misfit: Misfit::Refused,
                names: None,
            };
            let disks = TwoDisks { disk, copy };
            show_copied(rt, alloc, &shown, disks, pages.names, output)
        }
    }
}

/// Reads the session that the disk in a file holds, and writes its results as a page, with the names of a list likewise.
pub fn write_page<S: Machine, R: Read, W: Write>(
    rt: &S,
    alloc: Global,
    disk: &str,
    page: PageAsked,
    names: Option<&str>,
    input: &mut R,
    output: &mut W,
) -> Result<(), RunFault>
    ensures { WithList (HasListed (ListedResults page)) names.entry (stream R.remaining input.old input.new)
        (stream W.contents output.old output.new) result }
{
    run_listed(
        rt,
        alloc,
        disk,
        &Listed::Results(page),
        names,
        input,
        output,
    )
}

/// Reads it, and writes it for other programs.
pub fn export<S: Machine, R: Read, W: Write>(
    rt: &S,
    alloc: Global,
    disk: &str,
    asked: ExportAsked,
    input: &mut R,
    output: &mut W,
) -> Result<(), RunFault>
    ensures { HasWorked (stream R.remaining input.old input.new) (stream W.contents output.old output.new) result
        (Export asked) }
{
    run_over(rt, alloc, disk, &Work::Export(asked), input, output)
}

/// Opens the session that the disk in a file holds, and answers lines over it.
pub fn serve<S: Machine, R: Read, W: Write>(
    rt: &S,
    alloc: Global,
    disk: &str,
    service: Service<'_>,
    input: &mut R,
    output: &mut W,
) -> Result<(), RunFault>
    ensures { HasWorked (stream R.remaining input.old input.new) (stream W.contents output.old output.new) result
        (Serve service.entry) }
{
    run_over(rt, alloc, disk, &Work::Serve(service), input, output)
}

/// Opens the session that the disk in a file holds, and writes these results of it.
pub fn tell<S: Machine, R: Read, W: Write>(
    rt: &S,
    alloc: Global,
    disk: &str,
    told: Told,
    input: &mut R,
    output: &mut W,
) -> Result<(), RunFault>
    ensures { HasWorked (stream R.remaining input.old input.new) (stream W.contents output.old output.new) result
        (Tell told) }
{
    run_over(rt, alloc, disk, &Work::Tell(told), input, output)
}
