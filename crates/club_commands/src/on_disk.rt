//! A work over the disk in a file. The file is locked for as long as the work takes, which no clause can say and tests show; the
//! disk is handed out as the last call left it, and then let go.
ghost use Rattle.std.specs.Prelude.{◌≡◌, Result, IfOk};
ghost use Rattle.line_text.specs.Streams.{stream};
ghost use Rattle.sector_disk.specs.File.{file_disk};
ghost use Rattle.sector_disk.specs.declared.disk.DiskFault.{DiskFault};
ghost use Rattle.club_disk.specs.Stored.{ClubDisk};
ghost use Rattle.club_disk.specs.declared.access.Access.TheVariants.{Make};
ghost use Rattle.club_commands.specs.Works.{access_of, Works, WorksFound, HasWorked};

use crate::check::check_over;
use crate::exports::export_over;
use crate::fault::RunFault;
use crate::formatting::format_disk;
use crate::machine::{Host, Machine};
use crate::results::results_over;
use crate::services::serve_over;
use crate::telling::tell_over;
use crate::work::Work;
use club_disk::{Access, ClubDisk, Left, let_go, lock_for, locked_disk};
use makeable_deals::Progress;
use sector_disk::DiskFault;
use session_store::StoreFault;
use std::alloc::Global;
use std::io::{Read, Write};

/// How the disk is taken for a work.
fn access_of(work: &Work<'_>) -> Access
    ensures { result ≡ access_of work.now }
{
    match *work {
        Work::Serve(_) => Access::Write,
        Work::Tell(_) => Access::Write,
        Work::Results { .. } => Access::Read,
        Work::Export(_) => Access::Read,
        Work::Check => Access::Read,
        Work::Format(_) => Access::Make,
    }
}

/// Does a work over a disk, and hands it out.
fn do_work<S: Host, R: Read, W: Write>(
    rt: &S,
    alloc: Global,
    work: &Work<'_>,
    disk: ClubDisk,
    input: &mut R,
    output: &mut W,
) -> Left<ClubDisk, RunFault>
    requires { access_of work.now ≡ Make → file_disk.count disk ≡ 2048 }
    ensures { Works (stream R.remaining input.old input.new) (stream W.contents output.old output.new) result.ended
        work.now disk result.disk }
{
    match *work {
        Work::Serve(service) => serve_over(rt, alloc, &service, disk, input, output),
        Work::Tell(told) => tell_over(alloc, told, disk, output),
        Work::Results { page, names } => {
            let progress = Progress::on(rt.errors());
            results_over(alloc, progress, page, names, disk, output)
        }
        Work::Export(asked) => {
            let progress = Progress::on(rt.errors());
            export_over(alloc, progress, asked, disk, output)
        }
        Work::Check => check_over(alloc, disk, output),
        Work::Format(session) => format_disk(disk, session, output),
    }
}

/// Does a work over the disk that was found. What was found is handed in, since only so a clause can say what comes of it.
fn over_found<S: Host, R: Read, W: Write>(
    rt: &S,
    alloc: Global,
    work: &Work<'_>,
    found: Result<ClubDisk, DiskFault>,
    input: &mut R,
    output: &mut W,
) -> Left<Option<ClubDisk>, RunFault>
    requires { access_of work.now ≡ Make → IfOk found (λ disk. file_disk.count disk ≡ 2048) }
    ensures { WorksFound (stream R.remaining input.old input.new) (stream W.contents output.old output.new) result.ended
        work.now found result.disk }
{
    match found {
        Ok(disk) => {
            let Left { disk, ended } = do_work(rt, alloc, work, disk, input, output);
            Left {
                disk: Some(disk),
                ended,
            }
        }
        Err(_) => Left {
            disk: None,
            ended: Err(RunFault::Store(StoreFault::Disk)),
        },
    }
}

/// Does a work over the disk in a file, and hands the disk out.
fn on_file<S: Machine, R: Read, W: Write>(
    rt: &S,
    alloc: Global,
    disk: &str,
    work: &Work<'_>,
    input: &mut R,
    output: &mut W,
) -> Left<Option<ClubDisk>, RunFault>
    ensures { (found : Result ClubDisk DiskFault)
        × WorksFound (stream R.remaining input.old input.new) (stream W.contents output.old output.new) result.ended
        work.now found result.disk }
{
    let access = access_of(work);
    let lock = lock_for(rt, alloc, disk, access);
    let found = locked_disk(rt, disk, access, &lock);
    over_found(rt, alloc, work, found, input, output)
}

/// Does a work over the disk in a file.
pub fn run_over<S: Machine, R: Read, W: Write>(
    rt: &S,
    alloc: Global,
    disk: &str,
    work: &Work<'_>,
    input: &mut R,
    output: &mut W,
) -> Result<(), RunFault>
    ensures { HasWorked (stream R.remaining input.old input.new) (stream W.contents output.old output.new) result work.now }
{
    let_go(on_file(rt, alloc, disk, work, input, output))
}
