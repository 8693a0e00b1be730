//! What the command `check` says of two disks of one session; nothing is written to either. Both files are locked until it has
//! ended, which no clause can say and tests show.
ghost use Rattle.std.specs.Prelude.{◌≡◌, string_bytes, IfOk};
ghost use Rattle.line_text.specs.Streams.{stream};
ghost use Rattle.club_commands.specs.CheckedTwo.{both_text, judged_line, newer_line, ChecksFound, ChecksTwo, EndsJudged, HasCheckedTwo, RunsCheck, StopsAlone, TellsJudged, TellsTwo};
ghost use Rattle.club_commands.specs.Ended.{WritesAndStops};

use crate::check::{check_refused, seen_text};
use crate::copied::TwoDisks;
use crate::fault::RunFault;
use crate::machine::Machine;
use crate::on_disk::run_over;
use crate::output::write_output;
use crate::work::Work;
use bridge_session::Session;
use club_disk::{Access, ClubDisk, lock_for, locked_disk};
use sector_disk::{DiskFault, SectorDisk};
use session_pair::{JoinFault, Judged, judge};
use session_store::{Reading, StoreFault, read_state};
use std::alloc::{AllocError, Global};
use std::io::{Read, Write};

/// The line that says how two disks stand to each other.
fn newer_line(was_level: bool, disk_first: bool) -> &'static str
    ensures { result.now ≡ newer_line was_level disk_first }
{
    match (was_level, disk_first) {
        (true, _) => "copy is level\n",
        (false, true) => "disk is newer\n",
        (false, false) => "copy is newer\n",
    }
}

/// The same, or nothing where they are not joined.
fn judged_line(judged: Result<Judged, JoinFault>) -> &'static str
    ensures { result.now ≡ judged_line judged }
{
    match judged {
        Ok(judged) => newer_line(judged.was_level, judged.disk_first),
        Err(_) => "",
    }
}

/// What both disks hold, one below the other.
fn both_text(
    alloc: Global,
    ours: &Reading<Session>,
    theirs: &Reading<Session>,
) -> Result<String, AllocError>
    ensures { IfOk result (λ text. string_bytes text ≡ both_text ours.now theirs.now) }
{
    let first = seen_text("disk\n", ours);
    let second = seen_text("copy\n", theirs);
    let mut text = String::from_str(alloc, first.as_str())?;
    text.push_str(second.as_str())?;
    Ok(text)
}

/// Writes a text before a fault.
fn write_and_stop<W: Write>(text: &str, fault: RunFault, output: &mut W) -> Result<(), RunFault>
    ensures { WritesAndStops (stream W.contents output.old output.new) text.now fault result }
{
    write_output(output, text)?;
    Err(fault)
}

/// Writes what was said of two disks. That they are not joined is the fault.
fn write_judged<W: Write>(
    text: &str,
    judged: Result<Judged, JoinFault>,
    output: &mut W,
) -> Result<(), RunFault>
    ensures { EndsJudged text.now judged (stream W.contents output.old output.new) result }
{
    match judged {
        Ok(_) => write_output(output, text),
        Err(fault) => write_and_stop(text, RunFault::Joining(fault), output),
    }
}

/// Writes what two disks hold and how they stand to each other. How they were judged is handed in, since only so a clause can say
/// what comes of it.
fn tell_judged<W: Write>(
    text: String,
    judged: Result<Judged, JoinFault>,
    output: &mut W,
) -> Result<(), RunFault>
    ensures { TellsJudged (string_bytes text) judged (stream W.contents output.old output.new) result }
{
    let mut text = text;
    let Ok(()) = text.push_str(judged_line(judged)) else {
        return Err(RunFault::Store(StoreFault::NoMemory));
    };
    write_judged(text.as_str(), judged, output)
}

/// Says what two disks hold, of which both were read, and how they stand to each other. That they are not joined is the fault.
fn tell_two<W: Write>(
    alloc: Global,
    ours: Reading<Session>,
    theirs: Reading<Session>,
    output: &mut W,
) -> Result<(), RunFault>
    ensures { TellsTwo ours theirs (stream W.contents output.old output.new) result }
{
    let Ok(text) = both_text(alloc, &ours, &theirs) else {
        return Err(RunFault::Store(StoreFault::NoMemory));
    };
    let judged = judge(alloc, ours, theirs);
    tell_judged(text, judged, output)
}

/// Says what a disk holds, where the copy gives nothing, which is the fault.
fn tell_alone<W: Write>(
    ours: &Reading<Session>,
    fault: StoreFault,
    output: &mut W,
) -> Result<(), RunFault>
    ensures { StopsAlone ours.now fault (stream W.contents output.old output.new) result }
{
    let text = seen_text("disk\n", ours);
    write_and_stop(
        text.as_str(),
        RunFault::Joining(JoinFault::Copy(fault)),
        output,
    )
}

/// Says what two disks hold and how they stand to each other; where the first gives nothing, why.
fn check_both<D: SectorDisk, W: Write>(
    alloc: Global,
    disk: &mut D,
    copy: &mut D,
    output: &mut W,
) -> Result<(), RunFault>
    ensures { ChecksTwo D.disk disk.old copy.old disk.new copy.new (stream W.contents output.old output.new) result }
{
    match read_state::<D, Session>(alloc, disk) {
        Err(fault) => check_refused(alloc, disk, fault, output),
        Ok(ours) => match read_state::<D, Session>(alloc, copy) {
            Err(fault) => tell_alone(&ours, fault, output),
            Ok(theirs) => tell_two(alloc, ours, theirs, output),
        },
    }
}

/// The same of two disks that may have been found.
fn check_found<W: Write>(
    alloc: Global,
    disk: Result<ClubDisk, DiskFault>,
    copy: Result<ClubDisk, DiskFault>,
    output: &mut W,
) -> Result<(), RunFault>
    ensures { ChecksFound disk copy (stream W.contents output.old output.new) result }
{
    let Ok(mut disk) = disk else {
        return Err(RunFault::Store(StoreFault::Disk));
    };
    let Ok(mut copy) = copy else {
        return Err(RunFault::Joining(JoinFault::Copy(StoreFault::Disk)));
    };
    check_both(alloc, &mut disk, &mut copy, output)
}

/// Locks the files of both disks, and says what they hold.
fn check_two<S: Machine, W: Write>(
    rt: &S,
    alloc: Global,
    disks: TwoDisks<'_>,
    output: &mut W,
) -> Result<(), RunFault>
    ensures { HasCheckedTwo (stream W.contents output.old output.new) result }
{
    let lock = lock_for(rt, alloc, disks.disk, Access::Read);
    let copy_lock = lock_for(rt, alloc, disks.copy, Access::Read);
    let disk = locked_disk(rt, disks.disk, Access::Read, &lock);
    let copy = locked_disk(rt, disks.copy, Access::Read, &copy_lock);
    check_found(alloc, disk, copy, output)
}

/// Says what the disk in a file holds; or what the disks in two files hold, and how they stand to each other.
pub fn run_check<S: Machine, R: Read, W: Write>(
    rt: &S,
    alloc: Global,
    disk: &str,
    copy: Option<&str>,
    input: &mut R,
    output: &mut W,
) -> Result<(), RunFault>
    ensures { RunsCheck copy.entry (stream R.remaining input.old input.new) (stream W.contents output.old output.new) result }
{
    match copy {
        None => run_over(rt, alloc, disk, &Work::Check, input, output),
        Some(copy) => check_two(rt, alloc, TwoDisks { disk, copy }, output),
    }
}
