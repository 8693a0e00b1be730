//! The command `web` with a second disk in a file: both files are locked for as long as pages are shown, which no clause can say
//! and tests show.
ghost use Rattle.std.specs.Prelude.{◌≡◌, ◌++◌, None, IfOk, string_bytes};
ghost use Rattle.line_text.specs.Streams.{stream};
ghost use Rattle.evening_commands.specs.NamesView.{list_seen};
ghost use Rattle.session_pair.specs.Joining.{IsOne};
ghost use Rattle.club_commands.specs.PairWeb.{alone_text, IsNamed, ShowsFound, ShowsOpened, ShowsOver, ShowsTwo, ShowsTwoFound, ShowsTwoListed};

use crate::fault::RunFault;
use crate::listed::refuse_list;
use crate::machine::{Host, Machine};
use crate::pair_web::show_joined;
use crate::work::Shown;
use bridge_endings::Cache;
use club_disk::{Access, ClubDisk, ClubStore, lock_for, locked_disk};
use desk_replies::Desk;
use evening_commands::{EveningFault, Names, list_of_file};
use pair_pages::DiskNames;
use sector_disk::DiskFault;
use session_pair::{JoinFault, Joined, join_disks};
use session_store::StoreFault;
use std::alloc::{AllocError, Global};
use std::io::Write;

/// How many endings are kept for the answers to `SOLVE`.
const CACHED_ENDINGS: usize = 4096;

/// The files of two disks.
#[derive(Clone, Copy)]
pub struct TwoDisks<'a> {
    /// The name of the disk's file.
    pub disk: &'a str,
    /// The name of the copy's file.
    pub copy: &'a str,
}

/// Two names with these words between them.
fn two_names(alloc: Global, first: &str, words: &str, second: &str) -> Result<String, AllocError>
    ensures { IfOk result (λ text. string_bytes text ≡ (first.now ++ words.now) ++ second.now) }
{
    let mut text = String::from_str(alloc, first)?;
    text.push_str(words)?;
    text.push_str(second)?;
    Ok(text)
}

/// That a file is kept alone, and the other lost.
fn alone_text(alloc: Global, kept: &str, lost: &str) -> Result<String, AllocError>
    ensures { IfOk result (λ text. string_bytes text ≡ alone_text kept.now lost.now) }
{
    let mut text = two_names(alloc, kept, " alone, ", lost)?;
    text.push_str(" is lost")?;
    Ok(text)
}

/// What the director and standard error are told of the disks, of which the one was taken first or the other.
fn disk_names(alloc: Global, disks: TwoDisks<'_>, disk_first: bool) -> Result<DiskNames, AllocError>
    ensures { IfOk result (IsNamed disks.entry.disk.now disks.entry.copy.now disk_first) }
{
    let (first, second) = if disk_first {
        (disks.disk, disks.copy)
    } else {
        (disks.copy, disks.disk)
    };
    Ok(DiskNames {
        level: two_names(alloc, disks.disk, " and ", disks.copy)?,
        first_lost: alone_text(alloc, second, first)?,
        second_lost: alone_text(alloc, first, second)?,
        disk_first,
    })
}

/// Shows pages over a session, where it was opened on two disks and there was memory for a cache of endings. What was opened and
/// given is handed in, since only so a clause can say what comes of it.
fn show_opened<N: Host, W: Write>(
    rt: &N,
    alloc: Global,
    shown: &Shown<'_>,
    disks: TwoDisks<'_>,
    joined: Joined<ClubStore>,
    output: &mut W,
) -> Result<(), RunFault>
    requires works { IsOne joined.first joined.second }
    ensures { ShowsOpened shown.now.texts shown.now.host (stream W.contents output.old output.new) result disks.entry
        shown.now.names joined.judged joined.first joined.second }
{
    let Ok(cache) = Cache::new(alloc, CACHED_ENDINGS) else {
        return Err(RunFault::Store(StoreFault::NoMemory));
    };
    let Ok(names) = disk_names(alloc, disks, joined.judged.disk_first) else {
        return Err(RunFault::Store(StoreFault::NoMemory));
    };
    let desk = Desk::new(60 * u32::from(shown.minutes), disks.disk);
    show_joined(rt, alloc, shown, joined, names, cache, desk, output)
}

/// Opens the session on two disks, and shows pages over it.
fn show_on<N: Host, W: Write>(
    rt: &N,
    alloc: Global,
    shown: &Shown<'_>,
    disks: TwoDisks<'_>,
    disk: ClubDisk,
    copy: ClubDisk,
    output: &mut W,
) -> Result<(), RunFault>
    ensures { ShowsOver shown.now.texts shown.now.host (stream W.contents output.old output.new) result disks.entry shown.now.names
        disk copy }
{
    match join_disks(alloc, disk, copy) {
        Err(unjoined) => Err(RunFault::Joining(unjoined.fault)),
        Ok(joined) => show_opened(rt, alloc, shown, disks, joined, output),
    }
}

/// The same of two disks that may have been found.
fn show_found<N: Host, W: Write>(
    rt: &N,
    alloc: Global,
    shown: &Shown<'_>,
    disks: TwoDisks<'_>,
    disk: Result<ClubDisk, DiskFault>,
    copy: Result<ClubDisk, DiskFault>,
    output: &mut W,
) -> Result<(), RunFault>
    ensures { ShowsFound shown.now.texts shown.now.host (stream W.contents output.old output.new) result disks.entry shown.now.names
        disk copy }
{
    let Ok(disk) = disk else {
        return Err(RunFault::Store(StoreFault::Disk));
    };
    let Ok(copy) = copy else {
        return Err(RunFault::Joining(JoinFault::Copy(StoreFault::Disk)));
    };
    show_on(rt, alloc, shown, disks, disk, copy, output)
}

/// Locks the files of both disks, opens the session on them, and shows pages over it.
fn show_two<S: Machine, W: Write>(
    rt: &S,
    alloc: Global,
    shown: &Shown<'_>,
    disks: TwoDisks<'_>,
    output: &mut W,
) -> Result<(), RunFault>
    ensures { ShowsTwo shown.now.texts shown.now.host (stream W.contents output.old output.new) result disks.entry shown.now.names }
{
    let lock = lock_for(rt, alloc, disks.disk, Access::Write);
    let copy_lock = lock_for(rt, alloc, disks.copy, Access::Write);
    let disk = locked_disk(rt, disks.disk, Access::Write, &lock);
    let copy = locked_disk(rt, disks.copy, Access::Write, &copy_lock);
    show_found(rt, alloc, shown, disks, disk, copy, output)
}

/// The same with the names of a list, where one was read.
fn show_two_found<S: Machine, W: Write>(
    rt: &S,
    alloc: Global,
    shown: &Shown<'_>,
    disks: TwoDisks<'_>,
    found: Result<Names, EveningFault>,
    output: &mut W,
) -> Result<(), RunFault>
    ensures { ShowsTwoFound shown.now.texts shown.now.host (stream W.contents output.old output.new) result disks.entry (list_seen found) }
{
    match found {
        Ok(names) => {
            let named = Shown {
                names: Some(names.as_slice()),
                ..*shown
            };
            show_two(rt, alloc, &named, disks, output)
        }
        Err(fault) => refuse_list(fault, output),
    }
}

/// Shows pages over the session that the disks in two files hold, with the names of the list in another, where one is given. The
/// list is read first.
pub fn show_copied<S: Machine, W: Write>(
    rt: &S,
    alloc: Global,
    shown: &Shown<'_>,
    disks: TwoDisks<'_>,
    names: Option<&str>,
    output: &mut W,
) -> Result<(), RunFault>
    requires { shown.now.names ≡ None }
    ensures { ShowsTwoListed shown.now.texts shown.now.host (stream W.contents output.old output.new) result disks.entry names.entry }
{
    match names {
        None => show_two(rt, alloc, shown, disks, output),
        Some(file) => show_two_found(rt, alloc, shown, disks, list_of_file(rt, file), output),
    }
}
