//! The commands `results`, `web` and `evening` with a list of names in place of the configuration's, or without.
ghost use Rattle.line_text.specs.Streams.{stream};
ghost use Rattle.evening_commands.specs.NamesView.{list_seen};
ghost use Rattle.club_commands.specs.Listed.{RefusesList, OverList, WhereFound, WhereListed, WithList};
ghost use Rattle.club_commands.specs.Works.{HasListed};

use crate::evenings::ended;
use crate::fault::RunFault;
use crate::machine::Machine;
use crate::on_disk::run_over;
use crate::work::Listed;
use evening_commands::{EveningFault, Names, list_of_file, stop};
use evening_draft::PairNames;
use std::alloc::Global;
use std::io::{Read, Write};

/// Says what is wrong with a list, which is the fault.
pub fn refuse_list<W: Write>(fault: EveningFault, output: &mut W) -> Result<(), RunFault>
    ensures { RefusesList fault (stream W.contents output.old output.new) result }
{
    ended(stop(fault, output))
}

/// Does that over the disk in a file, with these names or the configuration's.
fn run_with<S: Machine, R: Read, W: Write>(
    rt: &S,
    alloc: Global,
    disk: &str,
    asked: &Listed<'_>,
    names: Option<&[PairNames]>,
    input: &mut R,
    output: &mut W,
) -> Result<(), RunFault>
    ensures { HasListed asked.now names.entry (stream R.remaining input.old input.new) (stream W.contents output.old output.new) result }
{
    run_over(rt, alloc, disk, &asked.with(names), input, output)
}

/// The same with the names of a list, where one was read.
fn run_found<S: Machine, R: Read, W: Write>(
    rt: &S,
    alloc: Global,
    disk: &str,
    asked: &Listed<'_>,
    found: Result<Names, EveningFault>,
    input: &mut R,
    output: &mut W,
) -> Result<(), RunFault>
    ensures { OverList (HasListed asked.now) (list_seen found) (stream R.remaining input.old input.new)
        (stream W.contents output.old output.new) result }
{
    match found {
        Ok(names) => run_with(
            rt,
            alloc,
            disk,
            asked,
            Some(names.as_slice()),
            input,
            output,
        ),
        Err(fault) => refuse_list(fault, output),
    }
}

/// Does that over the disk in a file, with the names of the list in another, where one is given. The list is read first.
pub fn run_listed<S: Machine, R: Read, W: Write>(
    rt: &S,
    alloc: Global,
    disk: &str,
    asked: &Listed<'_>,
    names: Option<&str>,
    input: &mut R,
    output: &mut W,
) -> Result<(), RunFault>
    ensures { WithList (HasListed asked.now) names.entry (stream R.remaining input.old input.new)
        (stream W.contents output.old output.new) result }
{
    match names {
        None => run_with(rt, alloc, disk, asked, None, input, output),
        Some(file) => run_found(
            rt,
            alloc,
            disk,
            asked,
            list_of_file(rt, file),
            input,
            output,
        ),
    }
}

/// The same with the names of a list where one was read, and with the configuration's otherwise.
fn run_where_found<S: Machine, R: Read, W: Write>(
    rt: &S,
    alloc: Global,
    disk: &str,
    asked: &Listed<'_>,
    found: Result<Names, EveningFault>,
    input: &mut R,
    output: &mut W,
) -> Result<(), RunFault>
    ensures { WhereFound (HasListed asked.now) (list_seen found) (stream R.remaining input.old input.new)
        (stream W.contents output.old output.new) result }
{
    match found {
        Ok(names) => run_with(
            rt,
            alloc,
            disk,
            asked,
            Some(names.as_slice()),
            input,
            output,
        ),
        Err(_) => run_with(rt, alloc, disk, asked, None, input, output),
    }
}

/// Does that over the disk in a file, with the names of the list in another where it can be read.
pub fn run_where_listed<S: Machine, R: Read, W: Write>(
    rt: &S,
    alloc: Global,
    disk: &str,
    asked: &Listed<'_>,
    names: &str,
    input: &mut R,
    output: &mut W,
) -> Result<(), RunFault>
    ensures { WhereListed (HasListed asked.now) (stream R.remaining input.old input.new)
        (stream W.contents output.old output.new) result }
{
    run_where_found(
        rt,
        alloc,
        disk,
        asked,
        list_of_file(rt, names),
        input,
        output,
    )
}
