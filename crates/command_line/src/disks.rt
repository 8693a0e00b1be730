//! Reads the names of the disks of `results` and `export`.
ghost use Rattle.std.specs.Prelude.{◌≡◌, ◌<◌, ◌∷◌, [], length, map, IfSome};
ghost use Rattle.std.specs.Bool.{Decides};
ghost use Rattle.clap.specs.Words.{rows_of, found_of};
ghost use Rattle.command_line.specs.Words.{HasDisks};

use crate::command::DiskNames;
use arrayvec::ArrayVec;
use clap::ArgMatches;

/// A list of names, if it is no longer than a command may have.
fn list_of<'a>(names: &[&'a str]) -> Option<DiskNames<'a>>
    ensures { IfSome result (λ disks. disks.items ≡ names.now) }
{
    ArrayVec::try_from(names).ok()
}

/// The disks that are named, in their order.
pub fn disks_of<'a>(found: &ArgMatches<'a>) -> Option<DiskNames<'a>>
    ensures { IfSome result (λ disks. HasDisks (rows_of (found_of found.now)) (map (λ disk. disk.now) disks.items)) }
{
    let names = found.get_strs("DISK")?;
    list_of(names)
}

/// The disk, where there is one alone.
pub fn only<'a>(disks: &DiskNames<'a>) -> Option<&'a str>
    ensures { IfSome result (λ disk. disks.now.items ≡ disk ∷ []) }
{
    match disks.as_slice() {
        [disk] => Some(*disk),
        _ => None,
    }
}

/// Whether there are several.
pub fn are_several(disks: &DiskNames<'_>) -> bool
    ensures { Decides result (1 < length disks.now.items) }
{
    1 < disks.len()
}
