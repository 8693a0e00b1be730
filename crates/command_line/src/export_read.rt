//! Reads the flags of `export`.
ghost use Rattle.std.specs.Prelude.{◌≡◌, true, codes, IfSome};
ghost use Rattle.clap.specs.Words.{rows_of, found_of};
ghost use Rattle.command_line.specs.Words.{export_asked, HasFlags, IsNamed, IsExcluded};

use crate::command::{Command, EventAsked, ExportAsked};
use crate::disks::{are_several, disks_of, only};
use crate::read::has_flag;
use clap::ArgMatches;

/// Which flags of `export` are among the words.
#[derive(Clone, Copy)]
pub struct ExportFlags {
    /// Whether `--csv` is.
    pub csv: bool,
    /// Whether `--json` is.
    pub json: bool,
    /// Whether `--pbn` is.
    pub pbn: bool,
    /// Whether `--rankings` is.
    pub rankings: bool,
    /// Whether `--no-analysis` is.
    pub no_analysis: bool,
}

/// The flags that are given.
fn flags_of(found: &ArgMatches<'_>) -> ExportFlags
    ensures { HasFlags (rows_of (found_of found.now)) result }
{
    ExportFlags {
        csv: has_flag(found, "csv"),
        json: has_flag(found, "json"),
        pbn: has_flag(found, "pbn"),
        rankings: has_flag(found, "rankings"),
        no_analysis: has_flag(found, "no-analysis"),
    }
}

/// What flags ask for; nothing where they exclude each other.
fn export_asked(flags: ExportFlags) -> Option<ExportAsked>
    ensures { result ≡ export_asked flags }
{
    let no_analysis = flags.no_analysis;
    match (flags.json, flags.pbn) {
        (false, false) if flags.rankings => Some(ExportAsked::Rankings),
        (false, false) => Some(ExportAsked::Plays),
        _ if flags.csv || flags.rankings => None,
        (true, false) => Some(ExportAsked::Object),
        (false, true) => Some(ExportAsked::Games { no_analysis }),
        (true, true) => None,
    }
}

/// The command `export` with its disk or its disks, and what it is to print.
pub fn export_of<'a>(found: &ArgMatches<'a>) -> Option<Command<'a>>
    ensures { IfSome result (IsNamed (codes "export") (rows_of (found_of found.now))) }
{
    let disks = disks_of(found)?;
    let asked = export_asked(flags_of(found))?;
    match only(&disks) {
        Some(disk) => Some(Command::Export { disk, asked }),
        None if are_several(&disks) => Some(Command::Event {
            disks,
            asked: EventAsked::Export(asked),
        }),
        None => None,
    }
}

/// Whether the flags exclude each other.
pub fn is_excluded(found: &ArgMatches<'_>) -> bool
    ensures { result ≡ true → IsExcluded (rows_of (found_of found.now)) }
{
    export_asked(flags_of(found)).is_none()
}
