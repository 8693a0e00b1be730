//! Why matches name no command.
ghost use Rattle.std.specs.Prelude.{Some};
ghost use Rattle.clap.specs.Words.{rows_of, found_of, subcommand_rows_of};
ghost use Rattle.command_line.specs.Words.{IsUnasked};

use crate::command::WordsFault;
use crate::declaration::{export_command, results_command};
use crate::declared::Declared;
use crate::export_read::is_excluded;
use crate::results_read::is_list_of_several;
use clap::ArgMatches;
use clap::error::ErrorKind;
use std::alloc::{AllocError, Global};

/// That words of a command exclude each other, as clap says it.
fn conflict<'a>(
    declared: Declared<'a>,
    name: &'a str,
    text: &str,
) -> Result<clap::Error, AllocError> {
    let command = declared.command?;
    let mut named = command.bin_name(name)?;
    named.error(ErrorKind::ArgumentConflict, text)
}

/// The same, or that memory was refused.
fn excluded<'a>(declared: Declared<'a>, name: &'a str, text: &str) -> WordsFault {
    match conflict(declared, name, text) {
        Ok(error) => WordsFault::Usage(error),
        Err(_) => WordsFault::Memory,
    }
}

/// Why words of the command of that name ask for nothing.
fn unasked_of(alloc: Global, name: &str, found: &ArgMatches<'_>) -> WordsFault
    ensures { IsUnasked (Some (name.now, rows_of (found_of found.now))) result }
{
    match name {
        "export" if is_excluded(found) => excluded(
            export_command(alloc),
            "bridge_club export",
            "the arguments '--csv', '--json' and '--pbn' cannot be used together, nor '--rankings' with '--json' or '--pbn'",
        ),
        "results" if is_list_of_several(found) => excluded(
            results_command(alloc),
            "bridge_club results",
            "the argument '--names <NAMES>' cannot be used with several disks",
        ),
        _ => WordsFault::Memory,
    }
}

/// Why matches name no command: words of `export` or `results` exclude each other, or memory was refused.
pub fn unasked(alloc: Global, matches: &ArgMatches<'_>) -> WordsFault
    ensures { IsUnasked (subcommand_rows_of matches.now) result }
{
    match matches.subcommand() {
        Some((name, found)) => unasked_of(alloc, name, found),
        None => WordsFault::Memory,
    }
}
