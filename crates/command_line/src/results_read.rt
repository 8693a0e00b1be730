//! Reads the words of `results`.
ghost use Rattle.std.specs.Prelude.{◌≡◌, true, codes, IfSome};
ghost use Rattle.clap.specs.Words.{rows_of, found_of};
ghost use Rattle.command_line.specs.Words.{IsNamed, HasPage, IsListOfSeveral};

use crate::command::{Command, EventAsked, PageAsked};
use crate::disks::{are_several, disks_of, only};
use crate::read::{has_flag, option_of};
use clap::ArgMatches;

/// What page is asked for.
fn page_of(found: &ArgMatches<'_>) -> PageAsked
    ensures { HasPage (rows_of (found_of found.now)) result }
{
    PageAsked {
        html: has_flag(found, "html"),
        no_analysis: has_flag(found, "no-analysis"),
    }
}

/// The command `results` with its disk or its disks, whether it asks for HTML and for no analysis, and its list of names, which several
/// disks exclude.
pub fn results_of<'a>(found: &ArgMatches<'a>) -> Option<Command<'a>>
    ensures { IfSome result (IsNamed (codes "results") (rows_of (found_of found.now))) }
{
    let disks = disks_of(found)?;
    let page = page_of(found);
    match (only(&disks), option_of(found, "names")) {
        (Some(disk), names) => Some(Command::Results { disk, page, names }),
        (None, None) if are_several(&disks) => Some(Command::Event {
            disks,
            asked: EventAsked::Page(page),
        }),
        _ => None,
    }
}

/// Whether a list of names is given, and several disks.
pub fn is_list_of_several(found: &ArgMatches<'_>) -> bool
    ensures { result ≡ true → IsListOfSeveral (rows_of (found_of found.now)) }
{
    match disks_of(found) {
        Some(disks) => are_several(&disks) && option_of(found, "names").is_some(),
        None => false,
    }
}
