//! Reads the words after the program's name.
ghost use Rattle.std.specs.Prelude.{IfOk, IfErr, IfSome, codes, map};
ghost use Rattle.clap.specs.Words.{rows_of, found_of, subcommand_rows_of};
ghost use Rattle.command_line.specs.Words.{HasNumber, HasFlag, HasOption, HasHost, HasPages, IsCommand, IsNamed, AsksCommand, IsRefusedBy};

use crate::command::{Command, WebHost, WebWords, WordsFault};
use crate::declaration::club_command;
use crate::evening_read::{draft_of, evening_of, slips_of};
use crate::export_read::export_of;
use crate::results_read::results_of;
use crate::unasked::unasked;
use bridge_cards::BoardNumber;
use clap::ArgMatches;
use clap::error::ErrorKind;
use std::alloc::Global;

/// Reads a command from the words after the program's name.
///
/// `Usage` where they are no command, where some of them exclude each other, or where they call for help, and `Memory` where
/// memory is refused; no clause says that `Memory` comes only there.
pub fn read_words<'a>(alloc: Global, words: &'a [&'a str]) -> Result<Command<'a>, WordsFault>
    ensures ok { IfOk result (AsksCommand (map (λ word. word.now) words.entry.now)) }
    ensures fault { IfErr result (IsRefusedBy (map (λ word. word.now) words.entry.now)) }
{
    let command = match club_command(alloc) {
        Ok(command) => command,
        Err(_) => return Err(WordsFault::Memory),
    };
    match command.try_get_matches_from(words) {
        Ok(matches) => match asked(&matches) {
            Some(command) => Ok(command),
            None => Err(unasked(alloc, &matches)),
        },
        Err(error) => match error.kind() {
            ErrorKind::OutOfMemory => Err(WordsFault::Memory),
            _ => Err(WordsFault::Usage(error)),
        },
    }
}

/// The command that the matches name.
fn asked<'a>(matches: &ArgMatches<'a>) -> Option<Command<'a>>
    ensures { IfSome result (IsCommand (subcommand_rows_of matches.now)) }
{
    let (name, found) = matches.subcommand()?;
    command_of(name, found)
}

/// The command of that name with its arguments.
fn command_of<'a>(name: &str, found: &ArgMatches<'a>) -> Option<Command<'a>>
    ensures { IfSome result (IsNamed name.now (rows_of (found_of found.now))) }
{
    match name {
        "auction" => auction_of(found),
        "format" => format_of(found),
        "script" => script_of(found),
        "serve" => serve_of(found),
        "web" => web_of(found),
        "rank" => rank_of(found),
        "pbn" => pbn_of(found),
        "results" => results_of(found),
        "check" => check_of(found),
        "plan" => plan_of(found),
        "correct" => correct_of(found),
        "draft" => draft_of(found),
        "slips" => slips_of(found),
        "evening" => evening_of(found),
        "makeable" => makeable_of(found),
        "export" => export_of(found),
        "copy" => copy_of(found),
        "version" => Some(Command::Version),
        // clap's checks leave no other name. The contract allows the answer of memory refused alone here.
        _ => None,
    }
}

/// The command `auction` with its board.
fn auction_of<'a>(found: &ArgMatches<'a>) -> Option<Command<'a>>
    ensures { IfSome result (IsNamed (codes "auction") (rows_of (found_of found.now))) }
{
    let board = BoardNumber::new(found.get_one::<u8>("BOARD")?)?;
    Some(Command::Auction(board))
}

/// The command `format` with its files.
fn format_of<'a>(found: &ArgMatches<'a>) -> Option<Command<'a>>
    ensures { IfSome result (IsNamed (codes "format") (rows_of (found_of found.now))) }
{
    let disk = found.get_str("DISK")?;
    let config = found.get_str("CONFIG")?;
    Some(Command::Format { disk, config })
}

/// The command `copy` with its disks.
fn copy_of<'a>(found: &ArgMatches<'a>) -> Option<Command<'a>>
    ensures { IfSome result (IsNamed (codes "copy") (rows_of (found_of found.now))) }
{
    let disk = found.get_str("DISK")?;
    let copy = found.get_str("DISK2")?;
    Some(Command::Copy { disk, copy })
}

/// The command `script` with its disk.
fn script_of<'a>(found: &ArgMatches<'a>) -> Option<Command<'a>>
    ensures { IfSome result (IsNamed (codes "script") (rows_of (found_of found.now))) }
{
    let disk = found.get_str("DISK")?;
    Some(Command::Script { disk })
}

/// The command `correct` with its disk.
fn correct_of<'a>(found: &ArgMatches<'a>) -> Option<Command<'a>>
    ensures { IfSome result (IsNamed (codes "correct") (rows_of (found_of found.now))) }
{
    let disk = found.get_str("DISK")?;
    Some(Command::Correct { disk })
}

/// The command `serve` with its disk and its numbers.
fn serve_of<'a>(found: &ArgMatches<'a>) -> Option<Command<'a>>
    ensures { IfSome result (IsNamed (codes "serve") (rows_of (found_of found.now))) }
{
    let disk = found.get_str("DISK")?;
    let port = number_of(found, "PORT")?;
    let count = number_of(found, "COUNT")?;
    Some(Command::Serve { disk, port, count })
}

/// The command `web` with its disk and what it shows there.
fn web_of<'a>(found: &ArgMatches<'a>) -> Option<Command<'a>>
    ensures { IfSome result (IsNamed (codes "web") (rows_of (found_of found.now))) }
{
    let disk = found.get_str("DISK")?;
    let pages = pages_of(found)?;
    Some(Command::Web { disk, pages })
}

/// What `web` shows: where, for how long, with which names, and over which second disk.
fn pages_of<'a>(found: &ArgMatches<'a>) -> Option<WebWords<'a>>
    ensures { IfSome result (HasPages (rows_of (found_of found.now))) }
{
    let host = host_of(found)?;
    let minutes = number_of(found, "MINUTES")?;
    let names = option_of(found, "names");
    let copy = option_of(found, "copy");
    Some(WebWords {
        host,
        minutes,
        names,
        copy,
    })
}

/// Where pages are shown, by which name, and how they begin.
pub fn host_of<'a>(found: &ArgMatches<'a>) -> Option<WebHost<'a>>
    ensures { IfSome result (HasHost (rows_of (found_of found.now))) }
{
    let port = number_of(found, "PORT")?;
    let address = option_of(found, "address");
    let name = option_of(found, "name");
    let open_boards = has_flag(found, "open-boards");
    Some(WebHost {
        port,
        address,
        name,
        open_boards,
    })
}

/// The text that an option has, where it is given.
pub fn option_of<'a>(found: &ArgMatches<'a>, name: &str) -> Option<&'a str>
    ensures { HasOption (rows_of (found_of found.now)) name.now result }
{
    found.get_str(name)
}

/// The number that an argument is.
pub fn number_of(found: &ArgMatches<'_>, name: &str) -> Option<u16>
    ensures { IfSome result (HasNumber 16 (rows_of (found_of found.now)) name.now) }
{
    let number = found.get_one::<u16>(name)?;
    Some(number)
}

/// The command `rank` with its disk.
fn rank_of<'a>(found: &ArgMatches<'a>) -> Option<Command<'a>>
    ensures { IfSome result (IsNamed (codes "rank") (rows_of (found_of found.now))) }
{
    let disk = found.get_str("DISK")?;
    Some(Command::Rank { disk })
}

/// The command `pbn` with its disk.
fn pbn_of<'a>(found: &ArgMatches<'a>) -> Option<Command<'a>>
    ensures { IfSome result (IsNamed (codes "pbn") (rows_of (found_of found.now))) }
{
    let disk = found.get_str("DISK")?;
    Some(Command::Pbn { disk })
}

/// Whether a flag is given.
pub fn has_flag(found: &ArgMatches<'_>, name: &str) -> bool
    ensures { HasFlag (rows_of (found_of found.now)) name.now result }
{
    found.get_flag(name)
}

/// The command `check` with its disk, and with a second one or none.
fn check_of<'a>(found: &ArgMatches<'a>) -> Option<Command<'a>>
    ensures { IfSome result (IsNamed (codes "check") (rows_of (found_of found.now))) }
{
    let disk = found.get_str("DISK")?;
    let copy = option_of(found, "DISK2");
    Some(Command::Check { disk, copy })
}

/// The command `plan` with its configuration and its list of names.
fn plan_of<'a>(found: &ArgMatches<'a>) -> Option<Command<'a>>
    ensures { IfSome result (IsNamed (codes "plan") (rows_of (found_of found.now))) }
{
    let config = found.get_str("CONFIG")?;
    let names = option_of(found, "names");
    Some(Command::Plan { config, names })
}

/// The command `makeable` with its file, and whether it asks for games.
fn makeable_of<'a>(found: &ArgMatches<'a>) -> Option<Command<'a>>
    ensures { IfSome result (IsNamed (codes "makeable") (rows_of (found_of found.now))) }
{
    let file = found.get_str("FILE")?;
    let pbn = has_flag(found, "pbn");
    Some(Command::Makeable { file, pbn })
}
