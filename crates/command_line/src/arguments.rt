//! The arguments of the commands, as they are declared to clap.
ghost use Rattle.command_line.specs.Words.{IsRuled, required_rule, number_rule, flag_rule, option_rule, default_rule, board_rule, disk_rule, disks_rule, other_disk_rule, second_disk_rule, config_rule, file_rule, port_rule, count_rule, minutes_rule, address_rule, name_rule, open_boards_rule, copy_rule, html_rule, no_analysis_rule, csv_rule, rankings_rule, json_rule, pbn_rule};

use crate::command::MOST_DISKS;
use clap::builder::ValueParser;
use clap::{Arg, ArgAction};
use std::alloc::Global;

/// An argument that is required.
pub fn required<'a>(alloc: Global, name: &'a str, help: &'a str) -> Arg<'a>
    ensures { IsRuled (required_rule name.entry.now) result }
{
    Arg::new(alloc, name).help(help).required(true)
}

/// An argument that is required: a number from 1 to `last`.
pub fn number<'a>(alloc: Global, name: &'a str, last: u16, help: &'a str) -> Arg<'a>
    ensures { IsRuled (number_rule name.entry.now last) result }
{
    required(alloc, name, help).value_parser(ValueParser::Signed(1, i64::from(last)))
}

/// A flag.
pub fn flag<'a>(alloc: Global, name: &'a str, help: &'a str) -> Arg<'a>
    ensures { IsRuled (flag_rule name.entry.now) result }
{
    Arg::new(alloc, name)
        .long(name)
        .help(help)
        .action(ArgAction::SetTrue)
}

/// An option with a text, which help calls `value`.
pub fn option<'a>(alloc: Global, name: &'a str, value: &'a str, help: &'a str) -> Arg<'a>
    ensures { IsRuled (option_rule name.entry.now) result }
{
    Arg::new(alloc, name)
        .long(name)
        .value_name(value)
        .help(help)
        .value_parser(ValueParser::NonEmptyString)
}

/// An option with a text, which is `default` where none is given.
pub fn option_or<'a>(
    alloc: Global,
    name: &'a str,
    value: &'a str,
    help: &'a str,
    default: &'a str,
) -> Arg<'a>
    ensures { IsRuled (default_rule name.entry.now default.entry.now) result }
{
    option(alloc, name, value, help).default_value(default)
}

/// The argument DISK.
pub fn disk_argument<'a>(alloc: Global) -> Arg<'a>
    ensures { IsRuled disk_rule result }
{
    required(alloc, "DISK", "The file that is the disk")
}

/// The argument DISK, once or for up to 40 disks.
pub fn disks_argument<'a>(alloc: Global) -> Arg<'a>
    ensures { IsRuled disks_rule result }
{
    required(
        alloc,
        "DISK",
        "The file that is the disk; several are the sections of one event",
    )
    .num_args(1..=MOST_DISKS)
}

/// The argument DISK2, which may be left out.
pub fn other_disk_argument<'a>(alloc: Global) -> Arg<'a>
    ensures { IsRuled other_disk_rule result }
{
    Arg::new(alloc, "DISK2").help("A second disk, to be compared with it")
}

/// The argument DISK2.
pub fn second_disk_argument<'a>(alloc: Global) -> Arg<'a>
    ensures { IsRuled second_disk_rule result }
{
    required(alloc, "DISK2", "The file that is the second disk")
}

/// The flag `--html`.
pub fn html_argument<'a>(alloc: Global) -> Arg<'a>
    ensures { IsRuled html_rule result }
{
    flag(alloc, "html", "As a page of HTML in place of plain text")
}

/// The flag `--no-analysis`.
pub fn no_analysis_argument<'a>(alloc: Global) -> Arg<'a>
    ensures { IsRuled no_analysis_rule result }
{
    flag(
        alloc,
        "no-analysis",
        "Without what could be made on each board, which takes a minute or more to find",
    )
}

/// The flag `--rankings`.
pub fn rankings_argument<'a>(alloc: Global) -> Arg<'a>
    ensures { IsRuled rankings_rule result }
{
    flag(alloc, "rankings", "The rankings in place of the plays")
}

/// The flag `--json`.
pub fn json_argument<'a>(alloc: Global) -> Arg<'a>
    ensures { IsRuled json_rule result }
{
    flag(alloc, "json", "All the results as one object of JSON")
}

/// The flag `--csv`.
pub fn csv_argument<'a>(alloc: Global) -> Arg<'a>
    ensures { IsRuled csv_rule result }
{
    flag(
        alloc,
        "csv",
        "The plays, or the rankings, as comma-separated values, as without a word",
    )
}

/// The flag `--pbn` of `export`.
pub fn games_argument<'a>(alloc: Global) -> Arg<'a>
    ensures { IsRuled pbn_rule result }
{
    flag(
        alloc,
        "pbn",
        "A game of Portable Bridge Notation for each board, with all its results",
    )
}

/// The flag `--pbn` of `makeable`.
pub fn pbn_argument<'a>(alloc: Global) -> Arg<'a>
    ensures { IsRuled pbn_rule result }
{
    flag(alloc, "pbn", "As the file's own games, with tags for them")
}

/// The argument CONFIG.
pub fn config_argument<'a>(alloc: Global) -> Arg<'a>
    ensures { IsRuled config_rule result }
{
    required(alloc, "CONFIG", "The file with the configuration")
}

/// The argument FILE.
pub fn file_argument<'a>(alloc: Global) -> Arg<'a>
    ensures { IsRuled file_rule result }
{
    required(alloc, "FILE", "The file with the deals")
}

/// The argument PORT.
pub fn port_argument<'a>(alloc: Global) -> Arg<'a>
    ensures { IsRuled port_rule result }
{
    number(alloc, "PORT", 65535, "The port, 1 to 65535")
}

/// The argument COUNT.
pub fn count_argument<'a>(alloc: Global) -> Arg<'a>
    ensures { IsRuled count_rule result }
{
    number(
        alloc,
        "COUNT",
        1000,
        "How many connections are served, 1 to 1000",
    )
}

/// The argument MINUTES.
pub fn minutes_argument<'a>(alloc: Global) -> Arg<'a>
    ensures { IsRuled minutes_rule result }
{
    number(
        alloc,
        "MINUTES",
        1440,
        "How many minutes pages are shown, 1 to 1440",
    )
}

/// The option `--address`.
pub fn address_argument<'a>(alloc: Global) -> Arg<'a>
    ensures { IsRuled address_rule result }
{
    option(
        alloc,
        "address",
        "IP",
        "The IPv4 address to listen at, 127.0.0.1 if none is given",
    )
}

/// The option `--name`.
pub fn name_argument<'a>(alloc: Global) -> Arg<'a>
    ensures { IsRuled name_rule result }
{
    option(
        alloc,
        "name",
        "HOST",
        "The host's name as browsers write it, the address if none is given",
    )
}

/// The flag `--open-boards`.
pub fn open_boards_argument<'a>(alloc: Global) -> Arg<'a>
    ensures { IsRuled open_boards_rule result }
{
    flag(
        alloc,
        "open-boards",
        "Players see what other tables did on the boards that they have finished, from the start",
    )
}

/// The option `--copy`.
pub fn copy_argument<'a>(alloc: Global) -> Arg<'a>
    ensures { IsRuled copy_rule result }
{
    option(
        alloc,
        "copy",
        "DISK2",
        "A second file that keeps the same session",
    )
}

/// The argument BOARD.
pub fn board_argument<'a>(alloc: Global) -> Arg<'a>
    ensures { IsRuled board_rule result }
{
    number(alloc, "BOARD", 36, "The board's number, 1 to 36")
}
