//! The program's command line, as it is declared to clap.
ghost use Rattle.std.specs.Prelude.{◌≡◌, IfOk};
ghost use Rattle.clap.specs.Words.{app_of};
ghost use Rattle.command_line.specs.Words.{IsDeclared, auction_app, format_app, script_app, serve_app, web_app, rank_app, pbn_app, results_app, check_app, plan_app, correct_app, bare_app, makeable_app, export_app, copy_app, version_app, club_app};

use crate::arguments::{
    address_argument, board_argument, config_argument, copy_argument, count_argument, csv_argument,
    disk_argument, disks_argument, file_argument, games_argument, html_argument, json_argument,
    minutes_argument, name_argument, no_analysis_argument, open_boards_argument,
    other_disk_argument, pbn_argument, port_argument, rankings_argument, second_disk_argument,
};
use crate::declared::Declared;
use crate::evening_arguments::names_option;
use crate::evening_declaration::{draft_command, evening_command, slips_command};
use std::alloc::{AllocError, Global};

/// The program's command line: its commands, in the order in which the usage lists them.
pub fn club_command<'a>(alloc: Global) -> Result<clap::Command<'a>, AllocError>
    ensures { IfOk result (λ command. app_of command ≡ club_app) }
{
    let club = bare_command(alloc)
        .command(auction_command(alloc))
        .command(format_command(alloc))
        .command(script_command(alloc))
        .command(serve_command(alloc))
        .command(web_command(alloc))
        .command(rank_command(alloc))
        .command(pbn_command(alloc))
        .command(results_command(alloc))
        .command(check_command(alloc))
        .command(plan_command(alloc))
        .command(correct_command(alloc))
        .command(draft_command(alloc))
        .command(slips_command(alloc))
        .command(evening_command(alloc))
        .command(makeable_command(alloc))
        .command(export_command(alloc))
        .command(copy_command(alloc))
        .command(version_command(alloc));
    club.command
}

/// The program's command line without its commands.
fn bare_command<'a>(alloc: Global) -> Declared<'a>
    ensures { IsDeclared bare_app result }
{
    let command = clap::Command::new(alloc, "bridge_club")
        .about("The server of a duplicate bridge club")
        .no_binary_name(true)
        .subcommand_required(true)
        .bin_name("bridge_club");
    Declared { command }
}

/// The command `auction BOARD`.
fn auction_command<'a>(alloc: Global) -> Declared<'a>
    ensures { IsDeclared auction_app result }
{
    Declared::new(
        alloc,
        "auction",
        "Reads a board's calls from standard input, a line each, and prints the contract",
    )
    .argument(board_argument(alloc))
}

/// The command `format DISK CONFIG`.
fn format_command<'a>(alloc: Global) -> Declared<'a>
    ensures { IsDeclared format_app result }
{
    Declared::new(
        alloc,
        "format",
        "Makes the file DISK anew, for the session that begins by a configuration",
    )
    .argument(disk_argument(alloc))
    .argument(config_argument(alloc))
}

/// The command `copy DISK DISK2`.
fn copy_command<'a>(alloc: Global) -> Declared<'a>
    ensures { IsDeclared copy_app result }
{
    Declared::new(
        alloc,
        "copy",
        "Makes the file DISK2 anew, for the session on a disk",
    )
    .argument(disk_argument(alloc))
    .argument(second_disk_argument(alloc))
}

/// The command `script DISK`.
fn script_command<'a>(alloc: Global) -> Declared<'a>
    ensures { IsDeclared script_app result }
{
    Declared::new(
        alloc,
        "script",
        "Answers lines from standard input over the session on a disk",
    )
    .argument(disk_argument(alloc))
}

/// The command `correct DISK`.
fn correct_command<'a>(alloc: Global) -> Declared<'a>
    ensures { IsDeclared correct_app result }
{
    Declared::new(
        alloc,
        "correct",
        "Takes calls, cards, claims and deals back, and assigns scores, by lines from standard input",
    )
    .argument(disk_argument(alloc))
}

/// The command `serve DISK PORT COUNT`.
fn serve_command<'a>(alloc: Global) -> Declared<'a>
    ensures { IsDeclared serve_app result }
{
    Declared::new(
        alloc,
        "serve",
        "Answers lines from COUNT connections at a port, one after the other",
    )
    .argument(disk_argument(alloc))
    .argument(port_argument(alloc))
    .argument(count_argument(alloc))
}

/// The command `web DISK PORT MINUTES`, with an address, a name, a list of names and a second disk or none, and with the boards
/// open or not.
fn web_command<'a>(alloc: Global) -> Declared<'a>
    ensures { IsDeclared web_app result }
{
    Declared::new(
        alloc,
        "web",
        "Shows tables to browsers at a port, for so many minutes",
    )
    .argument(disk_argument(alloc))
    .argument(port_argument(alloc))
    .argument(minutes_argument(alloc))
    .argument(address_argument(alloc))
    .argument(name_argument(alloc))
    .argument(open_boards_argument(alloc))
    .argument(names_option(alloc))
    .argument(copy_argument(alloc))
}

/// The command `rank DISK`.
fn rank_command<'a>(alloc: Global) -> Declared<'a>
    ensures { IsDeclared rank_app result }
{
    Declared::new(
        alloc,
        "rank",
        "Prints the ranking of each field of the session on a disk",
    )
    .argument(disk_argument(alloc))
}

/// The command `pbn DISK`.
fn pbn_command<'a>(alloc: Global) -> Declared<'a>
    ensures { IsDeclared pbn_app result }
{
    Declared::new(
        alloc,
        "pbn",
        "Prints the results of the session on a disk in Portable Bridge Notation",
    )
    .argument(disk_argument(alloc))
}

/// The command `results DISK..`, with `--html` and `--no-analysis` or without, and with a list of names or none.
pub fn results_command<'a>(alloc: Global) -> Declared<'a>
    ensures { IsDeclared results_app result }
{
    Declared::new(
        alloc,
        "results",
        "Prints rankings, travellers and score cards of the session on a disk; of several, the rankings and travellers of one event",
    )
    .argument(disks_argument(alloc))
    .argument(html_argument(alloc))
    .argument(no_analysis_argument(alloc))
    .argument(names_option(alloc))
}

/// The command `check DISK`, with a second disk or none.
fn check_command<'a>(alloc: Global) -> Declared<'a>
    ensures { IsDeclared check_app result }
{
    Declared::new(
        alloc,
        "check",
        "Says what a disk holds, or where it is damaged; nothing is written to it",
    )
    .argument(disk_argument(alloc))
    .argument(other_disk_argument(alloc))
}

/// The command `plan CONFIG`, with a list of names or none.
fn plan_command<'a>(alloc: Global) -> Declared<'a>
    ensures { IsDeclared plan_app result }
{
    Declared::new(
        alloc,
        "plan",
        "Says in words what a configuration plans, or what is wrong with it; makes nothing",
    )
    .argument(config_argument(alloc))
    .argument(names_option(alloc))
}

/// The command `makeable FILE`, or `makeable FILE --pbn`.
fn makeable_command<'a>(alloc: Global) -> Declared<'a>
    ensures { IsDeclared makeable_app result }
{
    Declared::new(
        alloc,
        "makeable",
        "Prints how many tricks each declarer takes on each deal of a file, and par",
    )
    .argument(file_argument(alloc))
    .argument(pbn_argument(alloc))
}

/// The command `export DISK..`, with flags that say what is printed, or without.
pub fn export_command<'a>(alloc: Global) -> Declared<'a>
    ensures { IsDeclared export_app result }
{
    Declared::new(
        alloc,
        "export",
        "Prints the results of the session on a disk for other programs; of several, as sections of one event",
    )
    .argument(disks_argument(alloc))
    .argument(csv_argument(alloc))
    .argument(rankings_argument(alloc))
    .argument(json_argument(alloc))
    .argument(games_argument(alloc))
    .argument(no_analysis_argument(alloc))
}

/// The command `version`.
fn version_command<'a>(alloc: Global) -> Declared<'a>
    ensures { IsDeclared version_app result }
{
    Declared::new(
        alloc,
        "version",
        "Prints the program's name, its version and the kit that proved it",
    )
}
