//! The commands `draft`, `slips` and `evening`, as they are declared to clap.
ghost use Rattle.command_line.specs.Words.{IsDeclared, draft_app, slips_app, evening_app};

use crate::arguments::{
    address_argument, config_argument, disk_argument, minutes_argument, name_argument,
    open_boards_argument, port_argument,
};
use crate::declared::Declared;
use crate::evening_arguments::{
    boards_argument, date_argument, event_argument, movement_argument, names_argument,
    names_option, scoring_argument, seed_argument, site_argument, text_argument, url_argument,
};
use std::alloc::Global;

/// The command `draft NAMES`, with its options.
pub fn draft_command<'a>(alloc: Global) -> Declared<'a>
    ensures { IsDeclared draft_app result }
{
    Declared::new(
        alloc,
        "draft",
        "Prints the configuration of an evening for the pairs in a list of names",
    )
    .argument(names_argument(alloc))
    .argument(movement_argument(alloc))
    .argument(boards_argument(alloc))
    .argument(scoring_argument(alloc))
    .argument(event_argument(alloc))
    .argument(site_argument(alloc))
    .argument(date_argument(alloc))
    .argument(seed_argument(alloc))
}

/// The command `slips CONFIG`, with its options.
pub fn slips_command<'a>(alloc: Global) -> Declared<'a>
    ensures { IsDeclared slips_app result }
{
    Declared::new(
        alloc,
        "slips",
        "Prints a slip to cut out for the director and each player, as a page of HTML",
    )
    .argument(config_argument(alloc))
    .argument(names_option(alloc))
    .argument(url_argument(alloc))
    .argument(text_argument(alloc))
}

/// The command `evening NAMES DISK PORT MINUTES`, with the options of `draft`, and an address, a name and the boards open of `web`.
pub fn evening_command<'a>(alloc: Global) -> Declared<'a>
    ensures { IsDeclared evening_app result }
{
    Declared::new(
        alloc,
        "evening",
        "Makes an evening for the pairs in a list of names, or goes on with it, and shows its tables to browsers",
    )
    .argument(names_argument(alloc))
    .argument(disk_argument(alloc))
    .argument(port_argument(alloc))
    .argument(minutes_argument(alloc))
    .argument(movement_argument(alloc))
    .argument(boards_argument(alloc))
    .argument(scoring_argument(alloc))
    .argument(event_argument(alloc))
    .argument(site_argument(alloc))
    .argument(date_argument(alloc))
    .argument(seed_argument(alloc))
    .argument(address_argument(alloc))
    .argument(name_argument(alloc))
    .argument(open_boards_argument(alloc))
}
