//! The arguments of `draft` and `slips`, as they are declared to clap.
ghost use Rattle.command_line.specs.Words.{IsRuled, names_rule, movement_rule, boards_rule, scoring_rule, event_rule, site_rule, date_rule, seed_rule, names_option_rule, url_rule, text_rule};

use crate::arguments::{flag, option, option_or, required};
use clap::Arg;
use clap::builder::ValueParser;
use std::alloc::Global;

/// The argument NAMES.
pub fn names_argument<'a>(alloc: Global) -> Arg<'a>
    ensures { IsRuled names_rule result }
{
    required(
        alloc,
        "NAMES",
        "The file with the names: a line a pair, two names with & or a tab between",
    )
}

/// The option `--movement`.
pub fn movement_argument<'a>(alloc: Global) -> Arg<'a>
    ensures { IsRuled movement_rule result }
{
    option(
        alloc,
        "movement",
        "MOVEMENT",
        "The movement, mitchell or howell; if none is given, howell up to 7 pairs, then mitchell",
    )
}

/// The option `--boards`.
pub fn boards_argument<'a>(alloc: Global) -> Arg<'a>
    ensures { IsRuled boards_rule result }
{
    option_or(
        alloc,
        "boards",
        "N",
        "How many boards each pair is to play, about, 1 to 36",
        "24",
    )
    .value_parser(ValueParser::Signed(1, 36))
}

/// The option `--scoring`.
pub fn scoring_argument<'a>(alloc: Global) -> Arg<'a>
    ensures { IsRuled scoring_rule result }
{
    option_or(
        alloc,
        "scoring",
        "SCORING",
        "How scores are compared: mp, by matchpoints, or imp, by IMPs",
        "mp",
    )
}

/// The option `--event`.
pub fn event_argument<'a>(alloc: Global) -> Arg<'a>
    ensures { IsRuled event_rule result }
{
    option_or(
        alloc,
        "event",
        "TEXT",
        "The event: 1 to 24 letters, digits, dots, hyphens and underscores",
        "Evening",
    )
}

/// The option `--site`.
pub fn site_argument<'a>(alloc: Global) -> Arg<'a>
    ensures { IsRuled site_rule result }
{
    option_or(alloc, "site", "TEXT", "The site, likewise", "Club")
}

/// The option `--date`.
pub fn date_argument<'a>(alloc: Global) -> Arg<'a>
    ensures { IsRuled date_rule result }
{
    option(
        alloc,
        "date",
        "DATE",
        "The date, as 2026.03.14; today's, by UTC, if none is given",
    )
}

/// The option `--seed`.
pub fn seed_argument<'a>(alloc: Global) -> Arg<'a>
    ensures { IsRuled seed_rule result }
{
    option(
        alloc,
        "seed",
        "HEX",
        "What keys are drawn from, 64 hexadecimal digits; random bytes if none is given",
    )
}

/// The option `--names`.
pub fn names_option<'a>(alloc: Global) -> Arg<'a>
    ensures { IsRuled names_option_rule result }
{
    option(
        alloc,
        "names",
        "NAMES",
        "The file with the names to show, in place of the configuration's",
    )
}

/// The option `--address` of slips.
pub fn url_argument<'a>(alloc: Global) -> Arg<'a>
    ensures { IsRuled url_rule result }
{
    option(
        alloc,
        "address",
        "URL",
        "Where the pages are, of at most 100 bytes",
    )
}

/// The flag `--text`.
pub fn text_argument<'a>(alloc: Global) -> Arg<'a>
    ensures { IsRuled text_rule result }
{
    flag(alloc, "text", "As plain text in place of a page of HTML")
}
