//! Reads the words of `draft`, `slips` and `evening`.
ghost use Rattle.std.specs.Prelude.{IfSome, codes};
ghost use Rattle.clap.specs.Words.{rows_of, found_of};
ghost use Rattle.command_line.specs.Words.{HasNumber, HasText, HasWishes, HasSlips, HasEvening, IsNamed};

use crate::command::{Command, DraftWords, EveningWords, SlipWords};
use crate::read::{has_flag, host_of, number_of, option_of};
use clap::ArgMatches;

/// The text that an argument is.
fn text_of<'a>(found: &ArgMatches<'a>, name: &str) -> Option<&'a str>
    ensures { IfSome result (λ text. HasText (rows_of (found_of found.now)) name.now text.now) }
{
    let text = found.get_str(name)?;
    Some(text)
}

/// The number of at most 8 bits that an option is.
fn small_of(found: &ArgMatches<'_>, name: &str) -> Option<u8>
    ensures { IfSome result (HasNumber 8 (rows_of (found_of found.now)) name.now) }
{
    let number = found.get_one::<u8>(name)?;
    Some(number)
}

/// What is wished of an evening.
fn wishes_of<'a>(found: &ArgMatches<'a>) -> Option<DraftWords<'a>>
    ensures { IfSome result (HasWishes (rows_of (found_of found.now))) }
{
    let boards = small_of(found, "boards")?;
    let scoring = text_of(found, "scoring")?;
    let event = text_of(found, "event")?;
    let site = text_of(found, "site")?;
    Some(DraftWords {
        movement: option_of(found, "movement"),
        boards,
        scoring,
        event,
        site,
        date: option_of(found, "date"),
        seed: option_of(found, "seed"),
    })
}

/// The command `draft` with its list and its options.
pub fn draft_of<'a>(found: &ArgMatches<'a>) -> Option<Command<'a>>
    ensures { IfSome result (IsNamed (codes "draft") (rows_of (found_of found.now))) }
{
    let names = text_of(found, "NAMES")?;
    let wishes = wishes_of(found)?;
    Some(Command::Draft { names, wishes })
}

/// How slips are written.
fn slip_words_of<'a>(found: &ArgMatches<'a>) -> SlipWords<'a>
    ensures { HasSlips (rows_of (found_of found.now)) result }
{
    SlipWords {
        names: option_of(found, "names"),
        address: option_of(found, "address"),
        text: has_flag(found, "text"),
    }
}

/// The command `slips` with its configuration and its options.
pub fn slips_of<'a>(found: &ArgMatches<'a>) -> Option<Command<'a>>
    ensures { IfSome result (IsNamed (codes "slips") (rows_of (found_of found.now))) }
{
    let config = text_of(found, "CONFIG")?;
    let slips = slip_words_of(found);
    Some(Command::Slips { config, slips })
}

/// What the command `evening` is given.
fn evening_words_of<'a>(found: &ArgMatches<'a>) -> Option<EveningWords<'a>>
    ensures { IfSome result (HasEvening (rows_of (found_of found.now))) }
{
    let names = text_of(found, "NAMES")?;
    let disk = text_of(found, "DISK")?;
    let wishes = wishes_of(found)?;
    let host = host_of(found)?;
    let minutes = number_of(found, "MINUTES")?;
    Some(EveningWords {
        names,
        disk,
        wishes,
        host,
        minutes,
    })
}

/// The command `evening` with its list, its disk and its options.
pub fn evening_of<'a>(found: &ArgMatches<'a>) -> Option<Command<'a>>
    ensures { IfSome result (IsNamed (codes "evening") (rows_of (found_of found.now))) }
{
    let words = evening_words_of(found)?;
    Some(Command::Evening(words))
}
