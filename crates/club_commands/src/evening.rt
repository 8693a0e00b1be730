//! The command `evening`: an evening from a list of names to its pages, in one command.
ghost use Rattle.std.specs.Prelude.{◌≡◌, ◌≤◌, length, string_bytes, IfOk};
ghost use Rattle.line_text.specs.Streams.{stream};
ghost use Rattle.club_commands.specs.Evening.{pages_address, Keeps, KeepsSession, KeepsMade, MakesAndKeeps, ShowsEvening, HoldsEvening, HasEvening};

use crate::evening_files::{keep_config, keep_slips};
use crate::fault::RunFault;
use crate::listed::run_where_listed;
use crate::listening::names_of;
use crate::machine::Machine;
use crate::on_disk::run_over;
use crate::standing::{Standing, standing_at};
use crate::work::{Listed, Misfit, Work};
use bridge_config::Config;
use bridge_session::Session;
use command_line::EveningWords;
use evening_commands::{EveningFault, MadeEvening, make_evening};
use session_store::StoreFault;
use std::alloc::{AllocError, Global};
use std::io::{Read, Write};
use table_pages::PageTexts;

/// Where the pages are.
fn pages_address(alloc: Global, words: &EveningWords<'_>) -> Result<String, AllocError>
    ensures { IfOk result (λ address. string_bytes address ≡ pages_address words.now) }
{
    let names = names_of(alloc, &words.host)?;
    let mut address = String::from_str(alloc, "http://")?;
    address.push_str(names.host())?;
    Ok(address)
}

/// Makes a disk that holds the session of a configuration.
fn keep_session<S: Machine, R: Read, W: Write>(
    rt: &S,
    alloc: Global,
    disk: &str,
    config: Config,
    input: &mut R,
    output: &mut W,
) -> Result<(), RunFault>
    ensures { KeepsSession config (stream R.remaining input.old input.new) (stream W.contents output.old output.new) result }
{
    match Session::new(alloc, config) {
        Ok(session) => run_over(rt, alloc, disk, &Work::Format(&session), input, output),
        Err(_) => Err(RunFault::Store(StoreFault::NoMemory)),
    }
}

/// Keeps an evening: its configuration, then its slips, then the disk.
fn keep_evening<S: Machine, R: Read, W: Write>(
    rt: &S,
    alloc: Global,
    disk: &str,
    evening: MadeEvening,
    address: &str,
    input: &mut R,
    output: &mut W,
) -> Result<(), RunFault>
    requires { length address.now ≤ 100 }
    ensures { Keeps evening address.now (stream R.remaining input.old input.new) (stream W.contents output.old output.new) result }
{
    keep_config(rt, alloc, disk, &evening.config)?;
    keep_slips(rt, alloc, disk, &evening, address)?;
    keep_session(rt, alloc, disk, evening.config, input, output)
}

/// Keeps an evening, where one was made.
fn keep_made<S: Machine, R: Read, W: Write>(
    rt: &S,
    alloc: Global,
    disk: &str,
    made: Result<MadeEvening, EveningFault>,
    address: &str,
    input: &mut R,
    output: &mut W,
) -> Result<(), RunFault>
    requires { IfOk made (λ _. length address.now ≤ 100) }
    ensures { KeepsMade address.now made (stream R.remaining input.old input.new)
        (stream W.contents output.old output.new) result }
{
    match made {
        Ok(evening) => keep_evening(rt, alloc, disk, evening, address, input, output),
        Err(fault) => Err(RunFault::Evening(fault)),
    }
}

/// Makes an evening of the pairs of the list, and keeps it.
fn make_and_keep<S: Machine, R: Read, W: Write>(
    rt: &S,
    alloc: Global,
    words: &EveningWords<'_>,
    input: &mut R,
    output: &mut W,
) -> Result<(), RunFault>
    ensures { MakesAndKeeps words.now (stream R.remaining input.old input.new) (stream W.contents output.old output.new) result }
{
    let Ok(address) = pages_address(alloc, words) else {
        return Err(RunFault::Store(StoreFault::NoMemory));
    };
    let address = address.as_str();
    let made = make_evening(rt, words.names, &words.wishes, address, output);
    keep_made(rt, alloc, words.disk, made, address, input, output)
}

/// Shows the pages of the session on the disk, with the names of the list where it can be read and has as many pairs.
fn show_evening<S: Machine, R: Read, W: Write>(
    rt: &S,
    alloc: Global,
    texts: PageTexts,
    words: &EveningWords<'_>,
    input: &mut R,
    output: &mut W,
) -> Result<(), RunFault>
    ensures { ShowsEvening texts words.now (stream R.remaining input.old input.new) (stream W.contents output.old output.new) result }
{
    let pages = Listed::Pages {
        texts,
        host: words.host,
        minutes: words.minutes,
        disk: words.disk,
        misfit: Misfit::LeftOut,
    };
    run_where_listed(rt, alloc, words.disk, &pages, words.names, input, output)
}

/// Goes on with the session that stands on the disk, or makes an evening, and shows its pages. What stands there is handed in,
/// since only so a clause can say what comes of it.
fn hold_evening<S: Machine, R: Read, W: Write>(
    rt: &S,
    alloc: Global,
    texts: PageTexts,
    words: &EveningWords<'_>,
    standing: Result<Standing, RunFault>,
    input: &mut R,
    output: &mut W,
) -> Result<(), RunFault>
    ensures { HoldsEvening texts words.now standing (stream R.remaining input.old input.new)
        (stream W.contents output.old output.new) result }
{
    match standing? {
        Standing::Held => show_evening(rt, alloc, texts, words, input, output),
        Standing::Free => {
            make_and_keep(rt, alloc, words, input, output)?;
            show_evening(rt, alloc, texts, words, input, output)
        }
    }
}

/// Goes on with the session that stands on the disk in a file; where none stands there, makes an evening of the pairs of the list
/// and keeps it: the configuration in `DISK.txt`, the slips in `DISK.slips.html`, and the session on the disk. Then shows its
/// pages. What stood under the names of the two files first gets the name `NAME.1`, or the first such number that is free.
///
/// A damaged session is the fault, and nothing is made. At a fault of the list nothing is made; at one of a file what was written
/// before it stays.
pub fn run_evening<S: Machine, R: Read, W: Write>(
    rt: &S,
    alloc: Global,
    texts: PageTexts,
    words: &EveningWords<'_>,
    input: &mut R,
    output: &mut W,
) -> Result<(), RunFault>
    ensures { HasEvening texts words.now (stream R.remaining input.old input.new) (stream W.contents output.old output.new) result }
{
    let standing = standing_at(rt, alloc, words.disk);
    hold_evening(rt, alloc, texts, words, standing, input, output)
}
