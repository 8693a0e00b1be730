//! Runs the command that the words ask for.
ghost use Rattle.std.specs.Prelude.{◌≡◌, ◌≢◌, ◌⊎◌, codes, IfOk, IfErr};
ghost use Rattle.line_text.specs.Streams.{stream, TakesPrefix, IsUntouched};
ghost use Rattle.line_replies.specs.declared.fault.ServeFault.TheVariants.{Read as ReadFault};
ghost use Rattle.club_commands.specs.Ended.{stream_line, store_line, fault_line, fault_status};
ghost use Rattle.club_commands.specs.Run.{HoldsAuction, Runs, EndsWith, RefusesWords, IsUsage, HasRun, HasFailed};

use crate::check_two::run_check;
use crate::copying::run_copy;
use crate::evening::run_evening;
use crate::evenings::{make_draft, make_plan, make_slips};
use crate::events::run_event;
use crate::fault::RunFault;
use crate::fault_line::{fault_line, fault_status};
use crate::formatting::run_format;
use crate::machine::Machine;
use crate::makeable::write_makeable;
use crate::over_disk::{accept, correct, export, run_web, serve_set, tell, write_page};
use crate::printable::Printable;
use crate::version::run_version;
use crate::work::Told;
use bridge_cards::BoardNumber;
use command_line::{Command, WordsFault, read_words};
use line_text::write_text;
use session_store::StoreFault;
use std::alloc::Global;
use std::fmt::Write as _;
use std::io::{ErrorKind, Read, Write};
use table_pages::PageTexts;
use table_server::{LineSet, ServeFault, run_auction};

/// The command was done.
pub const DONE: u8 = 0;
/// The words are no command, or call for help, or one of them is not UTF-8.
pub const USAGE: u8 = 2;

const NOT_TEXT: &str = "a word of the command line is not UTF-8\n";

/// Runs the command that the words after the program's name ask for, and answers the exit status.
///
/// The runtime gives the files that commands open, and for `serve` and `web` the connections; `auction` opens none. `web`
/// shows pages of these texts; where it has two disks and one is lost, the runtime's standard error is told so at once, of which
/// no clause speaks.
///
/// 0: done. 2: the words are no command, or call for help; what clap says of them goes to `errors`, and no clause speaks of
/// that text. At 3 and 4 `errors` takes the line that names the fault, or a prefix of it where it fails itself. 3: `cannot
/// read input`, `cannot write output`, `config line N: Name`, `names line N: Name`, `evening: Name`, `deals line N: Name`,
/// `deals: LongText`, `disk fault`, `epochs spent` or `no memory`. 4: the disk holds no session, being `disk too small`,
/// `not formatted` or `damaged sector N`.
pub fn run_words_with<S: Machine, R: Read, W: Write, E: Write>(
    rt: &S,
    alloc: Global,
    texts: PageTexts,
    words: &[&str],
    input: &mut R,
    output: &mut W,
    errors: &mut E,
) -> u8
    ensures done { result ≡ 0 → HasRun words.entry.now (stream R.remaining input.old input.new)
        (stream W.contents output.old output.new) (stream E.contents errors.old errors.new) 0 texts }
    ensures usage { result ≡ 2 → IsUsage words.entry.now (stream R.remaining input.old input.new)
        (stream W.contents output.old output.new) }
    ensures fault { result ≡ 3 → HasFailed words.entry.now (stream R.remaining input.old input.new)
        (stream W.contents output.old output.new) (stream E.contents errors.old errors.new) texts }
    ensures no_session { result ≡ 4 → HasRun words.entry.now (stream R.remaining input.old input.new)
        (stream W.contents output.old output.new) (stream E.contents errors.old errors.new) 4 texts }
    ensures status { (result ≡ 0) ⊎ ((result ≡ 2) ⊎ ((result ≡ 3) ⊎ (result ≡ 4))) }
{
    match read_words(alloc, words) {
        Ok(command) => run_command(rt, alloc, texts, &command, input, output, errors),
        Err(fault) => refuse(fault, errors),
    }
}

/// Says on `errors` why the words are no command, and answers the exit status.
pub fn refuse<E: Write>(fault: WordsFault, errors: &mut E) -> u8
    ensures { RefusesWords fault result (stream E.contents errors.old errors.new) }
{
    match fault {
        WordsFault::Usage(error) => {
            let _ = write!(Printable { writer: errors }, "{error}");
            USAGE
        }
        WordsFault::Memory => fails(&RunFault::Store(StoreFault::NoMemory), errors),
    }
}

/// Runs a command, and where it stops names the fault on `errors`. The answer is the exit status.
fn run_command<S: Machine, R: Read, W: Write, E: Write>(
    rt: &S,
    alloc: Global,
    texts: PageTexts,
    command: &Command<'_>,
    input: &mut R,
    output: &mut W,
    errors: &mut E,
) -> u8
    ensures ended { EndsWith result texts command.now (stream R.remaining input.old input.new)
        (stream W.contents output.old output.new) (stream E.contents errors.old errors.new) }
    ensures status { (result ≡ 0) ⊎ ((result ≡ 3) ⊎ (result ≡ 4)) }
{
    match do_command(rt, alloc, texts, command, input, output) {
        Ok(()) => DONE,
        Err(fault) => fails(&fault, errors),
    }
}

/// Runs a command.
fn do_command<S: Machine, R: Read, W: Write>(
    rt: &S,
    alloc: Global,
    texts: PageTexts,
    command: &Command<'_>,
    input: &mut R,
    output: &mut W,
) -> Result<(), RunFault>
    ensures { Runs texts command.now (stream R.remaining input.old input.new) (stream W.contents output.old output.new) result }
{
    match *command {
        Command::Auction(board) => hold_auction(board, input, output),
        Command::Format { disk, config } => run_format(rt, alloc, disk, config, input, output),
        Command::Script { disk } => serve_set(rt, alloc, disk, LineSet::Protocol, input, output),
        Command::Correct { disk } => correct(rt, alloc, disk, input, output),
        Command::Serve { disk, port, count } => accept(rt, alloc, disk, port, count, input, output),
        Command::Web { disk, pages } => run_web(rt, alloc, texts, disk, &pages, input, output),
        Command::Rank { disk } => tell(rt, alloc, disk, Told::Ranking, input, output),
        Command::Pbn { disk } => tell(rt, alloc, disk, Told::Games, input, output),
        Command::Results { disk, page, names } => write_page(
            rt, alloc, disk, page, names, input, output,
        ),
        Command::Export { disk, asked } => export(rt, alloc, disk, asked, input, output),
        Command::Event { ref disks, asked } => run_event(rt, alloc, disks, asked, output),
        Command::Check { disk, copy } => run_check(rt, alloc, disk, copy, input, output),
        Command::Plan { config, names } => make_plan(rt, config, names, output),
        Command::Draft { names, wishes } => make_draft(rt, names, &wishes, output),
        Command::Slips { config, slips } => make_slips(rt, config, &slips, output),
        Command::Evening(words) => run_evening(rt, alloc, texts, &words, input, output),
        Command::Makeable { file, pbn } => write_makeable(rt, alloc, pbn, file, output),
        Command::Copy { disk, copy } => run_copy(rt, alloc, disk, copy, input, output),
        Command::Version => run_version(output),
    }
}

/// Reads a board's auction from the input.
fn hold_auction<R: Read, W: Write>(
    board: BoardNumber,
    input: &mut R,
    output: &mut W,
) -> Result<(), RunFault>
    ensures { HoldsAuction board (stream R.remaining input.old input.new) (stream W.contents output.old output.new) result }
{
    run_auction(board, input, output)?;
    Ok(())
}

/// The exit status of the program: that of the run, or where it could not begin, which a line of `errors` says: 3 where memory
/// is refused, 2 where a word is not UTF-8, and 3 at any other error, which is that no file can be opened.
pub fn status_of<E: Write>(outcome: Result<u8, ErrorKind>, errors: &mut E) -> u8
    ensures run { IfOk outcome (λ status. (result ≡ status)
        × IsUntouched (stream E.contents errors.old errors.new)) }
    ensures memory { IfErr outcome (λ kind. kind ≡ ErrorKind.OutOfMemory → (result ≡ 3)
        × TakesPrefix (stream E.contents errors.old errors.new) (store_line StoreFault.NoMemory)) }
    ensures text { IfErr outcome (λ kind. kind ≡ ErrorKind.InvalidData → (result ≡ 2)
        × TakesPrefix (stream E.contents errors.old errors.new) (codes "a word of the command line is not UTF-8\n")) }
    ensures files { IfErr outcome (λ kind. kind ≢ ErrorKind.OutOfMemory → kind ≢ ErrorKind.InvalidData → (result ≡ 3)
        × TakesPrefix (stream E.contents errors.old errors.new) (stream_line ReadFault)) }
{
    match outcome {
        Ok(status) => status,
        Err(ErrorKind::OutOfMemory) => fails(&RunFault::Store(StoreFault::NoMemory), errors),
        Err(ErrorKind::InvalidData) => {
            let _ = write_text(errors, NOT_TEXT.as_bytes());
            USAGE
        }
        Err(_) => fails(&RunFault::Stream(ServeFault::Read), errors),
    }
}

/// Writes the line of a fault, as much of it as `errors` takes, and answers its exit status.
fn fails<E: Write>(fault: &RunFault, errors: &mut E) -> u8
    ensures status { result ≡ fault_status fault.now }
    ensures line { TakesPrefix (stream E.contents errors.old errors.new) (fault_line fault.now) }
{
    let _ = write_text(errors, fault_line(*fault).as_str().as_bytes());
    fault_status(*fault)
}
