//! What the command `check` says of a disk.
ghost use Rattle.std.specs.Prelude.{◌≡◌, ◌≤◌, ◌+◌, ◌*◌, ◌∷◌, [], ℕ, List, length};
ghost use Rattle.std.specs.Fmt.{decimal};
ghost use Rattle.arrayvec.specs.ArrayString.{array_string_len};
ghost use Rattle.line_text.specs.Streams.{stream};
ghost use Rattle.sector_disk.specs.File.{file_disk};
ghost use Rattle.session_store.specs.Form.{digit};
ghost use Rattle.club_commands.specs.Checked.{with_said, with_round, with_standing, with_state, no_older_text, SaysOlder, SaysRefused, Checks};
ghost use Rattle.club_commands.specs.Ended.{Writes};

use crate::counts::{boards_dealt, plays_done};
use crate::fault::RunFault;
use crate::fault_line::fault_line;
use crate::output::write_output;
use arrayvec::ArrayString;
use bridge_session::Session;
use club_disk::{ClubDisk, Left};
use itoa::Buffer;
use sector_disk::SectorDisk;
use session_store::{DiskFormat, Reading, StoreFault, read_older_state, read_state};
use std::alloc::Global;
use std::io::Write;

/// The room for what is said of a disk: a heading and nine lines.
const CHECK_BYTES: usize = 512;

/// The most bytes of a line of it: its words, what is said by them, and its end.
const SAID_BYTES: usize = 53;

/// What is said of a disk.
pub type CheckText = ArrayString<CHECK_BYTES>;

/// Adds a line of some words and what is said by them.
fn push_said(text: &mut CheckText, words: &str, value: &str)
    requires words { length words.now ≤ 28 }
    requires value { length value.now ≤ 24 }
    requires room { array_string_len text.old + SAID_BYTES ≤ CHECK_BYTES }
    ensures said { text.new.bytes ≡ with_said text.old.bytes words.now value.now }
    ensures room { array_string_len text.new ≤ array_string_len text.old + SAID_BYTES }
{
    text.push_str(words);
    text.push_str(value);
    text.push_str("\n");
}

/// Adds a line of some words and a number.
fn push_number(text: &mut CheckText, words: &str, number: u64)
    requires words { length words.now ≤ 28 }
    requires room { array_string_len text.old + SAID_BYTES ≤ CHECK_BYTES }
    ensures said { text.new.bytes ≡ with_said text.old.bytes words.now (decimal number) }
    ensures room { array_string_len text.new ≤ array_string_len text.old + SAID_BYTES }
{
    push_said(text, words, Buffer::new().format(number));
}

/// The digit of a format.
fn format_digit(format: DiskFormat) -> &'static str
    ensures digit { result.now ≡ digit format ∷ [] }
    ensures one { length result.now ≤ 1 }
{
    match format {
        DiskFormat::One => "1",
        DiskFormat::Two => "2",
    }
}

/// Adds how a snapshot stands.
fn push_standing(text: &mut CheckText, format: DiskFormat, epoch: u64, sector: u32, records: u32)
    requires room { array_string_len text.old + 4 * SAID_BYTES ≤ CHECK_BYTES }
    ensures standing { text.new.bytes ≡ with_standing text.old.bytes format epoch sector records }
    ensures room { array_string_len text.new ≤ array_string_len text.old + 4 * SAID_BYTES }
{
    push_said(text, "format ", format_digit(format));
    push_number(text, "epoch ", epoch);
    push_number(text, "snapshot in sector ", u64::from(sector));
    push_number(text, "records ", u64::from(records));
}

/// Adds the round, of how many, or that the session is closed.
fn push_round(text: &mut CheckText, session: &Session)
    requires room { array_string_len text.old + SAID_BYTES ≤ CHECK_BYTES }
    ensures round { text.new.bytes ≡ with_round text.old.bytes session.now }
    ensures room { array_string_len text.new ≤ array_string_len text.old + SAID_BYTES }
{
    let rounds = session.config().fields().movement.shape().rounds;
    let round = session.round();
    if rounds < round {
        text.push_str("session closed\n");
    } else {
        let mut value = ArrayString::<24>::new();
        value.push_str(Buffer::new().format(round));
        value.push_str(" of ");
        value.push_str(Buffer::new().format(rounds));
        push_said(text, "round ", value.as_str());
    }
}

/// Adds a session's event, date and round, and how far it is.
fn push_state(text: &mut CheckText, session: &Session)
    requires room { array_string_len text.old + 5 * SAID_BYTES ≤ CHECK_BYTES }
    ensures state { text.new.bytes ≡ with_state text.old.bytes session.now }
    ensures room { array_string_len text.new ≤ array_string_len text.old + 5 * SAID_BYTES }
{
    let fields = session.config().fields();
    push_said(text, "event ", fields.event.as_str());
    push_said(text, "date ", fields.date.as_str());
    push_round(text, session);
    push_number(text, "boards dealt ", u64::from(boards_dealt(session)));
    push_number(
        text,
        "plays finished or ruled on ",
        u64::from(plays_done(session)),
    );
}

/// What was seen on a disk, below a heading.
pub fn seen_text(heading: &str, found: &Reading<Session>) -> CheckText
    requires { length heading.now ≤ 15 }
    ensures { result.bytes ≡ with_state (with_standing heading.now found.now.format found.now.epoch found.now.sector
        found.now.records) found.now.state }
{
    let mut text = CheckText::new();
    text.push_str(heading);
    push_standing(
        &mut text,
        found.format,
        found.epoch,
        found.sector,
        found.records,
    );
    push_state(&mut text, &found.state);
    text
}

/// Why an older snapshot gives nothing.
fn no_older_text(fault: StoreFault) -> CheckText
    ensures { result.bytes ≡ no_older_text fault }
{
    let mut text = CheckText::new();
    match fault {
        StoreFault::NotFormatted => text.push_str("no older snapshot\n"),
        _ => {
            text.push_str("older snapshot: ");
            text.push_str(fault_line(RunFault::Store(fault)).as_str());
        }
    }
    text
}

/// Writes what the older snapshot of a disk holds, or why it gives nothing.
fn tell_older<D: SectorDisk, W: Write>(
    alloc: Global,
    disk: &mut D,
    output: &mut W,
) -> Result<(), RunFault>
    ensures { (text : List ℕ) × SaysOlder D.disk disk.old disk.new text
        × Writes (stream W.contents output.old output.new) text result }
{
    match read_older_state::<D, Session>(alloc, disk) {
        Ok(found) => write_output(output, seen_text("older snapshot\n", &found).as_str()),
        Err(fault) => write_output(output, no_older_text(fault).as_str()),
    }
}

/// Says why a disk, which was read, gave nothing. At a damaged sector, which is the fault then, it says what the older snapshot
/// holds.
pub fn check_refused<D: SectorDisk, W: Write>(
    alloc: Global,
    disk: &mut D,
    fault: StoreFault,
    output: &mut W,
) -> Result<(), RunFault>
    ensures { SaysRefused D.disk disk.old disk.new fault (stream W.contents output.old output.new) result }
{
    match fault {
        StoreFault::Damaged(_) => {
            tell_older(alloc, disk, output)?;
            Err(RunFault::Store(fault))
        }
        _ => Err(RunFault::Store(fault)),
    }
}

/// Says what a disk holds; nothing is written to it. At a damaged sector, which is the fault then, it says what the older
/// snapshot holds.
pub fn check_disk<D: SectorDisk, W: Write>(
    alloc: Global,
    disk: &mut D,
    output: &mut W,
) -> Result<(), RunFault>
    ensures { Checks D.disk disk.old disk.new (stream W.contents output.old output.new) result }
{
    match read_state::<D, Session>(alloc, disk) {
        Ok(found) => write_output(output, seen_text("", &found).as_str()),
        Err(fault) => check_refused(alloc, disk, fault, output),
    }
}

/// The same, and hands the disk out.
pub fn check_over<W: Write>(
    alloc: Global,
    disk: ClubDisk,
    output: &mut W,
) -> Left<ClubDisk, RunFault>
    ensures { Checks file_disk disk result.disk (stream W.contents output.old output.new) result.ended }
{
    let mut disk = disk;
    let ended = check_disk(alloc, &mut disk, output);
    Left { disk, ended }
}
