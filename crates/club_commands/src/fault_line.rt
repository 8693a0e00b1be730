//! The line of standard error and the exit status that a fault has.
ghost use Rattle.std.specs.Prelude.{◌≡◌, ◌≤◌, ◌++◌, length, Some};
ghost use Rattle.club_commands.specs.Ended.{stream_line, store_line, copy_line, other_plays_line, join_line, lost_line, section_words, difference_words, other_section_line, fault_line, fault_status, store_status, join_status};

use crate::fault::{LostDisk, OtherSection, RunFault};
use bridge_cards::BoardNumber;
use bridge_movement::Row;
use evening_commands::{FaultLine, config_line, evening_line, line_of};
use event_ranking::{Difference, section_letters};
use itoa::Buffer;
use makeable_deals::makeable_line;
use session_pair::JoinFault;
use session_store::StoreFault;
use table_server::ServeFault;

/// Reading, writing, accepting a connection, the disk or memory failed, the configuration is refused, or the epochs are
/// spent.
pub const FAULT: u8 = 3;
/// The disk holds no session.
pub const NO_SESSION: u8 = 4;

/// The line where the system does not give what a command wants.
const SYSTEM_LINE: &str = "cannot read input\n";

/// The exit status at a fault: 4 where the disk is too small, not formatted or damaged, and 3 otherwise.
pub fn fault_status(fault: RunFault) -> u8
    ensures { result ≡ fault_status fault }
{
    match fault {
        RunFault::Stream(_) => FAULT,
        RunFault::System(_) => FAULT,
        RunFault::Config(_) => FAULT,
        RunFault::Evening(_) => FAULT,
        RunFault::Makeable(_) => FAULT,
        RunFault::Store(fault) => store_status(fault),
        RunFault::Joining(fault) => join_status(fault),
        RunFault::Lost(_) => FAULT,
        RunFault::Section { fault, .. } => store_status(fault),
        RunFault::Field(_) => FAULT,
    }
}

/// The exit status where a session was not opened on two disks: what the disk itself has, and else 3.
fn join_status(fault: JoinFault) -> u8
    ensures { result ≡ join_status fault }
{
    match fault {
        JoinFault::Disk(fault) => store_status(fault),
        JoinFault::Copy(_) | JoinFault::OtherSession | JoinFault::OtherPlays(_) => FAULT,
    }
}

/// The exit status where the disk is refused or has failed, or memory is refused.
fn store_status(fault: StoreFault) -> u8
    ensures { result ≡ store_status fault }
{
    match fault {
        StoreFault::TooSmall | StoreFault::NotFormatted | StoreFault::Damaged(_) => NO_SESSION,
        StoreFault::Disk | StoreFault::EpochsSpent | StoreFault::NoMemory => FAULT,
    }
}

/// The line that names a fault.
pub fn fault_line(fault: RunFault) -> FaultLine
    ensures { result.bytes ≡ fault_line fault }
{
    match fault {
        RunFault::Stream(fault) => stream_line(fault),
        RunFault::System(_) => line_of(SYSTEM_LINE),
        RunFault::Config(fault) => config_line(fault),
        RunFault::Evening(fault) => evening_line(fault),
        RunFault::Makeable(fault) => makeable_line(fault),
        RunFault::Store(fault) => store_line(fault),
        RunFault::Joining(fault) => join_line(fault),
        RunFault::Lost(lost) => lost_line(lost),
        RunFault::Section { section, fault } => section_line(section, fault),
        RunFault::Field(other) => other_section_line(other),
    }
}

/// The line where a session was not opened on two disks.
fn join_line(fault: JoinFault) -> FaultLine
    ensures { result.bytes ≡ join_line fault }
{
    match fault {
        JoinFault::Disk(fault) => store_line(fault),
        JoinFault::Copy(fault) => copy_line(fault),
        JoinFault::OtherSession => line_of("copy: another session\n"),
        JoinFault::OtherPlays(None) => line_of("copy: different plays\n"),
        JoinFault::OtherPlays(Some(row)) => other_plays_line(row),
    }
}

/// The line where plays of a table in a round lack something.
fn other_plays_line(row: Row) -> FaultLine
    ensures { result.bytes ≡ other_plays_line (Some row) }
{
    let mut line = FaultLine::new();
    line.push_str("copy: different plays, round ");
    line.push_str(Buffer::new().format(row.round));
    line.push_str(" table ");
    line.push_str(Buffer::new().format(row.table));
    line.push_str("\n");
    line
}

/// The line where one of two disks was lost.
fn lost_line(lost: LostDisk) -> FaultLine
    ensures { result.bytes ≡ lost_line lost }
{
    match lost {
        LostDisk::Disk => line_of("disk lost\n"),
        LostDisk::Copy => line_of("copy lost\n"),
    }
}

/// The line where the copy gives no session.
fn copy_line(fault: StoreFault) -> FaultLine
    ensures { result.bytes ≡ copy_line fault }
{
    match fault {
        StoreFault::TooSmall => line_of("copy: disk too small\n"),
        StoreFault::Disk => line_of("copy: disk fault\n"),
        StoreFault::NotFormatted => line_of("copy: not formatted\n"),
        StoreFault::Damaged(sector) => damaged_copy_line(sector),
        StoreFault::EpochsSpent => line_of("copy: epochs spent\n"),
        StoreFault::NoMemory => line_of("copy: no memory\n"),
    }
}

fn damaged_copy_line(sector: u32) -> FaultLine
    ensures { result.bytes ≡ copy_line (StoreFault.Damaged sector) }
{
    let mut line = FaultLine::new();
    line.push_str("copy: damaged sector ");
    line.push_str(Buffer::new().format(sector));
    line.push_str("\n");
    line
}

fn stream_line(fault: ServeFault) -> FaultLine
    ensures { result.bytes ≡ stream_line fault }
{
    match fault {
        ServeFault::Read | ServeFault::Accept => line_of("cannot read input\n"),
        ServeFault::Write => line_of("cannot write output\n"),
    }
}

fn store_line(fault: StoreFault) -> FaultLine
    ensures text { result.bytes ≡ store_line fault }
    ensures short { length result.bytes ≤ 36 }
{
    match fault {
        StoreFault::TooSmall => line_of("disk too small\n"),
        StoreFault::Disk => line_of("disk fault\n"),
        StoreFault::NotFormatted => line_of("not formatted\n"),
        StoreFault::Damaged(sector) => damaged_line(sector),
        StoreFault::EpochsSpent => line_of("epochs spent\n"),
        StoreFault::NoMemory => line_of("no memory\n"),
    }
}

fn damaged_line(sector: u32) -> FaultLine
    ensures text { result.bytes ≡ store_line (StoreFault.Damaged sector) }
    ensures short { length result.bytes ≤ 36 }
{
    let mut line = FaultLine::new();
    line.push_str("damaged sector ");
    line.push_str(Buffer::new().format(sector));
    line.push_str("\n");
    line
}

/// What stands before that which is said of a section.
fn section_words(section: u8) -> FaultLine
    ensures text { result.bytes ≡ section_words section }
    ensures short { length result.bytes ≤ 12 }
{
    let mut line = FaultLine::new();
    line.push_str("section ");
    line.push_str(section_letters(section).as_str());
    line.push_str(": ");
    line
}

/// The line of the disk of a section.
fn section_line(section: u8, fault: StoreFault) -> FaultLine
    ensures { result.bytes ≡ section_words section ++ store_line fault }
{
    let mut line = section_words(section);
    line.push_str(store_line(fault).as_str());
    line
}

/// In what a section differs from an earlier one.
fn difference_words(difference: Difference) -> FaultLine
    ensures text { result.bytes ≡ difference_words difference }
    ensures short { length result.bytes ≤ 24 }
{
    match difference {
        Difference::Scoring => line_of("other scoring"),
        Difference::Boards => line_of("other boards a set"),
        Difference::Deal(board) => deal_words(board),
    }
}

/// The same where they have other deals of a board.
fn deal_words(board: BoardNumber) -> FaultLine
    ensures text { result.bytes ≡ difference_words (Difference.Deal board) }
    ensures short { length result.bytes ≤ 24 }
{
    let mut line = FaultLine::new();
    line.push_str("other deal of board ");
    line.push_str(Buffer::new().format(board.number()));
    line
}

/// The line where a section is not of one field with an earlier one.
fn other_section_line(other: OtherSection) -> FaultLine
    ensures { result.bytes ≡ other_section_line other }
{
    let mut line = section_words(other.section);
    line.push_str(difference_words(other.difference).as_str());
    line.push_str(" than ");
    line.push_str(section_letters(other.earlier).as_str());
    line.push_str("\n");
    line
}
