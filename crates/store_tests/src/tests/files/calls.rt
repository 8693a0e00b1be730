//! Which calls reach the file, and what a bad answer leads to.
use super::bad_file::BadFile;
use super::{read_if, write_if};
use crate::tests::expect_eq;
use sector_disk::{DiskFault, FileDisk, SectorDisk, SystemFile};
use std::alloc::Global;
use std::cell::{Cell, RefCell};
use std::process::Abort;

/// What is asked of the disk: a sector of zeros or of sevens written, a sector read, or a sync.
#[derive(Clone, Copy, Debug)]
enum Asked {
    Zeros(u32),
    Sevens(u32),
    Read(u32),
    Sync,
}

use Asked::{Read, Sevens, Sync, Zeros};

/// A file: its bytes, how many it gives or takes at a time, the call that it refuses, and the system's code for why; there is no
/// call 9.
type Answers = (u64, usize, usize, i32);

const LONG: u64 = 1 << 40;

/// The bytes of 2^32 - 1 sectors and one more.
const ALL: u64 = 1 << 41;

const INTERRUPTED: i32 = 4;

const BAD_SECTOR: i32 = 5;

const NO_SPACE: i32 = 28;

const GOOD: Answers = (LONG, 512, 9, BAD_SECTOR);

/// A file that tells of so many bytes, and whose next call has this number.
fn bad_file(
    calls: &RefCell<String>,
    told: u64,
    answers: Answers,
    number: usize,
) -> SystemFile<BadFile<'_>> {
    let (length, most, refused, code) = answers;
    SystemFile::new(BadFile {
        calls,
        told,
        length,
        most,
        refused,
        code,
        number: Cell::new(number),
    })
}

/// A file, what is asked of a disk over it and whether it is done, and the calls that reach the file: first for its length.
static ROWS: [(Answers, &[(Asked, bool)], &str); 17] = [
    (GOOD, &[(Zeros(5), true), (Sync, true)], "m w2560+512=0 s "),
    (
        GOOD,
        &[(Read(5), true), (Sevens(5), true)],
        "m r2560+512 w2560+512=7 ",
    ),
    // a sector is read from the file each time
    (
        GOOD,
        &[
            (Read(5), true),
            (Sevens(5), true),
            (Read(5), true),
            (Read(5), true),
        ],
        "m r2560+512 w2560+512=7 r2560+512 r2560+512 ",
    ),
    (GOOD, &[(Sync, true), (Sync, true)], "m s s "),
    (GOOD, &[(Sevens(65_536), true)], "m w33554432+512=7 "),
    (GOOD, &[(Read(8_388_608), true)], "m r4294967296+512 "),
    // half of what is asked, and none of it
    (
        (LONG, 300, 9, BAD_SECTOR),
        &[(Sevens(5), true)],
        "m w2560+512=7 w2860+212=7 ",
    ),
    (
        (LONG, 300, 9, BAD_SECTOR),
        &[(Read(5), true)],
        "m r2560+512 r2860+212 ",
    ),
    (
        (LONG, 0, 9, BAD_SECTOR),
        &[(Sevens(5), false), (Read(5), false)],
        "m w2560+512=7 r2560+512 ",
    ),
    // shorter than at opening
    (
        (2660, 512, 9, BAD_SECTOR),
        &[(Read(4), true), (Read(5), false)],
        "m r2048+512 r2560+512 r2660+412 ",
    ),
    // an interrupted read or write is asked again, and a sync never
    (
        (LONG, 512, 0, INTERRUPTED),
        &[(Read(5), true)],
        "m r2560+512 r2560+512 ",
    ),
    (
        (LONG, 512, 0, INTERRUPTED),
        &[(Sevens(5), true)],
        "m w2560+512=7 w2560+512=7 ",
    ),
    (
        (LONG, 512, 0, INTERRUPTED),
        &[(Sync, false), (Sync, true)],
        "m s s ",
    ),
    (
        (LONG, 512, 1, NO_SPACE),
        &[(Sevens(5), true), (Sync, false), (Sync, true)],
        "m w2560+512=7 s s ",
    ),
    // refused in the middle of a sector
    (
        (LONG, 300, 1, NO_SPACE),
        &[(Sevens(5), false), (Sevens(5), true)],
        "m w2560+512=7 w2860+212=7 w2560+512=7 w2860+212=7 ",
    ),
    (
        (LONG, 300, 1, BAD_SECTOR),
        &[(Read(5), false), (Sync, true)],
        "m r2560+512 r2860+212 s ",
    ),
    (
        (LONG, 300, 1, INTERRUPTED),
        &[(Read(5), true)],
        "m r2560+512 r2860+212 r2860+212 ",
    ),
];

type BadDisk<'a> = FileDisk<SystemFile<BadFile<'a>>>;

/// The disk over a file of 2^32 - 1 sectors, which is asked for its length before the first of its numbered calls.
fn long_disk<'a>(rt: &impl Abort, calls: &'a RefCell<String>, answers: Answers) -> BadDisk<'a> {
    let disk = FileDisk::found(bad_file(calls, ALL, answers, usize::MAX));
    let disk = disk.ok().expect(rt, "an opened file");
    expect_eq(rt, disk.count(), u32::MAX, "sectors");
    disk
}

fn answer<D: SectorDisk>(disk: &mut D, asked: Asked) -> (Result<(), DiskFault>, DiskFault) {
    match asked {
        Zeros(i) => (write_if(disk, i, 0), DiskFault::Write),
        Sevens(i) => (write_if(disk, i, 7), DiskFault::Write),
        Read(i) => (read_if(disk, i), DiskFault::Read),
        Sync => (disk.sync(), DiskFault::Sync),
    }
}

/// Fails where the disk does what is asked and is not to, or the other way round, or with another fault.
fn expect_answer<D: SectorDisk>(rt: &impl Abort, disk: &mut D, asked: Asked, is_done: bool) {
    let (found, fault) = answer(disk, asked);
    let due = if is_done { Ok(()) } else { Err(fault) };
    expect_eq(rt, found, due, asked);
}

#[test]
fn each_call_reaches_the_file(rt: HostRuntime) {
    for (answers, all, due) in &ROWS {
        let calls = RefCell::new(String::new(rt.alloc()));
        let mut disk = long_disk(&rt, &calls, *answers);
        for (asked, is_done) in *all {
            expect_answer(&rt, &mut disk, *asked, *is_done);
        }
        drop(disk);
        expect_eq(&rt, calls.into_inner().as_str(), *due, *all);
    }
}

static ASKED: [Asked; 4] = [Zeros(5), Sevens(5), Read(5), Sync];

/// Fails where a file that refuses to tell its length is opened.
fn expect_unopened(rt: &impl Abort, alloc: Global, code: i32) {
    let calls = RefCell::new(String::new(alloc));
    let file = bad_file(&calls, LONG, (LONG, 512, 0, code), 0);
    let fault = FileDisk::found(file).err();
    expect_eq(rt, fault, Some(DiskFault::Read), code);
}

/// Fails where the first call is refused for that reason and the disk does not say so.
fn expect_refusal(rt: &impl Abort, alloc: Global, asked: Asked, code: i32) {
    let calls = RefCell::new(String::new(alloc));
    let mut disk = long_disk(rt, &calls, (LONG, 512, 0, code));
    let (found, fault) = answer(&mut disk, asked);
    let again = code == INTERRUPTED && fault != DiskFault::Sync;
    let due = if again { Ok(()) } else { Err(fault) };
    expect_eq(rt, found, due, (asked, code));
}

// Whatever the system's reason, a call that it refuses is a fault, but for a read or a write that was interrupted.
#[test]
fn no_refusal_is_passed_over(rt: HostRuntime) {
    for code in 1..=133 {
        for asked in &ASKED {
            expect_refusal(&rt, rt.alloc(), *asked, code);
        }
        expect_unopened(&rt, rt.alloc(), code);
    }
}

/// A file's bytes, how many it takes at a time and the call that it refuses; whether it is filled, after how many calls, and
/// the last of them.
type Filled = (u64, usize, usize, bool, usize, &'static str);

static FILLED: [Filled; 6] = [
    (1 << 20, 512, usize::MAX, true, 2049, "s"),
    (1 << 20, 300, usize::MAX, true, 4097, "s"),
    ((1 << 20) - 1, 512, usize::MAX, false, 2049, "w1048575+1=0"),
    (1 << 20, 512, 0, false, 1, "w0+512=0"),
    (1 << 20, 512, 2047, false, 2048, "w1048064+512=0"),
    (1 << 20, 512, 2048, false, 2049, "s"),
];

/// Why a file is not filled, if it is not.
fn filling(calls: &RefCell<String>, length: u64, most: usize, refused: usize) -> Option<DiskFault> {
    let answers = (length, most, refused, NO_SPACE);
    FileDisk::filled(bad_file(calls, length, answers, 0)).err()
}

// A file that is made is written sector by sector, and then synced once; where a call is refused, or the file has room
// for a byte less than it is to have, no call comes after.
#[test]
fn a_file_is_made_of_zeros_and_synced(rt: HostRuntime) {
    for (length, most, refused, is_filled, count, last) in &FILLED {
        let calls = RefCell::new(String::new(rt.alloc()));
        let found = filling(&calls, *length, *most, *refused);
        let due = if *is_filled {
            None
        } else {
            Some(DiskFault::Write)
        };
        expect_eq(&rt, found, due, (*length, *refused));
        let calls = calls.into_inner();
        let words = calls.as_str();
        expect_eq(&rt, words.split_whitespace().last(), Some(*last), *refused);
        expect_eq(&rt, words.split_whitespace().count(), *count, *refused);
    }
}

/// Fails where a file of that many bytes has another number of sectors, or is asked for more than its length.
fn expect_count(rt: &impl Abort, alloc: Global, length: u64, count: u32) {
    let calls = RefCell::new(String::new(alloc));
    let disk = FileDisk::found(bad_file(&calls, length, GOOD, 0));
    let disk = disk.ok().expect(rt, "an opened file");
    expect_eq(rt, disk.count(), count, length);
    drop(disk);
    expect_eq(rt, calls.into_inner().as_str(), "m ", length);
}

#[test]
fn an_opened_file_is_asked_for_its_length(rt: HostRuntime) {
    expect_count(&rt, rt.alloc(), 1023, 1);
    expect_count(&rt, rt.alloc(), 2_199_023_255_552, 4_294_967_295);
}
