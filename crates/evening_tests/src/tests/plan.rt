//! The plan of a small evening, and what is said of lines that are refused, as they were written by hand.
use arrayvec::ArrayVec;
use bridge_config::read_config;
use evening_draft::PairNames;
use evening_plan::{write_fault, write_plan, write_plan_with};
use std::process::Abort;

const EVENING: &str = "EVENT Club-Night
SITE Town-Hall
DATE 2026.03.14
SCORING IMP
BOARDS 2
MOVEMENT 2 2 2 3 3
ROW 1 1 1 2 2
ROW 1 2 3 0 1
ROW 2 1 3 1 1
ROW 2 2 0 2 2
DIRECTOR 10055
PAIR 1 Ann 10011 Bob 10012
PAIR 2 Cat 10021 Dan 10022
PAIR 3 Eve 10031 Fay 10032
";

const PLAN: &str = "Club-Night
Town-Hall, 2026.03.14
Scoring: IMPs
Tables: 2, rounds: 2, pairs: 3
Sets: 2, boards in a set: 2, boards in all: 4
Ranked: all pairs together
Of a pair the first player sits North or East, the second South or West.

Pair 1: Ann and Bob
  Round  Table  Side  Against    Set  Boards
      1      1  NS          2      2  3 to 4
      2      1  EW          3      1  1 to 2

Pair 2: Cat and Dan
  Round  Table  Side  Against    Set  Boards
      1      1  EW          1      2  3 to 4
      2  sits out

Pair 3: Eve and Fay
  Round  Table  Side  Against    Set  Boards
      1  sits out
      2      1  NS          1      1  1 to 2
";

/// What is written of a text: its plan, or what is wrong with it.
fn words_of(text: &[u8]) -> ArrayVec<u8, 2048> {
    let mut written = ArrayVec::<u8, 2048>::new();
    let _ = match read_config(text) {
        Ok(config) => write_plan(&config, &mut written),
        Err(fault) => write_fault(text, fault, &mut written),
    };
    written
}

#[test]
fn a_small_evening(rt: HostRuntime) {
    let written = words_of(EVENING.as_bytes());
    assert!(&rt;
        written.as_slice() == PLAN.as_bytes(),
        "{:?}",
        str::from_utf8(written.as_slice())
    );
}

/// A pair of two names.
fn pair(first: &str, second: &str) -> PairNames {
    let mut pair = PairNames::default();
    let _ = pair.first.try_push_str(first);
    let _ = pair.second.try_push_str(second);
    pair
}

/// The headings of pairs whose names are as people write them.
static HEADINGS: [&str; 3] = [
    "\nPair 1: José García and Zoë\n",
    "\nPair 2: 李小龍 and Dan\n",
    "\nPair 3: Άννα and O'Brien\n",
];

#[test]
fn a_small_evening_with_names_as_people_write_them(rt: HostRuntime) {
    let names = [
        pair("José García", "Zoë"),
        pair("李小龍", "Dan"),
        pair("Άννα", "O'Brien"),
    ];
    let mut written = ArrayVec::<u8, 2048>::new();
    if let Ok(config) = read_config(EVENING.as_bytes()) {
        let _ = write_plan_with(&config, Some(names.as_slice()), &mut written);
    }
    let written = str::from_utf8(written.as_slice()).unwrap_or("");
    for heading in &HEADINGS {
        assert!(&rt; written.contains(*heading), "{written}");
    }
    assert!(&rt; !written.contains("Ann "), "{written}");
}

/// The text of the small evening with another line in place of one.
fn with_line(number: usize, line: &str) -> ArrayVec<u8, 1024> {
    let mut text = ArrayVec::<u8, 1024>::new();
    for (index, before) in EVENING.lines().enumerate() {
        let put = if index + 1 == number { line } else { before };
        let _ = text.try_extend_from_slice(put.as_bytes());
        let _ = text.try_extend_from_slice(b"\n");
    }
    text
}

/// Fails where another reason is given for a line that stands in place of one than the one that is due.
fn expect_refused(rt: &impl Abort, number: usize, line: &str, reason: &str) {
    let written = words_of(with_line(number, line).as_slice());
    let mut wanted = ArrayVec::<u8, 256>::new();
    let _ = wanted.try_extend_from_slice(b"\nrefused: ");
    let _ = wanted.try_extend_from_slice(reason.as_bytes());
    let _ = wanted.try_extend_from_slice(b"\n");
    assert!(rt;
        written.as_slice().ends_with(wanted.as_slice()),
        "{line:?}: {:?}",
        str::from_utf8(written.as_slice())
    );
}

/// Lines that stand in place of one, and why they are refused.
static OF_ANOTHER_FORM: [(usize, &str, &str); 4] = [
    (
        1,
        "EVENT aaaaaaaaaaaaaaaaaaaaaaaaaaaaaaaaaaaaaaaaaaaaaaaaaaaaaaaaaaaaaaaaaaaaaaaaaaaaaaaaaaaaaaaaaaaaaaaaaaaaaaaaaaaaaaaaaaaaaaaaaaa",
        "the line has more than 128 characters",
    ),
    (
        2,
        "SITE Town ",
        "word 3 is empty: one space stands between two words, and none at the end",
    ),
    (6, "MITCHEL 7", "word 1 is not MITCHELL or MOVEMENT"),
    (11, "PAIR 1 Ann 10011 Bob 10012", "word 1 is not DIRECTOR"),
];

#[test]
fn lines_of_another_form(rt: HostRuntime) {
    for (number, line, reason) in &OF_ANOTHER_FORM {
        expect_refused(&rt, *number, line, reason);
    }
}

/// Lines with a number that is too large, or not the one that is next.
static OF_OTHER_NUMBERS: [(usize, &str, &str); 4] = [
    (6, "MOVEMENT 2 2 13 3 3", "word 4 is not from 1 to 12"),
    (
        7,
        "ROW 1 2 1 2 2",
        "its round and table are not the ones that are next",
    ),
    (
        7,
        "ROW 1 1 1 4 2",
        "a pair's number is above the number of pairs in line 6",
    ),
    (
        7,
        "ROW 1 1 1 2 3",
        "the set is 0, or above the number of sets in line 6",
    ),
];

#[test]
fn numbers_that_cannot_stand(rt: HostRuntime) {
    for (number, line, reason) in &OF_OTHER_NUMBERS {
        expect_refused(&rt, *number, line, reason);
    }
}
