//! A deal that was worked out by hand, texts that are refused, and a reader that fails.
use crate::tests::expect_eq;
use bridge_cards::{Seat, Vulnerability};
use makeable_deals::{
    DealsFault, DealsRefused, MakeableFault, MakeableForm, Progress, makeable_of_reader, read_deals,
};
use std::alloc::{AllocError, Global};
use std::io::{self, Error, ErrorKind, Read};
use std::process::Abort;

const LINES: &str = "1 N 0 13 0 13 0
1 E 13 0 13 0 0
1 S 0 13 0 13 0
1 W 13 0 13 0 0
1 PAR 1510 7S N 7S S
";

const DEAL: &str = "AKQJT98765432... .AKQJT98765432.. ..AKQJT98765432. ...AKQJT98765432";

// North has all the spades, East the hearts, South the diamonds and West the clubs. With its own suit as trumps a side takes all
// the tricks; without trumps whoever leads does, so the declarer none. Seven spades is the highest bid that makes.
#[test]
fn a_suit_in_each_hand(rt: HostRuntime) {
    let text = format!(in rt.alloc();
        "% PBN 2.1\r\n[Event \"-\"]\r\n[Board \"1\"]\r\n[Deal \"N:{DEAL}\"]\r\n"
    );
    let text = text.ok().expect(&rt, "memory");
    expect_made(&rt, rt.alloc(), MakeableForm::Lines, text.as_str(), LINES);
}

/// Fails where something else is written of a text.
fn expect_made(rt: &impl Abort, alloc: Global, form: MakeableForm, text: &str, due: &str) {
    let mut written = Vec::<u8>::new(alloc);
    let mut reader = text.as_bytes();
    let made = makeable_of_reader(alloc, form, Progress::silent(), &mut reader, &mut written);
    expect_eq(rt, made, Ok(()), due);
    expect_eq(rt, written.as_slice(), due.as_bytes(), due);
}

const TAGS: &str = "[OptimumScore \"NS 1510\"]
[ParContract \"7S N 7S S\"]
[OptimumResultTable \"Declarer;Denomination\\2R;Result\\2R\"]
N NT  0
N  S 13
N  H  0
N  D 13
N  C  0
E NT  0
E  S  0
E  H 13
E  D  0
E  C 13
S NT  0
S  S 13
S  H  0
S  D 13
S  C  0
W NT  0
W  S  0
W  H 13
W  D  0
W  C 13
";

// The same deal on two boards, the second without a line feed at its end: each has its own par, by who is vulnerable.
#[test]
fn games_with_tags(rt: HostRuntime) {
    let alloc = rt.alloc();
    let games = format!(in alloc;
        "[Board \"1\"]\r\n[Deal \"N:{DEAL}\"]\n[Scoring \"MP\"]\n\n[Board \"2\"]\n[Deal \"N:{DEAL}\"]"
    );
    let games = games.ok().expect(&rt, "memory");
    let due = games_due(&rt, alloc);
    let form = MakeableForm::Games;
    expect_made(&rt, alloc, form, games.as_str(), due.as_str());
}

/// The two games with their tags.
fn games_due(rt: &impl Abort, alloc: Global) -> String {
    let second = TAGS.replace(alloc, "1510", "2210");
    let second = second.ok().expect(rt, "memory");
    let second = second.as_str();
    let due = format!(in alloc;
        "[Board \"1\"]\n[Deal \"N:{DEAL}\"]\n{TAGS}[Scoring \"MP\"]\n\n[Board \"2\"]\n[Deal \"N:{DEAL}\"]\n{second}"
    );
    due.ok().expect(rt, "memory")
}

/// Fails where a text is not refused with this fault.
fn expect_refused(rt: &impl Abort, alloc: Global, text: &str, line: u32, cause: DealsRefused) {
    let found = read_deals(alloc, text.as_bytes()).err();
    expect_eq(rt, found, Some(DealsFault::Line(line, cause)), text);
}

#[test]
fn texts_that_are_refused(rt: HostRuntime) -> Result<(), AllocError> {
    let alloc = rt.alloc();
    expect_refused(&rt, alloc, "\n[Board \"37\"]\n", 2, DealsRefused::Board);
    expect_refused(&rt, alloc, "[Board \"01\"]\n", 1, DealsRefused::Board);
    expect_refused(&rt, alloc, "[Board \"1\"] x", 1, DealsRefused::Board);
    expect_refused(
        &rt,
        alloc,
        "[Board \"1\"]\n[Dealer \"n\"]\n",
        2,
        DealsRefused::Dealer,
    );
    expect_refused(
        &rt,
        alloc,
        "[Vulnerable \"Ns\"]\n",
        1,
        DealsRefused::Vulnerable,
    );
    expect_refused(&rt, alloc, "DEAL 52817", 1, DealsRefused::Board);
    expect_refused(&rt, alloc, "DEAL 52817 37 N:", 1, DealsRefused::Board);
    expect_refused(&rt, alloc, "DEAL 52817 3 ", 1, DealsRefused::Deal);
    let no_board = format!(in alloc; "[Dealer \"N\"]\n[Deal \"N:{DEAL}\"]\n")?;
    expect_refused(&rt, alloc, no_board.as_str(), 2, DealsRefused::NoBoard);
    let short = format!(in alloc; "[Board \"1\"]\r\n[Deal \"N:{DEAL}2\"]\r\n")?;
    expect_refused(&rt, alloc, short.as_str(), 2, DealsRefused::Deal);
    Ok(())
}

// The second board and the director's third have no tags of their own: East deals the second, where North and South are
// vulnerable, and South the third, where East and West are (Law 2).
#[test]
fn tags_of_an_earlier_board_do_not_last(rt: HostRuntime) -> Result<(), AllocError> {
    let alloc = rt.alloc();
    let text = format!(in alloc;
        "[Board \"1\"]\n[Dealer \"W\"]\n[Vulnerable \"Both\"]\n[Deal \"N:{DEAL}\"]\n[Board \"2\"]\n[Deal \"E:{DEAL}\"]\nDEAL 52817 3 N:{DEAL}"
    )?;
    expect_boards(&rt, alloc, text.as_str());
    Ok(())
}

/// The number, the dealer and who is vulnerable of each board.
static BOARDS: [(u8, Seat, Vulnerability); 3] = [
    (1, Seat::West, Vulnerability::Both),
    (2, Seat::East, Vulnerability::NorthSouth),
    (3, Seat::South, Vulnerability::EastWest),
];

/// Fails where a text has other boards.
fn expect_boards(rt: &impl Abort, alloc: Global, text: &str) {
    let deals = read_deals(alloc, text.as_bytes());
    let deals = deals.ok().expect(rt, "deals");
    expect_eq(rt, deals.len(), 3, "boards");
    for (index, due) in BOARDS.iter().enumerate() {
        let deal = deals.get(index).expect(rt, "a board");
        let found = (deal.board.number(), deal.dealer, deal.vulnerability);
        expect_eq(rt, found, *due, index);
    }
}

/// A reader that gives one line, and then fails.
#[derive(Drop)]
struct Broken {
    given: bool,
}

impl Read for Broken {
    fn read(&mut self, bytes: &mut [u8]) -> io::Result<usize> {
        if self.given || bytes.is_empty() {
            return Err(Error::from(ErrorKind::BrokenPipe));
        }
        self.given = true;
        bytes[0] = b'\n';
        Ok(1)
    }
}

#[test]
fn a_read_that_fails(rt: HostRuntime) {
    let mut written = Vec::<u8>::new(rt.alloc());
    let mut broken = Broken { given: false };
    let made = makeable_of_reader(
        rt.alloc(),
        MakeableForm::Games,
        Progress::silent(),
        &mut broken,
        &mut written,
    );
    expect_eq(&rt, made, Err(MakeableFault::Read), "made");
    expect_eq(&rt, written.len(), 0, "written");
}
