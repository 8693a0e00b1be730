//! What the words after the program's name ask for.
use arrayvec::ArrayVec;
use bridge_cards::BoardNumber;

/// The most disks that a command reads as sections of one event.
pub const MOST_DISKS: usize = 40;

/// The names of the files of several disks, in the order in which they are given.
pub type DiskNames<'a> = ArrayVec<&'a str, MOST_DISKS>;

/// What page of results is asked for.
#[derive(Clone, Copy)]
pub struct PageAsked {
    /// Whether `--html` is among the words: it is of HTML, and not of plain text.
    pub html: bool,
    /// Whether `--no-analysis` is: it has no word of what could be made on a board.
    pub no_analysis: bool,
}

/// A command with its words.
#[derive(Drop)]
pub enum Command<'a> {
    /// `auction BOARD`: one board's auction, from standard input.
    Auction(BoardNumber),
    /// `format DISK CONFIG`: a new disk for the session that begins by the configuration in a file.
    Format {
        /// DISK, the name of the disk's file.
        disk: &'a str,
        /// CONFIG, the name of the configuration's file.
        config: &'a str,
    },
    /// `script DISK`: lines from standard input, served over the session that a disk holds.
    Script {
        /// DISK, the name of the disk's file.
        disk: &'a str,
    },
    /// `correct DISK`: corrections of the director from standard input, served likewise.
    Correct {
        /// DISK, the name of the disk's file.
        disk: &'a str,
    },
    /// `serve DISK PORT COUNT`: so many connections at a port, served one after the other over the session that a disk
    /// holds.
    Serve {
        /// DISK, the name of the disk's file.
        disk: &'a str,
        /// PORT, from 1 to 65535.
        port: u16,
        /// COUNT, from 1 to 1000.
        count: u16,
    },
    /// `web DISK PORT MINUTES [--address IP] [--name HOST] [--open-boards] [--names NAMES] [--copy DISK2]`: pages for browsers,
    /// for so many minutes, over the session that a disk holds, or that two do.
    Web {
        /// DISK, the name of the disk's file.
        disk: &'a str,
        /// What is shown there.
        pages: WebWords<'a>,
    },
    /// `rank DISK`: the ranking of each field of the session that a disk holds.
    Rank {
        /// DISK, the name of the disk's file.
        disk: &'a str,
    },
    /// `pbn DISK`: the results of the session that a disk holds, in Portable Bridge Notation.
    Pbn {
        /// DISK, the name of the disk's file.
        disk: &'a str,
    },
    /// `results DISK [--html] [--no-analysis] [--names NAMES]`: the results of the session that a disk holds, as a page of text, or
    /// with `--html` of HTML.
    Results {
        /// DISK, the name of the disk's file.
        disk: &'a str,
        /// What page.
        page: PageAsked,
        /// The file with the names as people write them, in place of the configuration's names.
        names: Option<&'a str>,
    },
    /// `check DISK`: what a disk holds, in words, or where it is damaged and what its older snapshot holds; or
    /// `check DISK DISK2`: what each of two disks holds, and how they stand to each other.
    Check {
        /// DISK, the name of the disk's file.
        disk: &'a str,
        /// DISK2, the name of the second disk's file.
        copy: Option<&'a str>,
    },
    /// `plan CONFIG [--names NAMES]`: the evening that the configuration in a file plans, in words, or what is wrong with it.
    Plan {
        /// CONFIG, the name of the configuration's file.
        config: &'a str,
        /// The file with the names as people write them, in place of the configuration's names.
        names: Option<&'a str>,
    },
    /// `draft NAMES [--movement mitchell|howell] [--boards N] [--scoring mp|imp] [--event TEXT] [--site TEXT] [--date DATE]
    /// [--seed HEX]`: the configuration of an evening for the pairs in a list of names.
    Draft {
        /// NAMES, the name of the list's file.
        names: &'a str,
        /// What is wished of the evening.
        wishes: DraftWords<'a>,
    },
    /// `slips CONFIG [--names NAMES] [--address URL] [--text]`: a slip to cut out for the director and each player.
    Slips {
        /// CONFIG, the name of the configuration's file.
        config: &'a str,
        /// How slips are written.
        slips: SlipWords<'a>,
    },
    /// `evening NAMES DISK PORT MINUTES` with the options of `draft` and `web`: pages for browsers over the session that a disk
    /// holds, and where it holds none over that of an evening that is made for the pairs in a list of names.
    Evening(EveningWords<'a>),
    /// `makeable FILE`: what each deal of a text in Portable Bridge Notation could make, and its par, as lines of numbers or with
    /// `--pbn` as tags in the text.
    Makeable {
        /// FILE, the name of the text's file.
        file: &'a str,
        /// Whether `--pbn` is among the words.
        pbn: bool,
    },
    /// `export DISK [--csv|--json|--pbn] [--rankings] [--no-analysis]`: the results of the session that a disk holds, for other
    /// programs.
    Export {
        /// DISK, the name of the disk's file.
        disk: &'a str,
        /// What is printed.
        asked: ExportAsked,
    },
    /// `results DISK DISK ..` without a list of names, or `export DISK DISK ..`: the same of the sessions that two to 40 disks hold, as the
    /// sections of one event.
    Event {
        /// The names of the disks' files, in the order of the sections.
        disks: DiskNames<'a>,
        /// What is printed.
        asked: EventAsked,
    },
    /// `copy DISK DISK2`: a new disk for the session that a disk holds.
    Copy {
        /// DISK, the name of the disk's file.
        disk: &'a str,
        /// DISK2, the name of the new disk's file.
        copy: &'a str,
    },
    /// `version`: the program's name, its version, and the kit that proved it.
    Version,
}

/// What `export` prints.
#[derive(Clone, Copy)]
pub enum ExportAsked {
    /// The plays as comma-separated values; `--csv` may be among the words.
    Plays,
    /// With `--rankings`: the rankings as such values, likewise.
    Rankings,
    /// With `--json`: all results as one object.
    Object,
    /// With `--pbn`: a game in Portable Bridge Notation for each board.
    Games {
        /// Whether `--no-analysis` is among the words: they have no word of what could be made on a board.
        no_analysis: bool,
    },
}

/// What is printed of several sections.
#[derive(Clone, Copy)]
pub enum EventAsked {
    /// Their results as a page.
    Page(PageAsked),
    /// Their results for other programs.
    Export(ExportAsked),
}

/// Where the pages of `web` are shown, by which name, and how they begin.
#[derive(Clone, Copy)]
pub struct WebHost<'a> {
    /// The port to listen at.
    pub port: u16,
    /// The IPv4 address to listen at, in place of 127.0.0.1. It may be no address.
    pub address: Option<&'a str>,
    /// The host's name as browsers write it, in place of the address. It may be no name.
    pub name: Option<&'a str>,
    /// Whether players are told of other tables from the start.
    pub open_boards: bool,
}

/// What the command `web` shows over a disk.
#[derive(Clone, Copy)]
pub struct WebWords<'a> {
    /// Where the pages are shown.
    pub host: WebHost<'a>,
    /// MINUTES, from 1 to 1440.
    pub minutes: u16,
    /// The file with the names as people write them, in place of the configuration's names.
    pub names: Option<&'a str>,
    /// DISK2, the name of the file of a second disk that keeps the same session.
    pub copy: Option<&'a str>,
}

/// What is wished of an evening.
#[derive(Clone, Copy)]
pub struct DraftWords<'a> {
    /// The name of the movement that is played, in place of the one that suits the number of pairs. It may be no name.
    pub movement: Option<&'a str>,
    /// How many boards each pair is to play, about: from 1 to 36.
    pub boards: u8,
    /// The name of how scores are compared. It may be no name.
    pub scoring: &'a str,
    /// The name of the event. It may be no name.
    pub event: &'a str,
    /// The name of the site, likewise.
    pub site: &'a str,
    /// The date, in place of today's. It may be no date.
    pub date: Option<&'a str>,
    /// What keys are drawn from, in place of random bytes. It may be no seed.
    pub seed: Option<&'a str>,
}

/// How slips are written.
#[derive(Clone, Copy)]
pub struct SlipWords<'a> {
    /// The file with the names as people write them, in place of the configuration's names.
    pub names: Option<&'a str>,
    /// Where the pages are.
    pub address: Option<&'a str>,
    /// Whether `--text` is among the words.
    pub text: bool,
}

/// What the command `evening` is given.
#[derive(Clone, Copy)]
pub struct EveningWords<'a> {
    /// NAMES, the name of the list's file.
    pub names: &'a str,
    /// DISK, the name of the disk's file.
    pub disk: &'a str,
    /// What is wished of the evening.
    pub wishes: DraftWords<'a>,
    /// Where the pages are shown.
    pub host: WebHost<'a>,
    /// MINUTES, from 1 to 1440.
    pub minutes: u16,
}

/// Why the words ask for no command.
#[derive(Drop)]
pub enum WordsFault {
    /// The words are no command, or call for help: clap's error, with the text to show.
    Usage(clap::Error),
    /// Memory was refused.
    Memory,
}
