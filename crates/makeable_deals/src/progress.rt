//! How far a work of minutes has come: a line on standard error, where that is a terminal. No clause speaks of what standard error
//! takes.
ghost use Rattle.std.specs.Prelude.{◌≡◌, ◌≤◌, length};
ghost use Rattle.makeable_deals.specs.Progress.{part_text, progress_text};

use arrayvec::ArrayString;
use line_text::number_text;
use std::io::{Eprint, IsTerminal, Stderr};

/// What is worked on, one after another.
#[derive(Clone, Copy, Debug, PartialEq, Eq)]
pub enum Part {
    /// Boards.
    Board,
    /// Plays of boards.
    Play,
}

/// Who is told of what is worked on.
#[derive(Clone, Copy)]
pub struct Progress {
    /// The terminal that is told, if one is.
    terminal: Option<Stderr>,
    /// What is worked on.
    part: Part,
    /// Its number, counted from 1.
    number: u32,
    /// How many there are.
    count: u32,
}

/// What stands before the number, behind what begins the line anew.
fn part_text(part: Part) -> &'static str
    ensures text { result.now ≡ part_text part }
    ensures short { length result.now ≤ 7 }
{
    match part {
        Part::Board => "\rboard ",
        Part::Play => "\rplay ",
    }
}

/// The line of a board or a play, which is written over that of the one before.
fn progress_text(part: Part, number: u32, count: u32) -> ArrayString<40>
    ensures { result.bytes ≡ progress_text part number count }
{
    let mut text = ArrayString::new();
    text.push_str(part_text(part));
    text.push_str(number_text(number).as_str());
    text.push_str(" of ");
    text.push_str(number_text(count).as_str());
    text
}

impl Progress {
    /// Nobody is told.
    pub fn silent() -> Progress {
        Progress {
            terminal: None,
            part: Part::Board,
            number: 0,
            count: 0,
        }
    }

    /// Standard error is told, where it is a terminal.
    pub fn on(errors: Stderr) -> Progress {
        let mut progress = Progress::silent();
        if errors.is_terminal() {
            progress.terminal = Some(errors);
        }
        progress
    }

    /// There are so many boards, or plays.
    pub fn begin(&mut self, part: Part, count: usize) {
        self.part = part;
        self.number = 0;
        self.count = u32::try_from(count).unwrap_or(u32::MAX);
    }

    /// The next one is begun.
    pub fn next(&mut self) {
        self.number = self.number.saturating_add(1);
        if let Some(errors) = self.terminal {
            let _ = errors.eprint(progress_text(self.part, self.number, self.count).as_str());
        }
    }

    /// The last one is done, or the work has stopped.
    pub fn end(&self) {
        if let Some(errors) = self.terminal {
            let _ = errors.eprint("\n");
        }
    }
}
