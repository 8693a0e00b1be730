//! The server of a duplicate bridge club.
//!
//! ```sh
//! bridge_club auction 1 < examples/auction.txt
//! bridge_club plan examples/mitchell.txt
//! bridge_club format club.disk examples/mitchell.txt
//! bridge_club script club.disk < lines.txt
//! bridge_club serve club.disk 4000 12
//! bridge_club web club.disk 4000 180
//! bridge_club rank club.disk
//! bridge_club pbn club.disk
//! bridge_club results club.disk --html
//! bridge_club check club.disk
//! bridge_club version
//! ```
#![tactic(auto)]

ghost use Rattle.std.specs.Prelude.{◌≡◌, ◌⊎◌};
ghost use Rattle.line_text.specs.Streams.{stream};
ghost use Rattle.bridge_club.specs.Texts.{AreClubTexts, OfClub};
ghost use Rattle.club_commands.specs.Run.{HasRun, HasFailed, IsUsage};

use club_commands::{Alarm, run_words_with, status_of};
use page_assets::{
    BOARDS_SCRIPT, DESK_SCRIPT, DIRECTOR_SCRIPT, PAGE, SHARED_SCRIPT, STYLE, TABLE_SCRIPT,
    TEXTS_SCRIPT, UNKNOWN_PAGE, WRONG_HOST,
};
use std::alloc::Global;
use std::fs::File;
use std::io::{Read, Write};
use std::net::{Net, TcpListener, TcpStream};
use std::process::ExitCode;
use std::random::RandomSource;
use std::rt::Files;
use std::time::Clock;
use std::{env, io};
use table_pages::PageTexts;

/// The texts of the pages that `web` shows.
fn club_texts() -> PageTexts
    ensures { AreClubTexts result }
{
    PageTexts {
        page: PAGE,
        style: STYLE,
        texts_script: TEXTS_SCRIPT,
        shared_script: SHARED_SCRIPT,
        table_script: TABLE_SCRIPT,
        boards_script: BOARDS_SCRIPT,
        desk_script: DESK_SCRIPT,
        director_script: DIRECTOR_SCRIPT,
        unknown_page: UNKNOWN_PAGE,
        wrong_host: WRONG_HOST,
    }
}

fn main(rt: HostRuntime) -> ExitCode {
    let outcome = run_with(&rt).map_err(|error| error.kind());
    ExitCode::from(status_of(outcome, &mut rt.stderr()))
}

/// Runs the command that the words after the program's name ask for, and answers the exit status, as `run_words_with` does
/// with the program's pages.
fn run_words<
    S: Files<File = File>
        + Net<Listener = TcpListener, Stream = TcpStream>
        + Clock
        + RandomSource
        + Alarm,
    R: Read,
    W: Write,
    E: Write,
>(rt: &S, alloc: Global, words: &[&str], input: &mut R, output: &mut W, errors: &mut E) -> u8
    ensures done { result ≡ 0 → OfClub (HasRun words.entry.now (stream R.remaining input.old input.new)
        (stream W.contents output.old output.new) (stream E.contents errors.old errors.new) 0) }
    ensures usage { result ≡ 2 → IsUsage words.entry.now (stream R.remaining input.old input.new)
        (stream W.contents output.old output.new) }
    ensures fault { result ≡ 3 → OfClub (HasFailed words.entry.now (stream R.remaining input.old input.new)
        (stream W.contents output.old output.new) (stream E.contents errors.old errors.new)) }
    ensures no_session { result ≡ 4 → OfClub (HasRun words.entry.now (stream R.remaining input.old input.new)
        (stream W.contents output.old output.new) (stream E.contents errors.old errors.new) 4) }
    ensures status { (result ≡ 0) ⊎ ((result ≡ 2) ⊎ ((result ≡ 3) ⊎ (result ≡ 4))) }
{
    run_words_with(rt, alloc, club_texts(), words, input, output, errors)
}

/// Hands the program's words and its standard streams to `run_words`.
fn run_with(rt: &HostRuntime) -> Result<u8, io::Error> {
    let _nulls = taken_streams(rt)?;
    let arguments: Vec<String> = env::args(rt)?.skip(1).collect(rt.alloc())?;
    let mut words = Vec::new(rt.alloc());
    for argument in &arguments {
        words.push(argument.as_str())?;
    }
    Ok(run_words(
        rt,
        rt.alloc(),
        words.as_slice(),
        &mut rt.stdin(),
        &mut rt.stdout(),
        &mut rt.stderr(),
    ))
}

/// Takes the numbers of the standard streams with which the program was not started. The system gives a file the lowest
/// number that is free, so a disk would otherwise take the place of a stream, and replies would be written over it. There
/// is nothing to be read from the null device, and it is opened so that nothing can be written to it.
fn taken_streams(rt: &HostRuntime) -> Result<[File; 3], io::Error> {
    let path = "/dev/null";
    Ok([
        File::open(rt, path)?,
        File::open(rt, path)?,
        File::open(rt, path)?,
    ])
}
