//! The deals of a file.
ghost use Rattle.line_text.specs.Streams.{stream, Written};
ghost use Rattle.makeable_deals.specs.Making.{text_in, WritesDeals, MakesOf, Makes, OfReader, OfFound, OfFile};

use crate::board_deal::BoardDeal;
use crate::games::write_games;
use crate::progress::Progress;
use crate::read::read_deals;
use crate::refused::DealsFault;
use crate::solved::Solving;
use crate::text::{TEXT_BYTES, read_text};
use crate::write::{WriteFault, write_makeable};
use std::alloc::Global;
use std::fs::File;
use std::io::{self, Read, Write};
use std::rt::Files;

/// Why not all of what deals could make was written.
#[derive(Clone, Copy, Debug, PartialEq, Eq)]
pub enum MakeableFault {
    /// The file cannot be read.
    Read,
    /// A write failed.
    Write,
    /// The text has more than 4,000,000 bytes.
    LongText,
    /// A line of the text, or memory, is refused.
    Deals(DealsFault),
}

/// What is written.
#[derive(Clone, Copy)]
pub enum MakeableForm {
    /// A line for each declarer of each deal, and one for par.
    Lines,
    /// The games of the text, with tags.
    Games,
}

/// Writes what the deals of a text could make, in that form.
fn write_form<W: Write>(
    alloc: Global,
    form: MakeableForm,
    progress: Progress,
    text: &[u8],
    deals: &[BoardDeal],
    output: &mut W,
) -> Result<(), WriteFault>
    ensures { Written (stream W.contents output.old output.new) (text_in form text.now deals.now) result }
{
    let mut work = Solving::of(deals.len(), progress);
    let written = match form {
        MakeableForm::Lines => write_makeable(alloc, deals, &mut work, output),
        MakeableForm::Games => write_games(alloc, text, deals, &mut work, output),
    };
    work.end();
    written
}

/// The same, with the fault of a run.
fn write_deals<W: Write>(
    alloc: Global,
    form: MakeableForm,
    progress: Progress,
    text: &[u8],
    deals: &[BoardDeal],
    output: &mut W,
) -> Result<(), MakeableFault>
    ensures { WritesDeals (stream W.contents output.old output.new) result form text.now deals.now }
{
    match write_form(alloc, form, progress, text, deals, output) {
        Ok(()) => Ok(()),
        Err(WriteFault::Write) => Err(MakeableFault::Write),
        Err(WriteFault::Memory) => Err(MakeableFault::Deals(DealsFault::Memory)),
    }
}

/// Writes what the deals of a text could make.
fn makeable_of_text<W: Write>(
    alloc: Global,
    form: MakeableForm,
    progress: Progress,
    text: &[u8],
    output: &mut W,
) -> Result<(), MakeableFault>
    ensures { MakesOf (stream W.contents output.old output.new) result form text.now }
{
    if text.len() >= TEXT_BYTES {
        return Err(MakeableFault::LongText);
    }
    match read_deals(alloc, text) {
        Ok(deals) => write_deals(alloc, form, progress, text, deals.as_slice(), output),
        Err(fault) => Err(MakeableFault::Deals(fault)),
    }
}

/// The same of the text that the reader gives.
pub fn makeable_of_reader<R: Read, W: Write>(
    alloc: Global,
    form: MakeableForm,
    progress: Progress,
    reader: &mut R,
    output: &mut W,
) -> Result<(), MakeableFault>
    ensures { OfReader (Makes (stream W.contents output.old output.new) result form) (stream R.remaining reader.old reader.new) }
{
    let mut text = Vec::new(alloc);
    read_text(reader, &mut text)?;
    makeable_of_text(alloc, form, progress, text.as_slice(), output)
}

/// The same of a file, where one was found; otherwise the fault is that of a read. What was found is handed in, since only so a
/// clause can say what comes of it.
fn makeable_found<R: Read + Drop, W: Write>(
    alloc: Global,
    form: MakeableForm,
    progress: Progress,
    found: io::Result<R>,
    output: &mut W,
) -> Result<(), MakeableFault>
    ensures { OfFound R.remaining (Makes (stream W.contents output.old output.new) result form) found }
{
    match found {
        Ok(mut file) => makeable_of_reader(alloc, form, progress, &mut file, output),
        Err(_) => Err(MakeableFault::Read),
    }
}

/// Writes what the deals in a file could make, or nothing where a line of it is refused, which is the fault then. A file that
/// cannot be opened counts as one that cannot be read.
pub fn run_makeable<S: Files<File = File>, W: Write>(
    rt: &S,
    alloc: Global,
    form: MakeableForm,
    progress: Progress,
    file: &str,
    output: &mut W,
) -> Result<(), MakeableFault>
    ensures { OfFile (Makes (stream W.contents output.old output.new) result form) }
{
    makeable_found(alloc, form, progress, File::open(rt, file), output)
}
