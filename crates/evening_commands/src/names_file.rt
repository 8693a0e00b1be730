//! The pairs of a list of names.
ghost use Rattle.std.specs.Prelude.{Some};
ghost use Rattle.line_text.specs.Streams.{stream};
ghost use Rattle.evening_commands.specs.TextFile.{OfReader, OfFound, OfFile};
ghost use Rattle.evening_commands.specs.Evenings.{ReadsList, ListOf, FitsPairs, NamesOf};
ghost use Rattle.evening_commands.specs.NamesView.{list_seen};

use crate::fault::EveningFault;
use crate::text_file::{FILE_BYTES, NoRead, Text, read_text};
use arrayvec::ArrayVec;
use bridge_movement::MOST_PAIRS;
use evening_draft::{PairNames, read_names};
use std::fs::File;
use std::io::{self, Read};
use std::rt::Files;

/// The pairs of a list.
pub type Names = ArrayVec<PairNames, MOST_PAIRS>;

/// The pairs of a list's text. One that is longer than 16,384 bytes is refused as that.
pub fn read_list(text: &[u8]) -> Result<Names, EveningFault>
    ensures { ReadsList text.now (list_seen result) }
{
    if text.len() >= FILE_BYTES {
        return Err(EveningFault::LongList);
    }
    match read_names(text) {
        Ok(names) => Ok(names),
        Err(fault) => Err(EveningFault::Names(fault)),
    }
}

/// The list, where it has so many pairs.
fn fitting(found: Result<Names, EveningFault>, pairs: usize) -> Result<Names, EveningFault>
    ensures { FitsPairs pairs (list_seen found) (list_seen result) }
{
    let names = found?;
    if names.len() == pairs {
        Ok(names)
    } else {
        Err(EveningFault::OtherPairs)
    }
}

/// The names of so many pairs that a text has.
fn names_of_text(text: &[u8], pairs: usize) -> Result<Names, EveningFault>
    ensures { NamesOf pairs (list_seen result) (Some text.now) }
{
    fitting(read_list(text), pairs)
}

/// The names of so many pairs that a reader gives.
fn names_read<R: Read>(reader: &mut R, pairs: usize) -> Result<Names, EveningFault>
    ensures { OfReader (NamesOf pairs (list_seen result)) (stream R.remaining reader.old reader.new) }
{
    let mut text = Text::new();
    match read_text(reader, &mut text) {
        Ok(()) => names_of_text(text.as_slice(), pairs),
        Err(NoRead) => Err(EveningFault::Read),
    }
}

/// The same of a file, where one was found; otherwise the fault is that of a read. What was found is handed in, since only so a
/// clause can say what comes of it.
fn names_found<R: Read + Drop>(found: io::Result<R>, pairs: usize) -> Result<Names, EveningFault>
    ensures { OfFound R.remaining (NamesOf pairs (list_seen result)) found }
{
    match found {
        Ok(mut file) => names_read(&mut file, pairs),
        Err(_) => Err(EveningFault::Read),
    }
}

/// The names of so many pairs in a file. One that cannot be opened counts as one that cannot be read.
pub fn names_of_file<S: Files<File = File>>(
    rt: &S,
    names: &str,
    pairs: usize,
) -> Result<Names, EveningFault>
    ensures { OfFile (NamesOf pairs (list_seen result)) }
{
    names_found(File::open(rt, names), pairs)
}

/// The pairs of the list that a reader gives.
fn list_read<R: Read>(reader: &mut R) -> Result<Names, EveningFault>
    ensures { OfReader (ListOf (list_seen result)) (stream R.remaining reader.old reader.new) }
{
    let mut text = Text::new();
    match read_text(reader, &mut text) {
        Ok(()) => read_list(text.as_slice()),
        Err(NoRead) => Err(EveningFault::Read),
    }
}

/// The same of a file, where one was found; otherwise the fault is that of a read.
fn list_found<R: Read + Drop>(found: io::Result<R>) -> Result<Names, EveningFault>
    ensures { OfFound R.remaining (ListOf (list_seen result)) found }
{
    match found {
        Ok(mut file) => list_read(&mut file),
        Err(_) => Err(EveningFault::Read),
    }
}

/// The pairs of the list in a file. One that cannot be opened counts as one that cannot be read.
pub fn list_of_file<S: Files<File = File>>(rt: &S, names: &str) -> Result<Names, EveningFault>
    ensures { OfFile (ListOf (list_seen result)) }
{
    list_found(File::open(rt, names))
}
