//! What the command `evening` makes of a list of names: the evening in memory, and the texts of its files.
ghost use Rattle.std.specs.Prelude.{◌≤◌, Some, length, IfOk};
ghost use Rattle.line_text.specs.Streams.{stream};
ghost use Rattle.evening_commands.specs.TextFile.{OfReader, OfFound, OfFile};
ghost use Rattle.evening_commands.specs.Fault.{StopsBy, fault_words};
ghost use Rattle.evening_commands.specs.Making.{HoldsMade, HoldsList, HoldsEvening, MakesEvening, IntoFound, WritesSlipsAt};
ghost use Rattle.evening_commands.specs.Evenings.{WritesConfig};
ghost use Rattle.evening_commands.specs.NamesView.{list_seen};

use crate::drafting::{Giver, evening_for, write_drafted};
use crate::fault::EveningFault;
use crate::names_file::{Names, read_list};
use crate::stopping::stop;
use crate::text_file::{NoRead, Text, read_text};
use bridge_config::Config;
use command_line::DraftWords;
use evening_draft::PairNames;
use evening_slips::{ADDRESS_BYTES, SlipSheet, write_slips};
use page_layout::Format;
use std::fs::File;
use std::io::{self, Read, Write};
use std::rt::Files;

/// An evening that is made of a list of names.
#[derive(Drop)]
pub struct MadeEvening {
    /// The pairs of the list.
    pub names: Names,
    /// The configuration that is made for them.
    pub config: Config,
}

/// Says what is wrong, and answers the fault: that, or that a write failed.
fn stopped<W: Write>(fault: EveningFault, output: &mut W) -> EveningFault
    ensures { StopsBy (stream W.contents output.old output.new) (fault_words fault) fault result }
{
    match stop(fault, output) {
        Ok(()) => fault,
        Err(stopped) => stopped,
    }
}

/// The evening of the pairs and the configuration that was made for them; or what is wrong is written, and is the fault.
fn evening_made<W: Write>(
    names: Names,
    made: Result<Config, EveningFault>,
    output: &mut W,
) -> Result<MadeEvening, EveningFault>
    ensures { HoldsMade names.items (stream W.contents output.old output.new) result made }
{
    match made {
        Ok(config) => Ok(MadeEvening { names, config }),
        Err(fault) => Err(stopped(fault, output)),
    }
}

/// The evening of the pairs of a list; or what is wrong is written, and is the fault.
fn evening_of_list<S: Giver, W: Write>(
    rt: &S,
    words: &DraftWords<'_>,
    found: Result<Names, EveningFault>,
    output: &mut W,
) -> Result<MadeEvening, EveningFault>
    ensures { HoldsList words.now (stream W.contents output.old output.new) result (list_seen found) }
{
    match found {
        Ok(names) => {
            let made = evening_for(rt, words, names.as_slice());
            evening_made(names, made, output)
        }
        Err(fault) => Err(stopped(fault, output)),
    }
}

/// The evening of the pairs of a list's text; or what is wrong is written, and is the fault.
fn evening_of_text<S: Giver, W: Write>(
    rt: &S,
    words: &DraftWords<'_>,
    text: &[u8],
    output: &mut W,
) -> Result<MadeEvening, EveningFault>
    ensures { HoldsEvening words.now (stream W.contents output.old output.new) result (Some text.now) }
{
    evening_of_list(rt, words, read_list(text), output)
}

/// The same of the list that the reader gives.
fn evening_read<S: Giver, R: Read, W: Write>(
    rt: &S,
    words: &DraftWords<'_>,
    reader: &mut R,
    output: &mut W,
) -> Result<MadeEvening, EveningFault>
    ensures { OfReader (HoldsEvening words.now (stream W.contents output.old output.new) result)
        (stream R.remaining reader.old reader.new) }
{
    let mut text = Text::new();
    match read_text(reader, &mut text) {
        Ok(()) => evening_of_text(rt, words, text.as_slice(), output),
        Err(NoRead) => Err(EveningFault::Read),
    }
}

/// The same of a file, where one was found; otherwise the fault is that of a read. What was found is handed in, since only so a
/// clause can say what comes of it.
fn evening_found<S: Giver, R: Read + Drop, W: Write>(
    rt: &S,
    words: &DraftWords<'_>,
    found: io::Result<R>,
    output: &mut W,
) -> Result<MadeEvening, EveningFault>
    ensures { OfFound R.remaining (HoldsEvening words.now (stream W.contents output.old output.new) result) found }
{
    match found {
        Ok(mut file) => evening_read(rt, words, &mut file, output),
        Err(_) => Err(EveningFault::Read),
    }
}

/// The same of the list in a file.
fn evening_of_file<S: Giver + Files<File = File>, W: Write>(
    rt: &S,
    names: &str,
    words: &DraftWords<'_>,
    output: &mut W,
) -> Result<MadeEvening, EveningFault>
    ensures { OfFile (HoldsEvening words.now (stream W.contents output.old output.new) result) }
{
    evening_found(rt, words, File::open(rt, names), output)
}

/// The evening of the pairs of the list in a file, whose pages are at that address; or what is wrong is written, and is the
/// fault: the address is longer than slips have room for, or what `draft` refuses. A file that cannot be opened counts as one
/// that cannot be read.
pub fn make_evening<S: Giver + Files<File = File>, W: Write>(
    rt: &S,
    names: &str,
    words: &DraftWords<'_>,
    address: &str,
    output: &mut W,
) -> Result<MadeEvening, EveningFault>
    ensures made { MakesEvening words.now address.now (stream W.contents output.old output.new) result }
    ensures address { IfOk result (λ _. length address.now ≤ 100) }
{
    if address.len() > ADDRESS_BYTES {
        return Err(stopped(EveningFault::Address, output));
    }
    evening_of_file(rt, names, words, output)
}

/// Writes a configuration to the file that was made for it, if one was.
pub fn config_into<W: Write + Drop>(
    config: &Config,
    made: io::Result<W>,
) -> Result<(), EveningFault>
    ensures { IntoFound W.contents (λ file. WritesConfig file config.now) made result }
{
    match made {
        Ok(mut file) => write_drafted(config, &mut file),
        Err(_) => Err(EveningFault::Write),
    }
}

/// Writes the page of slips, with these names and that address.
fn write_slips_at<W: Write>(
    config: &Config,
    names: &[PairNames],
    address: &str,
    output: &mut W,
) -> Result<(), EveningFault>
    requires { length address.now ≤ 100 }
    ensures { WritesSlipsAt config.now names.now address.now (stream W.contents output.old output.new) result }
{
    let sheet = SlipSheet {
        format: Format::Html,
        address: Some(address),
    };
    write_slips(config, Some(names), &sheet, output).or(Err(EveningFault::Write))
}

/// Writes the slips of an evening to the file that was made for them, if one was.
pub fn slips_into<W: Write + Drop>(
    config: &Config,
    names: &[PairNames],
    address: &str,
    made: io::Result<W>,
) -> Result<(), EveningFault>
    requires { length address.now ≤ 100 }
    ensures { IntoFound W.contents (WritesSlipsAt config.now names.now address.now) made result }
{
    match made {
        Ok(mut file) => write_slips_at(config, names, address, &mut file),
        Err(_) => Err(EveningFault::Write),
    }
}
