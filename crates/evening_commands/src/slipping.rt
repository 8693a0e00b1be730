//! The command `slips`: a slip to cut out for the director and for each player.
ghost use Rattle.std.specs.Prelude.{◌≡◌, ◌↔◌, Some, IsTrue};
ghost use Rattle.line_text.specs.Streams.{stream};
ghost use Rattle.evening_commands.specs.TextFile.{OfReader, OfFound, OfFile};
ghost use Rattle.evening_commands.specs.Evenings.{slip_format, IsLongAddress, WritesSlips, WritesNamed, SlipsOf, Slips};
ghost use Rattle.evening_commands.specs.Fault.{Writes};
ghost use Rattle.evening_commands.specs.NamesView.{list_seen};
ghost use Rattle.evening_plan.specs.FaultText.{fault_text};

use crate::fault::EveningFault;
use crate::names_file::{Names, names_of_file};
use crate::stopping::stop;
use crate::text_file::{NoRead, Text, read_text};
use bridge_config::{Config, ConfigFault, read_config};
use command_line::SlipWords;
use evening_draft::PairNames;
use evening_plan::write_fault;
use evening_slips::{ADDRESS_BYTES, SlipSheet, write_slips};
use page_layout::Format;
use std::fs::File;
use std::io::{self, Read, Write};
use std::rt::Files;

/// The page that `--text` asks for, and that without it.
fn slip_format(text: bool) -> Format
    ensures { result ≡ slip_format text }
{
    if text { Format::Plain } else { Format::Html }
}

/// Writes the slips of a configuration, with these names or its own.
fn write_with<W: Write>(
    words: &SlipWords<'_>,
    config: &Config,
    names: Option<&[PairNames]>,
    output: &mut W,
) -> Result<(), EveningFault>
    requires { ¬ IsLongAddress words.now }
    ensures { WritesSlips words.now config.now (stream W.contents output.old output.new) result names.entry }
{
    let sheet = SlipSheet {
        format: slip_format(words.text),
        address: words.address,
    };
    write_slips(config, names, &sheet, output).or(Err(EveningFault::Write))
}

/// Writes the slips of a configuration with the names of a list; or what is wrong with that.
fn write_named<W: Write>(
    words: &SlipWords<'_>,
    config: &Config,
    found: Result<Names, EveningFault>,
    output: &mut W,
) -> Result<(), EveningFault>
    requires { ¬ IsLongAddress words.now }
    ensures { WritesNamed words.now config.now (stream W.contents output.old output.new) result (list_seen found) }
{
    match found {
        Ok(names) => write_with(words, config, Some(names.as_slice()), output),
        Err(fault) => stop(fault, output),
    }
}

/// Whether the address is longer than there may be.
fn has_long_address(words: &SlipWords<'_>) -> bool
    ensures { IsTrue result ↔ IsLongAddress words.now }
{
    words
        .address
        .is_some_and(|address| address.len() > ADDRESS_BYTES)
}

/// Writes the slips of a configuration; or that the address is too long, or what is wrong with the list of names.
fn slips_of_config<S: Files<File = File>, W: Write>(
    rt: &S,
    words: &SlipWords<'_>,
    config: &Config,
    output: &mut W,
) -> Result<(), EveningFault>
    ensures { SlipsOf words.now (stream W.contents output.old output.new) result config.now }
{
    if has_long_address(words) {
        return stop(EveningFault::Address, output);
    }
    match words.names {
        None => write_with(words, config, None, output),
        Some(names) => {
            let pairs = config.fields().pairs.len();
            write_named(words, config, names_of_file(rt, names, pairs), output)
        }
    }
}

/// Writes what is wrong with a text of that fault.
pub(crate) fn write_refusal<W: Write>(
    text: &[u8],
    fault: ConfigFault,
    output: &mut W,
) -> Result<(), EveningFault>
    ensures { Writes (stream W.contents output.old output.new) (fault_text text.now fault) result }
{
    write_fault(text, fault, output).or(Err(EveningFault::Write))
}

/// Writes the slips of the configuration that a text spells; or what is wrong with it, which is the fault then.
fn slips_of_text<S: Files<File = File>, W: Write>(
    rt: &S,
    words: &SlipWords<'_>,
    text: &[u8],
    output: &mut W,
) -> Result<(), EveningFault>
    ensures { Slips words.now (stream W.contents output.old output.new) result (Some text.now) }
{
    match read_config(text) {
        Ok(config) => slips_of_config(rt, words, &config, output),
        Err(fault) => {
            write_refusal(text, fault, output)?;
            Err(EveningFault::Config(fault))
        }
    }
}

/// The same of the configuration that the reader gives.
fn slips_read<S: Files<File = File>, R: Read, W: Write>(
    rt: &S,
    words: &SlipWords<'_>,
    reader: &mut R,
    output: &mut W,
) -> Result<(), EveningFault>
    ensures { OfReader (Slips words.now (stream W.contents output.old output.new) result) (stream R.remaining reader.old reader.new) }
{
    let mut text = Text::new();
    match read_text(reader, &mut text) {
        Ok(()) => slips_of_text(rt, words, text.as_slice(), output),
        Err(NoRead) => Err(EveningFault::Read),
    }
}

/// The same of a file, where one was found; otherwise the fault is that of a read. What was found is handed in, since only so a
/// clause can say what comes of it.
fn slips_found<S: Files<File = File>, R: Read + Drop, W: Write>(
    rt: &S,
    words: &SlipWords<'_>,
    found: io::Result<R>,
    output: &mut W,
) -> Result<(), EveningFault>
    ensures { OfFound R.remaining (Slips words.now (stream W.contents output.old output.new) result) found }
{
    match found {
        Ok(mut file) => slips_read(rt, words, &mut file, output),
        Err(_) => Err(EveningFault::Read),
    }
}

/// Writes the slips of the configuration in a file; or what is wrong, which is the fault then: with the configuration, with the
/// address, or with the list of names. A file that cannot be opened counts as one that cannot be read.
pub fn run_slips<S: Files<File = File>, W: Write>(
    rt: &S,
    config: &str,
    words: &SlipWords<'_>,
    output: &mut W,
) -> Result<(), EveningFault>
    ensures { OfFile (Slips words.now (stream W.contents output.old output.new) result) }
{
    slips_found(rt, words, File::open(rt, config), output)
}
