//! The command `plan` with a list of names: the evening that a configuration plans, with these names in place of its own.
ghost use Rattle.std.specs.Prelude.{Some};
ghost use Rattle.line_text.specs.Streams.{stream};
ghost use Rattle.evening_commands.specs.TextFile.{OfReader, OfFound, OfFile};
ghost use Rattle.evening_commands.specs.Plans.{WritesPlan, PlansWith, Plans};
ghost use Rattle.evening_commands.specs.NamesView.{list_seen};

use crate::fault::EveningFault;
use crate::names_file::{Names, names_of_file};
use crate::slipping::write_refusal;
use crate::stopping::stop;
use crate::text_file::{NoRead, Text, read_text};
use bridge_config::{Config, read_config};
use evening_plan::write_plan_with;
use std::fs::File;
use std::io::{self, Read, Write};
use std::rt::Files;

/// Writes the evening that a configuration plans, with the names of a list; or what is wrong with that.
fn write_named<W: Write>(
    config: &Config,
    found: Result<Names, EveningFault>,
    output: &mut W,
) -> Result<(), EveningFault>
    ensures { WritesPlan config.now (stream W.contents output.old output.new) result (list_seen found) }
{
    match found {
        Ok(names) => {
            write_plan_with(config, Some(names.as_slice()), output).or(Err(EveningFault::Write))
        }
        Err(fault) => stop(fault, output),
    }
}

/// Writes the evening that a configuration plans, with the names of the list in a file; or what is wrong with that.
fn plan_of_config<S: Files<File = File>, W: Write>(
    rt: &S,
    names: &str,
    config: &Config,
    output: &mut W,
) -> Result<(), EveningFault>
    ensures { PlansWith (stream W.contents output.old output.new) result config.now }
{
    let pairs = config.fields().pairs.len();
    write_named(config, names_of_file(rt, names, pairs), output)
}

/// The same of the configuration that a text spells; or what is wrong with it, which is the fault then.
fn plan_of_text<S: Files<File = File>, W: Write>(
    rt: &S,
    names: &str,
    text: &[u8],
    output: &mut W,
) -> Result<(), EveningFault>
    ensures { Plans (stream W.contents output.old output.new) result (Some text.now) }
{
    match read_config(text) {
        Ok(config) => plan_of_config(rt, names, &config, output),
        Err(fault) => {
            write_refusal(text, fault, output)?;
            Err(EveningFault::Config(fault))
        }
    }
}

/// The same of the configuration that the reader gives.
fn plan_read<S: Files<File = File>, R: Read, W: Write>(
    rt: &S,
    names: &str,
    reader: &mut R,
    output: &mut W,
) -> Result<(), EveningFault>
    ensures { OfReader (Plans (stream W.contents output.old output.new) result) (stream R.remaining reader.old reader.new) }
{
    let mut text = Text::new();
    match read_text(reader, &mut text) {
        Ok(()) => plan_of_text(rt, names, text.as_slice(), output),
        Err(NoRead) => Err(EveningFault::Read),
    }
}

/// The same of a file, where one was found; otherwise the fault is that of a read. What was found is handed in, since only so a
/// clause can say what comes of it.
fn plan_found<S: Files<File = File>, R: Read + Drop, W: Write>(
    rt: &S,
    names: &str,
    found: io::Result<R>,
    output: &mut W,
) -> Result<(), EveningFault>
    ensures { OfFound R.remaining (Plans (stream W.contents output.old output.new) result) found }
{
    match found {
        Ok(mut file) => plan_read(rt, names, &mut file, output),
        Err(_) => Err(EveningFault::Read),
    }
}

/// Writes the evening that the configuration in a file plans, with the names of the list in another; or what is wrong, which is
/// the fault then: with the configuration, or with the list. A file that cannot be opened counts as one that cannot be read.
pub fn run_named_plan<S: Files<File = File>, W: Write>(
    rt: &S,
    config: &str,
    names: &str,
    output: &mut W,
) -> Result<(), EveningFault>
    ensures { OfFile (Plans (stream W.contents output.old output.new) result) }
{
    plan_found(rt, names, File::open(rt, config), output)
}
