//! The command `plan`: the evening that a configuration plans, in words, or what is wrong with it. Nothing is made.
ghost use Rattle.std.specs.Prelude.{Some};
ghost use Rattle.line_text.specs.Streams.{stream};
ghost use Rattle.evening_plan.specs.Evening.{evening_of};
ghost use Rattle.evening_plan.specs.PlanText.{plan_text};
ghost use Rattle.evening_plan.specs.FaultText.{fault_text};
ghost use Rattle.club_commands.specs.Ended.{Writes};
ghost use Rattle.club_commands.specs.ConfigFile.{OfReader, OfFound, OfFile, Plans};

use crate::fault::RunFault;
use bridge_config::{Config, ConfigFault, read_config};
use evening_commands::{Text, read_text};
use evening_plan::{write_fault, write_plan};
use std::fs::File;
use std::io::{self, Read, Write};
use std::rt::Files;
use table_server::ServeFault;

/// Writes the evening that a configuration plans.
fn write_evening<W: Write>(config: &Config, output: &mut W) -> Result<(), RunFault>
    ensures { Writes (stream W.contents output.old output.new) (plan_text (evening_of config.now)) result }
{
    write_plan(config, output).or(Err(RunFault::Stream(ServeFault::Write)))
}

/// Writes what is wrong with a text of that fault.
fn write_refusal<W: Write>(text: &[u8], fault: ConfigFault, output: &mut W) -> Result<(), RunFault>
    ensures { Writes (stream W.contents output.old output.new) (fault_text text.now fault) result }
{
    write_fault(text, fault, output).or(Err(RunFault::Stream(ServeFault::Write)))
}

/// Writes the evening that a text plans; or what is wrong with it, which is the fault then.
fn plan_of_text<W: Write>(text: &[u8], output: &mut W) -> Result<(), RunFault>
    ensures { Plans (stream W.contents output.old output.new) result (Some text.now) }
{
    match read_config(text) {
        Ok(config) => write_evening(&config, output),
        Err(fault) => {
            write_refusal(text, fault, output)?;
            Err(RunFault::Config(fault))
        }
    }
}

/// Writes the evening that the configuration plans which the reader gives; or what is wrong with it, which is the fault
/// then.
pub fn plan_evening<R: Read, W: Write>(reader: &mut R, output: &mut W) -> Result<(), RunFault>
    ensures { OfReader (Plans (stream W.contents output.old output.new) result) (stream R.remaining reader.old reader.new) }
{
    let mut text = Text::new();
    read_text(reader, &mut text)?;
    plan_of_text(text.as_slice(), output)
}

/// The same of a file, where one was found; otherwise the fault is that of a read. What was found is handed in, since only so a
/// clause can say what comes of it.
fn plan_found<R: Read + Drop, W: Write>(
    found: io::Result<R>,
    output: &mut W,
) -> Result<(), RunFault>
    ensures { OfFound R.remaining (Plans (stream W.contents output.old output.new) result) found }
{
    match found {
        Ok(mut file) => plan_evening(&mut file, output),
        Err(_) => Err(RunFault::Stream(ServeFault::Read)),
    }
}

/// Writes the evening that the configuration in a file plans; or what is wrong with it, which is the fault then. A file
/// that cannot be opened counts as one that cannot be read.
pub fn run_plan<S: Files<File = File>, W: Write>(
    rt: &S,
    config: &str,
    output: &mut W,
) -> Result<(), RunFault>
    ensures { OfFile (Plans (stream W.contents output.old output.new) result) }
{
    plan_found(File::open(rt, config), output)
}
