//! What standard output takes of a fault before a command stops.
ghost use Rattle.line_text.specs.Streams.{stream};
ghost use Rattle.std.specs.Prelude.{◌≡◌};
ghost use Rattle.evening_commands.specs.Fault.{Writes, WritesAndStops, due_words, fault_words};

use crate::fault::EveningFault;
use evening_draft::{NamesFault, write_names_fault};
use line_text::write_text;
use std::io::Write;

/// Writes the whole text. The fault is that a write failed.
fn write_all<W: Write>(output: &mut W, text: &str) -> Result<(), EveningFault>
    ensures { Writes (stream W.contents output.old output.new) text.now result }
{
    write_text(output, text.as_bytes()).or(Err(EveningFault::Write))
}

/// Writes the fault of a list of names.
fn write_names<W: Write>(fault: NamesFault, output: &mut W) -> Result<(), EveningFault>
    ensures { Writes (stream W.contents output.old output.new) (fault_words (EveningFault.Names fault)) result }
{
    write_names_fault(fault, output).or(Err(EveningFault::Write))
}

/// What is due, and why it is refused; of a list's line, a configuration and the system nothing.
fn due_words(fault: EveningFault) -> &'static str
    ensures { result.now ≡ due_words fault }
{
    match fault {
        EveningFault::LongList => "due: a list of at most 16,384 bytes\nrefused: it is longer\n",
        EveningFault::OtherPairs =>
            "due: a list with the configuration's pairs\nrefused: it has another number of pairs\n",
        EveningFault::NoMovement =>
            "due: a movement, mitchell or howell\nrefused: it has another name\n",
        EveningFault::NoScoring => "due: a scoring, mp or imp\nrefused: it has another name\n",
        EveningFault::Seed => "due: a seed of 64 hexadecimal digits\nrefused: it is none\n",
        EveningFault::Movement => "due: for a Howell 3 to 12 pairs\nrefused: the list has more\n",
        EveningFault::Keys => "due: a seed that gives different keys\nrefused: it gives too few\n",
        EveningFault::Heading =>
            "due: for event and site 1 to 24 ASCII letters, digits, dots, hyphens and underscores, and a date as 2026.03.14\nrefused: one of them is none\n",
        EveningFault::Address => "due: an address of at most 100 bytes\nrefused: it is longer\n",
        EveningFault::Read
        | EveningFault::Write
        | EveningFault::Random
        | EveningFault::Clock
        | EveningFault::Config(_)
        | EveningFault::Names(_) => "",
    }
}

/// Writes what there is to say of a fault: of a list of names its line, what is due, and why.
fn write_words<W: Write>(fault: EveningFault, output: &mut W) -> Result<(), EveningFault>
    ensures { Writes (stream W.contents output.old output.new) (fault_words fault) result }
{
    match fault {
        EveningFault::Names(fault) => write_names(fault, output),
        other => write_all(output, due_words(other)),
    }
}

/// Writes what there is to say of a fault, which is the fault then.
pub fn stop<W: Write>(fault: EveningFault, output: &mut W) -> Result<(), EveningFault>
    ensures { WritesAndStops (stream W.contents output.old output.new) (fault_words fault) fault result }
{
    write_words(fault, output)?;
    Err(fault)
}
