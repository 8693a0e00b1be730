//! The commands `draft` and `slips`, and `plan` with a list of names or without.
ghost use Rattle.line_text.specs.Streams.{stream};
ghost use Rattle.club_commands.specs.Evenings.{EndsAs, HasDrafted, HasSlips, HasPlanned};

use crate::fault::RunFault;
use crate::machine::Machine;
use crate::planning::run_plan;
use command_line::{DraftWords, SlipWords};
use evening_commands::{EveningFault, run_draft, run_named_plan, run_slips};
use std::io::Write;

/// The end of a run that ended so.
pub fn ended(made: Result<(), EveningFault>) -> Result<(), RunFault>
    ensures { EndsAs made result }
{
    match made {
        Ok(()) => Ok(()),
        Err(fault) => Err(RunFault::Evening(fault)),
    }
}

/// Writes the configuration of an evening for the pairs of the list in a file.
pub fn make_draft<S: Machine, W: Write>(
    rt: &S,
    names: &str,
    words: &DraftWords<'_>,
    output: &mut W,
) -> Result<(), RunFault>
    ensures { HasDrafted words.now (stream W.contents output.old output.new) result }
{
    ended(run_draft(rt, names, words, output))
}

/// Writes the slips of the configuration in a file.
pub fn make_slips<S: Machine, W: Write>(
    rt: &S,
    config: &str,
    words: &SlipWords<'_>,
    output: &mut W,
) -> Result<(), RunFault>
    ensures { HasSlips words.now (stream W.contents output.old output.new) result }
{
    ended(run_slips(rt, config, words, output))
}

/// Writes the evening that the configuration in a file plans, with the names of the list in another, where one is given.
pub fn make_plan<S: Machine, W: Write>(
    rt: &S,
    config: &str,
    names: Option<&str>,
    output: &mut W,
) -> Result<(), RunFault>
    ensures { HasPlanned names.entry (stream W.contents output.old output.new) result }
{
    match names {
        None => run_plan(rt, config, output),
        Some(names) => ended(run_named_plan(rt, config, names, output)),
    }
}
