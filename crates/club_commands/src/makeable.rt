//! The command `makeable`.
ghost use Rattle.line_text.specs.Streams.{stream};
ghost use Rattle.std.specs.Prelude.{◌≡◌};
ghost use Rattle.club_commands.specs.MakeableDeals.{EndsAs, HasMade, form_of};

use crate::fault::RunFault;
use crate::machine::Machine;
use makeable_deals::{MakeableFault, MakeableForm, Progress, run_makeable};
use std::alloc::Global;
use std::io::Write;

/// The end of a run that ended so.
fn ended(made: Result<(), MakeableFault>) -> Result<(), RunFault>
    ensures { EndsAs made result }
{
    match made {
        Ok(()) => Ok(()),
        Err(fault) => Err(RunFault::Makeable(fault)),
    }
}

/// What is written: with `--pbn` the games of the file.
fn form_of(pbn: bool) -> MakeableForm
    ensures { result ≡ form_of pbn }
{
    if pbn {
        MakeableForm::Games
    } else {
        MakeableForm::Lines
    }
}

/// Writes what the deals in a file could make.
pub fn write_makeable<S: Machine, W: Write>(
    rt: &S,
    alloc: Global,
    pbn: bool,
    file: &str,
    output: &mut W,
) -> Result<(), RunFault>
    ensures { HasMade pbn (stream W.contents output.old output.new) result }
{
    let progress = Progress::on(rt.errors());
    ended(run_makeable(rt, alloc, form_of(pbn), progress, file, output))
}
