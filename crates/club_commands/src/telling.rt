//! Results of a session that is opened for them, as the commands `rank` and `pbn` write them.
ghost use Rattle.line_text.specs.Streams.{stream};
ghost use Rattle.club_commands.specs.Results.{IsToldText, Tells, TellsDisk};

use crate::fault::RunFault;
use crate::results::{write_games, write_ranking};
use crate::work::Told;
use bridge_session::Session;
use club_disk::{ClubDisk, Left, open_session, with_disk};
use std::alloc::Global;
use std::io::Write;

/// Writes these results of a session.
fn write_told<W: Write>(told: Told, session: &Session, output: &mut W) -> Result<(), RunFault>
    ensures { Tells (IsToldText told) session.now (stream W.contents output.old output.new) result }
{
    match told {
        Told::Ranking => write_ranking(session, output),
        Told::Games => write_games(session, output),
    }
}

/// Opens the session that a disk holds, which begins a new epoch of its store, writes these results of it, and hands the disk
/// out.
pub fn tell_over<W: Write>(
    alloc: Global,
    told: Told,
    disk: ClubDisk,
    output: &mut W,
) -> Left<ClubDisk, RunFault>
    ensures { TellsDisk told (stream W.contents output.old output.new) result.ended disk result.disk }
{
    match open_session(alloc, disk) {
        Ok(store) => {
            let ended = write_told(told, store.state(), output);
            with_disk(store, ended)
        }
        Err((disk, cause)) => Left {
            disk,
            ended: Err(RunFault::Store(cause)),
        },
    }
}
