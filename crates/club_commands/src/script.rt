//! Lines served over a store, as the commands `script` and `correct` serve them.
ghost use Rattle.std.specs.Prelude.{◌≡◌, [], false};
ghost use Rattle.line_text.specs.Streams.{stream};
ghost use Rattle.club_commands.specs.Serving.{Scripts};

use crate::fault::RunFault;
use bridge_endings::Cache;
use bridge_session::Session;
use sector_disk::SectorDisk;
use session_store::{Store, StoreFault};
use std::io::{Read, Write};
use table_server::{LineSet, serve_lines};

/// Serves the lines of the input, which are of that set, over a store that works.
pub fn serve_store<D: SectorDisk + Drop, R: Read, W: Write>(
    set: LineSet,
    store: &mut Store<D, Session>,
    cache: &mut Cache,
    input: &mut R,
    output: &mut W,
) -> Result<(), RunFault>
    requires works { store.old.failed ≡ false }
    requires none_pending { store.old.pending ≡ [] }
    ensures { Scripts D.disk set store.old store.new (stream R.remaining input.old input.new)
        (stream W.contents output.old output.new) result }
{
    let served = serve_lines(set, store, Some(cache), input, output);
    if store.has_failed() {
        return Err(RunFault::Store(StoreFault::Disk));
    }
    served?;
    Ok(())
}
