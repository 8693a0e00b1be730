//! The disk that a command was over: it is handed out as the last call left it, and let go where nothing can be written to it.
ghost use Rattle.std.specs.Prelude.{◌≡◌};

use bridge_session::Session;
use sector_disk::SectorDisk;
use session_store::Store;

/// A disk that is handed out, and how what was done over it ended.
pub struct Left<D, E> {
    /// The disk, as the last call left it.
    pub disk: D,
    /// How that ended.
    pub ended: Result<(), E>,
}

/// The disk of a store, with how what was done over it ended, which is handed in as what goes out beside the disk.
pub fn with_disk<D: SectorDisk + Drop, E>(
    store: Store<D, Session>,
    ended: Result<(), E>,
) -> Left<D, E>
    ensures disk { result.disk ≡ store.disk }
    ensures ended { result.ended ≡ ended }
{
    let disk = store.into_disk();
    Left { disk, ended }
}

/// How it ended. The disk is let go: of this type nothing is known by which to write to it.
pub fn let_go<D: Drop, E>(left: Left<D, E>) -> Result<(), E>
    ensures { result ≡ left.ended }
{
    let Left { disk: _disk, ended } = left;
    ended
}
