//! Laws of what images of a disk stand for, each on a function that does nothing.
ghost use Rattle.session_store.specs.Former.{FormerLaw};
ghost use Rattle.session_store.specs.Frame.{FrameLaw};
ghost use Rattle.session_store.specs.Run.{CrashLaw, FormattedLaw, FormerRunLaw};

use crate::Kept;
use sector_disk::SectorDisk;

/// The frame law: an image stands for the same after any change of the parts of the snapshot that is not in use.
pub fn frame_law<K: Kept>()
    ensures { FrameLaw K.kept }
{}

/// The law of former disks: an image without a mark of the second format stands for what it stood for to a store that knew
/// the first format alone, and is in order where it was to such a store.
pub fn former_law<K: Kept>()
    ensures { FormerLaw K.kept }
{}

/// The crash law, over whole runs. From a disk at which a run may begin, and after any list of events, be it calls of a
/// store whatever they answered, openings that answered Ok or failed, and power cuts at any moment of these or between two:
/// at every moment of what is done next, a power cut leaves an image that stands for what the first so many of the accepted
/// actions make of the state at first, with all that are confirmed. A run may begin at a disk that `format` made, with no
/// action accepted, and at a disk that a store of the first format left after any run of its own, with the actions that were
/// accepted and confirmed in it.
pub fn crash_law<D: SectorDisk, K: Kept>()
    ensures crash { CrashLaw K.kept D.disk }
    ensures formatted { FormattedLaw K.kept D.disk }
    ensures former { FormerRunLaw K.kept D.disk }
{}
