//! A power cut while lines are served, as a law over the definitions that `serve` is said by, on a function that does nothing.
ghost use Rattle.table_server.specs.Course.{WriteLaw, CutLaw};

use sector_disk::SectorDisk;

/// A power cut in the middle of a serve keeps what was answered. What writes replies is called only where nothing is pending,
/// which its `requires` asks of each call: an image then stands for the session at first with all actions accepted since. And at
/// every moment of a course, in a call of the store and in a write, an image stands for a prefix of the actions accepted since,
/// with all of the lines of which the reply is written, or some of it.
pub fn a_power_cut_keeps_what_is_answered<D: SectorDisk>()
    ensures in_a_write { WriteLaw D.disk }
    ensures anywhere { CutLaw D.disk }
{}
