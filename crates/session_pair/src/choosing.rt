//! Which of two disks a pair is opened from.
ghost use Rattle.std.specs.Prelude.{◌≡◌, ◌↔◌, true};
ghost use Rattle.session_pair.specs.Choosing.{ComesFirst};

use session_store::{Kept, Reading};

/// Whether this disk is the first of the pair, and not the other one, by what was read of both: its epoch is greater, or the
/// same with no fewer records. At the same epoch both have all that was told while both were kept.
pub fn comes_first<K: Kept>(this: &Reading<K>, other: &Reading<K>) -> bool
    ensures { (result ≡ true) ↔ ComesFirst this.now.epoch this.now.records other.now.epoch other.now.records }
{
    if this.epoch == other.epoch {
        return this.records >= other.records;
    }
    this.epoch > other.epoch
}
