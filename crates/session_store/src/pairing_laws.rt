//! Laws of pairs of stores, each on a function that does nothing.
ghost use Rattle.session_store.specs.Copying.{IsOrderly};
ghost use Rattle.session_store.specs.Pair.{AloneLaw, MomentLaw, ServedLaw, ToldLaw};
ghost use Rattle.session_store.specs.Sound.{IsSoundDisk};

use crate::Kept;
use sector_disk::SectorDisk;

/// The laws of a pair. What was told stands as long as one of the disks that are kept reads: whatever two power cuts leave of
/// both, at independent moments, the image of the greater epoch stands for it, or for it with some of the first actions that
/// were accepted since. Each disk alone is an ordinary one, which opens alone; and any that is sound can be the second.
pub fn pair_laws<A: SectorDisk, B: SectorDisk, K: Kept>()
    ensures told { ToldLaw K.kept A.disk B.disk }
    ensures moment { MomentLaw K.kept A.disk B.disk }
    ensures served { ServedLaw K.kept A.disk B.disk }
    ensures alone { AloneLaw K.kept A.disk B.disk }
    ensures orderly { (disk : A) → IsSoundDisk K.kept A.disk disk → IsOrderly A.disk disk }
{}
