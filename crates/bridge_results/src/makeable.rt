//! What could be made of a deal.
ghost use Rattle.bridge_par.specs.Tricks.{IsTrickTable};

use bridge_par::TrickTable;

/// The tricks that each declarer of a deal could take in each denomination.
#[derive(Clone, Copy)]
pub struct Makeable {
    /// The tricks, each number at most 13.
    pub table: TrickTable,
    ghost few: { IsTrickTable table },
}
