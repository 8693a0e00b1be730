//! What is found of a session.
ghost use Rattle.std.specs.Prelude.{◌≡◌, IfOk};
ghost use Rattle.bridge_results.specs.Costs.{seen};
ghost use Rattle.session_analysis.specs.Analysed.{seen_found, IsAnalysisOf};

use crate::boards::{Boards, boards_of};
use crate::costs::costs_of;
use bridge_results::{Analysis, PlayCosts};
use bridge_session::Session;
use makeable_deals::Progress;
use std::alloc::{AllocError, Global};

/// Whether it is found what the cards of plays cost.
#[derive(Clone, Copy, Debug, PartialEq, Eq)]
pub enum Plays {
    /// It is.
    Found,
    /// It is not.
    LeftOut,
}

/// What is found.
#[derive(Drop)]
pub struct Found {
    /// What could be made on each board.
    pub boards: Boards,
    /// What the cards of plays cost.
    pub plays: Vec<PlayCosts>,
}

impl Found {
    /// The same as a page of results takes it.
    pub fn analysis(&self) -> Analysis<'_>
        ensures { seen result ≡ seen_found self.now }
    {
        Analysis {
            boards: self.boards.as_slice(),
            plays: self.plays.as_slice(),
        }
    }
}

/// Finds what could be made on each board that is dealt, and where it is asked for what the cards of plays cost. The error is that
/// memory is refused: a deal takes 32 MiB.
pub fn analysis_of(
    alloc: Global,
    session: &Session,
    asked: Plays,
    progress: &mut Progress,
) -> Result<Found, AllocError>
    ensures { IfOk result (λ found. IsAnalysisOf asked session.now (seen_found found)) }
{
    let boards = boards_of(alloc, session, progress)?;
    let plays = match asked {
        Plays::Found => costs_of(alloc, session, progress)?,
        Plays::LeftOut => Vec::new(alloc),
    };
    Ok(Found { boards, plays })
}
