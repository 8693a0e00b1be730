//! What was dealt in any of the sections.
ghost use Rattle.std.specs.Prelude.{◌≡◌};
ghost use Rattle.std.specs.Option.{option_copied};
ghost use Rattle.event_ranking.specs.Dealt.{first_deal};

use bridge_cards::{BoardNumber, Deal};
use bridge_session::Session;

/// The deal of a board, of the first section that has it dealt.
pub fn first_deal(sections: &[Session], board: BoardNumber) -> Option<&Deal>
    ensures { option_copied result ≡ first_deal sections.now board }
{
    for session in sections {
        if let Some(deal) = session.deal(board) {
            return Some(deal);
        }
    }
    None
}
