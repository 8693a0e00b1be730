//! A play of which something came.
ghost use Rattle.std.specs.Prelude.{◌≡◌, ◌<◌, ◌≤◌, ◌+◌, ◌++◌, length};
ghost use Rattle.std.specs.Option.{option_copied, option_to_list};

use arrayvec::ArrayVec;
use bridge_cards::{BoardNumber, Card};
use bridge_movement::Row;
use session_rules::Outcome;

/// A play of a board that is finished, void or adjusted.
#[derive(Clone, Copy)]
pub struct TablePlay {
    /// The round, the table, and the pairs that met there.
    pub row: Row,
    /// The board.
    pub board: BoardNumber,
    /// What came of the play.
    pub outcome: Outcome,
    /// The opening lead, once a card was played (Law 41A).
    pub lead: Option<Card>,
}

/// A board that nobody played, so that a list of plays has a value for the indexes that it does not use.
impl Default for TablePlay {
    ghost use Rattle.std.specs.Prelude.{◌≡◌, None};
    ghost use Rattle.session_rules.specs.declared.outcome.Outcome.TheVariants.{Unfinished};

    ghost is_default = { λ play. play ≡ record { row = record { round = 0; table = 0; ns = 0; ew = 0; set = 0 }; board = 1; outcome = Unfinished; lead = None } };

    fn default() -> Self {
        TablePlay {
            row: Row::default(),
            board: BoardNumber::new(1).unwrap(),
            outcome: Outcome::Unfinished,
            lead: None,
        }
    }
}

/// Adds a play, if there is one.
pub(crate) fn push_play(plays: &mut ArrayVec<TablePlay, 3>, play: Option<&TablePlay>)
    requires { length plays.old.items < 3 }
    ensures plays { plays.new.items ≡ plays.old.items ++ option_to_list (option_copied play.entry) }
    ensures few { length plays.new.items ≤ length plays.old.items + 1 }
{
    if let Some(known) = play {
        plays.push(*known);
    }
}
