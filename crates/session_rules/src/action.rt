//! What players and the director do.
use crate::average::Average;
use crate::numbers::{BoardIndex, MadeCount, RoundNumber, TableNumber, TrickCount};
use bridge_auction::{Call, Contract};
use bridge_cards::{BoardNumber, Card, CardSet};
use bridge_config::Key;

/// The play of one board by one table in one round.
#[derive(Clone, Copy, Debug, PartialEq, Eq)]
pub struct PlayId {
    /// The round, 1 to 12.
    pub round: RoundNumber,
    /// The table, 1 to 12.
    pub table: TableNumber,
    /// Which board of the table's set, 1 to 3.
    pub index: BoardIndex,
}

/// What the holder of a key does. A player names the board that is played, and how many calls, cards or claims were made
/// before, so that an action that arrives twice is not taken twice.
#[derive(Clone, Copy, Debug, PartialEq, Eq)]
pub enum Action {
    /// The director deals a board: the hands, North's first and then clockwise.
    Deal {
        key: Key,
        board: BoardNumber,
        hands: [CardSet; 4],
    },
    /// The director takes the deal of a board back.
    Undeal {
        key: Key,
        board: BoardNumber,
    },
    /// A player calls, after `at` calls.
    Call {
        key: Key,
        board: BoardNumber,
        at: MadeCount,
        call: Call,
    },
    /// A player plays a card of the hand in turn, after `at` cards.
    Card {
        key: Key,
        board: BoardNumber,
        at: MadeCount,
        card: Card,
    },
    /// A player claims that many of the tricks left, after `at` claims.
    Claim {
        key: Key,
        board: BoardNumber,
        at: MadeCount,
        tricks: TrickCount,
    },
    /// A player agrees to the claim of number `at`, the claims of the play counted from 1.
    Agree {
        key: Key,
        board: BoardNumber,
        at: MadeCount,
    },
    /// A player refuses the claim of number `at`.
    Refuse {
        key: Key,
        board: BoardNumber,
        at: MadeCount,
    },
    /// The director ends that round, and the session where it is the last.
    NextRound {
        key: Key,
        round: RoundNumber,
    },
    /// The director rules how many tricks declarer has.
    Tricks {
        key: Key,
        play: PlayId,
        tricks: TrickCount,
    },
    /// The director takes a play out.
    Void {
        key: Key,
        play: PlayId,
    },
    /// The director awards each side of a play an average (Law 12C2).
    Adjust {
        key: Key,
        play: PlayId,
        ns: Average,
        ew: Average,
    },
    /// The director assigns a score to a play: that of the contract with that many tricks for declarer (Law 12C1).
    Assign {
        key: Key,
        play: PlayId,
        contract: Contract,
        tricks: TrickCount,
    },
    /// The director takes back the latest thing done in a play: the claim that stands or was agreed, or else the last card, or
    /// else the last call (Laws 25A, 45C, 47 and 69).
    Back {
        key: Key,
        play: PlayId,
    },
    /// The director takes a ruling back.
    Restore {
        key: Key,
        play: PlayId,
    },
}

/// The end of the first round, so that a list of actions has a value for the indexes that it does not use.
impl Default for Action {
    ghost use Rattle.std.specs.Prelude.{◌≡◌};
    ghost use Rattle.session_rules.specs.declared.action.Action.TheVariants.{NextRound};

    ghost is_default = { λ action. action ≡ NextRound (record { 0 = 0 }) 1 };

    fn default() -> Self {
        Action::NextRound {
            key: Key(0),
            round: RoundNumber::default(),
        }
    }
}
