//! Who does what by an action.
ghost use Rattle.std.specs.Prelude.{◌≡◌, true};
ghost use Rattle.session_rules.specs.declared.act.Act.TheVariants as act;
ghost use Rattle.session_rules.specs.Act.{act_of, is_ruling, key_of, of_player, of_ruling};

use crate::action::{Action, PlayId};
use crate::correction::Correction;
use crate::deed::Deed;
use crate::numbers::{MadeCount, RoundNumber};
use bridge_cards::{BoardNumber, CardSet};
use bridge_config::Key;

/// Who does what by an action. Actions that are answered alike are one act, so that the rules have few cases.
#[derive(Clone, Copy, Debug, PartialEq, Eq)]
pub enum Act {
    /// A player does something in the current play of the table, after `at` calls, cards or claims.
    Player {
        key: Key,
        board: BoardNumber,
        at: MadeCount,
        deed: Deed,
    },
    /// The director deals a board.
    Deal {
        key: Key,
        board: BoardNumber,
        hands: [CardSet; 4],
    },
    /// The director takes the deal of a board back.
    Undeal {
        key: Key,
        board: BoardNumber,
    },
    /// The director ends that round.
    RoundEnd {
        key: Key,
        round: RoundNumber,
    },
    /// The director takes back the latest thing done in a play.
    Back {
        key: Key,
        play: PlayId,
    },
    /// The director rules on a play, or takes a ruling back.
    Ruling {
        key: Key,
        play: PlayId,
        correction: Correction,
    },
}

impl Act {
    /// The key by which somebody acts.
    pub fn key(self) -> Key
        ensures { result ≡ key_of self }
    {
        match self {
            Act::Player { key, .. } => key,
            Act::Deal { key, .. } => key,
            Act::Undeal { key, .. } => key,
            Act::RoundEnd { key, .. } => key,
            Act::Back { key, .. } => key,
            Act::Ruling { key, .. } => key,
        }
    }
}

impl Action {
    /// Who does what.
    pub fn act(self) -> Act
        ensures { result ≡ act_of self }
    {
        match self {
            Action::Deal { key, board, hands } => Act::Deal { key, board, hands },
            Action::Undeal { key, board } => Act::Undeal { key, board },
            Action::Call {
                key,
                board,
                at,
                call,
            } => player(key, board, at, Deed::Call(call)),
            Action::Card {
                key,
                board,
                at,
                card,
            } => player(key, board, at, Deed::Card(card)),
            Action::Claim {
                key,
                board,
                at,
                tricks,
            } => player(key, board, at, Deed::Claim(tricks)),
            Action::Agree { key, board, at } => player(key, board, at, Deed::Agree),
            Action::Refuse { key, board, at } => player(key, board, at, Deed::Refuse),
            Action::NextRound { key, round } => Act::RoundEnd { key, round },
            Action::Back { key, play } => Act::Back { key, play },
            _ => self.ruled(),
        }
    }

    /// What the director rules on which play.
    fn ruled(self) -> Act
        requires { is_ruling self ≡ true }
        ensures { result ≡ act_of self }
    {
        match self {
            Action::Tricks { key, play, tricks } => ruling(key, play, Correction::Tricks(tricks)),
            Action::Void { key, play } => ruling(key, play, Correction::Void),
            Action::Adjust { key, play, ns, ew } => ruling(
                key,
                play,
                Correction::Adjust { ns, ew },
            ),
            Action::Assign {
                key,
                play,
                contract,
                tricks,
            } => ruling(key, play, Correction::Assign { contract, tricks }),
            Action::Restore { key, play } => ruling(key, play, Correction::Restore),
            _ => unreachable!(),
        }
    }

    /// The action by which a player does that.
    pub fn of_player(key: Key, board: BoardNumber, at: MadeCount, deed: Deed) -> Action
        ensures { result ≡ of_player key board at deed }
    {
        match deed {
            Deed::Call(call) => Action::Call {
                key,
                board,
                at,
                call,
            },
            Deed::Card(card) => Action::Card {
                key,
                board,
                at,
                card,
            },
            Deed::Claim(tricks) => Action::Claim {
                key,
                board,
                at,
                tricks,
            },
            Deed::Agree => Action::Agree { key, board, at },
            Deed::Refuse => Action::Refuse { key, board, at },
        }
    }

    /// The action by which the director rules that.
    pub fn of_ruling(key: Key, play: PlayId, correction: Correction) -> Action
        ensures { result ≡ of_ruling key play correction }
    {
        match correction {
            Correction::Tricks(tricks) => Action::Tricks { key, play, tricks },
            Correction::Void => Action::Void { key, play },
            Correction::Adjust { ns, ew } => Action::Adjust { key, play, ns, ew },
            Correction::Assign { contract, tricks } => Action::Assign {
                key,
                play,
                contract,
                tricks,
            },
            Correction::Restore => Action::Restore { key, play },
        }
    }
}

/// What a player does.
fn player(key: Key, board: BoardNumber, at: MadeCount, deed: Deed) -> Act
    ensures { result ≡ act.Player key board at deed }
{
    Act::Player {
        key,
        board,
        at,
        deed,
    }
}

/// What the director rules.
fn ruling(key: Key, play: PlayId, correction: Correction) -> Act
    ensures { result ≡ act.Ruling key play correction }
{
    Act::Ruling {
        key,
        play,
        correction,
    }
}
