//! What the lines of the protocol ask for.
ghost use Rattle.table_server.specs.LineCommand.{AsksForDeal, AsksFor};

use crate::asked::Asked::{Change, Told};
use crate::asked::{Asked, Question};
use bridge_auction::Call;
use bridge_cards::{BoardNumber, Card, CardSet, deal_board};
use bridge_config::Key;
use bridge_session::{Action, Average, Field, MadeCount, PlayId, RoundNumber, TrickCount};
use session_rules::Deed;
use thiserror::Error;

/// A line states no command.
#[derive(Clone, Copy, Debug, PartialEq, Eq, Error)]
#[error("bad line")]
pub struct BadLine;

/// A line's command, with its words as values.
#[derive(Clone, Copy)]
pub enum Command {
    /// The director deals a board: the hands, North's first and then clockwise. They need be no deal.
    Deal {
        /// The key of who acts or asks.
        key: Key,
        /// The board.
        board: BoardNumber,
        /// The hands, North's first and then clockwise.
        hands: [CardSet; 4],
    },
    /// The director has a board dealt by the shuffle of that seed.
    Shuffle {
        /// The key of who acts or asks.
        key: Key,
        /// The board.
        board: BoardNumber,
        /// The 32 bytes of the seed.
        seed: [u8; 32],
    },
    /// A player calls, after `at` calls.
    Call {
        /// The key of who acts or asks.
        key: Key,
        /// The board.
        board: BoardNumber,
        /// How many were made before, or the number of the claim.
        at: MadeCount,
        /// The call.
        call: Call,
    },
    /// A player plays a card of the hand in turn, after `at` cards.
    Card {
        /// The key of who acts or asks.
        key: Key,
        /// The board.
        board: BoardNumber,
        /// How many were made before, or the number of the claim.
        at: MadeCount,
        /// The card.
        card: Card,
    },
    /// A player claims that many of the tricks left, after `at` claims.
    Claim {
        /// The key of who acts or asks.
        key: Key,
        /// The board.
        board: BoardNumber,
        /// How many were made before, or the number of the claim.
        at: MadeCount,
        /// How many tricks.
        tricks: TrickCount,
    },
    /// A player agrees to the claim of number `at`, the claims of the play counted from 1.
    Agree {
        /// The key of who acts or asks.
        key: Key,
        /// The board.
        board: BoardNumber,
        /// How many were made before, or the number of the claim.
        at: MadeCount,
    },
    /// A player refuses the claim of number `at`.
    Refuse {
        /// The key of who acts or asks.
        key: Key,
        /// The board.
        board: BoardNumber,
        /// How many were made before, or the number of the claim.
        at: MadeCount,
    },
    /// The director ends that round.
    Next {
        /// The key of who acts or asks.
        key: Key,
        /// The round that ends.
        round: RoundNumber,
    },
    /// The director rules how many tricks declarer has.
    Tricks {
        /// The key of who acts or asks.
        key: Key,
        /// The play.
        play: PlayId,
        /// How many tricks.
        tricks: TrickCount,
    },
    /// The director takes a play out.
    Void {
        /// The key of who acts or asks.
        key: Key,
        /// The play.
        play: PlayId,
    },
    /// The director awards each side of a play an average (Law 12C2).
    Adjust {
        /// The key of who acts or asks.
        key: Key,
        /// The play.
        play: PlayId,
        /// The average of North and South.
        ns: Average,
        /// The average of East and West.
        ew: Average,
    },
    /// The director takes a ruling back.
    Restore {
        /// The key of who acts or asks.
        key: Key,
        /// The play.
        play: PlayId,
    },
    /// All that was accepted is to be confirmed.
    Sync,
    /// A player asks for the view of the current play.
    See {
        /// The key of who acts or asks.
        key: Key,
    },
    /// The ranking of a field is asked for.
    Rank {
        /// The key of who acts or asks.
        key: Key,
        /// The field.
        field: Field,
    },
    /// The director asks for the worth of a play's ending after so many cards, 0 to 52.
    Solve {
        /// The key of who acts or asks.
        key: Key,
        /// The play.
        play: PlayId,
        /// After how many cards, 0 to 52.
        cards: u8,
    },
    /// The director asks for the results in Portable Bridge Notation.
    Pbn {
        /// The key of who acts or asks.
        key: Key,
    },
}

/// Asks for the deal of a board by the shuffle of a seed.
fn shuffled(key: Key, board: BoardNumber, seed: &[u8; 32]) -> Asked
    ensures { AsksForDeal key board seed.now result }
{
    let hands = deal_board(seed, board).hands();
    Change(Action::Deal { key, board, hands })
}

impl Command {
    /// What the command asks for. `SHUFFLE` asks for the deal of its board by the shuffle of its seed.
    pub fn asks(self) -> Asked
        ensures { AsksFor self result }
    {
        match self {
            Command::Deal { key, board, hands } => Change(Action::Deal { key, board, hands }),
            Command::Shuffle { key, board, seed } => shuffled(key, board, &seed),
            Command::Call {
                key,
                board,
                at,
                call,
            } => Change(Action::of_player(key, board, at, Deed::Call(call))),
            Command::Card {
                key,
                board,
                at,
                card,
            } => Change(Action::of_player(key, board, at, Deed::Card(card))),
            Command::Claim {
                key,
                board,
                at,
                tricks,
            } => Change(Action::of_player(key, board, at, Deed::Claim(tricks))),
            Command::Agree { key, board, at } => Change(Action::Agree { key, board, at }),
            Command::Refuse { key, board, at } => Change(Action::Refuse { key, board, at }),
            Command::Next { key, round } => Change(Action::NextRound { key, round }),
            Command::Tricks { key, play, tricks } => Change(Action::Tricks { key, play, tricks }),
            Command::Void { key, play } => Change(Action::Void { key, play }),
            Command::Adjust { key, play, ns, ew } => Change(Action::Adjust { key, play, ns, ew }),
            Command::Restore { key, play } => Change(Action::Restore { key, play }),
            Command::Sync => Told(Question::Sync),
            Command::See { key } => Told(Question::See { key }),
            Command::Rank { key, field } => Told(Question::Rank { key, field }),
            Command::Solve { key, play, cards } => Told(Question::Solve { key, play, cards }),
            Command::Pbn { key } => Told(Question::Pbn { key }),
        }
    }
}
