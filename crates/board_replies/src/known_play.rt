//! What is known of a play.
ghost use Rattle.std.specs.Prelude.{◌≡◌, ◌+◌, ◌≤◌, IfSome, Contains, length};
ghost use Rattle.std.specs.Option.{option_copied, option_map};
ghost use Rattle.bridge_movement.specs.Boards.{boards_before};
ghost use Rattle.session_rules.specs.Numbers.{IsRoundNumber, IsTableNumber, IsBoardIndex};
ghost use Rattle.session_rules.specs.Outcome.{HasFewTricks};
ghost use Rattle.session_rules.specs.StateRange.{IsSession};
ghost use Rattle.board_replies.specs.KnownPlay.{is_known_finished, known_at, seen_play};

use bridge_auction::Auction;
use bridge_cards::{BoardNumber, Deal};
use bridge_movement::{Row, boards_before};
use bridge_play::Play;
use bridge_session::Session;
use session_rules::{BoardIndex, Outcome, PlayId, RoundNumber, TableNumber};

/// What is known of a play.
#[derive(Clone, Copy)]
pub(crate) struct KnownPlay<'a> {
    /// Its board.
    pub board: BoardNumber,
    /// The hands, once the board is dealt.
    pub deal: Option<&'a Deal>,
    /// The calls.
    pub auction: &'a Auction,
    /// The cards and claims, once there is a contract.
    pub play: Option<&'a Play>,
    /// What came of it.
    pub outcome: Outcome,
}

/// Whether the play is finished: over, or passed out.
pub(crate) fn is_finished(known: &KnownPlay<'_>) -> bool
    ensures { result ≡ is_known_finished (seen_play known.now) }
{
    match known.play {
        Some(play) => play.is_over(),
        None => known.auction.is_ended(),
    }
}

/// The board at an index of a set, from 1, where each set has so many boards.
fn board_at(boards: u8, set: u8, index: u8) -> BoardNumber
    requires boards { boards ≤ 3 }
    requires set { set ≤ 12 }
    requires index { IsBoardIndex index }
    ensures { result ≡ boards_before boards set + index }
{
    BoardNumber::new(boards_before(boards, set) as u8 + index).unwrap()
}

/// The play at an index of a row's set, from 1.
fn play_id(row: Row, index: u8) -> PlayId
    requires round { IsRoundNumber row.round }
    requires table { IsTableNumber row.table }
    requires index { IsBoardIndex index }
    ensures { result ≡ record { round = row.round; table = row.table; index = index } }
{
    PlayId {
        round: RoundNumber::new(row.round).unwrap(),
        table: TableNumber::new(row.table).unwrap(),
        index: BoardIndex::new(index).unwrap(),
    }
}

/// How many cards were played, once there is a contract: read so that their number is known.
fn count_cards(play: Option<&Play>) -> usize
    ensures few { IfSome (option_copied play.entry) (λ known. length known.cards ≤ 52) }
{
    match play {
        Some(play) => play.cards().len(),
        None => 0,
    }
}

/// What is known of the play of the board at an index of a row's set, if there is such a play.
pub(crate) fn known_at(session: &Session, row: Row, index: u8) -> Option<KnownPlay<'_>>
    requires session { IsSession session.now }
    requires row { Contains session.now.configuration.movement.rows row }
    requires index { IsBoardIndex index }
    ensures known { option_map seen_play result ≡ known_at session.now row index }
    ensures few { IfSome result (λ known. HasFewTricks known.outcome) }
{
    let board = board_at(session.config().fields().boards, row.set, index);
    let deal = session.deal(board);
    match session.entry(play_id(row, index)) {
        Some(known) => {
            let _cards = count_cards(known.play);
            Some(KnownPlay {
                board,
                deal,
                auction: known.auction,
                play: known.play,
                outcome: known.outcome,
            })
        }
        None => None,
    }
}
