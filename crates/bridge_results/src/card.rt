//! The score card of a pair: a line for each of its plays, by round and board.
ghost use Rattle.std.specs.Prelude.{◌≡◌, ◌≤◌, length, All, IfSome};
ghost use Rattle.bridge_ranking.specs.Gains.{AreGames};
ghost use Rattle.bridge_ranking.specs.KeptGames.{IsResult};
ghost use Rattle.bridge_results.specs.Plays.{HasTricksWithin};
ghost use Rattle.bridge_results.specs.ScoreCard.{side_at, opponents_of, own_score, gain_by, available_by, card_line_of, score_card_line, card_lines};

use crate::compare::result_in;
use crate::gain::{gain_on, scores_on, side_score};
use crate::play::TablePlay;
use arrayvec::ArrayVec;
use bridge_cards::{BoardNumber, Scoring, Side};
use bridge_movement::Row;
use bridge_ranking::gain::available_of;
use bridge_ranking::{Game, PlayResult};
use session_rules::Outcome;

/// How many plays a pair may have: three in each of 12 rounds.
pub const MOST_CARD_LINES: usize = 36;

/// A line of a score card.
#[derive(Clone, Copy)]
pub struct CardLine {
    /// The board.
    pub board: BoardNumber,
    /// The round, from 1.
    pub round: u8,
    /// The side on which the pair played.
    pub side: Side,
    /// The pair against which it played.
    pub opponents: u8,
    /// What came of the play.
    pub outcome: Outcome,
    /// The pair's own score in points, which an adjusted or void play has not.
    pub score: Option<i32>,
    /// What the pair gained: matchpoints in tenths, or cross-IMPs; 0 where the play is void.
    pub gain: i32,
    /// What was available to the pair, in tenths; 0 where the play is void.
    pub available: u32,
}

/// A board that nobody played, so that a list of lines has a value for the indexes that it does not use.
impl Default for CardLine {
    ghost use Rattle.std.specs.Prelude.{◌≡◌, None, pos};
    ghost use Rattle.bridge_cards.specs.declared.seat.Side.TheVariants.{NorthSouth};
    ghost use Rattle.session_rules.specs.declared.outcome.Outcome.TheVariants.{Unfinished};

    ghost is_default = { λ line. line ≡ record { board = 1; round = 0; side = NorthSouth; opponents = 0; outcome = Unfinished; score = None; gain = pos 0; available = 0 } };

    fn default() -> Self {
        CardLine {
            board: BoardNumber::new(1).unwrap(),
            round: 0,
            side: Side::NorthSouth,
            opponents: 0,
            outcome: Outcome::Unfinished,
            score: None,
            gain: 0,
            available: 0,
        }
    }
}

/// The lines of a score card.
pub type ScoreCard = ArrayVec<CardLine, MOST_CARD_LINES>;

/// The side on which a pair sits in a row.
fn side_at(pair: u8, row: Row) -> Option<Side>
    ensures { result ≡ side_at pair row }
{
    if row.ns == pair {
        Some(Side::NorthSouth)
    } else if row.ew == pair {
        Some(Side::EastWest)
    } else {
        None
    }
}

/// The pair against which a side plays.
fn opponents_of(side: Side, row: Row) -> u8
    ensures { result ≡ opponents_of side row }
{
    match side {
        Side::NorthSouth => row.ew,
        Side::EastWest => row.ns,
    }
}

/// The score of a side by what a play is compared by, which an adjusted or void play has not.
fn own_score(side: Side, by: Option<PlayResult>) -> Option<i32>
    requires { IfSome by IsResult }
    ensures { result ≡ own_score side by }
{
    side_score(side, by?)
}

/// What a side gained on a board, and nothing by a play that is void.
fn gain_by(
    scoring: Scoring,
    games: &[Game],
    board: BoardNumber,
    side: Side,
    by: Option<PlayResult>,
) -> i32
    requires games { AreGames games.now }
    requires compared { IfSome by IsResult }
    ensures { result ≡ gain_by scoring games.now board side by }
{
    match by {
        Some(by) => gain_on(scoring, games, side, board, by),
        None => 0,
    }
}

/// What was available to a side on a board, and nothing by a play that is void.
fn available_by(games: &[Game], board: BoardNumber, side: Side, by: Option<PlayResult>) -> u32
    requires { AreGames games.now }
    ensures { result ≡ available_by games.now board side by }
{
    match by {
        Some(_) => available_of(&scores_on(games, side, board)),
        None => 0,
    }
}

/// The line of a play on the card of the pair of a side.
fn card_line_of(scoring: Scoring, games: &[Game], play: &TablePlay, side: Side) -> CardLine
    requires games { AreGames games.now }
    requires tricks { HasTricksWithin play.now }
    ensures { result ≡ card_line_of scoring games.now play.now side }
{
    let by = result_in(play);
    CardLine {
        board: play.board,
        round: play.row.round,
        side,
        opponents: opponents_of(side, play.row),
        outcome: play.outcome,
        score: own_score(side, by),
        gain: gain_by(scoring, games, play.board, side, by),
        available: available_by(games, play.board, side, by),
    }
}

/// The line of a play on the card of a pair, if the pair played there.
fn score_card_line(scoring: Scoring, games: &[Game], pair: u8, play: &TablePlay) -> Option<CardLine>
    requires games { AreGames games.now }
    requires tricks { HasTricksWithin play.now }
    ensures { result ≡ score_card_line scoring games.now pair play.now }
{
    let side = side_at(pair, play.row)?;
    Some(card_line_of(scoring, games, play, side))
}

/// The lines of a pair among plays.
pub(crate) fn card_lines(
    scoring: Scoring,
    games: &[Game],
    plays: &[TablePlay],
    pair: u8,
) -> ScoreCard
    requires games { AreGames games.now }
    requires tricks { All HasTricksWithin plays.now }
    requires few { length (card_lines scoring games.now plays.now pair) ≤ 36 }
    ensures { result.items ≡ card_lines scoring games.now plays.now pair }
{
    let mut lines = ArrayVec::new();
    for play in plays {
        if let Some(line) = score_card_line(scoring, games, pair, play) {
            lines.push(line);
        }
    }
    lines
}
