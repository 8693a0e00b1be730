//! The plays that are compared, with the scores of each side on each board.
ghost use Rattle.std.specs.Prelude.{◌≡◌, ◌≤◌, ◌<◌, ◌-◌, [], length, map, All, Some, slice_get, slice_index_or};
ghost use Rattle.std.specs.List.{range_with_len};
ghost use Rattle.bridge_cards.specs.Board.{IsBoard};
ghost use Rattle.bridge_score.specs.ScoringTable.{IsScore};
ghost use Rattle.bridge_ranking.specs.Ranking.{scores_on};
ghost use Rattle.bridge_ranking.specs.Gains.{AreGames, with_score};

use crate::game::{Game, PlayResult, score_for};
use arrayvec::ArrayVec;
use bridge_cards::{BoardNumber, Side};
use bridge_movement::MOST_ROWS;
use std::marker::Model;

/// How many boards a session may have: three in each of 12 sets.
const BOARDS: usize = 36;

/// Plays that are compared, with the scores of each side by the boards' numbers.
#[derive(Drop)]
pub struct ScoredGames<'a> {
    /// The plays.
    games: &'a [Game],
    /// Of each board the scores of North and South.
    north_south: ArrayVec<ArrayVec<i32, MOST_ROWS>, BOARDS>,
    /// Of each board the scores of East and West.
    east_west: ArrayVec<ArrayVec<i32, MOST_ROWS>, BOARDS>,
}

impl<'a> Model for ScoredGames<'a> {
    ghost use Rattle.std.specs.Prelude.{List, map};
    ghost use Rattle.bridge_ranking.specs.declared.game.Game.{Game};
    ghost use Rattle.bridge_ranking.specs.Gains.{AreScored};

    ghost Value = { List Game };

    ghost view = { λ s. s.games.now };

    ghost invariant = { λ s. AreScored s.games.now (map (λ scores. scores.items) s.north_south.items) (map (λ scores. scores.items) s.east_west.items) };
}

impl<'a> ScoredGames<'a> {
    /// The plays with their scores.
    pub fn new(games: &'a [Game]) -> ScoredGames<'a>
        requires games { AreGames games.now }
        ensures games { result ≡ games.now }
    {
        ScoredGames {
            games,
            north_south: scores_by_board(games, Side::NorthSouth),
            east_west: scores_by_board(games, Side::EastWest),
        }
    }

    /// The plays.
    pub fn games(&self) -> &[Game]
        ensures { result.now ≡ self.now }
    {
        self.games
    }

    /// The scores of a side on a board.
    pub fn scores(&self, side: Side, board: u8) -> &[i32]
        requires board { IsBoard board }
        ensures scores { result.now ≡ scores_on self.now side board }
        ensures range { All IsScore result.now }
        ensures most { length result.now ≤ 144 }
    {
        match side {
            Side::NorthSouth => scores_at(&self.north_south, board),
            Side::EastWest => scores_at(&self.east_west, board),
        }
    }
}

/// The list at the index of a board.
fn scores_at(lists: &[ArrayVec<i32, MOST_ROWS>], board: u8) -> &[i32]
    requires count { length lists.now ≡ 36 }
    requires board { IsBoard board }
    ensures index { slice_get (map (λ scores. scores.items) lists.now) (board - 1) ≡ Some result.now }
    ensures most { length result.now ≤ 144 }
{
    lists[usize::from(board - 1)].as_slice()
}

/// Adds a score to the list at the index of its board.
fn add_score(lists: &mut [ArrayVec<i32, MOST_ROWS>], board: u8, score: i32)
    requires count { length lists.old ≡ 36 }
    requires board { IsBoard board }
    requires room { length (slice_index_or (map (λ scores. scores.items) lists.old) (board - 1) []) < 144 }
    ensures lists { map (λ scores. scores.items) lists.new ≡ with_score (map (λ scores. scores.items) lists.old) board score }
{
    lists[usize::from(board - 1)].push(score);
}

/// A list for each board, with no score.
fn empty_lists() -> ArrayVec<ArrayVec<i32, MOST_ROWS>, BOARDS>
    ensures { map (λ scores. scores.items) result.items ≡ map (λ _. []) (range_with_len 1 36) }
{
    let mut lists = ArrayVec::new();
    for _ in 0..BoardNumber::MAX {
        lists.push(ArrayVec::new());
    }
    lists
}

/// The scores of a side on each board, by the boards' numbers.
fn scores_by_board(games: &[Game], side: Side) -> ArrayVec<ArrayVec<i32, MOST_ROWS>, BOARDS>
    requires games { AreGames games.now }
    ensures scores { map (λ scores. scores.items) result.items ≡ map (scores_on games.now side) (range_with_len 1 36) }
{
    let mut lists = empty_lists();
    for game in games {
        match game.result {
            PlayResult::Score(score) => {
                add_score(&mut lists, game.board, score_for(side, score));
            }
            PlayResult::Averages { .. } => {}
        }
    }
    lists
}
