//! The plays of several sections that are compared, with the scores of each board in all of them.
ghost use Rattle.std.specs.Prelude.{◌≡◌, ◌≤◌, ◌<◌, ◌++◌, length, map, slice_get, Some, OnOk, IfOk};
ghost use Rattle.std.specs.List.{range_with_len};
ghost use Rattle.bridge_cards.specs.Board.{IsBoard};
ghost use Rattle.bridge_cards.specs.declared.seat.Side.TheVariants.{NorthSouth};
ghost use Rattle.bridge_ranking.specs.Ranking.{score_in, scores_on};
ghost use Rattle.event_ranking.specs.Joint.{joint};
ghost use Rattle.event_ranking.specs.Wide.{AreOfSection, AreOfSections};

use crate::gain::MOST_SCORES;
use bridge_cards::BoardNumber;
use bridge_ranking::{Game, PlayResult};
use std::alloc::{AllocError, Global};
use std::marker::Model;

/// The plays of sections that are compared, with the scores of each board.
#[derive(Drop)]
pub struct WideScores {
    /// The plays of each section.
    games: Vec<Vec<Game>>,
    /// Of each board the scores of North and South, in all sections.
    scores: Vec<Vec<i32>>,
}

impl Model for WideScores {
    ghost use Rattle.std.specs.Prelude.{List, map};
    ghost use Rattle.bridge_ranking.specs.declared.game.Game.{Game};
    ghost use Rattle.event_ranking.specs.Wide.{AreWide};

    ghost Value = { List (List Game) };

    ghost view = { λ s. map (λ games. games.items) s.games.items };

    ghost invariant = { λ s. AreWide (map (λ games. games.items) s.games.items) (map (λ scores. scores.items) s.scores.items) };
}

/// The score of North and South in a game, if it is one of the board.
fn score_in(board: u8, game: Game) -> Option<i32>
    ensures { result ≡ score_in NorthSouth board game }
{
    match game.result {
        PlayResult::Score(score) if game.board == board => Some(score),
        _ => None,
    }
}

/// Adds the scores of North and South on a board in a section.
fn push_scores(scores: &mut Vec<i32>, games: &[Game], board: u8) -> Result<(), AllocError>
    ensures { OnOk result (scores.new.items ≡ scores.old.items ++ scores_on games.now NorthSouth board) }
{
    for game in games {
        if let Some(score) = score_in(board, *game) {
            scores.push(score)?;
        }
    }
    Ok(())
}

/// The scores of North and South on a board in all sections.
fn scores_on(alloc: Global, sections: &[Vec<Game>], board: u8) -> Result<Vec<i32>, AllocError>
    ensures { IfOk result (λ scores. scores.items ≡ scores_on (joint (map (λ games. games.items) sections.now)) NorthSouth board) }
{
    let mut scores = Vec::new(alloc);
    for games in sections {
        push_scores(&mut scores, games.as_slice(), board)?;
    }
    Ok(scores)
}

/// The same of each board, by the boards' numbers.
fn scores_by_board(alloc: Global, sections: &[Vec<Game>]) -> Result<Vec<Vec<i32>>, AllocError>
    ensures { IfOk result (λ lists. map (λ scores. scores.items) lists.items ≡ map (scores_on (joint (map (λ games. games.items) sections.now)) NorthSouth) (range_with_len 1 36)) }
{
    let mut lists = Vec::with_capacity(alloc, usize::from(BoardNumber::MAX))?;
    for index in 0..BoardNumber::MAX {
        lists.push(scores_on(alloc, sections, index + 1)?)?;
    }
    Ok(lists)
}

impl WideScores {
    /// The plays with their scores.
    pub fn new(alloc: Global, games: Vec<Vec<Game>>) -> Result<WideScores, AllocError>
        requires { AreOfSections (map (λ games. games.items) games.items) }
        ensures { IfOk result (λ wide. wide ≡ map (λ games. games.items) games.items) }
    {
        let scores = scores_by_board(alloc, games.as_slice())?;
        Ok(WideScores { games, scores })
    }

    /// The scores of North and South on a board in all sections.
    pub fn scores(&self, board: u8) -> &[i32]
        requires { IsBoard board }
        ensures scores { result.now ≡ scores_on (joint self.now) NorthSouth board }
        ensures most { length result.now ≤ MOST_SCORES }
    {
        self.scores[usize::from(board - 1)].as_slice()
    }

    /// The plays of the section at an index.
    pub fn games(&self, index: usize) -> &[Game]
        requires { index < length self.now }
        ensures games { slice_get self.now index ≡ Some result.now }
        ensures section { AreOfSection result.now }
    {
        self.games[index].as_slice()
    }
}
