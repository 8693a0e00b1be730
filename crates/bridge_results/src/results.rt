//! The results of a session.
ghost use Rattle.std.specs.Prelude.{◌≡◌, AllPairs, IsPermutation, IfSome, is_some};
ghost use Rattle.bridge_ranking.specs.Ranking.{has_field, lines_of, games_of, IsRankingOf};
ghost use Rattle.bridge_results.specs.Plays.{plays_of};
ghost use Rattle.bridge_results.specs.Traveller.{StandsOver, rows_of, traveller};
ghost use Rattle.bridge_results.specs.ScoreCard.{score_card_of};
ghost use Rattle.bridge_results.specs.HtmlBoard.{available_on};

use crate::card::{ScoreCard, card_lines};
use crate::compare::games_among;
use crate::gain::scores_on;
use crate::play::TablePlay;
use crate::session_plays::plays_of;
use crate::traveller::{Traveller, lines_on};
use arrayvec::ArrayVec;
use bridge_cards::{BoardNumber, Side};
use bridge_ranking::gain::available_of;
use bridge_ranking::game::MOST_PLAYS;
use bridge_ranking::{Field, Game, has_field, lines_of};
use bridge_score::rank;
use bridge_session::{Ranking, Session};
use std::marker::Model;

/// A session with its plays and what they are compared by.
#[derive(Drop)]
pub struct Results<'a> {
    /// The session.
    session: &'a Session,
    /// Its plays of which something came.
    plays: ArrayVec<TablePlay, MOST_PLAYS>,
    /// Its plays as they are compared.
    games: ArrayVec<Game, MOST_PLAYS>,
}

impl<'a> Model for Results<'a> {
    ghost use Rattle.session_rules.specs.State.{SessionValue};
    ghost use Rattle.bridge_results.specs.Results.{AreResults};

    ghost Value = { SessionValue };

    ghost view = { λ r. r.session.now };

    ghost invariant = { λ r. AreResults r.session.now r.plays.items r.games.items };
}

impl<'a> Results<'a> {
    /// The results of a session as it stands.
    pub fn new(session: &'a Session) -> Results<'a>
        ensures { result ≡ session.now }
    {
        // What each session is, which a clause of this call states.
        let _parts = session.parts();
        let plays = plays_of(session);
        let games = games_among(&plays);
        Results {
            session,
            plays,
            games,
        }
    }

    /// The plays that are finished, void or adjusted, by round, table and board.
    pub fn plays(&self) -> &[TablePlay]
        ensures { result.now ≡ plays_of self.now }
    {
        self.plays.as_slice()
    }

    /// The plays that are compared: finished and not void, or adjusted.
    pub fn games(&self) -> &[Game]
        ensures { result.now ≡ games_of self.now }
    {
        self.games.as_slice()
    }

    /// The traveller of a board: a line for each play, by the score of North and South from the best, equal scores by round,
    /// then by table; then the adjusted plays and then the void ones.
    pub fn traveller(&self, board: BoardNumber) -> Traveller
        ensures lines { result.items ≡ traveller self.now board }
        ensures order { AllPairs StandsOver result.items }
        ensures same { IsPermutation (rows_of self.now board) result.items }
    {
        let scoring = self.session.config().fields().scoring;
        lines_on(scoring, &self.games, &self.plays, board)
    }

    /// What was available on a board to each side, in tenths of a matchpoint.
    pub fn available(&self, board: BoardNumber) -> u32
        ensures { result ≡ available_on self.now board }
    {
        available_of(&scores_on(&self.games, Side::NorthSouth, board))
    }

    /// The score card of a pair: a line for each play, by round, then by board. There is none of a pair that has not played.
    pub fn score_card(&self, pair: u8) -> ScoreCard
        ensures { result.items ≡ score_card_of self.now pair }
    {
        let scoring = self.session.config().fields().scoring;
        card_lines(scoring, &self.games, &self.plays, pair)
    }

    /// The ranking of a field, or `None` where the session has no such field.
    pub fn ranking(&self, field: Field) -> Option<Ranking>
        ensures field { is_some result ≡ has_field self.now.configuration.movement.shape field }
        ensures ranking { IfSome result (λ ranking. IsRankingOf self.now.configuration.scoring (lines_of self.now field) ranking.items) }
    {
        let fields = self.session.config().fields();
        let shape = fields.movement.shape();
        if !has_field(shape, field) {
            return None;
        }
        let lines = lines_of(fields.scoring, &self.games, shape, field);
        Some(rank(fields.scoring, &lines))
    }
}
