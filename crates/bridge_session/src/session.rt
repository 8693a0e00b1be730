//! The session, and what may be asked of it.
ghost use Rattle.std.specs.Prelude.{◌≡◌, IfOk, IfSome, MatchResult, Err};
ghost use Rattle.std.specs.Bool.{Decides};
ghost use Rattle.std.specs.Option.{option_copied, option_map};
ghost use Rattle.session_rules.specs.Record.{bidding_of, play_of};
ghost use Rattle.session_rules.specs.Outcome.{outcome_of};
ghost use Rattle.session_rules.specs.State.{opening, deal_on, hands_on, record_of};
ghost use Rattle.session_rules.specs.See.{shown_to};
ghost use Rattle.session_rules.specs.Stage.{stage_to};
ghost use Rattle.session_rules.specs.Views.{IsViewTo};
ghost use Rattle.bridge_ranking.specs.Ranking.{ranking_answer, IsRankingTo};
ghost use Rattle.session_rules.specs.StateRange.{IsSession};
ghost use Rattle.bridge_table.specs.Kept.{plain_of, IsTiedIn};
ghost use Rattle.bridge_session.specs.HasAll.{HasAllOf, HasRowOf};

use crate::containing::{have_deals, have_plays, have_tables, records_at};
use crate::entry::Entry;
use crate::opening::room_of;
use arrayvec::ArrayVec;
use bridge_cards::{BoardNumber, Deal};
use bridge_config::{Config, Key};
use bridge_ranking::{Field, games_of, has_field, lines_of};
use bridge_score::{MOST_LINES, Ranked, rank};
use bridge_table::{
    Record, check_asker, deal_on, record_at, row_of, seat_by, stage_among, view_among,
};
use session_rules::{PlayId, Refused, RoundNumber, Stage, TableNumber, View};
use std::alloc::{AllocError, Global};
use std::marker::Model;

mod ending;
mod parts;
mod restored;
mod step;

/// The pairs of a field with their places, by place, then by pair.
pub type Ranking = ArrayVec<Ranked, MOST_LINES>;

/// A session: who plays, the round, the boards that are dealt, and a record of each play.
#[derive(Drop)]
pub struct Session {
    /// The configuration.
    config: Config,
    /// From 1; one more than the last once the session is closed.
    round: u8,
    /// By the boards' numbers.
    deals: Vec<Option<Deal>>,
    /// By the rows of the movement; for each that is live, by the boards of its set.
    tables: Vec<Vec<Record>>,
}

impl Model for Session {
    ghost use Rattle.std.specs.Prelude.{map};
    ghost use Rattle.session_rules.specs.State.{SessionValue};
    ghost use Rattle.bridge_session.specs.KeptSession.{state_of, IsKeptSession};

    ghost Value = { SessionValue };

    ghost view = { λ s. state_of s.config s.round s.deals.items (map (λ table. table.items) s.tables.items) };

    ghost invariant = { λ s. IsKeptSession s.config s.round s.deals.items (map (λ table. table.items) s.tables.items) };
}

impl Session {
    /// The session of the configuration in round 1, with no board dealt. It takes all its memory at once: no call on it
    /// takes any more.
    pub fn new(alloc: Global, config: Config) -> Result<Session, AllocError>
        ensures opening { IfOk result (λ session. session ≡ opening config) }
    {
        let room = room_of(alloc, &config)?;
        Ok(Session {
            config,
            round: 1,
            deals: room.deals,
            tables: room.tables,
        })
    }

    /// The configuration.
    pub fn config(&self) -> &Config
        ensures { result.now ≡ self.now.configuration }
    {
        &self.config
    }

    /// The configuration, of a session that is needed no more.
    pub fn into_config(self) -> Config
        ensures { result ≡ self.configuration }
    {
        let Session { config, .. } = self;
        config
    }

    /// What each session is, by its invariant, which holds where a field is read.
    pub(crate) fn is_session(&self)
        ensures { IsSession self.now }
    {
        let _round = self.round;
    }

    /// The current round, from 1; one more than the last once the session is closed.
    pub fn round(&self) -> u8
        ensures { result ≡ self.now.round }
    {
        self.round
    }

    /// The deal of a board, if the session has the board and it is dealt.
    pub fn deal(&self, board: BoardNumber) -> Option<&Deal>
        ensures { option_copied result ≡ deal_on self.now.deals board }
    {
        deal_on(self.deals.as_slice(), board)
    }

    /// Whether no round of the other session, which is of the same configuration, is still to come here, and nothing that was
    /// dealt, called or played there is missing. Claims and rulings are not compared.
    pub fn has_all_of(&self, other: &Session) -> bool
        ensures { Decides result (HasAllOf self.now other.now) }
    {
        if self.round < other.round {
            return false;
        }
        if !have_deals(self.deals.as_slice(), other.deals.as_slice()) {
            return false;
        }
        have_tables(self.tables.as_slice(), other.tables.as_slice())
    }

    /// Whether nothing that was called or played there in the plays of the row of that index is missing here.
    pub fn has_row_of(&self, other: &Session, index: usize) -> bool
        ensures { Decides result (HasRowOf self.now other.now index) }
    {
        let ours = records_at(self.tables.as_slice(), index);
        let theirs = records_at(other.tables.as_slice(), index);
        have_plays(ours, theirs)
    }

    /// The record of a play, if there is such a play at a live row.
    fn record_of(&self, play: PlayId) -> Option<&Record>
        ensures record { option_map plain_of (option_copied result) ≡ record_of self.now play }
        ensures tied { IfSome (option_copied result) (IsTiedIn self.now.deals) }
    {
        let index = row_of(&self.config, play.round, play.table)?;
        let table = &self.tables[index];
        record_at(table.as_slice(), usize::from(play.index.number() - 1))
    }

    /// What is known of a play, or `None` where there is no such play at a live row.
    pub fn entry(&self, play: PlayId) -> Option<Entry<'_>>
        ensures auction { option_map (λ entry. entry.auction.now) result ≡ option_map bidding_of (record_of self.now play) }
        ensures play { option_map (λ entry. option_copied entry.play) result ≡ option_map (λ plain. play_of (hands_on self.now.deals plain.board) plain) (record_of self.now play) }
        ensures outcome { option_map (λ entry. entry.outcome) result ≡ option_map outcome_of (record_of self.now play) }
    {
        let record = self.record_of(play)?;
        Some(Entry {
            auction: &record.auction,
            play: record.play.as_ref(),
            outcome: record.outcome(),
        })
    }

    /// What the player of the key is shown of the current play of the table. Refused are, in this order: `NoKey`,
    /// `NotAllowed`, `Closed`, `SitsOut`, `NotCurrent` and `NotDealt`.
    pub fn see(&self, key: Key) -> Result<View<'_>, Refused>
        ensures { MatchResult result (IsViewTo self.now key.0) (λ refused. shown_to self.now key.0 ≡ Err refused) }
    {
        let seating = seat_by(&self.config, self.round, key)?;
        let round = RoundNumber::new(self.round).unwrap();
        let number = TableNumber::new(seating.table).unwrap();
        let table = &self.tables[seating.row];
        view_among(
            table.as_slice(),
            self.deals.as_slice(),
            round,
            number,
            seating.seat,
        )
    }

    /// How far the current play of the table is for the player of the key: the contract, once there is one, and whether the
    /// player's answer to a claim is due. Refused is what `see` refuses.
    pub fn stage(&self, key: Key) -> Result<Stage, Refused>
        ensures { result ≡ stage_to self.now key.0 }
    {
        let seating = seat_by(&self.config, self.round, key)?;
        let table = &self.tables[seating.row];
        stage_among(table.as_slice(), self.deals.as_slice(), seating.seat)
    }

    /// The pairs of a field with what they gained in the plays that count, those that are finished, not void and not
    /// adjusted, against all other scores on the board, of both fields (Law 78), and under matchpoints by the averages of
    /// those that are adjusted (Law 12C2). Matchpoints, and what is available, are in tenths. Under matchpoints a pair's
    /// place is by its share of what was available to it, under IMPs by the sum. It takes no memory.
    ///
    /// The director may ask at any time, a player once the session is closed. Refused are, in this order: `NoKey`,
    /// `NotAllowed`, and `NoSuchPlay` where there is no such field.
    pub fn ranking(&self, key: Key, field: Field) -> Result<Ranking, Refused>
        ensures { MatchResult result (λ ranking. IsRankingTo self.now key.0 field ranking.items) (λ refused. ranking_answer self.now key.0 field ≡ Err refused) }
    {
        check_asker(&self.config, self.round, key)?;
        let fields = self.config.fields();
        let shape = fields.movement.shape();
        if !has_field(shape, field) {
            return Err(Refused::NoSuchPlay);
        }
        let games = games_of(fields.movement.rows(), self.tables.as_slice());
        let lines = lines_of(fields.scoring, &games, shape, field);
        Ok(rank(fields.scoring, &lines))
    }
}
