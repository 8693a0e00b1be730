//! What players and the director do in a session.
ghost use Rattle.std.specs.Prelude.{◌≡◌, ◌+◌, ◌<◌, OnOk, OnErr, Some, None, take, drop, slice_set, ◌-◌};
ghost use Rattle.std.specs.List.{list_any};
ghost use Rattle.session_rules.specs.Record.{is_open};
ghost use Rattle.session_rules.specs.State.{director_answer, record_of};
ghost use Rattle.session_rules.specs.PlayerStep.{seen_by, player_answer, acted};
ghost use Rattle.session_rules.specs.Back.{back_answer, less_latest_in};
ghost use Rattle.session_rules.specs.DirectorStep.{if_allowed, deal_answer, is_begun_on, is_ruled_on, undeal_answer, next_answer, records_of_round, rule_answer, ruled};
ghost use Rattle.session_rules.specs.Step.{act_answer, step_answer, changed_by, changed};
ghost use Rattle.bridge_table.specs.Kept.{plain_of, is_kept_open};

use super::Session;
use bridge_cards::{BoardNumber, CardSet, Deal};
use bridge_config::Key;
use bridge_table::{
    Record, act_among, back_among, check_director, has_begun, has_open, has_ruling, is_closed,
    is_of_set, row_of, rule_among, seat_by,
};
use session_rules::{Act, Action, Correction, Deed, MadeCount, PlayId, Refused, RoundNumber};

/// Whether one of so many tables from an index on has a play that is neither finished, void nor adjusted.
fn have_open(tables: &[Vec<Record>], start: usize, count: usize) -> bool
    ensures { result ≡ list_any (λ table. list_any is_kept_open table.items) (take count (drop start tables.now)) }
{
    tables
        .iter()
        .skip(start)
        .take(count)
        .any(|table| has_open(table.as_slice()))
}

/// Whether a call was made on the board at one of the tables.
fn have_begun(tables: &[Vec<Record>], board: BoardNumber) -> bool
    ensures { result ≡ list_any (λ table. list_any (λ kept. is_begun_on board (plain_of kept)) table.items) tables.now }
{
    tables
        .iter()
        .any(|table| has_begun(table.as_slice(), board))
}

/// Whether a ruling stands on a play of the board at one of the tables.
fn have_ruling(tables: &[Vec<Record>], board: BoardNumber) -> bool
    ensures { result ≡ list_any (λ table. list_any (λ kept. is_ruled_on board (plain_of kept)) table.items) tables.now }
{
    tables
        .iter()
        .any(|table| has_ruling(table.as_slice(), board))
}

impl Session {
    /// What a player does in the current play of the table where the player sits.
    fn act(
        &mut self,
        key: Key,
        board: BoardNumber,
        at: MadeCount,
        deed: Deed,
    ) -> Result<(), Refused>
        ensures answer { result ≡ player_answer (seen_by self.old key.0 board) key.0 board at deed }
        ensures taken { OnOk result (self.new ≡ acted self.old key.0 deed) }
        ensures refused { OnErr result (self.new ≡ self.old) }
    {
        let seating = seat_by(&self.config, self.round, key)?;
        if !is_of_set(&self.config, seating.set, board) {
            return Err(Refused::NotCurrent);
        }
        let deals = self.deals.as_slice();
        let table = &mut self.tables[seating.row];
        act_among(table.as_mut_slice(), deals, board, seating.seat, at, deed)
    }

    /// Deals a board. Refused are: `Closed`, `NoSuchPlay` where the session has no such board, `AlreadyDealt`, `BadDeal`.
    fn deal_board(
        &mut self,
        key: Key,
        board: BoardNumber,
        hands: [CardSet; 4],
    ) -> Result<(), Refused>
        ensures answer { result ≡ if_allowed (director_answer self.old.configuration key.0) (deal_answer self.old board hands) }
        ensures taken { OnOk result (self.new ≡ record self.old { deals = slice_set self.old.deals (board - 1) (Some hands) }) }
        ensures refused { OnErr result (self.new ≡ self.old) }
    {
        check_director(&self.config, key)?;
        if is_closed(&self.config, self.round) {
            return Err(Refused::Closed);
        }
        let index = usize::from(board.number() - 1);
        if index >= self.deals.len() {
            return Err(Refused::NoSuchPlay);
        }
        if self.deals[index].is_some() {
            return Err(Refused::AlreadyDealt);
        }
        let Ok(deal) = Deal::from_hands(hands) else {
            return Err(Refused::BadDeal);
        };
        self.deals[index] = Some(deal);
        Ok(())
    }

    /// Whether a call was made on the board at any table.
    fn is_begun(&self, board: BoardNumber) -> bool
        ensures { result ≡ list_any (list_any (is_begun_on board)) self.now.records }
    {
        have_begun(self.tables.as_slice(), board)
    }

    /// Whether a ruling stands on a play of the board.
    fn is_ruled(&self, board: BoardNumber) -> bool
        ensures { result ≡ list_any (list_any (is_ruled_on board)) self.now.records }
    {
        have_ruling(self.tables.as_slice(), board)
    }

    /// Takes the deal of a board back. Refused are: `Closed`, `NoSuchPlay` where the session has no such board, `NotDealt`,
    /// `BoardBegun`, `RulingStands`.
    fn undeal_board(&mut self, key: Key, board: BoardNumber) -> Result<(), Refused>
        ensures answer { result ≡ if_allowed (director_answer self.old.configuration key.0) (undeal_answer self.old board) }
        ensures taken { OnOk result (self.new ≡ record self.old { deals = slice_set self.old.deals (board - 1) None }) }
        ensures refused { OnErr result (self.new ≡ self.old) }
    {
        check_director(&self.config, key)?;
        if is_closed(&self.config, self.round) {
            return Err(Refused::Closed);
        }
        let index = usize::from(board.number() - 1);
        if index >= self.deals.len() {
            return Err(Refused::NoSuchPlay);
        }
        if self.deals[index].is_none() {
            return Err(Refused::NotDealt);
        }
        if self.is_begun(board) {
            return Err(Refused::BoardBegun);
        }
        if self.is_ruled(board) {
            return Err(Refused::RulingStands);
        }
        self.deals[index] = None;
        Ok(())
    }

    /// Whether a live play of the round is neither finished, void nor adjusted.
    fn is_round_open(&self) -> bool
        ensures { result ≡ list_any (list_any is_open) (records_of_round self.now) }
    {
        let shape = self.config.fields().movement.shape();
        let start = shape.rows_before(self.round);
        have_open(self.tables.as_slice(), start, usize::from(shape.tables))
    }

    /// Ends the round. Refused are: `Closed`, `Stale` where it is not that round, `RoundOpen`.
    fn end_round(&mut self, key: Key, round: RoundNumber) -> Result<(), Refused>
        ensures answer { result ≡ if_allowed (director_answer self.old.configuration key.0) (next_answer self.old round) }
        ensures taken { OnOk result (self.new ≡ record self.old { round = self.old.round + 1 }) }
        ensures refused { OnErr result (self.new ≡ self.old) }
    {
        check_director(&self.config, key)?;
        if is_closed(&self.config, self.round) {
            return Err(Refused::Closed);
        }
        if round.number() != self.round {
            return Err(Refused::Stale);
        }
        if self.is_round_open() {
            return Err(Refused::RoundOpen);
        }
        self.round = round.number() + 1;
        Ok(())
    }

    /// Rules on a play. Refused are: `NoSuchPlay`, `NotYet`, and those of the ruling.
    fn rule(&mut self, key: Key, play: PlayId, correction: Correction) -> Result<(), Refused>
        ensures answer { result ≡ if_allowed (director_answer self.old.configuration key.0) (rule_answer self.old.configuration.scoring self.old.round play.round correction (record_of self.old play)) }
        ensures taken { OnOk result (self.new ≡ ruled self.old play correction) }
        ensures refused { OnErr result (self.new ≡ self.old) }
    {
        let PlayId {
            round,
            table,
            index,
        } = play;
        let of_round = round.number();
        let at = usize::from(index.number() - 1);
        check_director(&self.config, key)?;
        let Some(index) = row_of(&self.config, round, table) else {
            return Err(Refused::NoSuchPlay);
        };
        let scoring = self.config.fields().scoring;
        let now = self.round;
        let records = &mut self.tables[index];
        rule_among(
            records.as_mut_slice(),
            at,
            scoring,
            now,
            of_round,
            correction,
        )
    }

    /// Takes back the latest thing done in a play. Refused are: `NoSuchPlay`, `NotYet`, `NotThisRound`, `RulingStands`,
    /// `NothingToTakeBack`.
    fn take_back(&mut self, key: Key, play: PlayId) -> Result<(), Refused>
        ensures answer { result ≡ if_allowed (director_answer self.old.configuration key.0) (back_answer self.old.round play.round (record_of self.old play)) }
        ensures taken { OnOk result (self.new ≡ less_latest_in self.old play) }
        ensures refused { OnErr result (self.new ≡ self.old) }
    {
        let PlayId {
            round,
            table,
            index,
        } = play;
        let of_round = round.number();
        let at = usize::from(index.number() - 1);
        check_director(&self.config, key)?;
        let Some(index) = row_of(&self.config, round, table) else {
            return Err(Refused::NoSuchPlay);
        };
        let now = self.round;
        let records = &mut self.tables[index];
        back_among(records.as_mut_slice(), at, now, of_round)
    }

    /// Takes an action by who does what.
    fn take(&mut self, act: Act) -> Result<(), Refused>
        ensures answer { result ≡ act_answer self.old act }
        ensures taken { OnOk result (self.new ≡ changed_by self.old act) }
        ensures refused { OnErr result (self.new ≡ self.old) }
    {
        match act {
            Act::Player {
                key,
                board,
                at,
                deed,
            } => self.act(key, board, at, deed),
            Act::Deal { key, board, hands } => self.deal_board(key, board, hands),
            Act::Undeal { key, board } => self.undeal_board(key, board),
            Act::RoundEnd { key, round } => self.end_round(key, round),
            Act::Back { key, play } => self.take_back(key, play),
            Act::Ruling {
                key,
                play,
                correction,
            } => self.rule(key, play, correction),
        }
    }

    /// Takes an action, or answers the first refusal that applies, which changes nothing. It takes no memory.
    ///
    /// The refusals of each action are, in this order: of all, `NoKey` and `NotAllowed`. Of a player's, `Closed`,
    /// `SitsOut`, `NotCurrent`, `NotDealt`, `WrongPhase` and `Stale`, and then of a call `NotYourTurn`,
    /// `InsufficientBid`, `InadmissibleDouble` and `InadmissibleRedouble`; of a card `ClaimStands`, `NotYourTurn`,
    /// `NotHeld` and `MustFollow`; of a claim `ClaimStands`, `NotYourTurn`, `MidTrick`, `TooManyTricks` and
    /// `ClaimsSpent`; of an answer to a claim `NoClaim` and `NotAsked`. Of a deal `Closed`, `NoSuchPlay`,
    /// `AlreadyDealt` and `BadDeal`; where a deal is taken back `Closed`, `NoSuchPlay`, `NotDealt`, `BoardBegun` and
    /// `RulingStands`; of the end of a round `Closed`, `Stale` and `RoundOpen`; of a ruling `NoSuchPlay` and `NotYet`,
    /// and then of `Tricks` `NoContract` and `NotFinished`, of averages `NotMatchPoints`, of `Restore` `NotFinished`;
    /// where the latest thing is taken back `NoSuchPlay`, `NotYet`, `NotThisRound`, `RulingStands` and `NothingToTakeBack`.
    pub fn step(&mut self, action: &Action) -> Result<(), Refused>
        ensures answer { result ≡ step_answer self.old action.now }
        ensures taken { OnOk result (self.new ≡ changed self.old action.now) }
        ensures refused { OnErr result (self.new ≡ self.old) }
    {
        self.take(action.act())
    }
}
