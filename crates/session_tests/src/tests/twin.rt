//! A second reading of a session: it keeps every action that was taken, and works each answer out from all of them.
use super::holder::{Holder, holder_of};
use super::rows::{is_play, is_played, row_of_pair, row_of_play, seat};
use super::story::Story;
use bridge_cards::{BoardNumber, CardSet, Deal, Scoring, Seat};
use bridge_config::{Config, Key};
use bridge_movement::Row;
use bridge_session::{Action, PlayId, Refused};

/// The configuration, and what was taken, the earliest first.
#[derive(Drop)]
pub struct Twin {
    pub config: Config,
    pub taken: Vec<Action>,
}

/// Who does what at which board, where a player acts.
fn deed_of(action: &Action) -> Option<(Key, BoardNumber)> {
    match *action {
        Action::Call { key, board, .. }
        | Action::Card { key, board, .. }
        | Action::Claim { key, board, .. }
        | Action::Agree { key, board, .. }
        | Action::Refuse { key, board, .. } => Some((key, board)),
        _ => None,
    }
}

/// Who rules on which play, where the director rules.
fn ruling_of(action: &Action) -> Option<(Key, PlayId)> {
    match *action {
        Action::Tricks { key, play, .. }
        | Action::Void { key, play }
        | Action::Adjust { key, play, .. }
        | Action::Assign { key, play, .. }
        | Action::Restore { key, play } => Some((key, play)),
        _ => None,
    }
}

/// Whether it is a ruling on the play of that index in the row.
fn is_ruling(action: &Action, row: Row, index: u8) -> bool {
    match ruling_of(action) {
        Some((_, play)) => is_play(play, row, index),
        None => false,
    }
}

/// Whether it takes back what was done in the play of that index in the row.
fn is_taken_back(action: &Action, row: Row, index: u8) -> bool {
    match *action {
        Action::Back { play, .. } => is_play(play, row, index),
        _ => false,
    }
}

impl Twin {
    /// The round, from 1: each that was ended counts.
    pub fn round(&self) -> usize {
        let mut round = 1usize;
        for action in self.taken.as_slice() {
            if matches!(action, Action::NextRound { .. }) {
                round = round.saturating_add(1);
            }
        }
        round
    }

    pub fn is_closed(&self) -> bool {
        self.round() > usize::from(self.config.fields().movement.shape().rounds)
    }

    /// The index-th board of a row's set.
    fn board_of(&self, row: Row, index: u8) -> Option<BoardNumber> {
        let before = row
            .set
            .checked_sub(1)?
            .checked_mul(self.config.fields().boards)?;
        BoardNumber::new(before.checked_add(index)?)
    }

    /// All that was done in the play of a board by the pairs of a row.
    pub fn story(&self, row: Row, index: u8) -> Option<Story> {
        if index > self.config.fields().boards {
            return None;
        }
        let mut story = Story::new(self.board_of(row, index)?);
        let mut round = 1usize;
        for action in self.taken.as_slice() {
            if let Action::NextRound { .. } = action {
                round = round.saturating_add(1);
            }
            let seat = self.seat_of(action, row, round, story.board);
            story.tell(action, seat);
            if is_ruling(action, row, index) {
                story.rule(action);
            }
            if is_taken_back(action, row, index) {
                story.back();
            }
        }
        story.settle();
        Some(story)
    }

    /// Where the holder of an action's key sits at the table of a row, in its round, if the action is of that board.
    fn seat_of(
        &self,
        action: &Action,
        row: Row,
        round: usize,
        wanted: BoardNumber,
    ) -> Option<Seat> {
        let (key, board) = deed_of(action)?;
        if usize::from(row.round) != round || board != wanted {
            return None;
        }
        match holder_of(&self.config, key) {
            Holder::Player { pair, first } if row.ns == pair || row.ew == pair => Some(seat(
                row, pair, first,
            )),
            _ => None,
        }
    }

    /// The play of a row's lowest index that is neither finished, void nor adjusted.
    pub fn current(&self, row: Row) -> Option<Story> {
        for index in 1..4 {
            let story = self.story(row, index)?;
            if !story.is_over() && !story.is_ruled_out() {
                return Some(story);
            }
        }
        None
    }

    /// The hands of a board, if it was dealt.
    pub fn deal(&self, board: BoardNumber) -> Option<Deal> {
        let mut story = Story::new(board);
        for action in self.taken.as_slice() {
            story.tell(action, None);
        }
        story.deal
    }

    fn check_director(&self, key: Key) -> Result<(), Refused> {
        match holder_of(&self.config, key) {
            Holder::Nobody => Err(Refused::NoKey),
            Holder::Player { .. } => Err(Refused::NotAllowed),
            Holder::Director => Ok(()),
        }
    }

    /// The player's seat, and the current play of the table.
    pub fn sight(&self, key: Key) -> Result<(Seat, Story), Refused> {
        let (pair, first) = match holder_of(&self.config, key) {
            Holder::Nobody => return Err(Refused::NoKey),
            Holder::Director => return Err(Refused::NotAllowed),
            Holder::Player { pair, first } => (pair, first),
        };
        if self.is_closed() {
            return Err(Refused::Closed);
        }
        let Some(row) = row_of_pair(&self.config, self.round(), pair) else {
            return Err(Refused::SitsOut);
        };
        match self.current(row) {
            Some(story) => Ok((seat(row, pair, first), story)),
            None => Err(Refused::NotCurrent),
        }
    }

    /// The same where the current play is of that board, which is dealt.
    fn at_table(&self, key: Key, board: BoardNumber) -> Result<(Seat, Story), Refused> {
        let (seat, story) = self.sight(key)?;
        if story.board != board {
            return Err(Refused::NotCurrent);
        }
        if story.deal.is_none() {
            return Err(Refused::NotDealt);
        }
        Ok((seat, story))
    }

    fn deal_answer(&self, board: BoardNumber, hands: [CardSet; 4]) -> Result<(), Refused> {
        let fields = self.config.fields();
        let boards = u32::from(fields.movement.shape().sets) * u32::from(fields.boards);
        if self.is_closed() {
            Err(Refused::Closed)
        } else if u32::from(board.number()) > boards {
            Err(Refused::NoSuchPlay)
        } else if self.deal(board).is_some() {
            Err(Refused::AlreadyDealt)
        } else if Deal::from_hands(hands).is_err() {
            Err(Refused::BadDeal)
        } else {
            Ok(())
        }
    }

    fn next_answer(&self, round: u8) -> Result<(), Refused> {
        if self.is_closed() {
            return Err(Refused::Closed);
        }
        if usize::from(round) != self.round() {
            return Err(Refused::Stale);
        }
        for row in self.config.fields().movement.rows() {
            if row.round == round && is_played(*row) && self.current(*row).is_some() {
                return Err(Refused::RoundOpen);
            }
        }
        Ok(())
    }

    fn ruling_answer(&self, action: &Action, play: PlayId) -> Result<(), Refused> {
        let index = play.index.number();
        let row = row_of_play(&self.config, play).ok_or(Refused::NoSuchPlay)?;
        let Some(story) = self.story(row, index) else {
            return Err(Refused::NoSuchPlay);
        };
        if usize::from(row.round) > self.round() {
            return Err(Refused::NotYet);
        }
        match action {
            Action::Tricks { .. } if story.play.is_none() => Err(Refused::NoContract),
            Action::Tricks { .. } if !story.is_over() => Err(Refused::NotFinished),
            Action::Restore { .. } if usize::from(row.round) < self.round() && !story.is_over() =>
                Err(Refused::NotFinished),
            Action::Adjust { .. } if self.config.fields().scoring == Scoring::Imps => Err(
                Refused::NotMatchPoints,
            ),
            _ => Ok(()),
        }
    }

    /// The answer to an action.
    pub fn answer(&self, action: &Action) -> Result<(), Refused> {
        if let Some((key, board)) = deed_of(action) {
            let (seat, mut story) = self.at_table(key, board)?;
            return story.answer(seat, action);
        }
        if let Some((key, play)) = ruling_of(action) {
            self.check_director(key)?;
            return self.ruling_answer(action, play);
        }
        match *action {
            Action::Deal { key, board, hands } => {
                self.check_director(key)?;
                self.deal_answer(board, hands)
            }
            Action::Undeal { key, board } => {
                self.check_director(key)?;
                self.undeal_answer(board)
            }
            Action::Back { key, play } => {
                self.check_director(key)?;
                self.back_answer(play)
            }
            Action::NextRound { key, round } => {
                self.check_director(key)?;
                self.next_answer(round.number())
            }
            _ => Ok(()),
        }
    }
}
