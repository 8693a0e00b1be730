//! A second reading of what is taken back: a deal, and the latest thing done in a play.
use super::rows::{is_played, row_of_play};
use super::story::Story;
use super::twin::Twin;
use bridge_cards::BoardNumber;
use bridge_movement::Row;
use bridge_session::{PlayId, Refused};

impl Twin {
    /// The answer where the deal of a board is taken back.
    pub fn undeal_answer(&self, board: BoardNumber) -> Result<(), Refused> {
        let fields = self.config.fields();
        let boards = u32::from(fields.movement.shape().sets) * u32::from(fields.boards);
        if self.is_closed() {
            return Err(Refused::Closed);
        }
        if u32::from(board.number()) > boards {
            return Err(Refused::NoSuchPlay);
        }
        if self.deal(board).is_none() {
            return Err(Refused::NotDealt);
        }
        let (called, ruled) = self.begun(board);
        if called {
            Err(Refused::BoardBegun)
        } else if ruled {
            Err(Refused::RulingStands)
        } else {
            Ok(())
        }
    }

    /// The answer where the latest thing done in a play is taken back.
    pub fn back_answer(&self, play: PlayId) -> Result<(), Refused> {
        let index = play.index.number();
        let row = row_of_play(&self.config, play).ok_or(Refused::NoSuchPlay)?;
        let Some(story) = self.story(row, index) else {
            return Err(Refused::NoSuchPlay);
        };
        let round = usize::from(row.round);
        if round > self.round() {
            Err(Refused::NotYet)
        } else if round < self.round() {
            Err(Refused::NotThisRound)
        } else if story.is_ruled() {
            Err(Refused::RulingStands)
        } else if story.auction.calls().is_empty() {
            Err(Refused::NothingToTakeBack)
        } else {
            Ok(())
        }
    }

    /// The play of that index in a row that two pairs play, if it is of that board.
    fn played(&self, row: Row, index: u8, board: BoardNumber) -> Option<Story> {
        if !is_played(row) {
            return None;
        }
        let story = self.story(row, index)?;
        if story.board == board {
            Some(story)
        } else {
            None
        }
    }

    /// Whether a call was made in a play of the board, and whether a ruling stands on one.
    fn begun(&self, board: BoardNumber) -> (bool, bool) {
        let mut begun = (false, false);
        for row in self.config.fields().movement.rows() {
            for index in 1..4 {
                if let Some(story) = self.played(*row, index, board) {
                    begun.0 = begun.0 || !story.auction.calls().is_empty();
                    begun.1 = begun.1 || story.is_ruled();
                }
            }
        }
        begun
    }
}
