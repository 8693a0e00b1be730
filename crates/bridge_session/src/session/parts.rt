//! The parts of a session, as they stand on a disk.
ghost use Rattle.std.specs.Prelude.{◌≡◌, ◌<◌, ◌≤◌, [], length, slice_index_or, unwrap_or, IfSome};
ghost use Rattle.std.specs.Option.{option_copied, option_map};
ghost use Rattle.bridge_cards.specs.Board.{dealer_of};
ghost use Rattle.session_rules.specs.Record.{empty_record};
ghost use Rattle.session_rules.specs.StateRange.{IsSession};
ghost use Rattle.bridge_table.specs.Kept.{plain_of};
ghost use Rattle.session_store.specs.declared.disk_format.DiskFormat.TheVariants.{Two};
ghost use Rattle.session_bytes.specs.Parts.{parts_of, pair_parts, board_parts, play_parts, record_part};

use super::Session;
use arrayvec::ArrayVec;
use bridge_table::{Record, record_at};
use session_bytes::{
    write_configuration, write_deal, write_empty, write_movement, write_pair, write_record,
};
use session_store::PAYLOAD_BYTES;

impl Session {
    /// The number of the session's parts, 1 to 494: the configuration, the movement, one for each pair, one for each board,
    /// and one for each board of each row's set.
    pub fn parts(&self) -> u32
        ensures count { result ≡ length (parts_of Two self.now) }
        ensures some { 1 ≤ result }
        ensures few { result ≤ 494 }
        ensures session { IsSession self.now }
    {
        self.is_session();
        let fields = self.config.fields();
        let plays = self.tables.len() * usize::from(fields.boards);
        (2 + fields.pairs.len() + self.deals.len() + plays) as u32
    }

    /// The record of a play by its index among the plays, if its row is live.
    fn play_at(&self, index: usize) -> Option<&Record>
        requires { index < length (play_parts Two self.now) }
        ensures part { record_part Two (unwrap_or (option_map plain_of (option_copied result)) (empty_record 0)) ≡ slice_index_or (play_parts Two self.now) index [] }
        ensures dealer { IfSome (option_copied result) (λ kept. kept.auction.dealer ≡ dealer_of kept.board) }
    {
        let boards = usize::from(self.config.fields().boards);
        let table = &self.tables[index / boards];
        record_at(table.as_slice(), index % boards)
    }

    /// Writes the part of a play by its index among the plays into an empty list.
    fn write_play(&self, index: usize, part: &mut ArrayVec<u8, PAYLOAD_BYTES>)
        requires within { index < length (play_parts Two self.now) }
        requires empty { part.old.items ≡ [] }
        ensures { part.new.items ≡ slice_index_or (play_parts Two self.now) index [] }
    {
        match self.play_at(index) {
            Some(kept) => write_record(kept, part),
            None => write_empty(part),
        }
    }

    /// Writes the part of a board or a play by its index among these into an empty list.
    fn write_from_boards(&self, index: usize, part: &mut ArrayVec<u8, PAYLOAD_BYTES>)
        requires within { index < length (board_parts Two self.now) }
        requires empty { part.old.items ≡ [] }
        ensures { part.new.items ≡ slice_index_or (board_parts Two self.now) index [] }
    {
        let boards = self.deals.len();
        if index < boards {
            write_deal(&self.deals[index], part);
        } else {
            self.write_play(index - boards, part);
        }
    }

    /// Writes the part of a pair, a board or a play by its index among these into an empty list.
    fn write_from_pairs(&self, index: usize, part: &mut ArrayVec<u8, PAYLOAD_BYTES>)
        requires within { index < length (pair_parts Two self.now) }
        requires empty { part.old.items ≡ [] }
        ensures { part.new.items ≡ slice_index_or (pair_parts Two self.now) index [] }
    {
        let pairs = self.config.fields().pairs.as_slice();
        if index < pairs.len() {
            write_pair(&pairs[index], part);
        } else {
            self.write_from_boards(index - pairs.len(), part);
        }
    }

    /// Clears `part`, and writes the part of the session of that index into it, counted from 0.
    pub fn write_part(&self, index: u32, part: &mut ArrayVec<u8, PAYLOAD_BYTES>)
        requires { index < length (parts_of Two self.now) }
        ensures { part.new.items ≡ slice_index_or (parts_of Two self.now) index [] }
    {
        part.clear();
        match index {
            0 => write_configuration(&self.config, self.round, part),
            1 => write_movement(self.config.fields().movement.rows(), part),
            _ => self.write_from_pairs(index as usize - 2, part),
        }
    }
}
