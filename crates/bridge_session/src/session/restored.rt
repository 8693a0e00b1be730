//! A session read back from its parts.
ghost use Rattle.std.specs.Prelude.{◌≡◌, ◌≢◌, ◌↔◌, ◌*◌, length, map, IsTrue, IfOk, IfSome, IfNone, IsErrOf};
ghost use Rattle.session_rules.specs.State.{SessionValue};
ghost use Rattle.session_rules.specs.StateRange.{IsSession};
ghost use Rattle.session_bytes.specs.Head.{IsRound, board_part_count, HasHead};
ghost use Rattle.session_bytes.specs.Parts.{AreOfNoSession, HasRulings, parts_of, board_parts};
ghost use Rattle.bridge_session.specs.KeptSession.{new_table};

use super::Session;
use crate::opening::{Room, room_of};
use arrayvec::ArrayVec;
use bridge_config::Config;
use session_bytes::{Head, read_deals, read_head, read_tables};
use session_store::{DiskFormat, PAYLOAD_BYTES, PartsFault};
use std::alloc::Global;

/// Whether there are as many parts as a session of the configuration has for its boards and its plays.
fn are_as_many(config: &Config, parts: &[ArrayVec<u8, PAYLOAD_BYTES>]) -> bool
    ensures { IsTrue result ↔ (length parts.now ≡ board_part_count config.now) }
{
    let fields = config.fields();
    let boards = usize::from(fields.boards);
    let count = usize::from(fields.movement.shape().sets) * boards;
    parts.len() == count + fields.movement.rows().len() * boards
}

/// The session of the configuration in the round whose boards and plays the parts of a format state, in the room of such a
/// session; `None` where they are those of none. It takes no memory.
fn read_boards(
    format: DiskFormat,
    head: Head,
    parts: &[ArrayVec<u8, PAYLOAD_BYTES>],
    room: Room,
) -> Option<Session>
    requires round { IsRound head.config head.round }
    requires count { length parts.now ≡ board_part_count head.config }
    requires deals { length room.deals.items ≡ head.config.movement.shape.sets * head.config.boards }
    requires tables { map (λ table. table.items) room.tables.items ≡ map (new_table head.config.boards) head.config.movement.rows }
    ensures state { IfSome result (λ s. (s.configuration ≡ head.config) × (s.round ≡ head.round)) }
    ensures parts { IfSome result (λ s. board_parts format s ≡ map (λ part. part.items) parts.now) }
    ensures session { IfSome result IsSession }
    ensures rulings { IfSome result (HasRulings format) }
    ensures other { IfNone result (AreOfNoSession format head.config head.round (map (λ part. part.items) parts.now)) }
{
    let mut deals = room.deals;
    let mut tables = room.tables;
    let fields = head.config.fields();
    let (of_boards, of_plays) = parts.split_at(deals.len());
    read_deals(of_boards, deals.as_mut_slice())?;
    read_tables(
        format,
        fields.scoring,
        of_plays,
        fields.movement.rows(),
        fields.boards,
        deals.as_slice(),
        head.round,
        tables.as_mut_slice(),
    )?;
    Some(Session {
        config: head.config,
        round: head.round,
        deals,
        tables,
    })
}

impl Session {
    /// The session that the parts of a format were written of, in the first format one without averages. `Bad` where they are not exactly
    /// those of such a session, `Memory` where it is out of memory, of which it takes none before the configuration, the round and the
    /// number of the parts are read.
    pub fn from_parts(
        alloc: Global,
        format: DiskFormat,
        parts: &[ArrayVec<u8, PAYLOAD_BYTES>],
    ) -> Result<Session, PartsFault>
        ensures parts { IfOk result (λ s. parts_of format s ≡ map (λ part. part.items) parts.now) }
        ensures session { IfOk result IsSession }
        ensures rulings { IfOk result (HasRulings format) }
        ensures bad { IsErrOf result PartsFault.Bad → (s : SessionValue) → IsSession s → HasRulings format s → parts_of format s ≢ map (λ part. part.items) parts.now }
        ensures memory { IsErrOf result PartsFault.Memory → HasHead (map (λ part. part.items) parts.now) }
    {
        let Some(head) = read_head(parts) else {
            return Err(PartsFault::Bad);
        };
        let pairs = head.config.fields().pairs.len();
        let (_, of_boards) = parts.split_at(2 + pairs);
        if !are_as_many(&head.config, of_boards) {
            return Err(PartsFault::Bad);
        }
        let Ok(room) = room_of(alloc, &head.config) else {
            return Err(PartsFault::Memory);
        };
        match read_boards(format, head, of_boards, room) {
            Some(session) => Ok(session),
            None => Err(PartsFault::Bad),
        }
    }
}
