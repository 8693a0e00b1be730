//! Bytes served as they come: each line is answered once it is complete.
ghost use Rattle.std.specs.Prelude.{◌≡◌, ◌<◌, ◌≤◌, ◌+◌, ◌∷◌, [], length, false};
ghost use Rattle.line_text.specs.Streams.{stream};
ghost use Rattle.table_server.specs.Faulted.{FailsWithDisk};
ghost use Rattle.table_server.specs.Hearing.{Hearing, HearsMore};
ghost use Rattle.table_server.specs.Serving.{Fits};

use crate::asked::asked_in;
use crate::held_replies::HeldReplies;
use crate::line_set::LineSet;
use crate::wrong_keys::wrong_keys_in;
use bridge_endings::Cache;
use bridge_session::Session;
use line_replies::{LineFeed, MOST_BYTES, ServeFault};
use sector_disk::SectorDisk;
use session_store::Store;
use std::io::Write;

/// The lines that are read, the one that has begun, the replies that are held, and how many lines had a key that is nobody's.
#[derive(Drop)]
pub struct LineService {
    /// Which lines are read.
    pub(crate) set: LineSet,
    /// The line that has begun.
    pub(crate) feed: LineFeed,
    /// The replies that are held.
    pub(crate) held: HeldReplies,
    /// How many lines had a key that is nobody's.
    pub(crate) wrong_keys: u64,
}

impl LineService {
    /// Before the first byte that is served over this store, of which nothing is pending unless it has failed.
    pub fn begin<D: SectorDisk + Drop>(set: LineSet, store: &mut Store<D, Session>) -> LineService
        requires { store.old.failed ≡ false → store.old.pending ≡ [] }
        ensures set { result.set ≡ set }
        ensures fits { Fits result.held }
        ensures lines { result.held.served.lines ≡ 0 }
        ensures hearing { Hearing D.disk store.old [] store.new result [] }
        ensures faults { FailsWithDisk D.disk store.old store.new }
    {
        LineService {
            set,
            feed: LineFeed::new(),
            held: HeldReplies::begin(store),
            wrong_keys: 0,
        }
    }

    /// Takes the next byte, and answers the line that it completes.
    fn take_byte<D: SectorDisk + Drop, W: Write>(
        &mut self,
        byte: u8,
        store: &mut Store<D, Session>,
        cache: &mut Option<&mut Cache>,
        writer: &mut W,
    ) -> Result<(), ServeFault>
        requires fits { Fits self.old.held }
        requires few { self.old.held.served.lines < MOST_BYTES }
        ensures set { self.new.set ≡ self.old.set }
        ensures fits { Fits self.new.held }
        ensures lines { self.new.held.served.lines ≤ self.old.held.served.lines + 1 }
        ensures hears { HearsMore D.disk store.old self.old (byte ∷ []) store.new self.new (stream W.contents writer.old writer.new) result }
        ensures faults { FailsWithDisk D.disk store.old store.new }
    {
        match self.feed.take_byte(byte) {
            None => Ok(()),
            Some(line) => {
                let asked = asked_in(self.set, line.as_slice());
                let more = wrong_keys_in(store.state(), &asked);
                self.wrong_keys = self.wrong_keys.saturating_add(more);
                self.held.answer(asked, store, cache, writer)
            }
        }
    }

    /// Takes the next bytes, and answers the lines that they complete.
    pub fn take<D: SectorDisk + Drop, W: Write>(
        &mut self,
        piece: &[u8],
        store: &mut Store<D, Session>,
        cache: &mut Option<&mut Cache>,
        writer: &mut W,
    ) -> Result<(), ServeFault>
        requires { Fits self.old.held × (self.old.held.served.lines + length piece.now ≤ MOST_BYTES) }
        ensures set { self.new.set ≡ self.old.set }
        ensures fits { Fits self.new.held }
        ensures lines { self.new.held.served.lines ≤ self.old.held.served.lines + length piece.now }
        ensures hears { HearsMore D.disk store.old self.old piece.now store.new self.new (stream W.contents writer.old writer.new) result }
        ensures faults { FailsWithDisk D.disk store.old store.new }
    {
        for byte in piece {
            if let Err(fault) = self.take_byte(*byte, store, cache, writer) {
                return Err(fault);
            }
        }
        Ok(())
    }
}
