//! Lines answered over a store. The replies to changes and bad lines are held until what was accepted is confirmed.
ghost use Rattle.std.specs.Prelude.{◌≡◌, ◌<◌, ◌≤◌, ◌+◌, ◌++◌, [], true, false, IfOk, IfErr};
ghost use Rattle.session_store.specs.Store.{Continues};
ghost use Rattle.bridge_session.specs.SessionKeeping.{session_keeping};
ghost use Rattle.line_text.specs.Streams.{stream, Written};
ghost use Rattle.table_server.specs.declared.asked.Asked.TheVariants.{Change, Told};
ghost use Rattle.line_replies.specs.declared.fault.ServeFault.TheVariants.{Write as WriteFault};
ghost use Rattle.table_server.specs.Answered.{disk_errors};
ghost use Rattle.line_replies.specs.ReplyTexts.{short_text};
ghost use Rattle.table_server.specs.Faulted.{FailsWithDisk};
ghost use Rattle.table_server.specs.Serving.{IsCounted, Fits, SettlesBy, Serving, HoldsOn, WorksOn, ServesOn, EndsOn, accepted_count};

use crate::asked::{Asked, Question};
use crate::question_reply::write_answer;
use crate::served::Served;
use crate::taking::take_change;
use arrayvec::ArrayString;
use bridge_endings::Cache;
use bridge_session::{Action, Session};
use line_replies::reply_text::SHORT_BYTES;
use line_replies::{MOST_BYTES, ServeFault, ShortReply, write_whole};
use sector_disk::SectorDisk;
use session_store::Store;
use std::io::Write;

/// The most lines that are answered together.
pub const HELD_LINES: usize = 64;

/// The room for their replies.
pub const HELD_BYTES: usize = SHORT_BYTES * HELD_LINES;

/// The replies to the lines that are held, and what was served so far.
#[derive(Drop)]
pub struct HeldReplies {
    /// The replies, in order.
    text: ArrayString<HELD_BYTES>,
    /// How many lines they answer.
    count: usize,
    /// What was served so far.
    served: Served,
}

/// Adds `ERR 40 Disk` for each of so many lines.
fn push_disk_errors(text: &mut ArrayString<HELD_BYTES>, lines: usize)
    requires empty { text.old.bytes ≡ [] }
    requires few { lines ≤ HELD_LINES }
    ensures { text.new.bytes ≡ disk_errors lines }
{
    for _ in 0..lines {
        ShortReply::Disk.push_to(text);
    }
}

/// How many actions were accepted with this reply.
fn accepted_count(reply: ShortReply) -> u32
    ensures count { result ≡ accepted_count reply }
    ensures few { result ≤ 1 }
{
    match reply {
        ShortReply::Done => 1,
        _ => 0,
    }
}

impl HeldReplies {
    /// Before the first line.
    fn new(failed: bool) -> HeldReplies
        ensures fits { Fits result }
        ensures text { result.text.bytes ≡ [] }
        ensures count { result.count ≡ 0 }
        ensures served { result.served ≡ record { lines = 0; accepted = 0; failed = failed } }
    {
        HeldReplies {
            text: ArrayString::new(),
            count: 0,
            served: Served {
                lines: 0,
                accepted: 0,
                failed,
            },
        }
    }

    /// Before the first line that is served over this store, of which nothing is pending unless it has failed.
    #[tactic(auto, using(crate::proofs::FaultLemmas::confirm_fails))]
    pub fn begin<D: SectorDisk + Drop>(store: &mut Store<D, Session>) -> HeldReplies
        requires { store.old.failed ≡ false → store.old.pending ≡ [] }
        ensures fits { Fits result }
        ensures lines { result.served.lines ≡ 0 }
        ensures serving { Serving D.disk store.old [] store.new result [] }
        ensures faults { FailsWithDisk D.disk store.old store.new }
    {
        match store.confirm() {
            Ok(()) => HeldReplies::new(false),
            Err(_) => HeldReplies::new(true),
        }
    }

    /// The store has failed: `ERR 40 Disk` answers each line that is held, and so many more.
    fn fail<W: Write>(&mut self, more: usize, writer: &mut W) -> Result<(), ServeFault>
        requires few { self.old.count + more ≤ HELD_LINES }
        requires counted { IsCounted self.old.served }
        ensures fits { Fits self.new }
        ensures served { self.new.served ≡ record self.old.served { failed = true } }
        ensures none_held { self.new.count ≡ 0 }
        ensures written { Written (stream W.contents writer.old writer.new) (disk_errors (self.old.count + more)) result }
        ensures fault { IfErr result (λ fault. fault ≡ WriteFault) }
    {
        let lines = self.count + more;
        self.served.failed = true;
        self.count = 0;
        self.text.clear();
        push_disk_errors(&mut self.text, lines);
        let result = write_whole(writer, self.text.as_str());
        self.text.clear();
        result
    }

    /// Writes the replies that are held, of which nothing is pending.
    fn release<D: SectorDisk + Drop, W: Write>(
        &mut self,
        store: &Store<D, Session>,
        writer: &mut W,
    ) -> Result<(), ServeFault>
        requires confirmed { store.now.pending ≡ [] }
        requires counted { IsCounted self.old.served }
        ensures fits { Fits self.new }
        ensures served { self.new.served ≡ self.old.served }
        ensures none_held { self.new.count ≡ 0 }
        ensures no_text { self.new.text.bytes ≡ [] }
        ensures written { Written (stream W.contents writer.old writer.new) self.old.text.bytes result }
        ensures fault { IfErr result (λ fault. fault ≡ WriteFault) }
    {
        let result = write_whole(writer, self.text.as_str());
        self.text.clear();
        self.count = 0;
        result
    }

    /// Confirms what was accepted, and writes the replies that are held; where that fails, their errors.
    #[tactic(auto, using(crate::proofs::FaultLemmas::confirm_fails))]
    fn settle<D: SectorDisk + Drop, W: Write>(
        &mut self,
        store: &mut Store<D, Session>,
        writer: &mut W,
    ) -> Result<(), ServeFault>
        requires few { self.old.count ≤ HELD_LINES }
        requires counted { IsCounted self.old.served }
        requires works { self.old.served.failed ≡ false }
        ensures fits { Fits self.new }
        ensures served { self.new.served ≡ record self.old.served { failed = self.new.served.failed } }
        ensures none_held { self.new.count ≡ 0 }
        ensures no_text { self.new.served.failed ≡ false → self.new.text.bytes ≡ [] }
        ensures continues { Continues session_keeping D.disk store.old [] store.new }
        ensures settled { SettlesBy D.disk self.new.served.failed store.old store.new self.old.text.bytes self.old.count
            (stream W.contents writer.old writer.new) result }
        ensures fault { IfErr result (λ fault. fault ≡ WriteFault) }
        ensures faults { FailsWithDisk D.disk store.old store.new }
    {
        let confirmed = store.confirm();
        match confirmed {
            Ok(()) => self.release(store, writer),
            Err(_) => self.fail(0, writer),
        }
    }

    /// Holds the reply to one line more, and at the 64th confirms and writes all.
    fn hold<D: SectorDisk + Drop, W: Write>(
        &mut self,
        reply: ShortReply,
        store: &mut Store<D, Session>,
        writer: &mut W,
    ) -> Result<(), ServeFault>
        requires fits { Fits self.old }
        requires works { self.old.served.failed ≡ false }
        ensures fits { Fits self.new }
        ensures served { self.new.served ≡ record self.old.served { failed = self.new.served.failed } }
        ensures serves { HoldsOn D.disk store.old (self.old.text.bytes ++ short_text reply) (self.old.count + 1) self.old.served.accepted
            store.new self.new (stream W.contents writer.old writer.new) result }
        ensures faults { FailsWithDisk D.disk store.old store.new }
    {
        reply.push_to(&mut self.text);
        self.count += 1;
        if self.count < HELD_LINES {
            return Ok(());
        }
        self.settle(store, writer)
    }

    /// Takes a change.
    fn change<D: SectorDisk + Drop, W: Write>(
        &mut self,
        action: &Action,
        store: &mut Store<D, Session>,
        writer: &mut W,
    ) -> Result<(), ServeFault>
        requires fits { Fits self.old }
        requires room { self.old.served.accepted < self.old.served.lines }
        requires works { self.old.served.failed ≡ false }
        ensures fits { Fits self.new }
        ensures lines { self.new.served.lines ≡ self.old.served.lines }
        ensures serves { WorksOn D.disk store.old self.old (Change action.now) store.new self.new (stream W.contents writer.old writer.new) result }
        ensures faults { FailsWithDisk D.disk store.old store.new }
    {
        match take_change(store, action) {
            Some(reply) => {
                self.served.accepted += accepted_count(reply);
                self.hold(reply, store, writer)
            }
            None => {
                self.served.accepted += 1;
                self.fail(1, writer)
            }
        }
    }

    /// Answers a question, once what was accepted is confirmed and the replies that are held are written.
    fn tell<D: SectorDisk + Drop, W: Write>(
        &mut self,
        question: Question,
        store: &mut Store<D, Session>,
        cache: &mut Option<&mut Cache>,
        writer: &mut W,
    ) -> Result<(), ServeFault>
        requires fits { Fits self.old }
        requires works { self.old.served.failed ≡ false }
        ensures fits { Fits self.new }
        ensures lines { self.new.served.lines ≡ self.old.served.lines }
        ensures serves { WorksOn D.disk store.old self.old (Told question) store.new self.new (stream W.contents writer.old writer.new) result }
        ensures faults { FailsWithDisk D.disk store.old store.new }
    {
        if let Err(fault) = self.settle(store, writer) {
            return Err(fault);
        }
        if self.served.failed {
            return self.fail(1, writer);
        }
        write_answer(store, question, cache, writer)
    }

    /// Answers a line that asks for this, or holds its reply.
    pub fn answer<D: SectorDisk + Drop, W: Write>(
        &mut self,
        asked: Asked,
        store: &mut Store<D, Session>,
        cache: &mut Option<&mut Cache>,
        writer: &mut W,
    ) -> Result<(), ServeFault>
        requires fits { Fits self.old }
        requires few { self.old.served.lines < MOST_BYTES }
        ensures fits { Fits self.new }
        ensures lines { self.new.served.lines ≡ self.old.served.lines + 1 }
        ensures serves { ServesOn D.disk store.old self.old asked store.new self.new (stream W.contents writer.old writer.new) result }
        ensures faults { FailsWithDisk D.disk store.old store.new }
    {
        self.served.lines += 1;
        if self.served.failed {
            return self.fail(1, writer);
        }
        match asked {
            Asked::Change(action) => self.change(&action, store, writer),
            Asked::Told(question) => self.tell(question, store, cache, writer),
            Asked::BadLine => self.hold(ShortReply::BadLine, store, writer),
            Asked::LongLine => self.hold(ShortReply::LongLine, store, writer),
        }
    }

    /// After the last line: confirms what was accepted, and writes the replies that are held.
    pub fn finish<D: SectorDisk + Drop, W: Write>(
        &mut self,
        store: &mut Store<D, Session>,
        writer: &mut W,
    ) -> Result<Served, ServeFault>
        requires { Fits self.old }
        ensures lines { IfOk result (λ served. served.lines ≡ self.old.served.lines) }
        ensures ends { EndsOn D.disk store.old self.old store.new (stream W.contents writer.old writer.new) result }
        ensures faults { FailsWithDisk D.disk store.old store.new }
    {
        if self.served.failed {
            return Ok(self.served);
        }
        if let Err(fault) = self.settle(store, writer) {
            return Err(fault);
        }
        Ok(self.served)
    }
}
