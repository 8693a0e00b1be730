//! What answers lines over a session that two disks keep.
ghost use Rattle.std.specs.Prelude.{◌≡◌, ◌<◌, true, false, length, IfSome};
ghost use Rattle.session_pair.specs.Telling.{shown_of};
ghost use Rattle.session_store.specs.Pair.{standing_of};
ghost use Rattle.page_replies.specs.WrongKey.{is_wrong_key};
ghost use Rattle.page_replies.specs.Place.{place_text};
ghost use Rattle.page_replies.specs.Tables.{tables_text};
ghost use Rattle.line_replies.specs.KeyWord.{key_of_word};
ghost use Rattle.page_replies.specs.ToldResults.{ResultsTo};
ghost use Rattle.board_replies.specs.Asked.{has_wrong_key as asks_boards_wrongly};
ghost use Rattle.board_replies.specs.Told.{boards_text, opened_by};
ghost use Rattle.desk_replies.specs.Asked.{has_wrong_key as asks_desk_wrongly};
ghost use Rattle.desk_replies.specs.Told.{desk_text, desk_after};
ghost use Rattle.table_pages.specs.Waits.{wait_reply, IsToldStill};
ghost use Rattle.pair_pages.specs.Pair.{pair_of, told_text, are_settled, desk_of, kept_of, AnswersPair, CountsInPair};

use crate::answering::serve_twice;
use crate::disk_names::DiskNames;
use board_replies::{opened_by, told_boards};
use bridge_endings::Cache;
use bridge_session::Session;
use desk_replies::{Desk, KeptDisks, answer_desk};
use line_replies::ShortReply;
use page_replies::{is_wrong_key, push_place, push_tables, told_results};
use sector_disk::SectorDisk;
use session_pair::shown_state;
use session_store::{PairStanding, Store, pair_standing};
use std::alloc::Global;
use std::io::{Eprint, Stderr};
use table_pages::{LineServer, Replies, kept_on};
use table_server::{LineSet, ReplyText};

/// Two stores of one session, each on a disk of its own.
#[derive(Drop)]
pub struct PairServer<S: Drop, T: Drop> {
    first: S,
    second: T,
    names: DiskNames,
    /// Where it is said at once that a disk is lost.
    errors: Stderr,
    /// Whether nothing more may be told.
    stopped: bool,
}

/// Says how the disks stand now, where that is not what was said before. No clause speaks of what standard error takes.
fn tell_lost(errors: Stderr, before: &str, line: &str) {
    if before != line {
        let _ = errors.eprint(line);
    }
}

impl<A: SectorDisk + Drop, B: SectorDisk + Drop> PairServer<Store<A, Session>, Store<B, Session>> {
    /// The two stores of a pair that was opened, of which some state may be told, and what the director is told of their disks, and
    /// standard error at once where one is lost.
    pub fn new(
        first: Store<A, Session>,
        second: Store<B, Session>,
        names: DiskNames,
        errors: Stderr,
    ) -> PairServer<Store<A, Session>, Store<B, Session>>
        ensures first { result.first ≡ first }
        ensures second { result.second ≡ second }
        ensures names { result.names ≡ names }
        ensures begun { result.stopped ≡ false }
    {
        PairServer {
            first,
            second,
            names,
            errors,
            stopped: false,
        }
    }

    /// Which disks are still kept; `None` where a call of each has failed.
    pub fn standing(&self) -> Option<PairStanding>
        ensures { result ≡ standing_of self.now.first.failed self.now.second.failed }
    {
        pair_standing(&self.first, &self.second)
    }

    /// The session that is shown: that of a side that works.
    pub fn session(&self) -> &Session
        ensures { result.now ≡ shown_of self.now.first self.now.second }
    {
        shown_state(&self.first, &self.second)
    }

    /// Answers the lines of a body of fewer than 65,536 bytes, which are of that set, once both stores were served them and the
    /// pair is settled. `None` where memory was refused for the text, or nothing may be told, now or any more.
    fn serve(
        &mut self,
        set: LineSet,
        alloc: Global,
        cache: &mut Cache,
        body: &[u8],
    ) -> Option<Replies>
        requires ready { are_settled (pair_of self.old.first self.old.second self.old.stopped) ≡ true }
        requires short { length body.now < 65536 }
        ensures answers { AnswersPair A.disk B.disk set (pair_of self.old.first self.old.second self.old.stopped) body.now
            (told_text result) (pair_of self.new.first self.new.second self.new.stopped) }
        ensures counts { IfSome result (λ replies.
            CountsInPair set (pair_of self.old.first self.old.second self.old.stopped) body.now replies.wrong_keys) }
        ensures ready { are_settled (pair_of self.new.first self.new.second self.new.stopped) ≡ true }
        ensures names { self.new.names ≡ self.old.names }
    {
        if self.stopped {
            return None;
        }
        let before = self.names.lost_line(self.standing());
        let served = serve_twice(&mut self.first, &mut self.second, set, alloc, cache, body);
        self.stopped = served.stopped;
        tell_lost(self.errors, before, self.names.lost_line(self.standing()));
        served.replies
    }

    /// How a request to wait with this body is answered.
    fn reply_to_wait(&self, body: &[u8]) -> ShortReply
        ensures { result ≡ wait_reply (shown_of self.now.first self.now.second).configuration body.now }
    {
        if self.first.has_failed() {
            return self.second.wait(body);
        }
        self.first.wait(body)
    }

    /// Whether what was told last, as such a body says, is told still.
    fn is_told_still(&self, desk: &Desk, body: &[u8]) -> bool
        ensures still { result ≡ true → IsToldStill (shown_of self.now.first self.now.second) desk.now body.now }
        ensures other { result ≡ false → ¬ (IsToldStill (shown_of self.now.first self.now.second) desk.now body.now) }
    {
        if self.first.has_failed() {
            return self.second.is_still(desk, body);
        }
        self.first.is_still(desk, body)
    }

    /// What is kept on the disks, in the order in which the director is told their names.
    fn kept(&self) -> KeptDisks
        ensures { result ≡ kept_of self.now.names self.now.first self.now.second }
    {
        let (first, second) = (Some(kept_on(&self.first)), Some(kept_on(&self.second)));
        if self.names.is_named_first(self.standing()) {
            KeptDisks { first, second }
        } else {
            KeptDisks {
                first: second,
                second: first,
            }
        }
    }

    /// Gives both stores back.
    pub fn into_stores(self) -> (Store<A, Session>, Store<B, Session>)
        ensures first { result.0 ≡ self.first }
        ensures second { result.1 ≡ self.second }
    {
        let PairServer { first, second, .. } = self;
        (first, second)
    }
}

impl<A: SectorDisk + Drop, B: SectorDisk + Drop> LineServer
    for PairServer<Store<A, Session>, Store<B, Session>> {
    ghost is_ready = { λ pair. are_settled (pair_of pair.first pair.second pair.stopped) };

    ghost failed = { λ pair. pair.stopped };

    ghost answers = { λ set old body text new.
        AnswersPair A.disk B.disk set (pair_of old.first old.second old.stopped) body text (pair_of new.first new.second new.stopped) };

    ghost counts = { λ set pair body count. CountsInPair set (pair_of pair.first pair.second pair.stopped) body count };

    ghost wrong_key = { λ pair key. is_wrong_key (shown_of pair.first pair.second).configuration key };

    ghost wrong_at_boards = { λ pair bytes. asks_boards_wrongly (shown_of pair.first pair.second).configuration bytes };

    ghost wrong_at_desk = { λ pair bytes. asks_desk_wrongly (shown_of pair.first pair.second).configuration bytes };

    ghost places = { λ pair key. place_text (shown_of pair.first pair.second) key };

    ghost tables = { λ pair key. tables_text (shown_of pair.first pair.second) key };

    ghost boards = { λ pair is_open key. boards_text (shown_of pair.first pair.second) is_open key };

    ghost opens = { λ pair is_open key. opened_by (shown_of pair.first pair.second) is_open key };

    ghost desks = { λ pair desk at body. desk_text (shown_of pair.first pair.second) (desk_of pair.names pair.first pair.second desk) at body };

    ghost stands = { λ pair desk at body. desk_after (shown_of pair.first pair.second) (desk_of pair.names pair.first pair.second desk) at body };

    ghost waits = { λ pair body. wait_reply (shown_of pair.first pair.second).configuration body };

    ghost stays = { λ pair desk body. IsToldStill (shown_of pair.first pair.second) desk body };

    ghost results = { λ pair key text. ResultsTo (shown_of pair.first pair.second) (key_of_word key) text };

    fn answer(
        &mut self,
        set: LineSet,
        alloc: Global,
        cache: &mut Cache,
        body: &[u8],
    ) -> Option<Replies> {
        self.serve(set, alloc, cache, body)
    }

    fn has_wrong_key(&self, key: &[u8]) -> bool {
        is_wrong_key(self.session(), key)
    }

    fn has_wrong_key_at_boards(&self, bytes: &[u8]) -> bool {
        board_replies::has_wrong_key(self.session(), bytes)
    }

    fn has_wrong_key_at_desk(&self, bytes: &[u8]) -> bool {
        desk_replies::has_wrong_key(self.session(), bytes)
    }

    fn place(&self, key: &[u8], text: &mut ReplyText) {
        push_place(text, self.session(), key);
    }

    fn tables(&self, key: &[u8], text: &mut ReplyText) {
        push_tables(text, self.session(), key);
    }

    fn boards(&self, alloc: Global, is_open: bool, key: &[u8]) -> Option<Vec<u8>> {
        told_boards(self.session(), alloc, is_open, key)
    }

    fn opens(&self, is_open: bool, key: &[u8]) -> bool {
        opened_by(self.session(), is_open, key)
    }

    fn desk(&self, desk: &mut Desk, alloc: Global, at: u32, body: &[u8]) -> Option<Vec<u8>> {
        desk.name_disk(self.names.told(self.standing()));
        desk.note_kept(self.kept());
        answer_desk(self.session(), desk, alloc, at, body)
    }

    fn wait(&self, body: &[u8]) -> ShortReply {
        self.reply_to_wait(body)
    }

    fn is_still(&self, desk: &Desk, body: &[u8]) -> bool {
        self.is_told_still(desk, body)
    }

    fn results(&self, alloc: Global, key: &[u8]) -> Option<Vec<u8>> {
        told_results(self.session(), alloc, key)
    }

    fn has_failed(&self) -> bool {
        self.stopped
    }
}
