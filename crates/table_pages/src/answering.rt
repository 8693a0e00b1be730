//! Lines that came in one request, answered over a store.
ghost use Rattle.std.specs.Prelude.{◌≡◌, ◌<◌, [], false, length, option_map, IfSome};
ghost use Rattle.table_server.specs.Faulted.{FailsWithDisk};
ghost use Rattle.table_pages.specs.Answered.{AnswersBody, AnswersLines, CountsKeys, has_failed, is_settled, wrong_key_told, wrong_key_at_boards, wrong_key_at_desk, place_told, tables_told, boards_told, opens_told, kept_on, desks_told, stands_told, wait_told, IsStill};
ghost use Rattle.page_replies.specs.ToldResults.{results_told};

use crate::line_server::{LineServer, Replies};
use crate::waiting;
use board_replies::{opened_by, told_boards};
use bridge_endings::Cache;
use bridge_session::Session;
use desk_replies::{Desk, KeptDisks, KeptOn, answer_desk};
use line_replies::ShortReply;
use page_replies::{is_wrong_key, push_place, push_tables, told_results};
use sector_disk::SectorDisk;
use session_store::Store;
use std::alloc::Global;
use table_server::{LineSet, ReplyText, serve_lines};

/// Answers the lines of a body of fewer than 65,536 bytes, which are of that set, by what `serve_lines` writes for them, and counts
/// their wrong keys: what was accepted is confirmed on the disk before its reply stands in the text, and nothing is left pending in
/// a store that works. `None` where memory was refused for the text.
pub fn answer_lines<D: SectorDisk + Drop>(
    store: &mut Store<D, Session>,
    set: LineSet,
    alloc: Global,
    cache: &mut Cache,
    body: &[u8],
) -> Option<Replies>
    requires settled { store.old.failed ≡ false → store.old.pending ≡ [] }
    requires short { length body.now < 65536 }
    ensures answered { AnswersBody D.disk set store.old body.now (option_map (λ replies. replies.text.items) result) store.new }
    ensures counted { IfSome result (λ replies. CountsKeys set store.old body.now replies.wrong_keys) }
    ensures settled { store.new.failed ≡ false → store.new.pending ≡ [] }
    ensures faults { FailsWithDisk D.disk store.old store.new }
{
    let mut unread = body;
    let mut text = Vec::new(alloc);
    match serve_lines(set, store, Some(cache), &mut unread, &mut text) {
        Ok(lines) => Some(Replies {
            text,
            wrong_keys: lines.wrong_keys,
        }),
        Err(_) => None,
    }
}

/// What is kept on the disk of a store.
pub fn kept_on<D: SectorDisk + Drop>(store: &Store<D, Session>) -> KeptOn
    ensures { result ≡ kept_on store.now }
{
    KeptOn {
        epoch: store.epoch(),
        records: store.records(),
    }
}

impl<D: SectorDisk + Drop> LineServer for Store<D, Session> {
    ghost is_ready = { λ store. is_settled store.failed store.pending };

    ghost failed = { λ store. has_failed store };

    ghost answers = { λ set old body text new. AnswersLines D.disk set old body text new };

    ghost counts = { λ set store body count. CountsKeys set store body count };

    ghost wrong_key = { λ store key. wrong_key_told store key };

    ghost wrong_at_boards = { λ store bytes. wrong_key_at_boards store bytes };

    ghost wrong_at_desk = { λ store bytes. wrong_key_at_desk store bytes };

    ghost places = { λ store key. place_told store key };

    ghost tables = { λ store key. tables_told store key };

    ghost boards = { λ store is_open key. boards_told store is_open key };

    ghost opens = { λ store is_open key. opens_told store is_open key };

    ghost desks = { λ store desk at body. desks_told store desk at body };

    ghost stands = { λ store desk at body. stands_told store desk at body };

    ghost waits = { λ store body. wait_told store body };

    ghost stays = { λ store desk body. IsStill store desk body };

    ghost results = { λ store key text. results_told store key text };

    fn answer(
        &mut self,
        set: LineSet,
        alloc: Global,
        cache: &mut Cache,
        body: &[u8],
    ) -> Option<Replies> {
        answer_lines(self, set, alloc, cache, body)
    }

    fn has_wrong_key(&self, key: &[u8]) -> bool {
        is_wrong_key(self.state(), key)
    }

    fn has_wrong_key_at_boards(&self, bytes: &[u8]) -> bool {
        board_replies::has_wrong_key(self.state(), bytes)
    }

    fn has_wrong_key_at_desk(&self, bytes: &[u8]) -> bool {
        desk_replies::has_wrong_key(self.state(), bytes)
    }

    fn place(&self, key: &[u8], text: &mut ReplyText) {
        push_place(text, self.state(), key);
    }

    fn tables(&self, key: &[u8], text: &mut ReplyText) {
        push_tables(text, self.state(), key);
    }

    fn boards(&self, alloc: Global, is_open: bool, key: &[u8]) -> Option<Vec<u8>> {
        told_boards(self.state(), alloc, is_open, key)
    }

    fn opens(&self, is_open: bool, key: &[u8]) -> bool {
        opened_by(self.state(), is_open, key)
    }

    fn desk(&self, desk: &mut Desk, alloc: Global, at: u32, body: &[u8]) -> Option<Vec<u8>> {
        desk.note_kept(KeptDisks {
            first: Some(kept_on(self)),
            second: None,
        });
        answer_desk(self.state(), desk, alloc, at, body)
    }

    fn wait(&self, body: &[u8]) -> ShortReply {
        waiting::wait_reply(self.state(), body)
    }

    fn is_still(&self, desk: &Desk, body: &[u8]) -> bool {
        waiting::is_told_still(self.state(), desk, body)
    }

    fn results(&self, alloc: Global, key: &[u8]) -> Option<Vec<u8>> {
        told_results(self.state(), alloc, key)
    }

    fn has_failed(&self) -> bool {
        Store::has_failed(self)
    }
}
