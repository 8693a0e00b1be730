//! What is answered from beside the session, and from what is over.
ghost use Rattle.std.specs.Prelude.{◌≡◌, ℕ, List, OnOk, OnErr};
ghost use Rattle.http_server.specs.Response.{IsBlank};
ghost use Rattle.table_pages.specs.Failing.{TellsState};
ghost use Rattle.table_pages.specs.Stands.{AnswersDesk};
ghost use Rattle.table_pages.specs.WrongKeys.{with_key};

use super::{TablePages, count_of, put_or_none};
use crate::line_server::LineServer;
use crate::seconds::Seconds;
use http_server::Response;
use std::alloc::AllocError;
use web_requests::put_unavailable;

impl<T: LineServer, K: Seconds> TablePages<T, K> {
    /// Answers what is posted to boards, and keeps whether players are told of other tables.
    pub(super) fn put_boards(
        &mut self,
        key: &[u8],
        response: &mut Response,
    ) -> Result<(), AllocError>
        requires { IsBlank response.old }
        ensures told { OnOk result (TellsState (T.failed self.old.server) (T.boards self.old.server self.old.is_open key.now) response.new) }
        ensures counted { OnOk result (self.new.wrong ≡ with_key self.old.wrong (T.wrong_at_boards self.old.server key.now)) }
        ensures server { self.new.server ≡ self.old.server }
        ensures fixed { (self.new.names ≡ self.old.names) × (self.new.texts ≡ self.old.texts) × (self.new.people ≡ self.old.people) × (self.new.wishes ≡ self.old.wishes) × (self.new.desk ≡ self.old.desk) }
        ensures opened { OnOk result (self.new.is_open ≡ T.opens self.old.server self.old.is_open key.now) }
        ensures err { OnErr result (self.new ≡ self.old) }
    {
        let Some(text) = self.boards(key) else {
            return Err(AllocError);
        };
        let is_open = self.opens(key);
        let wrong = self.server.has_wrong_key_at_boards(key);
        self.put_state(response, text.as_slice(), count_of(wrong))?;
        self.is_open = is_open;
        Ok(())
    }

    /// Answers a key with what its holder is told of the results.
    pub(super) fn put_results(
        &mut self,
        key: &[u8],
        response: &mut Response,
    ) -> Result<(), AllocError>
        requires { IsBlank response.old }
        ensures told { OnOk result ((text : List ℕ) × T.results self.old.server key.now text × TellsState (T.failed self.old.server) text response.new) }
        ensures counted { OnOk result (self.new.wrong ≡ with_key self.old.wrong (T.wrong_key self.old.server key.now)) }
        ensures server { self.new.server ≡ self.old.server }
        ensures fixed { (self.new.names ≡ self.old.names) × (self.new.texts ≡ self.old.texts) × (self.new.people ≡ self.old.people) × (self.new.wishes ≡ self.old.wishes) }
        ensures beside { (self.new.is_open ≡ self.old.is_open) × (self.new.desk ≡ self.old.desk) }
        ensures err { OnErr result (self.new ≡ self.old) }
    {
        let Some(text) = self.results(key) else {
            return Err(AllocError);
        };
        let wrong = self.server.has_wrong_key(key);
        self.put_state(response, text.as_slice(), count_of(wrong))
    }

    /// Takes what is posted to the desk, and answers it. Where memory is refused once it was taken, or the
    /// server has failed, the response says nothing.
    pub(super) fn put_desk(&mut self, body: &[u8], response: &mut Response)
        requires { IsBlank response.old }
        ensures desk { AnswersDesk T.failed T.desks T.stands (K.shows self.old.clock) self.old.server self.old.desk body.now response.new self.new.desk }
        ensures counted { self.new.wrong ≡ with_key self.old.wrong (T.wrong_at_desk self.old.server body.now) }
        ensures server { self.new.server ≡ self.old.server }
        ensures fixed { (self.new.names ≡ self.old.names) × (self.new.texts ≡ self.old.texts) × (self.new.people ≡ self.old.people) × (self.new.wishes ≡ self.old.wishes) }
        ensures open { self.new.is_open ≡ self.old.is_open }
    {
        let wrong = self.server.has_wrong_key_at_desk(body);
        let at = self.clock.seconds();
        let told = self.server.desk(&mut self.desk, self.alloc, at, body);
        self.wrong = self.wrong.saturating_add(count_of(wrong));
        if self.server.has_failed() {
            return put_unavailable(response);
        }
        match told {
            Some(text) => put_or_none(response, text.as_slice()),
            None => put_unavailable(response),
        }
    }
}
