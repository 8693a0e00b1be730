//! What is answered on each route.
ghost use Rattle.std.specs.Prelude.{◌≡◌, OnOk, OnErr};
ghost use Rattle.http_server.specs.Response.{IsBlank};
ghost use Rattle.line_replies.specs.ReplyTexts.{short_text};
ghost use Rattle.web_requests.specs.Filled.{IsText};
ghost use Rattle.table_pages.specs.Failing.{TellsState};
ghost use Rattle.table_pages.specs.FirstLine.{first_line};
ghost use Rattle.table_pages.specs.Opened.{Opens};
ghost use Rattle.table_pages.specs.People.{names_text};
ghost use Rattle.table_pages.specs.Responses.{Responds};
ghost use Rattle.table_pages.specs.Stands.{Stands};
ghost use Rattle.table_pages.specs.WrongKeys.{Counts, with_key};

use super::{TablePages, count_of};
use crate::line_server::LineServer;
use crate::people::names_text;
use crate::refused::put_refused;
use crate::seconds::Seconds;
use crate::waiting::split_body;
use http_server::Response;
use std::alloc::AllocError;
use table_server::{LineSet, ReplyText};
use web_requests::{Kind, Route, put_static};

impl<T: LineServer, K: Seconds> TablePages<T, K> {
    /// Answers a request on a route with a body.
    pub(super) fn answer(
        &mut self,
        route: Route,
        body: &[u8],
        response: &mut Response,
    ) -> Result<(), AllocError>
        requires { IsBlank response.old }
        ensures tells { OnOk result (Responds T.answers T.failed T.places T.tables T.waits T.boards T.desks T.results self.old.texts self.old.people.items route self.old.server body.now response.new self.new.server) }
        ensures counted { OnOk result (Counts T.answers T.counts T.wrong_key T.wrong_at_boards T.wrong_at_desk route self.old.server body.now self.new.server self.old.wrong self.new.wrong) }
        ensures opened { OnOk result (Opens T.failed T.boards T.opens route self.old.server self.old.is_open body.now response.new self.new.is_open) }
        ensures stands { OnOk result (Stands T.failed T.desks T.stands (K.shows self.old.clock) route self.old.server self.old.desk body.now response.new self.new.desk) }
        ensures fixed { (self.new.names ≡ self.old.names) × (self.new.texts ≡ self.old.texts) × (self.new.people ≡ self.old.people) × (self.new.wishes ≡ self.old.wishes) }
        ensures err { OnErr result (self.new ≡ self.old) }
    {
        match route {
            Route::Page => put_static(response, Kind::Page, self.texts.page),
            Route::TextsScript => put_static(response, Kind::Script, self.texts.texts_script),
            Route::SharedScript => put_static(response, Kind::Script, self.texts.shared_script),
            Route::TableScript => put_static(response, Kind::Script, self.texts.table_script),
            Route::BoardsScript => put_static(response, Kind::Script, self.texts.boards_script),
            Route::DeskScript => put_static(response, Kind::Script, self.texts.desk_script),
            Route::DirectorScript => put_static(response, Kind::Script, self.texts.director_script),
            Route::Style => put_static(response, Kind::Style, self.texts.style),
            Route::Lines => self.call_lines(LineSet::Protocol, body, response),
            Route::Correct => self.call_lines(LineSet::Corrections, body, response),
            Route::Place => self.put_place(body, response),
            Route::Tables => self.put_tables(body, response),
            Route::Boards => self.put_boards(body, response),
            Route::Results => self.put_results(body, response),
            Route::Desk => {
                self.put_desk(body, response);
                Ok(())
            }
            Route::Wait => self.put_wait(body, response),
            Route::Names => self.put_names(body, response),
            Route::Refused(refusal) => put_refused(&self.texts, refusal, response),
        }
    }

    /// Answers a key with what its player is told of his place.
    fn put_place(&mut self, key: &[u8], response: &mut Response) -> Result<(), AllocError>
        requires { IsBlank response.old }
        ensures told { OnOk result (TellsState (T.failed self.old.server) (T.places self.old.server key.now) response.new) }
        ensures counted { OnOk result (self.new.wrong ≡ with_key self.old.wrong (T.wrong_key self.old.server key.now)) }
        ensures server { self.new.server ≡ self.old.server }
        ensures fixed { (self.new.names ≡ self.old.names) × (self.new.texts ≡ self.old.texts) × (self.new.people ≡ self.old.people) × (self.new.wishes ≡ self.old.wishes) }
        ensures beside { (self.new.is_open ≡ self.old.is_open) × (self.new.desk ≡ self.old.desk) }
        ensures err { OnErr result (self.new ≡ self.old) }
    {
        let mut text = ReplyText::new();
        self.server.place(key, &mut text);
        let wrong = self.server.has_wrong_key(key);
        self.put_state(response, text.as_str().as_bytes(), count_of(wrong))
    }

    /// Answers the director's key with what is told of all tables.
    fn put_tables(&mut self, key: &[u8], response: &mut Response) -> Result<(), AllocError>
        requires { IsBlank response.old }
        ensures told { OnOk result (TellsState (T.failed self.old.server) (T.tables self.old.server key.now) response.new) }
        ensures counted { OnOk result (self.new.wrong ≡ with_key self.old.wrong (T.wrong_key self.old.server key.now)) }
        ensures server { self.new.server ≡ self.old.server }
        ensures fixed { (self.new.names ≡ self.old.names) × (self.new.texts ≡ self.old.texts) × (self.new.people ≡ self.old.people) × (self.new.wishes ≡ self.old.wishes) }
        ensures beside { (self.new.is_open ≡ self.old.is_open) × (self.new.desk ≡ self.old.desk) }
        ensures err { OnErr result (self.new ≡ self.old) }
    {
        let mut text = ReplyText::new();
        self.server.tables(key, &mut text);
        let wrong = self.server.has_wrong_key(key);
        self.put_state(response, text.as_str().as_bytes(), count_of(wrong))
    }

    /// Answers a request to wait, at once; its answer is held by who sends it.
    fn put_wait(&mut self, body: &[u8], response: &mut Response) -> Result<(), AllocError>
        requires { IsBlank response.old }
        ensures told { OnOk result (IsText Kind.Lines (short_text (T.waits self.old.server body.now)) response.new) }
        ensures counted { OnOk result (self.new.wrong ≡ with_key self.old.wrong (T.wrong_key self.old.server (first_line body.now))) }
        ensures server { self.new.server ≡ self.old.server }
        ensures fixed { (self.new.names ≡ self.old.names) × (self.new.texts ≡ self.old.texts) × (self.new.people ≡ self.old.people) × (self.new.wishes ≡ self.old.wishes) }
        ensures beside { (self.new.is_open ≡ self.old.is_open) × (self.new.desk ≡ self.old.desk) }
        ensures err { OnErr result (self.new ≡ self.old) }
    {
        let mut text = ReplyText::new();
        self.server.wait(body).push_to(&mut text);
        let wrong = self.server.has_wrong_key(split_body(body).0);
        self.put_told(response, text.as_str().as_bytes(), count_of(wrong))
    }

    /// Answers a key with the lines that tell the names of the players.
    fn put_names(&mut self, body: &[u8], response: &mut Response) -> Result<(), AllocError>
        requires { IsBlank response.old }
        ensures told { OnOk result (IsText Kind.Lines (names_text self.old.people.items (T.waits self.old.server body.now)) response.new) }
        ensures counted { OnOk result (self.new.wrong ≡ with_key self.old.wrong (T.wrong_key self.old.server (first_line body.now))) }
        ensures server { self.new.server ≡ self.old.server }
        ensures fixed { (self.new.names ≡ self.old.names) × (self.new.texts ≡ self.old.texts) × (self.new.people ≡ self.old.people) × (self.new.wishes ≡ self.old.wishes) }
        ensures beside { (self.new.is_open ≡ self.old.is_open) × (self.new.desk ≡ self.old.desk) }
        ensures err { OnErr result (self.new ≡ self.old) }
    {
        let reply = self.server.wait(body);
        let text = names_text(self.alloc, self.people.as_slice(), reply)?;
        let wrong = self.server.has_wrong_key(split_body(body).0);
        self.put_told(response, text.as_slice(), count_of(wrong))
    }
}
