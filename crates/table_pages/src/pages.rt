//! The pages, and the lines that they post.
ghost use Rattle.std.specs.Prelude.{◌≡◌, ◌<◌, ◌⊎◌, [], None, true, false, not, length, nat_lt, string_bytes, OnOk, OnErr, if◌then◌else◌};
ghost use Rattle.http_server.specs.Response.{IsBlank};
ghost use Rattle.http.specs.Request.{head_of};
ghost use Rattle.web_requests.specs.Filled.{IsText, IsUnavailable};
ghost use Rattle.web_requests.specs.Route.{route_for};
ghost use Rattle.table_pages.specs.Failing.{TellsState};
ghost use Rattle.table_pages.specs.WrongKeys.{with_more, CountsLines, CountsPosted};

use crate::host_names::HostNames;
use crate::line_server::LineServer;
use crate::page_texts::PageTexts;
use crate::seconds::Seconds;
use bridge_endings::Cache;
use bytes::Bytes;
use desk_replies::Desk;
use http::Request;
use http_server::{Response, Service};
use std::alloc::{AllocError, Global};
use table_server::LineSet;
use web_loop::LastingService;
use web_requests::{Kind, Refusal, Route, put_refusal, put_text, put_unavailable, route_of};

mod beside;
mod routes;
mod setting;
mod telling;
mod wishes;

use wishes::Wishes;

/// One wrong key, or none.
fn count_of(wrong: bool) -> u64
    ensures { result ≡ (if wrong then 1 else 0) }
{
    if wrong { 1 } else { 0 }
}

/// Fills a response with these lines, or where memory is refused with nothing.
fn put_or_none(response: &mut Response, text: &[u8])
    requires { IsBlank response.old }
    ensures { IsText Kind.Lines text.now response.new ⊎ IsUnavailable response.new }
{
    if put_text(response, Kind::Lines, text).is_err() {
        put_unavailable(response);
    }
}

/// A body of so many bytes is too long.
const TOO_MANY_BYTES: usize = 65_536;

/// The pages of one server, and what answers the lines that they post.
#[derive(Drop)]
pub struct TablePages<T: LineServer, K: Seconds> {
    alloc: Global,
    names: HostNames,
    texts: PageTexts,
    server: T,
    cache: Cache,
    /// How many wrong keys came.
    wrong: u64,
    /// Whether players are told of other tables.
    is_open: bool,
    /// What stands beside the session.
    desk: Desk,
    /// What tells the time.
    clock: K,
    /// What requests wish for.
    wishes: Wishes,
    /// The lines that tell the names of the players.
    people: Vec<u8>,
    ghost ready: { T.is_ready server ≡ true },
}

impl<T: LineServer, K: Seconds> TablePages<T, K> {
    ghost use Rattle.table_pages.specs.Responses.{TellsLines, TellsShort};

    /// Pages of these texts, at a server that goes by these names, with what stands beside its session.
    pub fn new(
        alloc: Global,
        names: HostNames,
        texts: PageTexts,
        server: T,
        cache: Cache,
        desk: Desk,
        clock: K,
    ) -> TablePages<T, K>
        requires { T.is_ready server ≡ true }
        ensures server { result.server ≡ server }
        ensures fixed { (result.names ≡ names) × (result.texts ≡ texts) }
        ensures begun { (result.wrong ≡ 0) × (result.is_open ≡ false) × (result.people.items ≡ []) }
        ensures beside { (result.desk ≡ desk) × (result.clock ≡ clock) }
        ensures wishes { (result.wishes.wish ≡ None) × (result.wishes.waits ≡ 0) }
    {
        TablePages {
            alloc,
            names,
            texts,
            server,
            cache,
            wrong: 0,
            is_open: false,
            desk,
            clock,
            wishes: Wishes::new(),
            people: Vec::new(alloc),
        }
    }

    /// Gives back what answers the lines.
    pub fn into_server(self) -> T
        ensures { result ≡ self.server }
    {
        let TablePages { server, .. } = self;
        server
    }

    /// Where a request goes.
    fn route(&self, request: &Request<Bytes>) -> Route
        ensures { result ≡ route_for (string_bytes self.now.names.host) (string_bytes self.now.names.alias) (head_of request.now) }
    {
        route_of(&self.names.host, &self.names.alias, request)
    }

    /// What answers the lines.
    pub fn server(&self) -> &T
        ensures { result.now ≡ self.now.server }
    {
        &self.server
    }

    /// Answers posted lines of that set, if they are fewer than 65,536 bytes.
    fn call_lines(
        &mut self,
        set: LineSet,
        body: &[u8],
        response: &mut Response,
    ) -> Result<(), AllocError>
        requires { IsBlank response.old }
        ensures lines { OnOk result (TellsShort (T.answers set) (nat_lt (length body.now) 65536) self.old.server body.now response.new self.new.server) }
        ensures counted { OnOk result (CountsPosted T.answers T.counts set self.old.server body.now self.new.server self.old.wrong self.new.wrong) }
        ensures fixed { (self.new.names ≡ self.old.names) × (self.new.texts ≡ self.old.texts) × (self.new.people ≡ self.old.people) × (self.new.wishes ≡ self.old.wishes) }
        ensures beside { (self.new.is_open ≡ self.old.is_open) × (self.new.desk ≡ self.old.desk) }
        ensures err { OnErr result (self.new ≡ self.old) }
    {
        if body.len() < TOO_MANY_BYTES {
            self.put_lines(set, body, response);
            Ok(())
        } else {
            put_refusal(response, Refusal::TooLong)
        }
    }

    /// Answers posted lines of that set. Where memory is refused once they were taken, the response says nothing.
    fn put_lines(&mut self, set: LineSet, body: &[u8], response: &mut Response)
        requires blank { IsBlank response.old }
        requires short { length body.now < 65536 }
        ensures lines { TellsLines (T.answers set) self.old.server body.now response.new self.new.server }
        ensures counted { CountsLines (T.counts set self.old.server body.now)
            (T.answers set self.old.server body.now None self.new.server) self.old.wrong self.new.wrong }
        ensures fixed { (self.new.names ≡ self.old.names) × (self.new.texts ≡ self.old.texts) × (self.new.people ≡ self.old.people) × (self.new.wishes ≡ self.old.wishes) }
        ensures beside { (self.new.is_open ≡ self.old.is_open) × (self.new.desk ≡ self.old.desk) }
    {
        match self.server.answer(set, self.alloc, &mut self.cache, body) {
            Some(replies) => {
                self.wrong = self.wrong.saturating_add(replies.wrong_keys);
                put_or_none(response, replies.text.as_slice());
            }
            None => put_unavailable(response),
        }
    }

    /// Fills a response with what is told, and counts so many wrong keys.
    fn put_told(
        &mut self,
        response: &mut Response,
        text: &[u8],
        wrong_keys: u64,
    ) -> Result<(), AllocError>
        requires { IsBlank response.old }
        ensures told { OnOk result (IsText Kind.Lines text.now response.new) }
        ensures counted { OnOk result (self.new.wrong ≡ with_more self.old.wrong wrong_keys) }
        ensures server { self.new.server ≡ self.old.server }
        ensures fixed { (self.new.names ≡ self.old.names) × (self.new.texts ≡ self.old.texts) × (self.new.people ≡ self.old.people) × (self.new.wishes ≡ self.old.wishes) }
        ensures beside { (self.new.is_open ≡ self.old.is_open) × (self.new.desk ≡ self.old.desk) }
        ensures err { OnErr result (self.new ≡ self.old) }
    {
        put_text(response, Kind::Lines, text)?;
        self.wrong = self.wrong.saturating_add(wrong_keys);
        Ok(())
    }

    /// Fills a response with what is told of the session, and counts so many wrong keys. Once the server has failed the response
    /// says nothing, since no disk may hold what would be told.
    fn put_state(
        &mut self,
        response: &mut Response,
        text: &[u8],
        wrong_keys: u64,
    ) -> Result<(), AllocError>
        requires { IsBlank response.old }
        ensures told { OnOk result (TellsState (T.failed self.old.server) text.now response.new) }
        ensures counted { OnOk result (self.new.wrong ≡ with_more self.old.wrong wrong_keys) }
        ensures server { self.new.server ≡ self.old.server }
        ensures fixed { (self.new.names ≡ self.old.names) × (self.new.texts ≡ self.old.texts) × (self.new.people ≡ self.old.people) × (self.new.wishes ≡ self.old.wishes) }
        ensures beside { (self.new.is_open ≡ self.old.is_open) × (self.new.desk ≡ self.old.desk) }
        ensures err { OnErr result (self.new ≡ self.old) }
    {
        if !self.server.has_failed() {
            return self.put_told(response, text, wrong_keys);
        }
        put_unavailable(response);
        self.wrong = self.wrong.saturating_add(wrong_keys);
        Ok(())
    }
}

impl<T: LineServer, K: Seconds> Service for TablePages<T, K> {
    ghost use Rattle.std.specs.Prelude.{◌≡◌, string_bytes};
    ghost use Rattle.http.specs.Request.{head_of, body_of};
    ghost use Rattle.table_pages.specs.Opened.{Opens};
    ghost use Rattle.table_pages.specs.Stands.{Stands};
    ghost use Rattle.web_requests.specs.Route.{route_for};
    ghost use Rattle.table_pages.specs.Responses.{Answering};
    ghost use Rattle.table_pages.specs.Site.{site_of};
    ghost use Rattle.table_pages.specs.Waits.{wish_of};
    ghost use Rattle.table_pages.specs.Keeping.{Keeps};
    ghost use Rattle.table_pages.specs.WrongKeys.{Counts};

    ghost answers = { λ old request response new.
        Answering T.answers T.failed T.places T.tables T.waits T.boards T.desks T.results (site_of old.texts old.names old.people.items) old.server request response new.server
        × (new.names ≡ old.names) × (new.texts ≡ old.texts)
        × Counts T.answers T.counts T.wrong_key T.wrong_at_boards T.wrong_at_desk (route_for (string_bytes old.names.host) (string_bytes old.names.alias) (head_of request))
        old.server (body_of request) new.server old.wrong new.wrong
        × Opens T.failed T.boards T.opens (route_for (string_bytes old.names.host) (string_bytes old.names.alias) (head_of request)) old.server old.is_open (body_of request) response new.is_open
        × Stands T.failed T.desks T.stands (K.shows old.clock) (route_for (string_bytes old.names.host) (string_bytes old.names.alias) (head_of request))
        old.server old.desk (body_of request) response new.desk
        × Keeps (wish_of T.waits (route_for (string_bytes old.names.host) (string_bytes old.names.alias) (head_of request)) old.server (body_of request)) old.wishes new.wishes
        × (new.people ≡ old.people) };

    fn call(
        &mut self,
        request: &Request<Bytes>,
        response: &mut Response,
    ) -> Result<(), AllocError> {
        let route = self.route(request);
        let wish = self.wish_of(route, request.body())?;
        self.answer(route, request.body().as_slice(), response)?;
        self.wishes.keep(wish);
        Ok(())
    }
}

impl<T: LineServer, K: Seconds> LastingService for TablePages<T, K> {
    ghost use Rattle.table_pages.specs.Limits.{ArePageLimits};

    ghost lasts = { λ pages. not (T.failed pages.server) };

    ghost offences = { λ pages. pages.wrong };

    ghost waits = { λ pages. pages.wishes.waits };

    ghost wish = { λ pages. pages.wishes.wish };

    ghost stays = { λ pages wish. T.stays pages.server pages.desk wish };

    ghost limits = { λ config. ArePageLimits config };

    fn lasts(&self) -> bool {
        !self.server.has_failed()
    }

    fn offences(&self) -> u64 {
        self.wrong
    }

    fn waits(&self) -> u64 {
        self.wishes.waits
    }

    fn wish(&self) -> Option<&Bytes> {
        self.wishes.wish.as_ref()
    }

    fn has_come(&self, wanted: &[u8]) -> bool {
        !self.server.is_still(&self.desk, wanted)
    }
}
