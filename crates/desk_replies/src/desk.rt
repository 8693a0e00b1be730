//! The desk: what stands beside the session.
ghost use Rattle.std.specs.Prelude.{◌≡◌, ◌<◌, ◌-◌, length, Some, None};
ghost use Rattle.std.specs.Option.{option_copied};
ghost use Rattle.session_rules.specs.Numbers.{IsTableNumber};
ghost use Rattle.desk_replies.specs.Desk.{with_disk, with_kept, new_desk, call_at, statement_at, is_soon, with_notice, without_notice, with_clock, set_call, with_call, is_said_with, with_statement, refusal_at, is_refusal_of, with_refusal};

use crate::kept::KeptDisks;
use crate::plain_text::{MOST_CHARACTERS, PlainText};
use crate::said::{ClaimRefusal, StandingClaim, Statement};
use session_rules::Player;

/// The most tables.
pub const TABLES: usize = 12;

/// The round's clock.
#[derive(Clone, Copy, Debug, PartialEq, Eq)]
pub struct RoundClock {
    /// When it was set, in seconds since the server began.
    pub begun: u32,
    /// For how many minutes.
    pub minutes: u8,
}

/// A call for the director from a table.
#[derive(Drop)]
pub struct TableCall {
    /// The table's number.
    pub table: u8,
    /// Who calls.
    pub player: Player,
    /// Since when, in seconds since the server began.
    pub since: u32,
    /// What he says.
    pub text: PlainText,
}

/// What stands beside the session, in the server's memory alone.
#[derive(Drop)]
pub struct Desk {
    /// The second at which the pages are shown no longer, since the server began.
    pub(crate) ends: u32,
    /// The name of the session's disk, where it is 1 to 200 characters that show themselves.
    pub(crate) disk: Option<PlainText>,
    /// What is kept on each disk, where that is known.
    pub(crate) kept: KeptDisks,
    /// The director's notice.
    pub(crate) notice: Option<PlainText>,
    /// When a notice was put up last, in seconds since the server began.
    pub(crate) noticed: Option<u32>,
    /// The round's clock.
    pub(crate) clock: Option<RoundClock>,
    /// The call of each table.
    pub(crate) calls: [Option<TableCall>; TABLES],
    /// What was said with the last claim at each table that had a statement.
    pub(crate) statements: [Option<Statement>; TABLES],
    /// Who refused the last claim at each table of which somebody said so.
    pub(crate) refusals: [Option<ClaimRefusal>; TABLES],
}

/// The index of a table among those of the desk.
fn index_of(table: u8) -> usize
    requires { IsTableNumber table }
    ensures index { result ≡ table - 1 }
    ensures within { result < TABLES }
{
    usize::from(table - 1)
}

impl Desk {
    /// Nothing stands beside a session on a disk of this name, which is shown up to that second since the server began.
    pub fn new(ends: u32, disk: &str) -> Desk
        ensures { result ≡ new_desk ends disk.now }
    {
        Desk {
            ends,
            disk: PlainText::read(1, MOST_CHARACTERS, disk.as_bytes()),
            kept: KeptDisks {
                first: None,
                second: None,
            },
            notice: None,
            noticed: None,
            clock: None,
            calls: [
                None, None, None, None, None, None, None, None, None, None, None, None,
            ],
            statements: [
                None, None, None, None, None, None, None, None, None, None, None, None,
            ],
            refusals: [
                None, None, None, None, None, None, None, None, None, None, None, None,
            ],
        }
    }

    /// From now on the session's disk has this name.
    pub fn name_disk(&mut self, disk: &str)
        ensures { self.new ≡ with_disk self.old disk.now }
    {
        self.disk = PlainText::read(1, MOST_CHARACTERS, disk.as_bytes());
    }

    /// From now on that is kept on the session's disks.
    pub fn note_kept(&mut self, kept: KeptDisks)
        ensures { self.new ≡ with_kept self.old kept }
    {
        self.kept = kept;
    }

    /// The calls of all tables, by the tables' numbers.
    pub(crate) fn calls(&self) -> &[Option<TableCall>]
        ensures calls { result.now ≡ self.now.calls }
        ensures twelve { length result.now ≡ TABLES }
    {
        &self.calls
    }

    /// The call of a table, if there is one.
    pub(crate) fn call_at(&self, table: u8) -> Option<&TableCall>
        requires { IsTableNumber table }
        ensures { option_copied result ≡ call_at self.now table }
    {
        self.calls[index_of(table)].as_ref()
    }

    /// The last statement at a table, if there was one.
    pub(crate) fn statement_at(&self, table: u8) -> Option<&Statement>
        requires { IsTableNumber table }
        ensures { option_copied result ≡ statement_at self.now table }
    {
        self.statements[index_of(table)].as_ref()
    }

    /// Whether a notice was put up in this second.
    pub(crate) fn is_soon(&self, at: u32) -> bool
        ensures { result ≡ is_soon at self.now.noticed }
    {
        self.noticed == Some(at)
    }

    /// Puts a notice up.
    pub(crate) fn put_notice(&mut self, at: u32, text: PlainText)
        ensures { self.new ≡ with_notice self.old at text }
    {
        self.notice = Some(text);
        self.noticed = Some(at);
    }

    /// Takes the notice down.
    pub(crate) fn drop_notice(&mut self)
        ensures { self.new ≡ without_notice self.old }
    {
        self.notice = None;
    }

    /// Sets the clock, or takes it down.
    pub(crate) fn set_clock(&mut self, clock: Option<RoundClock>)
        ensures { self.new ≡ with_clock self.old clock }
    {
        self.clock = clock;
    }

    /// Takes a call, unless there is one of its table already.
    pub(crate) fn put_call(&mut self, call: TableCall)
        requires { IsTableNumber call.table }
        ensures { self.new ≡ with_call self.old call }
    {
        if self.call_at(call.table).is_none() {
            let index = index_of(call.table);
            self.calls[index] = Some(call);
        }
    }

    /// Takes the call of a table down.
    pub(crate) fn drop_call(&mut self, table: u8)
        ensures { self.new ≡ set_call self.old table None }
    {
        let index = usize::from(table.saturating_sub(1));
        if index < TABLES {
            self.calls[index] = None;
        }
    }

    /// Whether something was said with a claim at a table.
    fn has_statement(&self, table: u8, claim: StandingClaim) -> bool
        requires { IsTableNumber table }
        ensures { result ≡ is_said_with claim (statement_at self.now table) }
    {
        match self.statement_at(table) {
            Some(statement) => statement.is_of(claim),
            None => false,
        }
    }

    /// Takes what is said with a claim at a table, unless something was said with it already.
    pub(crate) fn put_statement(&mut self, table: u8, statement: Statement)
        requires { IsTableNumber table }
        ensures { self.new ≡ with_statement self.old table statement }
    {
        if !self.has_statement(table, statement.claim) {
            self.statements[index_of(table)] = Some(statement);
        }
    }

    /// The last refusal that was said at a table, if there was one.
    pub(crate) fn refusal_at(&self, table: u8) -> Option<ClaimRefusal>
        requires { IsTableNumber table }
        ensures { result ≡ refusal_at self.now table }
    {
        self.refusals[index_of(table)]
    }

    /// Whether somebody said at a table that he refuses a claim.
    fn has_refusal(&self, table: u8, claim: StandingClaim) -> bool
        requires { IsTableNumber table }
        ensures { result ≡ is_refusal_of claim (refusal_at self.now table) }
    {
        match self.refusal_at(table) {
            Some(refusal) => refusal.claim.is(claim),
            None => false,
        }
    }

    /// Takes a refusal at a table, unless there is one of the same claim already.
    pub(crate) fn put_refusal(&mut self, table: u8, refusal: ClaimRefusal)
        requires { IsTableNumber table }
        ensures { self.new ≡ with_refusal self.old table refusal }
    {
        if !self.has_refusal(table, refusal.claim) {
            self.refusals[index_of(table)] = Some(refusal);
        }
    }
}
