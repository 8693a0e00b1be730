//! One turn of one connection.
ghost use Rattle.std.specs.Prelude.{◌≡◌, ◌≢◌, ◌⊎◌, ◌<◌, true, length, if◌then◌else◌};
ghost use Rattle.http_server.specs.Connection.{config_of, history};
ghost use Rattle.http_server.specs.Exchange.{Calls};
ghost use Rattle.web_loop.specs.Turns.{has_moved, is_moved, step_of, Receives, Sends, StepEnds, TurnEnds};

use crate::service::LastingService;
use http_server::Connection;
use std::io::{ErrorKind, Read, Write};

/// The most reads and writes of one turn.
const MOST_STEPS: usize = 64;

/// How a turn of a connection ended.
#[derive(Clone, Copy, Debug, PartialEq, Eq)]
pub enum Turn {
    /// The peer gives no more for now, or takes no more.
    Waits {
        /// Whether it read or wrote before.
        moved: bool,
    },
    /// It took as many steps as a turn may, or answered an offence, and has more to do.
    GoesOn,
    /// It answered a request that waits, of which nothing is sent yet.
    Holds,
    /// It is done, its peer is gone, or it has been silent for too long.
    Closes,
}

impl Turn {
    /// Whether the connection read, wrote, was interrupted, holds or closes, or has more to do.
    pub fn has_moved(self) -> bool
        ensures { result ≡ has_moved self }
    {
        match self {
            Turn::Waits { moved } => moved,
            _ => true,
        }
    }
}

/// What one step of a connection did.
#[derive(Clone, Copy)]
enum Step {
    /// It read or wrote.
    Moved,
    /// It was interrupted.
    Interrupted,
    /// The peer gives or takes nothing now.
    Blocked,
    /// It answered a request that waits.
    Held,
    /// It is done, or its peer is gone.
    Closed,
}

impl Step {
    /// Whether it read or wrote.
    fn is_moved(self) -> bool
        ensures { result ≡ is_moved self }
    {
        matches!(self, Step::Moved)
    }

    /// What a step did that failed so.
    fn failed(kind: ErrorKind) -> Step
        ensures { result ≡ step_of kind }
    {
        match kind {
            ErrorKind::WouldBlock => Step::Blocked,
            ErrorKind::Interrupted => Step::Interrupted,
            _ => Step::Closed,
        }
    }
}

/// Writes once of what is pending.
fn write_once<W: Write>(connection: &mut Connection, writer: &mut W) -> Step
    requires pending { 0 < length (history connection.old).pending }
    ensures written { Sends (history connection.old) (history connection.new) (W.contents writer.old) (W.contents writer.new) }
    ensures received { (history connection.new).received ≡ (history connection.old).received }
    ensures calls { (history connection.new).calls ≡ (history connection.old).calls }
    ensures moved { result ≡ Step.Moved → length (history connection.old).sent < length (history connection.new).sent }
    ensures ended { (history connection.new).ended ≡ (history connection.old).ended }
    ensures still { result ≢ Step.Moved → history connection.new ≡ history connection.old }
    ensures unheld { result ≢ Step.Held }
    ensures config { config_of connection.new ≡ config_of connection.old }
{
    match connection.write_to(writer) {
        Ok(0) => Step::Closed,
        Ok(_) => Step::Moved,
        Err(error) => Step::failed(error.kind()),
    }
}

/// Reads once.
fn read_once<R: Read>(connection: &mut Connection, reader: &mut R) -> Step
    ensures read { Receives (history connection.old) (history connection.new) (R.remaining reader.old) (R.remaining reader.new) }
    ensures sent { (history connection.new).sent ≡ (history connection.old).sent }
    ensures calls { (history connection.new).calls ≡ (history connection.old).calls }
    ensures moved { result ≡ Step.Moved → (length (history connection.old).received < length (history connection.new).received)
        ⊎ ((history connection.new).ended ≡ true) }
    ensures ended { (history connection.old).ended ≡ true → (history connection.new).ended ≡ true }
    ensures still { result ≢ Step.Moved → history connection.new ≡ history connection.old }
    ensures unheld { result ≢ Step.Held }
    ensures pending { (history connection.new).pending ≡ (history connection.old).pending }
    ensures config { config_of connection.new ≡ config_of connection.old }
{
    match connection.read_from(reader) {
        Ok(_) => Step::Moved,
        Err(error) => Step::failed(error.kind()),
    }
}

/// Answers what was received, and then writes once if something is pending, or else reads once; but nothing behind the answer to
/// a request that waits.
fn take_step<S: LastingService, R: Read, W: Write>(
    connection: &mut Connection,
    service: &mut S,
    reader: &mut R,
    writer: &mut W,
) -> Step
    ensures read { Receives (history connection.old) (history connection.new) (R.remaining reader.old) (R.remaining reader.new) }
    ensures written { Sends (history connection.old) (history connection.new) (W.contents writer.old) (W.contents writer.new) }
    ensures calls { Calls S.answers service.old service.new (history connection.old).calls (history connection.new).calls }
    ensures ends { StepEnds S.answers S.waits (config_of connection.old) result service.old service.new (history connection.old) (history connection.new) }
    ensures config { config_of connection.new ≡ config_of connection.old }
{
    let before = service.waits();
    connection.advance(service);
    if connection.is_done() {
        Step::Closed
    } else if service.waits() != before {
        Step::Held
    } else if connection.wants_write() {
        write_once(connection, writer)
    } else {
        read_once(connection, reader)
    }
}

/// How a turn ends that ends before it has to: the connection closes where it is done.
fn cut_short(done: bool) -> Turn
    ensures { result ≡ (if done then Turn.Closes else Turn.GoesOn) }
{
    match done {
        true => Turn::Closes,
        false => Turn::GoesOn,
    }
}

/// Reads, answers and writes, until the connection waits for its peer, is done, or had its share of this turn. Nothing is read
/// while something is pending.
///
/// It waits where the reader or the writer would block, and closes where it is done, at any other error than an interruption,
/// and where the writer takes nothing. Where an offence was answered, it ends once the answer is sent, and where a request that
/// waits was answered, before any of that answer is sent.
pub fn take_turn<S: LastingService, R: Read, W: Write>(
    connection: &mut Connection,
    service: &mut S,
    reader: &mut R,
    writer: &mut W,
) -> Turn
    ensures read { Receives (history connection.old) (history connection.new) (R.remaining reader.old) (R.remaining reader.new) }
    ensures written { Sends (history connection.old) (history connection.new) (W.contents writer.old) (W.contents writer.new) }
    ensures calls { Calls S.answers service.old service.new (history connection.old).calls (history connection.new).calls }
    ensures ends { TurnEnds S.answers S.waits (config_of connection.old) result service.old service.new (history connection.old) (history connection.new) }
    ensures config { config_of connection.new ≡ config_of connection.old }
{
    let before = service.offences();
    let mut moved = false;
    for _ in 0..MOST_STEPS {
        let step = take_step(connection, service, reader, writer);
        moved |= step.is_moved();
        match step {
            Step::Moved | Step::Interrupted => {}
            Step::Blocked => return Turn::Waits { moved },
            Step::Held => return Turn::Holds,
            Step::Closed => return Turn::Closes,
        }
        if service.offences() != before && !connection.wants_write() {
            return cut_short(connection.is_done());
        }
    }
    cut_short(connection.is_done())
}
