//! Pages for browsers, as the command `web` shows them.
ghost use Rattle.std.specs.Prelude.{true, ◌≡◌, ◌≤◌, [], false, length, string_bytes, OnOk, IfOk, IfErr, IfSome};
ghost use Rattle.line_text.specs.Streams.{stream};
ghost use Rattle.table_pages.specs.Site.{site_of};
ghost use Rattle.club_commands.specs.declared.fault.RunFault.TheVariants.{System};
ghost use Rattle.club_commands.specs.declared.fault.SystemFault.TheVariants.{Random};
ghost use Rattle.club_disk.specs.Stored.{Leads};
ghost use Rattle.evening_commands.specs.People.{people_text};
ghost use Rattle.club_commands.specs.Web.{HasNoRandom, listening_line, ended_by, ShowsPages, IsNoneShown, ShowsAt, IsUnshown, ShowsWith, ShowsOther, ShowsListed};

use crate::fault::{RunFault, SystemFault};
use crate::listed::refuse_list;
use crate::listening::{listen_at, listening_line, names_of};
use crate::machine::Host;
use crate::output::write_output;
use crate::work::{Misfit, Shown};
use bridge_endings::Cache;
use bridge_session::Session;
use club_disk::{ClubDisk, ClubStore, Left, with_disk};
use command_line::WebHost;
use desk_replies::Desk;
use evening_commands::{EveningFault, has_pairs, people_text};
use evening_draft::PairNames;
use sector_disk::SectorDisk;
use session_store::{Store, StoreFault};
use std::alloc::{AllocError, Global};
use std::hash::RandomState;
use std::io::{self, Write};
use std::net::{Net, TcpListener, TcpStream};
use std::time::Clock;
use table_pages::{
    HostNames, LineServer, PageTexts, Seconds, ServerClock, TablePages, show_minutes,
};

/// How the showing of pages ended, by whether the store has failed and by what the clock answered, which are handed in, since
/// only so a clause can say what comes of them.
fn ended(failed: bool, shown: io::Result<()>) -> Result<(), RunFault>
    ensures { result ≡ ended_by failed shown }
{
    if failed {
        return Err(RunFault::Store(StoreFault::Disk));
    }
    match shown {
        Ok(()) => Ok(()),
        Err(_) => Err(RunFault::System(SystemFault::Clock)),
    }
}

/// Shows pages for so many minutes, or until the store fails. The fault is that the store failed, or that the clock cannot be
/// read.
pub fn show_pages<
    N: Net<Listener = TcpListener, Stream = TcpStream> + Clock,
    D: SectorDisk + Drop,
    K: Seconds,
>(
    rt: &N,
    alloc: Global,
    keys: RandomState,
    listener: &TcpListener,
    pages: &mut TablePages<Store<D, Session>, K>,
    minutes: u16,
) -> Result<(), RunFault>
    requires { pages.old.server.failed ≡ false }
    ensures { ShowsPages D.disk (site_of pages.old.texts pages.old.names pages.old.people.items) pages.old.server pages.new.server result }
{
    let shown = show_minutes(rt, alloc, keys, listener, pages, minutes);
    ended(pages.server().has_failed(), shown)
}

/// Says where the pages are and shows them for so many minutes over a store, where there is a listener. What was found is handed
/// in, since only so a clause can say what comes of it.
fn show_heard<N: Host, W: Write, K: Seconds>(
    rt: &N,
    alloc: Global,
    found: Result<TcpListener, RunFault>,
    minutes: u16,
    line: &str,
    pages: &mut TablePages<ClubStore, K>,
    output: &mut W,
) -> Result<(), RunFault>
    requires works { pages.old.server.failed ≡ false }
    requires line { line.now ≡ listening_line (string_bytes pages.old.names.host) }
    ensures heard { OnOk found (ShowsAt HasNoRandom (site_of pages.old.texts pages.old.names pages.old.people.items)
        pages.old.server pages.new.server (stream W.contents output.old output.new) result) }
    ensures unheard { IfErr found (λ refused. IsNoneShown (λ fault. fault ≡ refused)
        pages.old.server pages.new.server (stream W.contents output.old output.new) result) }
{
    let listener = found?;
    let keys = RandomState::new(rt).or(Err(RunFault::System(SystemFault::Random)))?;
    write_output(output, line)?;
    show_pages(rt, alloc, keys, &listener, pages, minutes)
}

/// Listens, says where, and shows pages for so many minutes over a store.
fn listen_and_show<N: Host, W: Write, K: Seconds>(
    rt: &N,
    alloc: Global,
    host: &WebHost<'_>,
    minutes: u16,
    line: &str,
    pages: &mut TablePages<ClubStore, K>,
    output: &mut W,
) -> Result<(), RunFault>
    requires works { pages.old.server.failed ≡ false }
    requires line { line.now ≡ listening_line (string_bytes pages.old.names.host) }
    ensures { ShowsAt (IsUnshown host.now) (site_of pages.old.texts pages.old.names pages.old.people.items)
        pages.old.server pages.new.server (stream W.contents output.old output.new) result }
{
    show_heard(rt, alloc, listen_at(rt, host), minutes, line, pages, output)
}

/// The pages of these texts over what answers lines, by this clock, with the lines of the players' names and what stands beside the
/// session, where players are told of other tables or not.
pub fn pages_over<L: LineServer, K: Seconds>(
    alloc: Global,
    names: HostNames,
    texts: PageTexts,
    people: Vec<u8>,
    server: L,
    cache: Cache,
    desk: Desk,
    open_boards: bool,
    clock: K,
) -> TablePages<L, K>
    requires { L.is_ready server ≡ true }
    ensures server { result.server ≡ server }
    ensures names { result.names ≡ names }
    ensures texts { result.texts ≡ texts }
    ensures people { result.people ≡ people }
    ensures beside { (result.is_open ≡ open_boards) × (result.desk ≡ desk) }
{
    let mut pages = TablePages::new(alloc, names, texts, server, cache, desk, clock);
    pages.show_names(people);
    if open_boards {
        pages.open_boards();
    }
    pages
}

/// The lines that tell the names of the players of a store's session.
pub fn people_of(
    alloc: Global,
    names: Option<&[PairNames]>,
    store: &ClubStore,
) -> Result<Vec<u8>, AllocError>
    requires { IfSome names (λ names. length names.now ≤ 24) }
    ensures { IfOk result (λ people. people.items ≡ people_text names.entry store.now.state.configuration.pairs) }
{
    let fields = store.state().config().fields();
    people_text(alloc, names, fields.pairs.as_slice())
}

/// Shows pages over a store, with what stands beside its session, and hands its disk out.
fn show_named<N: Host, W: Write>(
    rt: &N,
    alloc: Global,
    shown: &Shown<'_>,
    store: ClubStore,
    cache: Cache,
    desk: Desk,
    output: &mut W,
) -> Left<ClubDisk, RunFault>
    requires works { store.failed ≡ false }
    requires none_pending { store.pending ≡ [] }
    requires few { IfSome shown.now.names (λ names. length names.now ≤ 24) }
    ensures { Leads (ShowsWith shown.now.texts shown.now.host (stream W.contents output.old output.new) result.ended shown.now.names)
        store result.disk }
{
    let Ok(names) = names_of(alloc, &shown.host) else {
        return with_disk(store, Err(RunFault::Store(StoreFault::NoMemory)));
    };
    let Ok(line) = listening_line(alloc, names.host()) else {
        return with_disk(store, Err(RunFault::Store(StoreFault::NoMemory)));
    };
    let Ok(people) = people_of(alloc, shown.names, &store) else {
        return with_disk(store, Err(RunFault::Store(StoreFault::NoMemory)));
    };
    let (host, texts, minutes) = (&shown.host, shown.texts, shown.minutes);
    let open = host.open_boards;
    let clock = ServerClock::new(rt);
    let mut pages = pages_over(alloc, names, texts, people, store, cache, desk, open, clock);
    let line = line.as_str();
    let ended = listen_and_show(rt, alloc, host, minutes, line, &mut pages, output);
    with_disk(pages.into_server(), ended)
}

/// The same where the list has another number of pairs than the session: it is refused, or left out.
fn show_misfit<N: Host, W: Write>(
    rt: &N,
    alloc: Global,
    shown: &Shown<'_>,
    store: ClubStore,
    cache: Cache,
    desk: Desk,
    output: &mut W,
) -> Left<ClubDisk, RunFault>
    requires works { store.failed ≡ false }
    requires none_pending { store.pending ≡ [] }
    ensures { Leads (ShowsOther shown.now.texts shown.now.host (stream W.contents output.old output.new) result.ended shown.now.misfit)
        store result.disk }
{
    match shown.misfit {
        Misfit::Refused => {
            let ended = refuse_list(EveningFault::OtherPairs, output);
            with_disk(store, ended)
        }
        Misfit::LeftOut => {
            let own = Shown {
                names: None,
                ..*shown
            };
            show_named(rt, alloc, &own, store, cache, desk, output)
        }
    }
}

/// Shows pages for so many minutes over a store, with what stands beside its session, and hands its disk out.
pub fn show_over<N: Host, W: Write>(
    rt: &N,
    alloc: Global,
    shown: &Shown<'_>,
    store: ClubStore,
    cache: Cache,
    desk: Desk,
    output: &mut W,
) -> Left<ClubDisk, RunFault>
    requires works { store.failed ≡ false }
    requires none_pending { store.pending ≡ [] }
    ensures { Leads (ShowsListed shown.now.texts shown.now.host (stream W.contents output.old output.new) result.ended
        shown.now.misfit shown.now.names) store result.disk }
{
    if has_pairs(shown.names, store.state().config()) {
        return show_named(rt, alloc, shown, store, cache, desk, output);
    }
    show_misfit(rt, alloc, shown, store, cache, desk, output)
}
