//! Pages over a session that two disks keep, as the command `web` shows them with `--copy`.
ghost use Rattle.std.specs.Prelude.{◌≡◌, ◌≤◌, true, length, string_bytes, IfErr, IfSome, OnOk};
ghost use Rattle.line_text.specs.Streams.{stream};
ghost use Rattle.session_pair.specs.Joining.{IsOne};
ghost use Rattle.table_pages.specs.Site.{site_of};
ghost use Rattle.club_commands.specs.Web.{HasNoRandom, IsUnshown};
ghost use Rattle.club_commands.specs.PairWeb.{lost_disk, ended_standing, pair_ended_by, begun_line, BeginsWith, IsNothingShown, ShowsPair, ShowsPairAt, ShowsPairOr, ShowsJoined, ShowsJoinedWith};

use crate::fault::{LostDisk, RunFault, SystemFault};
use crate::listed::refuse_list;
use crate::listening::listen_at;
use crate::machine::Host;
use crate::output::write_output;
use crate::pair_texts::{PairTexts, texts_of};
use crate::web::pages_over;
use crate::work::Shown;
use bridge_endings::Cache;
use bridge_session::Session;
use club_disk::ClubStore;
use command_line::WebHost;
use desk_replies::Desk;
use evening_commands::{EveningFault, has_pairs};
use pair_pages::{DiskNames, PairServer};
use sector_disk::SectorDisk;
use session_pair::{Joined, Judged};
use session_store::{PairStanding, Store, StoreFault};
use std::alloc::Global;
use std::hash::RandomState;
use std::io::Write;
use std::net::{Net, TcpListener, TcpStream};
use std::time::Clock;
use table_pages::{LineServer, Seconds, ServerClock, TablePages, show_minutes};

/// The disk, or the copy.
fn lost_disk(is_disk: bool) -> LostDisk
    ensures { result ≡ lost_disk is_disk }
{
    if is_disk {
        LostDisk::Disk
    } else {
        LostDisk::Copy
    }
}

/// How the showing of pages ended, by which disks are still kept.
fn ended_standing(
    standing: Option<PairStanding>,
    disk_first: bool,
    has_clock: bool,
) -> Result<(), RunFault>
    ensures { result ≡ ended_standing standing disk_first has_clock }
{
    match (standing, has_clock) {
        (None, _) => Err(RunFault::Store(StoreFault::Disk)),
        (Some(PairStanding::Level), true) => Ok(()),
        (Some(PairStanding::Level), false) => Err(RunFault::System(SystemFault::Clock)),
        (Some(PairStanding::FirstLost), _) => Err(RunFault::Lost(lost_disk(disk_first))),
        (Some(PairStanding::SecondLost), _) => Err(RunFault::Lost(lost_disk(!disk_first))),
    }
}

/// The same where nothing more may be told, or it may.
fn pair_ended(
    stopped: bool,
    standing: Option<PairStanding>,
    disk_first: bool,
    has_clock: bool,
) -> Result<(), RunFault>
    ensures { result ≡ pair_ended_by stopped standing disk_first has_clock }
{
    if stopped {
        Err(RunFault::Store(StoreFault::Disk))
    } else {
        ended_standing(standing, disk_first, has_clock)
    }
}

/// Shows pages over a pair for so many minutes, or until nothing more may be told. The fault is that, that a disk was lost
/// meanwhile, or that the clock cannot be read.
pub fn show_pair<
    N: Net<Listener = TcpListener, Stream = TcpStream> + Clock,
    A: SectorDisk + Drop,
    B: SectorDisk + Drop,
    K: Seconds,
>(
    rt: &N,
    alloc: Global,
    keys: RandomState,
    listener: &TcpListener,
    pages: &mut TablePages<PairServer<Store<A, Session>, Store<B, Session>>, K>,
    minutes: u16,
    disk_first: bool,
) -> Result<(), RunFault>
    ensures { ShowsPair A.disk B.disk (site_of pages.old.texts pages.old.names pages.old.people.items) disk_first
        pages.old.server pages.new.server result }
{
    let shown = show_minutes(rt, alloc, keys, listener, pages, minutes);
    let server = pages.server();
    pair_ended(
        server.has_failed(),
        server.standing(),
        disk_first,
        shown.is_ok(),
    )
}

/// Says how the disks stood to each other and where the pages are, and shows them for so many minutes over a pair.
fn show_said<N: Host, W: Write, K: Seconds>(
    rt: &N,
    alloc: Global,
    keys: RandomState,
    listener: &TcpListener,
    minutes: u16,
    judged: Judged,
    line: &str,
    pages: &mut TablePages<PairServer<ClubStore, ClubStore>, K>,
    output: &mut W,
) -> Result<(), RunFault>
    requires line { line.now ≡ begun_line judged (string_bytes pages.old.names.host) }
    ensures { ShowsPairAt judged (site_of pages.old.texts pages.old.names pages.old.people.items)
        pages.old.server pages.new.server (stream W.contents output.old output.new) result }
{
    match write_output(output, line) {
        Err(fault) => Err(fault),
        Ok(()) => show_pair(rt, alloc, keys, listener, pages, minutes, judged.disk_first),
    }
}

/// The same where there is a listener. What was found is handed in, since only so a clause can say what comes of it.
fn show_pair_heard<N: Host, W: Write, K: Seconds>(
    rt: &N,
    alloc: Global,
    found: Result<TcpListener, RunFault>,
    minutes: u16,
    judged: Judged,
    line: &str,
    pages: &mut TablePages<PairServer<ClubStore, ClubStore>, K>,
    output: &mut W,
) -> Result<(), RunFault>
    requires line { line.now ≡ begun_line judged (string_bytes pages.old.names.host) }
    ensures heard { OnOk found (ShowsPairOr HasNoRandom judged (site_of pages.old.texts pages.old.names pages.old.people.items)
        pages.old.server pages.new.server (stream W.contents output.old output.new) result) }
    ensures unheard { IfErr found (λ refused. IsNothingShown (λ fault. fault ≡ refused) (stream W.contents output.old output.new) result) }
{
    let listener = found?;
    match RandomState::new(rt) {
        Err(_) => Err(RunFault::System(SystemFault::Random)),
        Ok(keys) => show_said(
            rt, alloc, keys, &listener, minutes, judged, line, pages, output,
        ),
    }
}

/// Listens, and does the same.
fn show_pair_at<N: Host, W: Write, K: Seconds>(
    rt: &N,
    alloc: Global,
    host: &WebHost<'_>,
    minutes: u16,
    judged: Judged,
    line: &str,
    pages: &mut TablePages<PairServer<ClubStore, ClubStore>, K>,
    output: &mut W,
) -> Result<(), RunFault>
    requires line { line.now ≡ begun_line judged (string_bytes pages.old.names.host) }
    ensures { ShowsPairOr (IsUnshown host.now) judged (site_of pages.old.texts pages.old.names pages.old.people.items)
        pages.old.server pages.new.server (stream W.contents output.old output.new) result }
{
    let found = listen_at(rt, host);
    show_pair_heard(rt, alloc, found, minutes, judged, line, pages, output)
}

/// Shows pages that begin so over a session that was opened on two disks, with what stands beside it.
fn show_begun<N: Host, W: Write>(
    rt: &N,
    alloc: Global,
    shown: &Shown<'_>,
    joined: Joined<ClubStore>,
    texts: PairTexts,
    disks: DiskNames,
    cache: Cache,
    desk: Desk,
    output: &mut W,
) -> Result<(), RunFault>
    requires works { IsOne joined.first joined.second }
    requires begins { BeginsWith shown.now.host shown.now.names joined.judged joined.first.state texts }
    ensures { ShowsJoinedWith shown.now.texts shown.now.host (stream W.contents output.old output.new) result shown.now.names
        disks joined.judged joined.first joined.second }
{
    let Joined {
        first,
        second,
        judged,
    } = joined;
    let PairTexts {
        names,
        line,
        people,
    } = texts;
    let server = PairServer::new(first, second, disks, rt.errors());
    let (host, texts, minutes) = (&shown.host, shown.texts, shown.minutes);
    let (open, clock) = (host.open_boards, ServerClock::new(rt));
    let mut pages = pages_over(
        alloc, names, texts, people, server, cache, desk, open, clock,
    );
    let line = line.as_str();
    show_pair_at(rt, alloc, host, minutes, judged, line, &mut pages, output)
}

/// The same, or memory was refused for what they begin with.
fn show_joined_with<N: Host, W: Write>(
    rt: &N,
    alloc: Global,
    shown: &Shown<'_>,
    joined: Joined<ClubStore>,
    disks: DiskNames,
    cache: Cache,
    desk: Desk,
    output: &mut W,
) -> Result<(), RunFault>
    requires works { IsOne joined.first joined.second }
    requires few { IfSome shown.now.names (λ names. length names.now ≤ 24) }
    ensures { ShowsJoinedWith shown.now.texts shown.now.host (stream W.contents output.old output.new) result shown.now.names
        disks joined.judged joined.first joined.second }
{
    match texts_of(alloc, shown, joined.judged, &joined.first) {
        Err(_) => Err(RunFault::Store(StoreFault::NoMemory)),
        Ok(texts) => show_begun(rt, alloc, shown, joined, texts, disks, cache, desk, output),
    }
}

/// Shows pages for so many minutes over a session that was opened on two disks. A list with another number of pairs than the
/// session has is refused.
pub fn show_joined<N: Host, W: Write>(
    rt: &N,
    alloc: Global,
    shown: &Shown<'_>,
    joined: Joined<ClubStore>,
    disks: DiskNames,
    cache: Cache,
    desk: Desk,
    output: &mut W,
) -> Result<(), RunFault>
    requires works { IsOne joined.first joined.second }
    ensures { ShowsJoined shown.now.texts shown.now.host (stream W.contents output.old output.new) result shown.now.names
        disks joined.judged joined.first joined.second }
{
    if has_pairs(shown.names, joined.first.state().config()) {
        return show_joined_with(rt, alloc, shown, joined, disks, cache, desk, output);
    }
    refuse_list(EveningFault::OtherPairs, output)
}
