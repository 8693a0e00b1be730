//! What pages over two disks begin with.
ghost use Rattle.std.specs.Prelude.{◌≡◌, ◌≤◌, length, string_bytes, IfOk, IfSome};
ghost use Rattle.club_commands.specs.PairWeb.{level_line, begun_line, BeginsWith};

use crate::listening::{listening_line, names_of};
use crate::web::people_of;
use crate::work::Shown;
use club_disk::ClubStore;
use session_pair::Judged;
use std::alloc::{AllocError, Global};
use table_pages::HostNames;

/// The line that says how the disks stood to each other.
fn level_text(was_level: bool, disk_first: bool) -> &'static str
    ensures { result.now ≡ level_line was_level disk_first }
{
    match (was_level, disk_first) {
        (true, _) => "copy is level\n",
        (false, true) => "copy brought up to date\n",
        (false, false) => "disk brought up to date\n",
    }
}

/// The lines that say how the disks stood to each other, and where the pages are.
fn pair_line(alloc: Global, judged: Judged, host: &str) -> Result<String, AllocError>
    ensures { IfOk result (λ line. string_bytes line ≡ begun_line judged host.now) }
{
    let listening = listening_line(alloc, host)?;
    let mut line = String::from_str(alloc, level_text(judged.was_level, judged.disk_first))?;
    line.push_str(listening.as_str())?;
    Ok(line)
}

/// What pages over two disks begin with.
#[derive(Drop)]
pub struct PairTexts {
    /// The names by which browsers may ask for them.
    pub names: HostNames,
    /// The lines that say how the disks stood to each other, and where the pages are.
    pub line: String,
    /// The lines of the players' names.
    pub people: Vec<u8>,
}

/// What pages begin with over a session that was opened on two disks, of which the first has this store.
pub fn texts_of(
    alloc: Global,
    shown: &Shown<'_>,
    judged: Judged,
    first: &ClubStore,
) -> Result<PairTexts, AllocError>
    requires few { IfSome shown.now.names (λ names. length names.now ≤ 24) }
    ensures { IfOk result (BeginsWith shown.now.host shown.now.names judged first.now.state) }
{
    let names = names_of(alloc, &shown.host)?;
    let line = pair_line(alloc, judged, names.host())?;
    let people = people_of(alloc, shown.names, first)?;
    Ok(PairTexts {
        names,
        line,
        people,
    })
}
