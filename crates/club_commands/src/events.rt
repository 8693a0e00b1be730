//! The commands `results` and `export` over several disks, whose sessions are the sections of one event.
ghost use Rattle.std.specs.Prelude.{◌≡◌, ◌<◌, ◌≤◌, ◌∷◌, ◌++◌, [], length, OnOk, IfOk, IfErr};
ghost use Rattle.line_text.specs.Streams.{stream};
ghost use Rattle.session_store.specs.declared.fault.StoreFault.TheVariants.{NoMemory};
ghost use Rattle.club_commands.specs.declared.fault.RunFault.TheVariants.{Store};
ghost use Rattle.club_commands.specs.Works.{IsRead, IsUnread};
ghost use Rattle.club_commands.specs.Events.{AreRead, IsUnreadSection, FailsReading, other_section, OverField, HasEvent};

use crate::copying::session_on;
use crate::event_texts::tell_event;
use crate::fault::{OtherSection, RunFault};
use crate::machine::Machine;
use bridge_session::Session;
use club_disk::{Access, lock_for, locked_disk};
use command_line::{DiskNames, EventAsked};
use event_ranking::{SectionsRefused, field_of};
use makeable_deals::Progress;
use session_store::StoreFault;
use std::alloc::Global;
use std::io::Write;

/// The session that the disk in a file holds. The file is locked meanwhile.
fn session_in<S: Machine>(rt: &S, alloc: Global, disk: &str) -> Result<Session, StoreFault>
    ensures read { IfOk result IsRead }
    ensures fault { IfErr result IsUnread }
{
    let lock = lock_for(rt, alloc, disk, Access::Read);
    session_on(alloc, locked_disk(rt, disk, Access::Read, &lock))
}

/// The same of the section of that number.
fn section_in<S: Machine>(
    rt: &S,
    alloc: Global,
    disk: &str,
    section: u8,
) -> Result<Session, RunFault>
    ensures read { IfOk result IsRead }
    ensures fault { IfErr result (IsUnreadSection section) }
{
    match session_in(rt, alloc, disk) {
        Ok(session) => Ok(session),
        Err(fault) => Err(RunFault::Section { section, fault }),
    }
}

/// Adds a section to those before it, unless memory is refused.
fn push_section(sections: &mut Vec<Session>, session: Session) -> Result<(), RunFault>
    ensures pushed { OnOk result (sections.new.items ≡ sections.old.items ++ session ∷ []) }
    ensures fault { IfErr result (λ fault. fault ≡ Store NoMemory) }
{
    sections
        .push(session)
        .or(Err(RunFault::Store(StoreFault::NoMemory)))
}

/// The sessions that the disks in files hold, in their order.
fn sections_in<S: Machine>(rt: &S, alloc: Global, disks: &[&str]) -> Result<Vec<Session>, RunFault>
    requires few { length disks.now ≤ 40 }
    ensures read { IfOk result (λ sections. AreRead (length disks.now) sections.items) }
    ensures fault { IfErr result (FailsReading (length disks.now)) }
{
    let mut sections = Vec::new(alloc);
    for index in 0..disks.len() {
        let session = section_in(rt, alloc, disks[index], index as u8 + 1)?;
        push_section(&mut sections, session)?;
    }
    Ok(sections)
}

/// The sections by their numbers.
fn other_section(refused: SectionsRefused) -> OtherSection
    requires few { refused.index < 40 }
    requires earlier { refused.earlier < refused.index }
    ensures { result ≡ other_section refused }
{
    OtherSection {
        section: refused.index as u8 + 1,
        earlier: refused.earlier as u8 + 1,
        difference: refused.difference,
    }
}

/// Writes what is asked for of sections, where they are one field.
fn over_field<W: Write>(
    alloc: Global,
    progress: Progress,
    sections: &[Session],
    asked: EventAsked,
    output: &mut W,
) -> Result<(), RunFault>
    requires few { length sections.now ≤ 40 }
    ensures { OverField asked sections.now (stream W.contents output.old output.new) result }
{
    match field_of(sections) {
        Ok(()) => tell_event(alloc, progress, sections, asked, output),
        Err(refused) => Err(RunFault::Field(other_section(refused))),
    }
}

/// Reads the sessions that the disks in files hold, to which nothing is written, and writes what is asked for of them as the sections of
/// one event.
pub fn run_event<S: Machine, W: Write>(
    rt: &S,
    alloc: Global,
    disks: &DiskNames<'_>,
    asked: EventAsked,
    output: &mut W,
) -> Result<(), RunFault>
    ensures { HasEvent asked (length disks.now.items) (stream W.contents output.old output.new) result }
{
    let sections = sections_in(rt, alloc, disks.as_slice())?;
    let progress = Progress::on(rt.errors());
    over_field(alloc, progress, sections.as_slice(), asked, output)
}
