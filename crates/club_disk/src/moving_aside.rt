//! A file in which a disk is to be made: what stood there is kept. What becomes of a file no clause can say, and tests show it.
ghost use Rattle.std.specs.Prelude.{◌≡◌, true, IfErr};
ghost use Rattle.sector_disk.specs.Runs.{Quiet};
ghost use Rattle.club_disk.specs.Stored.{IsOpening};

use crate::disk_lock::lock_new;
use bridge_session::Session;
use sector_disk::{FileDisk, SectorDisk};
use session_store::{StoreFault, is_same_state, read_state};
use std::alloc::Global;
use std::fs::File;
use std::io::{self, ErrorKind};
use std::rt::Files;

/// Whether a disk holds a session of which nothing is accepted: one that is as its configuration begins it. Nothing is written.
fn holds_an_opening<D: SectorDisk>(alloc: Global, disk: &mut D) -> bool
    ensures opening { D.disk.honest disk.old → result ≡ true → IsOpening (D.disk.reads disk.old) }
    ensures quiet { Quiet D.disk disk.old disk.new }
{
    let Ok(first) = read_state::<D, Session>(alloc, disk) else {
        return false;
    };
    let Ok(opening) = Session::new(alloc, first.state.into_config()) else {
        return false;
    };
    match read_state::<D, Session>(alloc, disk) {
        Ok(held) => is_same_state(&held.state, &opening),
        Err(_) => false,
    }
}

/// Whether nothing is lost where a file is written over: it is empty, or a disk of whose session nothing is accepted.
fn is_spare<S: Files<File = File>>(rt: &S, alloc: Global, disk: &str, file: &File) -> bool {
    match file.metadata() {
        Ok(metadata) if metadata.len() == 0 => true,
        Ok(_) => match FileDisk::open(rt, disk) {
            Ok(mut found) => holds_an_opening(alloc, &mut found),
            Err(_) => false,
        },
        Err(_) => false,
    }
}

/// Gives a file the first name that is free among `NAME.1`, `NAME.2` and so on, in place of its own: no file that is there is
/// written over. At an error it has its name.
pub fn move_aside<S: Files<File = File>>(rt: &S, alloc: Global, name: &str) -> io::Result<()> {
    for number in 1..=u16::MAX {
        let aside = format!(in alloc; "{name}.{number}")?;
        match rt.hard_link(name, aside.as_str()) {
            Ok(()) => {
                return match rt.remove_file(name) {
                    Ok(()) => Ok(()),
                    Err(error) => {
                        let _ = rt.remove_file(aside.as_str());
                        Err(error)
                    }
                };
            }
            Err(error) if error.kind() == ErrorKind::AlreadyExists => {}
            Err(error) => return Err(error),
        }
    }
    Err(io::Error::from(ErrorKind::AlreadyExists))
}

/// Locks a file in which a disk is to be made, once what stood there, if it is worth that, has another name. One that is not
/// there is made, empty, for its owner alone. The fault is `Disk`: the file cannot be had, another run has locked it, or it
/// cannot have another name, and then it is left as it is.
pub fn lock_spare<S: Files<File = File>>(
    rt: &S,
    alloc: Global,
    disk: &str,
) -> Result<File, StoreFault>
    ensures fault { IfErr result (λ fault. fault ≡ StoreFault.Disk) }
{
    let found = lock_new(rt, disk)?;
    if is_spare(rt, alloc, disk, &found) {
        return Ok(found);
    }
    move_aside(rt, alloc, disk).or(Err(StoreFault::Disk))?;
    let made = lock_new(rt, disk)?;
    if is_spare(rt, alloc, disk, &made) {
        Ok(made)
    } else {
        Err(StoreFault::Disk)
    }
}
