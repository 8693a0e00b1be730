//! A file that is made for its owner alone: what stood in its place is kept. What becomes of a file no clause can say, and tests
//! show it.
ghost use Rattle.std.specs.Prelude.{◌≡◌, ◌*◌};

use crate::disk_lock::OWNER_ONLY;
use crate::moving_aside::move_aside;
use std::alloc::Global;
use std::fs::{File, OpenOptions};
use std::io::{self, ErrorKind};
use std::os::unix::fs::OpenOptionsExt;
use std::rt::Files;

/// The permission bits of a file that is made: its owner may read and write it, and nobody else.
fn owner_bits() -> u32
    ensures { result ≡ 6 * 64 }
{
    OWNER_ONLY
}

/// Makes an empty file of that name for its owner alone. What stood there first gets the name `NAME.1`, or the first such number
/// that is free; at an error it has its name.
pub fn new_file<S: Files<File = File>>(rt: &S, alloc: Global, name: &str) -> io::Result<File> {
    let mut options = OpenOptions::new();
    options.write(true).create_new(true).mode(owner_bits());
    match options.open(rt, name) {
        Err(error) if error.kind() == ErrorKind::AlreadyExists => {
            move_aside(rt, alloc, name)?;
            options.open(rt, name)
        }
        made => made,
    }
}
