//! The files that the command `evening` keeps beside its disk: the configuration and the slips. Both have keys, and are for their
//! owner alone; what stood in their place is kept. No clause can say what becomes of a file, and tests show it.
ghost use Rattle.std.specs.Prelude.{◌≤◌, length};
ghost use Rattle.club_commands.specs.Evening.{KeepsConfig, KeepsSlips};
ghost use Rattle.evening_commands.specs.Evenings.{WritesConfig};
ghost use Rattle.evening_commands.specs.Making.{IntoFile, WritesSlipsAt};

use crate::evenings::ended;
use crate::fault::RunFault;
use crate::machine::Machine;
use bridge_config::Config;
use club_disk::new_file;
use evening_commands::{EveningFault, MadeEvening, config_into, slips_into};
use std::alloc::Global;
use std::fs::File;
use std::io;

/// Makes the file beside a disk whose name ends so.
fn file_beside<S: Machine>(rt: &S, alloc: Global, disk: &str, end: &str) -> io::Result<File> {
    let name = format!(in alloc; "{disk}{end}")?;
    new_file(rt, alloc, name.as_str())
}

/// Writes the configuration to `DISK.txt`.
fn write_config_file<S: Machine>(
    rt: &S,
    alloc: Global,
    disk: &str,
    config: &Config,
) -> Result<(), EveningFault>
    ensures { IntoFile (λ file. WritesConfig file config.now) result }
{
    config_into(config, file_beside(rt, alloc, disk, ".txt"))
}

/// Writes the slips to `DISK.slips.html`.
fn write_slips_file<S: Machine>(
    rt: &S,
    alloc: Global,
    disk: &str,
    evening: &MadeEvening,
    address: &str,
) -> Result<(), EveningFault>
    requires { length address.now ≤ 100 }
    ensures { IntoFile (WritesSlipsAt evening.now.config evening.now.names.items address.now) result }
{
    let made = file_beside(rt, alloc, disk, ".slips.html");
    slips_into(&evening.config, evening.names.as_slice(), address, made)
}

/// Keeps the configuration of an evening in `DISK.txt`. The fault is that it cannot be written.
pub fn keep_config<S: Machine>(
    rt: &S,
    alloc: Global,
    disk: &str,
    config: &Config,
) -> Result<(), RunFault>
    ensures { KeepsConfig config.now result }
{
    ended(write_config_file(rt, alloc, disk, config))
}

/// Keeps the slips of an evening, whose pages are at that address, in `DISK.slips.html`. The fault is that they cannot be written.
pub fn keep_slips<S: Machine>(
    rt: &S,
    alloc: Global,
    disk: &str,
    evening: &MadeEvening,
    address: &str,
) -> Result<(), RunFault>
    requires { length address.now ≤ 100 }
    ensures { KeepsSlips evening.now address.now result }
{
    ended(write_slips_file(rt, alloc, disk, evening, address))
}
