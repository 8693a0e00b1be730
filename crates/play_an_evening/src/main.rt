//! A small use of the session's libraries: an evening of two tables in one process, over a disk in memory.
//!
//! The session begins by the configuration of `examples/rows.txt`. The lines of standard input are served over it as
//! `bridge_club script` serves them over a disk in a file, and the replies are written.
#![tactic(auto)]

use anyhow::Context;
use bridge_config::read_config;
use bridge_session::Session;
use sector_disk::MemoryDisk;
use session_store::{Store, format};
use std::io::{Read, Write};
use table_server::serve;
use test_texts::TWO_TABLES;

/// The sectors that a store uses.
const SECTORS: u32 = 2048;

fn main(rt: HostRuntime) -> Result<(), anyhow::Error> {
    let alloc = rt.alloc();
    let config = read_config(TWO_TABLES.as_bytes())
        .ok()
        .context("a configuration")?;
    let session = Session::new(alloc, config).ok().context("a session")?;
    let empty = MemoryDisk::new(alloc, SECTORS).ok().context("a disk")?;
    let disk = format(empty, &session).ok().context("a formatted disk")?;
    let mut store: Store<MemoryDisk, Session> = Store::open(alloc, disk)
        .ok()
        .context("a session on the disk")?;
    serve_lines(&mut store, &mut rt.stdin(), &mut rt.stdout())
}

/// Serves the lines over the store, of which nothing waits for its confirm then.
fn serve_lines<R: Read, W: Write>(
    store: &mut Store<MemoryDisk, Session>,
    input: &mut R,
    output: &mut W,
) -> Result<(), anyhow::Error> {
    let _ = store.confirm();
    serve(store, None, input, output).ok().context("a stream")?;
    Ok(())
}
