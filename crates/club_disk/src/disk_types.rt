//! The types of a club's disk.
use bridge_session::Session;
use sector_disk::{FileDisk, SystemFile};
use session_store::Store;
use std::fs::File;

/// The disk of a club, which is in a file of the system.
pub type ClubDisk = FileDisk<SystemFile<File>>;

/// The store of the session on it.
pub type ClubStore = Store<ClubDisk, Session>;
