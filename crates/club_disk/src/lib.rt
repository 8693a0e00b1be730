//! The disk of a club in a file: the file is locked and the disk opened, read without a write or made anew; what stood in its
//! place is kept; and it is handed out as the last call left it.
//!
//! ```rust
//! let lock = lock_for(&rt, rt.alloc(), "club.disk", Access::Write);
//! let disk = locked_disk(&rt, "club.disk", Access::Write, &lock)?;
//! let store = open_session(rt.alloc(), disk);
//! ```
#![tactic(auto)]

mod access;
mod disk_lock;
mod disk_types;
mod handing_out;
mod moving_aside;
mod own_file;
mod stored_session;

pub use access::{Access, lock_for, locked_disk};
pub use disk_lock::{lock, lock_to_read};
pub use disk_types::{ClubDisk, ClubStore};
pub use handing_out::{Left, let_go, with_disk};
pub use own_file::new_file;
pub use stored_session::{open_session, read_disk};
