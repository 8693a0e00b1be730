//! The pages of a session that two disks keep: each body of lines is served over the stores of both before anything is told.
//!
//! ```rust
//! let server = PairServer::new(first, second, names, rt.stderr());
//! let mut pages = TablePages::new(rt.alloc(), host, texts, server, cache, Desk::new(600, "club.disk"), ServerClock::new(&rt));
//! ```
#![tactic(auto)]

mod answering;
mod disk_names;
mod pair_server;

pub use disk_names::DiskNames;
pub use pair_server::PairServer;
