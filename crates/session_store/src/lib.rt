//! A store that keeps a state on a disk of sectors: a journal of actions, and two snapshots that take turns.
//!
//! ```rust
//! let disk = format(disk, &state)?;
//! let mut store = Store::open(rt.alloc(), disk)?;
//! store.submit(&action)?;
//! store.confirm()?;
//! ```
#![tactic(auto)]

mod checkpointing;
mod confirming;
mod copying;
mod disk_format;
mod entry;
mod fault;
mod formatting;
mod headers;
mod kept;
mod laws;
mod looking;
mod opening;
mod pair_opening;
mod pairing_laws;
mod parts;
mod reading;
mod recovering;
mod replaying;
mod room;
mod sectors;
mod settling;
mod snapshot;
mod standing;
mod store;
mod submitting;

pub use disk_format::DiskFormat;
pub use fault::{CheckpointFault, ConfirmFault, PairFault, PartsFault, StoreFault, SubmitFault};
pub use formatting::format;
pub use kept::{Kept, PAYLOAD_BYTES};
pub use laws::{crash_law, former_law, frame_law};
pub use looking::{Reading, is_same_state, read_older_state, read_state};
pub use pair_opening::{UnopenedPair, open_pair};
pub use pairing_laws::pair_laws;
pub use settling::settle_pair;
pub use standing::{PairStanding, pair_standing};
pub use store::{MOST_PENDING, Store};
