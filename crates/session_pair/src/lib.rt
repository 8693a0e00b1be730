//! A session on two disks: how it is opened on both, and when what a pair of stores served may be told.
//!
//! ```rust
//! let Joined { first, second, .. } = join_disks(rt.alloc(), disk, copy)?;
//! if settle_served(&mut first, &mut second) {
//!     tell(shown_state(&first, &second));
//! }
//! ```
#![tactic(auto)]

mod choosing;
mod joining;
mod telling;

pub use choosing::comes_first;
pub use joining::{JoinFault, Joined, Judged, Unjoined, join_disks, judge};
pub use telling::{settle_served, shown_state};
