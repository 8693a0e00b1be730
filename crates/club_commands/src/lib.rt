//! The commands of the program `bridge_club`: what its words ask for is done over its streams, over a disk in a file and
//! over connections, and the exit status says how that ended.
//!
//! ```rust
//! let words = ["auction", "1"];
//! let status = run_words_with(&rt, rt.alloc(), texts, words.as_slice(), &mut rt.stdin(), &mut rt.stdout(), &mut rt.stderr());
//! ```
#![tactic(auto)]

mod check;
mod check_two;
mod config_file;
mod copied;
mod copying;
mod counts;
mod evening;
mod evening_files;
mod evenings;
mod event_texts;
mod events;
mod exports;
mod fault;
mod fault_line;
mod formatting;
mod listed;
mod listening;
mod machine;
mod makeable;
mod on_disk;
mod output;
mod over_disk;
mod pair_texts;
mod pair_web;
mod planning;
mod printable;
mod release;
mod results;
mod run;
mod script;
mod services;
mod serving;
pub mod standing;
mod telling;
mod version;
mod web;
mod work;

pub use check::check_disk;
pub use config_file::read_session;
pub use fault::{LostDisk, OtherSection, RunFault, SystemFault};
pub use machine::{Alarm, Host, Machine};
pub use pair_web::show_pair;
pub use planning::plan_evening;
pub use release::{KIT, VERSION};
pub use run::{refuse, run_words_with, status_of};
pub use script::serve_store;
pub use serving::serve_connections;
pub use web::show_pages;
