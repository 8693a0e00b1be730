//! The commands `draft` and `slips`, `plan` with a list of names, and what `evening` makes: an evening of a list of names, and the slips of its players. Only
//! the lines for pages take memory.
//!
//! ```rust
//! run_draft(&rt, "names.txt", &words, &mut output)?;
//! run_slips(&rt, "evening.txt", &words, &mut output)?;
//! ```
#![tactic(auto)]

mod drafting;
pub mod fault;
mod fault_line;
pub mod making;
mod names_file;
mod people;
mod planning;
mod slipping;
mod stopping;
pub mod text_file;

pub use drafting::{Giver, run_draft};
pub use fault::EveningFault;
pub use fault_line::{FAULT_LINE_BYTES, FaultLine, config_line, evening_line, line_of};
pub use making::{MadeEvening, config_into, make_evening, slips_into};
pub use names_file::{Names, list_of_file, names_of_file};
pub use people::{has_pairs, people_text};
pub use planning::run_named_plan;
pub use slipping::run_slips;
pub use stopping::stop;
pub use text_file::{FILE_BYTES, NoRead, Text, read_text};
