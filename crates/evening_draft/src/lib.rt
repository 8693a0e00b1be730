//! An evening from a list of names: its configuration, with a movement made, keys drawn, and names brought to ASCII.
//! Nothing here takes memory.
//!
//! ```rust
//! let names = read_names(text)?;
//! let config = draft(&names, &wishes)?;
//! write_config(&config, &mut writer)?;
//! ```
#![tactic(auto)]

mod ascii;
mod boards;
mod day;
mod drafting;
mod fault;
mod form;
mod keys;
mod line;
mod names;
pub mod names_refused;
mod pairs;
mod person;
pub mod refused;
mod rows;
mod seed;
mod shown;
mod text;
pub mod wishes;
mod wishing;

pub use ascii::{ascii_name, player_name};
pub use day::{DateText, date_at};
pub use drafting::draft;
pub use fault::write_names_fault;
pub use form::{MovementForm, form_of};
pub use keys::draw_keys;
pub use names::read_names;
pub use names_refused::{NamesFault, NamesRefused};
pub use refused::DraftRefused;
pub use seed::read_seed;
pub use shown::shown_name;
pub use text::write_config;
pub use wishes::{PERSON_BYTES, PairNames, PersonName, Wishes};
pub use wishing::{WishWords, draft_evening};
