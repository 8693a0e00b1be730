//! A configuration in words before anything is made of it: the evening that it plans, or what is wrong with its first line
//! at fault. Nothing here takes memory.
//!
//! ```rust
//! match read_config(text) {
//!     Ok(config) => write_plan(&config, &mut writer)?,
//!     Err(fault) => write_fault(text, fault, &mut writer)?,
//! }
//! ```
#![tactic(auto)]

mod columns;
mod compare;
mod event;
mod fault;
mod kind;
mod law;
mod line_kind;
mod misfit;
mod pair;
mod part;
mod plan;
mod reason;
mod rule;
mod seat;
mod shown;
mod text;
mod word;

pub use fault::write_fault;
pub use law::a_line_out_of_form_has_a_word_that_is_named;
pub use plan::{write_plan, write_plan_with};
