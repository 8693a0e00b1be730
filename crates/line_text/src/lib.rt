//! Text as lines and words of bytes: what commands, configurations and streams are read and written by.
//! Nothing here takes memory.
//!
//! ```rust
//! let words = five_after(b"ROW", without_return(line))?;
//! let number = value_of(words.first)?;
//! ```
#![tactic(auto)]

mod decimals;
mod lines;
mod numeral;
mod refusal;
mod split;
mod words;
mod write;

pub use decimals::{
    NUMBER_BYTES, NumberText, hundredths_text, number_text, percent_text, signed_text, tenths_text,
};
pub use lines::{LINE_BYTES, first_line, without_return};
pub use numeral::{are_digits, is_numeral, value_of};
pub use refusal::push_refusal;
pub use split::split_once;
pub use words::{Five, first_word, five_after, inline, only_word, word_after};
pub use write::write_text;
