//! What the replies to lines are made of: their text, the lines that are cut from bytes, and why a run over them ends early.
//!
//! ```rust
//! let mut text = ReplyText::new();
//! push_view(&mut text, &view);
//! write_whole(writer, text.as_str())?;
//! ```
#![tactic(auto)]

mod fault;
mod key_word;
mod line_feed;
pub mod ranking_reply;
mod reading;
pub mod reply_text;
pub mod short_reply;
pub mod view_reply;
mod writing;

pub use fault::ServeFault;
pub use key_word::{read_key, read_number};
pub use line_feed::LineFeed;
pub use ranking_reply::{push_pairs, push_ranking};
pub use reading::{MOST_BYTES, limit_notice, read_piece};
pub use reply_text::{ReplyText, push_solved};
pub use short_reply::ShortReply;
pub use view_reply::push_view;
pub use writing::write_whole;
