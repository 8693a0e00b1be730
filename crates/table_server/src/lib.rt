//! Tables at play: the lines of the protocol, and serving them over a store. The auction command and what replies are made of
//! stand in crates of their own, and are passed on.
//!
//! ```rust
//! let command = read_line_command(b"CALL 11 1 0 1NT")?;
//! run_auction(board, &mut rt.stdin(), &mut rt.stdout())?;
//! ```
#![tactic(auto)]

mod accepting;
pub mod asked;
pub mod command;
mod correction_lines;
mod director_lines;
mod held_replies;
mod line_command;
mod line_service;
pub mod line_serving;
pub mod line_set;
mod line_words;
mod named_play;
mod one_answer;
pub mod pbn_reply;
pub mod player_lines;
mod power_cut;
mod question_lines;
mod question_reply;
mod served;
mod taking;
mod wrong_keys;

pub use accepting::accept_and_serve;
pub use asked::{Asked, Question, asked_by, asked_in};
pub use auction_command::run_auction;
pub use command::{BadLine, Command};
pub use line_command::read_line_command;
pub use line_replies::{
    MOST_BYTES, ReplyText, ServeFault, ShortReply, push_pairs, push_ranking, push_solved,
    push_view, read_key,
};
pub use line_serving::{serve, serve_lines};
pub use line_set::LineSet;
pub use one_answer::{a_question_has_one_answer, lines_have_one_text_of_replies};
pub use pbn_reply::write_pbn_reply;
pub use power_cut::a_power_cut_keeps_what_is_answered;
pub use question_reply::view_text;
pub use served::{Served, ServedKeys};
