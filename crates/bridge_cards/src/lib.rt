//! Suits, seats, boards, cards, deals, shuffles and ways of scoring of duplicate bridge (Laws 1, 2, 6 and 78 of the Laws
//! of Duplicate Bridge 2017).
//!
//! ```rust
//! let board = BoardNumber::new(7)?;
//! let deal = deal_board(&seed, board);
//! let ace = Card::of(Suit::Spades, Rank::try_from(14)?);
//! let is_norths = deal.hand(Seat::North).has(ace);
//! ```
#![tactic(auto)]

pub mod board;
pub mod card;
pub mod card_set;
pub mod deal;
pub mod deal_text;
pub mod out_of_range;
pub mod rank;
pub mod scoring;
pub mod seat;
pub mod shuffle;
pub mod suit;
pub mod trick;
pub mod vulnerability;

pub use board::{BoardNumber, dealer, vulnerability_of, vulnerable};
pub use card::{BadCard, Card, DECK, SUIT_CARDS, read_card};
pub use card_set::CardSet;
pub use deal::{BadDeal, Deal, HAND_CARDS};
pub use deal_text::{DEAL_BYTES, print_deal, print_hand, read_deal, read_hands};
pub use out_of_range::OutOfRange;
pub use rank::Rank;
pub use scoring::Scoring;
pub use seat::{Seat, Side, seat_text};
pub use shuffle::deal_board;
pub use suit::Suit;
pub use vulnerability::{Vulnerability, vulnerability_text};
