//! What stands beside the session, in the server's memory alone: calls for the director, his notice, the round's clock, what was
//! said with a claim, and who refused it.
#![tactic(auto)]

mod answering;
mod asked;
mod claims;
mod desk;
mod event;
mod kept;
mod laws;
mod next_table;
mod own_table;
mod plain_text;
mod refused;
mod said;
mod standing;
mod taking;
mod telling;
mod text;

pub use answering::answer_desk;
pub use asked::{Asked, Order, has_wrong_key, read_asked};
pub use claims::SeenClaim;
pub use desk::{Desk, RoundClock, TableCall};
pub use kept::{KeptDisks, KeptOn};
pub use laws::{desks_show_no_hidden_card, players_are_told_of_their_own_table};
pub use plain_text::PlainText;
pub use refused::DeskRefused;
pub use said::{ClaimRefusal, StandingClaim, Statement};
pub use standing::{STANDING_BYTES, StandingText};
pub use telling::standing_lines;
