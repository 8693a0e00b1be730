//! What a player does in a play.
use crate::numbers::TrickCount;
use bridge_auction::Call;
use bridge_cards::Card;

/// What a player does in the current play of the table.
#[derive(Clone, Copy, Debug, PartialEq, Eq)]
pub enum Deed {
    /// He calls.
    Call(Call),
    /// He plays a card of the hand in turn.
    Card(Card),
    /// He claims so many of the tricks left for his side.
    Claim(TrickCount),
    /// He agrees with the claim that stands.
    Agree,
    /// He refuses it.
    Refuse,
}
