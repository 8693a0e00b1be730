//! What an evening is made of.
use arrayvec::ArrayString;
use bridge_cards::Scoring;
use bridge_config::{DATE_BYTES, NAME_BYTES};
use bridge_movement::NamedMovement;

/// The most bytes of a name as people write it: 40 characters of any script.
pub const PERSON_BYTES: usize = 160;

/// A name as people write it.
pub type PersonName = ArrayString<PERSON_BYTES>;

/// The names of a pair's players. The first sits North or East, the second South or West.
#[derive(Clone, Copy, Debug, Default, PartialEq, Eq)]
pub struct PairNames {
    /// The first player's name.
    pub first: PersonName,
    /// The second player's name.
    pub second: PersonName,
}

/// What a director wishes of an evening.
#[derive(Clone, Copy, Debug)]
pub struct Wishes {
    /// Which movement is played.
    pub movement: NamedMovement,
    /// How many boards each pair is to play, about.
    pub boards: u8,
    /// How scores are compared.
    pub scoring: Scoring,
    /// The name of the event, as a configuration has it.
    pub event: ArrayString<NAME_BYTES>,
    /// The name of the site, likewise.
    pub site: ArrayString<NAME_BYTES>,
    /// The date, as `2026.03.14`.
    pub date: ArrayString<DATE_BYTES>,
    /// What keys are drawn from.
    pub seed: [u8; 32],
}
