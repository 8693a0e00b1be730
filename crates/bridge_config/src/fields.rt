//! What a configuration states.
use arrayvec::{ArrayString, ArrayVec};
use bridge_cards::Scoring;
use bridge_movement::{MOST_PAIRS, Movement};

/// The most bytes of a name.
pub const NAME_BYTES: usize = 24;

/// The bytes of a date.
pub const DATE_BYTES: usize = 10;

/// The most keys: the director's, and two of each of 24 pairs.
pub const MOST_KEYS: usize = 49;

/// The key of a player or of the director, any number: who names it acts for its owner.
#[derive(Clone, Copy, Debug, Default, PartialEq, Eq, Hash)]
pub struct Key(pub u32);

/// The two players of a pair. The first sits North or East, the second South or West.
#[derive(Clone, Copy, Debug, Default, PartialEq, Eq)]
pub struct PairFields {
    /// The players' names, each of 1 to 24 ASCII letters, digits, dots, hyphens and underscores.
    pub names: [ArrayString<NAME_BYTES>; 2],
    /// The players' keys.
    pub keys: [Key; 2],
}

/// The fields of a configuration, within its limits or not.
#[derive(Debug, Drop)]
pub struct ConfigFields {
    /// The name of the event, of 1 to 24 ASCII letters, digits, dots, hyphens and underscores.
    pub event: ArrayString<NAME_BYTES>,
    /// The name of the site, likewise.
    pub site: ArrayString<NAME_BYTES>,
    /// The date, as `2026.03.14`: four digits of a year, the month from 01 to 12 and the day from 01 to 31.
    pub date: ArrayString<DATE_BYTES>,
    /// How scores are compared.
    pub scoring: Scoring,
    /// The number of boards in a set, 1 to 3.
    pub boards: u8,
    /// Who meets whom.
    pub movement: Movement,
    /// The director's key.
    pub director: Key,
    /// The pairs, by their numbers from 1: as many as the movement has.
    pub pairs: ArrayVec<PairFields, MOST_PAIRS>,
}
