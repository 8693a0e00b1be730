//! The names of a pair and of its players.
ghost use Rattle.std.specs.Prelude.{◌≡◌, ◌≤◌, length, map};
ghost use Rattle.bridge_config.specs.ConfigValue.{pair_of, both_names, pair_names, player_name};

use crate::fields::{NAME_BYTES, PairFields};
use arrayvec::ArrayString;

/// The room in bytes for both names of a pair, and ` and ` between them.
pub const NAMES_BYTES: usize = 2 * NAME_BYTES + 5;

/// Both names of a pair.
pub type NamesText = ArrayString<NAMES_BYTES>;

impl PairFields {
    /// Both names of the pair, as `Anna and Berta`.
    pub fn both_names(&self) -> NamesText
        ensures names { result.bytes ≡ both_names (pair_of self.now).names }
        ensures short { length result.bytes ≤ NAMES_BYTES }
    {
        let mut text = NamesText::new();
        text.push_str(self.names[0].as_str());
        text.push_str(" and ");
        text.push_str(self.names[1].as_str());
        text
    }
}

/// Both names of the pair of that number, from 1; none where there is no such pair.
pub fn pair_names(pairs: &[PairFields], pair: u8) -> NamesText
    ensures names { result.bytes ≡ pair_names (map pair_of pairs.now) pair }
    ensures short { length result.bytes ≤ NAMES_BYTES }
{
    match pairs.get(usize::from(pair.saturating_sub(1))) {
        Some(found) => found.both_names(),
        None => NamesText::new(),
    }
}

/// The name of the first or the second player of the pair of that number, from 1; none where there is no such pair.
pub fn player_name(pairs: &[PairFields], pair: u8, first: bool) -> &str
    ensures name { result.now ≡ player_name (map pair_of pairs.now) pair first }
    ensures short { length result.now ≤ NAME_BYTES }
{
    match pairs.get(usize::from(pair.saturating_sub(1))) {
        Some(found) if first => found.names[0].as_str(),
        Some(found) => found.names[1].as_str(),
        None => "",
    }
}
