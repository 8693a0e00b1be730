//! The pairs of an evening.
ghost use Rattle.std.specs.Prelude.{◌≡◌, ◌*◌, ◌≤◌, ◌∷◌, [], length, map};
ghost use Rattle.bridge_config.specs.ConfigValue.{pair_of};
ghost use Rattle.evening_draft.specs.Draft.{names_of, drafted_pairs};

use crate::ascii::player_name;
use crate::wishes::PairNames;
use arrayvec::ArrayVec;
use bridge_config::{Key, PairFields};
use bridge_movement::MOST_PAIRS;

/// The pair of that number, with its names in ASCII and its keys.
fn pair_with(number: u8, names: &PairNames, first: u32, second: u32) -> PairFields
    ensures { pair_of result ≡ record { names = names_of number names.now; keys = first ∷ second ∷ [] } }
{
    PairFields {
        names: [
            player_name(names.first.as_str(), number, true),
            player_name(names.second.as_str(), number, false),
        ],
        keys: [Key(first), Key(second)],
    }
}

/// The pairs by number, each with the next two keys.
pub fn pairs_with(names: &[PairNames], keys: &[u32]) -> ArrayVec<PairFields, MOST_PAIRS>
    requires few { length names.now ≤ MOST_PAIRS }
    requires keys { length keys.now ≡ 2 * length names.now }
    ensures { map pair_of result.items ≡ drafted_pairs 1 names.now keys.now }
{
    let mut pairs = ArrayVec::new();
    for (index, pair) in names.iter().enumerate() {
        let number = index as u8 + 1;
        pairs.push(pair_with(number, pair, keys[2 * index], keys[2 * index + 1]));
    }
    pairs
}
