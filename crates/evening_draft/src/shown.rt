//! By which name a player is shown.
ghost use Rattle.std.specs.Prelude.{◌≡◌, ◌≤◌, length, map};
ghost use Rattle.bridge_config.specs.ConfigValue.{pair_of};
ghost use Rattle.evening_draft.specs.ShownNames.{person_name, shown_name};

use crate::wishes::{PERSON_BYTES, PairNames};
use bridge_config::{PairFields, player_name};

/// The name of the first or the second player of the pair of that number, from 1; none where there is no such pair.
fn person_name(names: &[PairNames], pair: u8, first: bool) -> &str
    ensures name { result.now ≡ person_name names.now pair first }
    ensures short { length result.now ≤ PERSON_BYTES }
{
    match names.get(usize::from(pair.saturating_sub(1))) {
        Some(found) if first => found.first.as_str(),
        Some(found) => found.second.as_str(),
        None => "",
    }
}

/// The name of the first or the second player of the pair of that number, from 1, as people write it where a list of names is
/// given, and otherwise as the configuration has it; none where there is no such pair.
pub fn shown_name<'a>(
    names: Option<&'a [PairNames]>,
    pairs: &'a [PairFields],
    pair: u8,
    first: bool,
) -> &'a str
    ensures name { result.now ≡ shown_name names.entry (map pair_of pairs.now) pair first }
    ensures short { length result.now ≤ PERSON_BYTES }
{
    match names {
        Some(names) => person_name(names, pair, first),
        None => player_name(pairs, pair, first),
    }
}
