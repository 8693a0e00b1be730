//! The configuration of an evening.
ghost use Rattle.std.specs.Prelude.{◌≡◌, ◌≤◌, ◌<◌, ◌↔◌, length, map, true, All, IfSome, IsSome, IfOk, IfErr};
ghost use Rattle.bridge_movement.specs.Named.{IsNamed};
ghost use Rattle.bridge_config.specs.ConfigValue.{keys_of};
ghost use Rattle.bridge_config.specs.Limits.{are_distinct};
ghost use Rattle.evening_draft.specs.Draft.{HasHeading, drafted, names_from};
ghost use Rattle.evening_draft.specs.Drafted.{IsDraftRefused};
ghost use Rattle.evening_draft.specs.Keys.{HasNineDigits, key_count, evening_keys};

use crate::boards::boards_for;
use crate::keys::draw_keys;
use crate::pairs::pairs_with;
use crate::refused::DraftRefused;
use crate::wishes::{PairNames, Wishes};
use bridge_config::{Config, ConfigFields, Key};
use bridge_movement::{MOST_PAIRS, Movement};

/// The configuration with that movement and those keys; `None` where the event or the site is no name or the date is none.
fn config_with(
    names: &[PairNames],
    wishes: &Wishes,
    movement: Movement,
    keys: &[u32],
) -> Option<Config>
    requires few { length names.now ≤ MOST_PAIRS }
    requires pairs { movement.shape.pairs ≡ length names.now }
    requires keys { length keys.now ≡ key_count (length names.now) }
    requires distinct { are_distinct keys.now ≡ true }
    requires nine_digits { All HasNineDigits keys.now }
    ensures config { IfSome result (λ config. config ≡ drafted wishes.now names.now movement keys.now) }
    ensures heading { IsSome result ↔ HasHeading wishes.now }
{
    let rounds = movement.shape().rounds;
    Config::from_fields(ConfigFields {
        event: wishes.event,
        site: wishes.site,
        date: wishes.date,
        scoring: wishes.scoring,
        boards: boards_for(rounds, wishes.boards),
        movement,
        director: Key(keys[0]),
        pairs: pairs_with(names, &keys[1..]),
    })
}

/// The configuration of an evening for these pairs: the movement that is wished for, keys that are drawn, and names in
/// ASCII.
///
/// Refused is the first of these: that there is no such movement for so many pairs (`Movement`), that the seed gives too
/// few keys (`Keys`), that the event or the site is no name or the date none (`Heading`).
pub fn draft(names: &[PairNames], wishes: &Wishes) -> Result<Config, DraftRefused>
    requires { length names.now ≤ MOST_PAIRS }
    // The movement is the one that was named.
    ensures movement { IfOk result (λ config. IsNamed wishes.now.movement (length names.now) config.movement) }
    // The keys come from the seed and the number of pairs alone, and have nine digits each.
    ensures keys { IfOk result (λ config.
        (keys_of config ≡ evening_keys wishes.now.seed (length names.now)) × All HasNineDigits (keys_of config)) }
    ensures names { IfOk result (λ config. map (λ pair. pair.names) config.pairs ≡ names_from 1 names.now) }
    ensures stated { IfOk result (λ config. config ≡ drafted wishes.now names.now config.movement (keys_of config)) }
    ensures refused { IfErr result (IsDraftRefused wishes.now (length names.now)) }
{
    let pairs = names.len() as u8;
    if !wishes.movement.is_for(pairs) {
        return Err(DraftRefused::Movement);
    }
    let Some(keys) = draw_keys(&wishes.seed, pairs) else {
        return Err(DraftRefused::Keys);
    };
    let movement = wishes.movement.of_pairs(pairs);
    match config_with(names, wishes, movement, keys.as_slice()) {
        Some(config) => Ok(config),
        None => Err(DraftRefused::Heading),
    }
}
