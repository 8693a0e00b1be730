//! A configuration within its limits.
ghost use Rattle.std.specs.Prelude.{◌≡◌, ◌↔◌, ◌≤◌, ◌+◌, ◌++◌, IsSome, IfSome, IsTrue, length, map, All};
ghost use Rattle.bridge_config.specs.ConfigValue.{configuration_of, pair_of, keys_of, key_number};
ghost use Rattle.bridge_config.specs.Limits.{IsConfiguration, IsPair, is_name};

use crate::fields::{ConfigFields, Key, MOST_KEYS, PairFields};
use crate::limits::{are_keys, is_date_form, is_date_within, is_name};
use arrayvec::ArrayVec;
use std::marker::Model;

/// The configuration of a session, within its limits.
#[derive(Debug, Drop)]
pub struct Config {
    /// What it states.
    fields: ConfigFields,
}

impl Model for Config {
    ghost use Rattle.bridge_config.specs.ConfigValue.{ConfigValue, configuration_of};
    ghost use Rattle.bridge_config.specs.Limits.{IsConfiguration};

    ghost Value = { ConfigValue };

    ghost view = { λ config. configuration_of config.fields };

    ghost invariant = { λ config. IsConfiguration (configuration_of config.fields) };
}

impl Config {
    /// The configuration of these fields. `None` where a name, the date or the number of boards is outside its limits,
    /// the pairs are not as many as the movement has, or a key stands twice.
    pub fn from_fields(fields: ConfigFields) -> Option<Config>
        ensures accepted { IsSome result ↔ IsConfiguration (configuration_of fields) }
        ensures fields { IfSome result (λ config. config ≡ configuration_of fields) }
    {
        if is_within_limits(&fields) {
            Some(Config { fields })
        } else {
            None
        }
    }

    /// What the configuration states.
    pub fn fields(&self) -> &ConfigFields
        ensures fields { configuration_of result.now ≡ self.now }
        ensures limits { IsConfiguration self.now }
    {
        &self.fields
    }
}

/// Whether each field is within its limits.
fn is_within_limits(fields: &ConfigFields) -> bool
    ensures { IsTrue result ↔ IsConfiguration (configuration_of fields.now) }
{
    let shape = fields.movement.shape();
    let date = fields.date.as_str().as_bytes();
    is_name(fields.event.as_str().as_bytes())
        && is_name(fields.site.as_str().as_bytes())
        && is_date_form(date)
        && is_date_within(date)
        && (1..=3).contains(&fields.boards)
        && fields.pairs.len() == usize::from(shape.pairs)
        && have_names(&fields.pairs)
        && are_keys(&keys(fields))
}

/// Whether each player has a name.
fn have_names(pairs: &[PairFields]) -> bool
    ensures { IsTrue result ↔ All IsPair (map pair_of pairs.now) }
{
    pairs.iter().all(has_names)
}

/// Whether both players have names.
fn has_names(pair: &PairFields) -> bool
    ensures { IsTrue result ↔ IsPair (pair_of pair.now) }
{
    is_name(pair.names[0].as_str().as_bytes()) && is_name(pair.names[1].as_str().as_bytes())
}

/// Adds more keys.
fn push_keys(more: &[Key], keys: &mut ArrayVec<u32, MOST_KEYS>)
    requires { length keys.old.items + length more.now ≤ MOST_KEYS }
    ensures keys { keys.new.items ≡ keys.old.items ++ map key_number more.now }
    ensures count { length keys.new.items ≡ length keys.old.items + length more.now }
{
    for key in more {
        keys.push(key.0);
    }
}

/// The director's key and then the players', in order.
fn keys(fields: &ConfigFields) -> ArrayVec<u32, MOST_KEYS>
    ensures { result.items ≡ keys_of (configuration_of fields.now) }
{
    let pairs = fields.pairs.as_slice();
    let mut keys = ArrayVec::new();
    keys.push(fields.director.0);
    for pair in pairs {
        push_keys(&pair.keys, &mut keys);
    }
    keys
}
