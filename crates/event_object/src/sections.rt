//! The sections with their pairs.
ghost use Rattle.std.specs.Prelude.{◌≡◌, ◌≤◌, length, map, IfOk};
ghost use Rattle.std.specs.List.{range_with_len, enumerate_from};
ghost use Rattle.bridge_config.specs.ConfigValue.{pair_of, configuration_of};
ghost use Rattle.event_ranking.specs.EventText.{section_text};
ghost use Rattle.serde_json.specs.View.{view};
ghost use Rattle.results_object.specs.Values.{IsValue, text_data};
ghost use Rattle.event_object.specs.Sections.{pair_data, pairs_data, section_data, sections_data};

use bridge_config::{Config, ConfigFields, PairFields};
use bridge_session::Session;
use event_ranking::event::MOST_SECTIONS;
use event_ranking::section_letters;
use results_object::builder::ObjectBuilder;
use results_object::rankings::names_value;
use results_object::values::{count_value, list_value, text_value};
use serde_json::Value;
use std::alloc::{AllocError, Global};

/// The letters of the section of that number, from 1.
pub fn letters_value(alloc: Global, section: u8) -> Result<Value, AllocError>
    ensures { IsValue (text_data (section_text section)) result }
{
    text_value(alloc, section_letters(section).as_str())
}

/// A pair and its names.
fn pair_value(alloc: Global, pairs: &[PairFields], pair: u8) -> Result<Value, AllocError>
    ensures { IsValue (pair_data (map pair_of pairs.now) pair) result }
{
    ObjectBuilder::new(alloc)
        .with("names", names_value(alloc, pairs, pair))
        .with("pair", Ok(count_value(pair)))
        .build()
}

/// So many pairs, by their numbers.
fn pair_values(alloc: Global, pairs: &[PairFields], count: u8) -> Result<Vec<Value>, AllocError>
    requires { count ≤ 24 }
    ensures { IfOk result (λ list. map view list.items ≡ map (pair_data (map pair_of pairs.now)) (range_with_len 1 count)) }
{
    let mut list = Vec::new(alloc);
    for pair in 1..count + 1 {
        let value = pair_value(alloc, pairs, pair)?;
        serde_json::push(&mut list, value)?;
    }
    Ok(list)
}

/// The pairs of a configuration's fields.
fn pairs_by(alloc: Global, fields: &ConfigFields) -> Result<Value, AllocError>
    ensures { IsValue (pairs_data (configuration_of fields.now)) result }
{
    let count = fields.movement.shape().pairs;
    let list = pair_values(alloc, fields.pairs.as_slice(), count)?;
    Ok(list_value(list))
}

/// The pairs of a configuration.
fn pairs_value(alloc: Global, config: &Config) -> Result<Value, AllocError>
    ensures { IsValue (pairs_data config.now) result }
{
    pairs_by(alloc, config.fields())
}

/// A section: its pairs and its letters.
fn section_value(alloc: Global, section: u8, session: &Session) -> Result<Value, AllocError>
    ensures { IsValue (section_data (section, session.now)) result }
{
    ObjectBuilder::new(alloc)
        .with("pairs", pairs_value(alloc, session.config()))
        .with("section", letters_value(alloc, section))
        .build()
}

/// The sections, by their numbers.
fn section_values(alloc: Global, sections: &[Session]) -> Result<Vec<Value>, AllocError>
    requires { length sections.now ≤ MOST_SECTIONS }
    ensures { IfOk result (λ list. map view list.items ≡ map section_data (enumerate_from 1 sections.now)) }
{
    let mut list = Vec::new(alloc);
    for index in 0..sections.len() {
        let value = section_value(alloc, index as u8 + 1, &sections[index])?;
        serde_json::push(&mut list, value)?;
    }
    Ok(list)
}

/// The sections as a list.
pub fn sections_value(alloc: Global, sections: &[Session]) -> Result<Value, AllocError>
    requires { length sections.now ≤ MOST_SECTIONS }
    ensures { IsValue (sections_data sections.now) result }
{
    Ok(list_value(section_values(alloc, sections)?))
}
