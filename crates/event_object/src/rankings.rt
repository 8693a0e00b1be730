//! The rankings over all sections.
ghost use Rattle.std.specs.Prelude.{◌≡◌, map, IfOk};
ghost use Rattle.serde_json.specs.View.{view};
ghost use Rattle.results_object.specs.Values.{IsValue, count_data};
ghost use Rattle.results_object.specs.Object.{names_data, total_data};
ghost use Rattle.event_ranking.specs.EventRanking.{unplaced};
ghost use Rattle.event_object.specs.SectionRankings.{names_on, section_ranked_data, field_data};

use crate::sections::letters_value;
use bridge_cards::Scoring;
use bridge_config::Config;
use bridge_session::Session;
use event_ranking::SectionRanked;
use results_object::builder::ObjectBuilder;
use results_object::rankings::{names_value, total_value};
use results_object::values::{count_value, list_value};
use serde_json::Value;
use std::alloc::{AllocError, Global};

/// What a pair gained in all.
fn section_total_value(
    alloc: Global,
    scoring: Scoring,
    ranked: &SectionRanked,
) -> Result<Value, AllocError>
    ensures { IsValue (total_data scoring (unplaced ranked.now)) result }
{
    total_value(alloc, scoring, &ranked.unplaced())
}

/// A place.
fn place_value(place: u16) -> Value
    ensures { view result ≡ count_data place }
{
    Value::from(place)
}

/// The names of a pair of a configuration.
fn names_in(alloc: Global, config: &Config, pair: u8) -> Result<Value, AllocError>
    ensures { IsValue (names_data config.now.pairs pair) result }
{
    names_value(alloc, config.fields().pairs.as_slice(), pair)
}

/// The names of a pair of one of the sections.
fn names_on(
    alloc: Global,
    sections: &[Session],
    ranked: &SectionRanked,
) -> Result<Value, AllocError>
    ensures { IsValue (names_on sections.now ranked.now) result }
{
    match sections.get(usize::from(ranked.section.saturating_sub(1))) {
        Some(session) => names_in(alloc, session.config(), ranked.pair),
        None => names_value(alloc, &[], ranked.pair),
    }
}

/// A pair with its section, its names, its place among all, and what it gained in all.
fn section_ranked_value(
    alloc: Global,
    scoring: Scoring,
    sections: &[Session],
    ranked: &SectionRanked,
) -> Result<Value, AllocError>
    ensures { IsValue (section_ranked_data scoring sections.now ranked.now) result }
{
    ObjectBuilder::new(alloc)
        .with("names", names_on(alloc, sections, ranked))
        .with("pair", Ok(count_value(ranked.pair)))
        .with("place", Ok(place_value(ranked.place)))
        .with("section", letters_value(alloc, ranked.section))
        .with("total", section_total_value(alloc, scoring, ranked))
        .build()
}

/// The pairs of a ranking.
fn section_ranked_values(
    alloc: Global,
    scoring: Scoring,
    sections: &[Session],
    ranking: &[SectionRanked],
) -> Result<Vec<Value>, AllocError>
    ensures { IfOk result (λ list. map view list.items ≡ map (section_ranked_data scoring sections.now) ranking.now) }
{
    let mut list = Vec::new(alloc);
    for ranked in ranking {
        let value = section_ranked_value(alloc, scoring, sections, ranked)?;
        serde_json::push(&mut list, value)?;
    }
    Ok(list)
}

/// The pairs of a ranking as a list, or null where no section has the field.
pub fn field_value(
    alloc: Global,
    scoring: Scoring,
    sections: &[Session],
    ranking: &[SectionRanked],
) -> Result<Value, AllocError>
    ensures { IsValue (field_data scoring sections.now ranking.now) result }
{
    if ranking.is_empty() {
        return Ok(Value::Null);
    }
    let list = section_ranked_values(alloc, scoring, sections, ranking)?;
    Ok(list_value(list))
}
