//! The object, whole.
ghost use Rattle.std.specs.Prelude.{◌≡◌, string_bytes, IfOk};
ghost use Rattle.serde_json.specs.Written.{compact_text};
ghost use Rattle.results_object.specs.Values.{IsValue};
ghost use Rattle.event_ranking.specs.OneField.{IsField};
ghost use Rattle.event_object.specs.EventObject.{first_event_data, event_results_data, IsEventObjectText};

use crate::boards::boards_value;
use crate::rankings::field_value;
use crate::sections::sections_value;
use bridge_ranking::Field;
use bridge_session::Session;
use event_ranking::{Event, SectionRanked, scoring_of};
use event_results::EventResults;
use results_object::builder::ObjectBuilder;
use results_object::object::event_value;
use serde_json::Value;
use std::alloc::{AllocError, Global};

/// The event, as the first section's configuration has it.
fn first_event_value(alloc: Global, sections: &[Session]) -> Result<Value, AllocError>
    ensures { IsValue (first_event_data sections.now) result }
{
    match sections.first() {
        Some(section) => event_value(alloc, section.config()),
        None => Ok(Value::Null),
    }
}

/// The object of sections with these rankings.
fn event_results_value(
    alloc: Global,
    results: &EventResults<'_>,
    event: &Event<'_>,
    first: &[SectionRanked],
    second: &[SectionRanked],
) -> Result<Value, AllocError>
    requires { event.now ≡ results.now }
    ensures { IsValue (event_results_data results.now first.now second.now) result }
{
    let sections = results.sections();
    let scoring = scoring_of(sections);
    ObjectBuilder::new(alloc)
        .with("boards", boards_value(alloc, results, event))
        .with("event", first_event_value(alloc, sections))
        .with("first", field_value(alloc, scoring, sections, first))
        .with("second", field_value(alloc, scoring, sections, second))
        .with("sections", sections_value(alloc, sections))
        .build()
}

/// Its text.
fn event_results_text(
    alloc: Global,
    results: &EventResults<'_>,
    event: &Event<'_>,
    first: &[SectionRanked],
    second: &[SectionRanked],
) -> Result<String, AllocError>
    requires { event.now ≡ results.now }
    ensures { IfOk result (λ text. string_bytes text ≡ compact_text (event_results_data results.now first.now second.now)) }
{
    let value = event_results_value(alloc, results, event, first, second)?;
    value.to_string(alloc)
}

/// The results of several sections as one field as one object of JSON. An error is refused memory.
pub fn event_object_text(alloc: Global, results: &EventResults<'_>) -> Result<String, AllocError>
    requires { IsField results.now }
    ensures { IfOk result (λ text. IsEventObjectText results.now (string_bytes text)) }
{
    let event = Event::new(alloc, results.sections())?;
    let first = results.ranking(Field::First);
    let second = results.ranking(Field::Second);
    event_results_text(alloc, results, &event, first, second)
}
