//! The object, whole.
ghost use Rattle.std.specs.Prelude.{◌≡◌, string_bytes, IfOk};
ghost use Rattle.bridge_config.specs.ConfigValue.{configuration_of};
ghost use Rattle.bridge_results.specs.RankingText.{ranked_items};
ghost use Rattle.serde_json.specs.Written.{compact_text};
ghost use Rattle.results_object.specs.Values.{IsValue};
ghost use Rattle.results_object.specs.Object.{scoring_text, event_data, results_data, IsObjectText};

use crate::boards::boards_value;
use crate::builder::ObjectBuilder;
use crate::rankings::field_value;
use crate::values::text_value;
use bridge_cards::Scoring;
use bridge_config::{Config, ConfigFields};
use bridge_ranking::Field;
use bridge_results::Results;
use bridge_session::{Ranking, Session};
use serde_json::Value;
use std::alloc::{AllocError, Global};

/// How scores are compared.
fn scoring_text(scoring: Scoring) -> &'static str
    ensures { result.now ≡ scoring_text scoring }
{
    match scoring {
        Scoring::MatchPoints => "matchpoints",
        Scoring::Imps => "imps",
    }
}

/// The event of a configuration's fields.
fn event_by(alloc: Global, fields: &ConfigFields) -> Result<Value, AllocError>
    ensures { IsValue (event_data (configuration_of fields.now)) result }
{
    ObjectBuilder::new(alloc)
        .with("date", text_value(alloc, fields.date.as_str()))
        .with("event", text_value(alloc, fields.event.as_str()))
        .with("scoring", text_value(alloc, scoring_text(fields.scoring)))
        .with("site", text_value(alloc, fields.site.as_str()))
        .build()
}

/// The event.
pub fn event_value(alloc: Global, config: &Config) -> Result<Value, AllocError>
    ensures { IsValue (event_data config.now) result }
{
    event_by(alloc, config.fields())
}

/// The object of a session with these rankings.
fn results_value(
    alloc: Global,
    session: &Session,
    results: &Results<'_>,
    first: &Option<Ranking>,
    second: &Option<Ranking>,
) -> Result<Value, AllocError>
    requires { results.now ≡ session.now }
    ensures { IsValue (results_data session.now (ranked_items first.now) (ranked_items second.now)) result }
{
    let config = session.config();
    ObjectBuilder::new(alloc)
        .with("boards", boards_value(alloc, session, results))
        .with("event", event_value(alloc, config))
        .with("first", field_value(alloc, config, first))
        .with("second", field_value(alloc, config, second))
        .build()
}

/// Its text.
fn results_text(
    alloc: Global,
    session: &Session,
    results: &Results<'_>,
    first: &Option<Ranking>,
    second: &Option<Ranking>,
) -> Result<String, AllocError>
    requires { results.now ≡ session.now }
    ensures { IfOk result (λ text. string_bytes text ≡ compact_text (results_data session.now (ranked_items first.now) (ranked_items second.now))) }
{
    let value = results_value(alloc, session, results, first, second)?;
    value.to_string(alloc)
}

/// The results of the session as one object of JSON. An error is refused memory.
pub fn object_text(alloc: Global, session: &Session) -> Result<String, AllocError>
    ensures { IfOk result (λ text. IsObjectText session.now (string_bytes text)) }
{
    let results = Results::new(session);
    let first = results.ranking(Field::First);
    let second = results.ranking(Field::Second);
    results_text(alloc, session, &results, &first, &second)
}
