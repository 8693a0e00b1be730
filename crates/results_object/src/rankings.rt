//! The rankings.
ghost use Rattle.std.specs.Prelude.{◌≡◌, map, unsigned_abs, IfOk};
ghost use Rattle.std.specs.Fmt.{signed_decimal};
ghost use Rattle.line_text.specs.Decimals.{tenths_text};
ghost use Rattle.bridge_config.specs.ConfigValue.{pair_of, configuration_of};
ghost use Rattle.bridge_cards.specs.declared.scoring.Scoring.TheVariants.{MatchPoints, Imps};
ghost use Rattle.bridge_results.specs.RankingText.{ranked_items};
ghost use Rattle.serde_json.specs.View.{view};
ghost use Rattle.results_object.specs.Values.{IsValue, text_data, list_data};
ghost use Rattle.results_object.specs.Object.{total_data, names_data, ranked_data, field_data};

use crate::builder::ObjectBuilder;
use crate::values::{count_value, list_value, percent_value, tenths_value, text_value};
use bridge_config::{Config, ConfigFields, PairFields, player_name};
use bridge_score::{Ranked, Scoring, share_percent};
use bridge_session::Ranking;
use line_text::signed_text;
use serde_json::{Value, json};
use std::alloc::{AllocError, Global};

/// The matchpoints.
fn matchpoints_value(alloc: Global, ranked: &Ranked) -> Result<Value, AllocError>
    ensures { IsValue (text_data (tenths_text (unsigned_abs ranked.now.value))) result }
{
    tenths_value(alloc, ranked.value.unsigned_abs())
}

/// The IMPs.
fn imps_value(alloc: Global, ranked: &Ranked) -> Result<Value, AllocError>
    ensures { IsValue (text_data (signed_decimal ranked.now.value)) result }
{
    text_value(alloc, signed_text(i64::from(ranked.value)).as_str())
}

/// The matchpoints, those available and the percentage.
fn share_value(alloc: Global, ranked: &Ranked) -> Result<Value, AllocError>
    ensures { IsValue (total_data MatchPoints ranked.now) result }
{
    ObjectBuilder::new(alloc)
        .with("available", tenths_value(alloc, ranked.available))
        .with("percent", percent_value(alloc, share_percent(ranked)))
        .with("points", matchpoints_value(alloc, ranked))
        .build()
}

/// The IMPs alone.
fn sum_value(alloc: Global, ranked: &Ranked) -> Result<Value, AllocError>
    ensures { IsValue (total_data Imps ranked.now) result }
{
    ObjectBuilder::new(alloc)
        .with("available", Ok(Value::Null))
        .with("percent", Ok(Value::Null))
        .with("points", imps_value(alloc, ranked))
        .build()
}

/// What a pair gained in all.
pub fn total_value(alloc: Global, scoring: Scoring, ranked: &Ranked) -> Result<Value, AllocError>
    ensures { IsValue (total_data scoring ranked.now) result }
{
    match scoring {
        Scoring::MatchPoints => share_value(alloc, ranked),
        Scoring::Imps => sum_value(alloc, ranked),
    }
}

/// The names of a pair's players.
pub fn names_value(alloc: Global, pairs: &[PairFields], pair: u8) -> Result<Value, AllocError>
    ensures { IsValue (names_data (map pair_of pairs.now) pair) result }
{
    let first = text_value(alloc, player_name(pairs, pair, true))?;
    let second = text_value(alloc, player_name(pairs, pair, false))?;
    json!(in alloc; [first, second])
}

/// A pair, its names, its place, and what it gained in all.
fn ranked_value(
    alloc: Global,
    scoring: Scoring,
    pairs: &[PairFields],
    ranked: &Ranked,
) -> Result<Value, AllocError>
    ensures { IsValue (ranked_data scoring (map pair_of pairs.now) ranked.now) result }
{
    ObjectBuilder::new(alloc)
        .with("names", names_value(alloc, pairs, ranked.pair))
        .with("pair", Ok(count_value(ranked.pair)))
        .with("place", Ok(count_value(ranked.place)))
        .with("total", total_value(alloc, scoring, ranked))
        .build()
}

/// The pairs of a ranking.
fn ranked_values(
    alloc: Global,
    scoring: Scoring,
    pairs: &[PairFields],
    ranking: &[Ranked],
) -> Result<Vec<Value>, AllocError>
    ensures { IfOk result (λ list. map view list.items ≡ map (ranked_data scoring (map pair_of pairs.now)) ranking.now) }
{
    let mut list = Vec::new(alloc);
    for ranked in ranking {
        let value = ranked_value(alloc, scoring, pairs, ranked)?;
        serde_json::push(&mut list, value)?;
    }
    Ok(list)
}

/// The pairs of a ranking as a list.
fn ranking_by(alloc: Global, fields: &ConfigFields, ranking: &[Ranked]) -> Result<Value, AllocError>
    ensures { IsValue (list_data (ranked_data (configuration_of fields.now).scoring (configuration_of fields.now).pairs) ranking.now) result }
{
    let list = ranked_values(alloc, fields.scoring, fields.pairs.as_slice(), ranking)?;
    Ok(list_value(list))
}

/// The same by a configuration.
fn ranking_value(alloc: Global, config: &Config, ranking: &[Ranked]) -> Result<Value, AllocError>
    ensures { IsValue (list_data (ranked_data config.now.scoring config.now.pairs) ranking.now) result }
{
    ranking_by(alloc, config.fields(), ranking)
}

/// The pairs of a field, or null where there is no such field.
pub fn field_value(
    alloc: Global,
    config: &Config,
    ranking: &Option<Ranking>,
) -> Result<Value, AllocError>
    ensures { IsValue (field_data config.now (ranked_items ranking.now)) result }
{
    match ranking {
        Some(ranking) => ranking_value(alloc, config, ranking.as_slice()),
        None => Ok(Value::Null),
    }
}
