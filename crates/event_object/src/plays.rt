//! The plays of a board in all sections.
ghost use Rattle.std.specs.Prelude.{◌≡◌, map, IfOk};
ghost use Rattle.serde_json.specs.View.{view};
ghost use Rattle.results_object.specs.Values.{IsValue, list_data};
ghost use Rattle.event_object.specs.SectionPlays.{section_play_data};

use crate::sections::letters_value;
use bridge_cards::Scoring;
use bridge_results::pages::cells::line_score;
use event_results::SectionPlay;
use results_object::builder::ObjectBuilder;
use results_object::plays::{averages_value, gain_of, gain_value, result_value, row_value};
use results_object::values::{list_value, number_value};
use serde_json::Value;
use std::alloc::{AllocError, Global};

/// A play.
fn section_play_value(
    alloc: Global,
    scoring: Scoring,
    available: u32,
    play: &SectionPlay,
) -> Result<Value, AllocError>
    ensures { IsValue (section_play_data scoring available play.now) result }
{
    let line = &play.line;
    let ew = gain_value(alloc, scoring, available, gain_of(line.comparison, false));
    let ns = gain_value(alloc, scoring, available, gain_of(line.comparison, true));
    let score = number_value(line_score(line.comparison));
    ObjectBuilder::new(alloc)
        .with("averages", averages_value(alloc, line.play.outcome))
        .with("ew", ew)
        .with("ns", ns)
        .with("result", result_value(alloc, &line.play))
        .with("row", row_value(alloc, &line.play.row))
        .with("score", Ok(score))
        .with("section", letters_value(alloc, play.section))
        .build()
}

/// Plays.
fn section_play_values(
    alloc: Global,
    scoring: Scoring,
    available: u32,
    plays: &[SectionPlay],
) -> Result<Vec<Value>, AllocError>
    ensures { IfOk result (λ list. map view list.items ≡ map (section_play_data scoring available) plays.now) }
{
    let mut list = Vec::new(alloc);
    for play in plays {
        let value = section_play_value(alloc, scoring, available, play)?;
        serde_json::push(&mut list, value)?;
    }
    Ok(list)
}

/// Plays as a list.
pub fn section_plays_value(
    alloc: Global,
    scoring: Scoring,
    available: u32,
    plays: &[SectionPlay],
) -> Result<Value, AllocError>
    ensures { IsValue (list_data (section_play_data scoring available) plays.now) result }
{
    let list = section_play_values(alloc, scoring, available, plays)?;
    Ok(list_value(list))
}
