//! The plan of an evening.
ghost use Rattle.std.specs.Prelude.{◌≤◌, flat_map};
ghost use Rattle.std.specs.List.{range_with_len};
ghost use Rattle.line_text.specs.Streams.{stream, Written};
ghost use Rattle.evening_plan.specs.Evening.{evening_of, shown_evening};
ghost use Rattle.evening_plan.specs.EventText.{event_text};
ghost use Rattle.evening_plan.specs.PairText.{pair_plan};
ghost use Rattle.evening_plan.specs.PlanText.{pairs_text, plan_text};

use crate::event::event_text;
use crate::pair::write_pair;
use bridge_config::Config;
use evening_draft::PairNames;
use line_text::write_text;
use std::io::{Error, Write};

/// Writes the head of the plan.
fn write_event<W: Write>(config: &Config, writer: &mut W) -> Result<(), Error>
    ensures { Written (stream W.contents writer.old writer.new) (event_text (evening_of config.now)) result }
{
    let text = event_text(config);
    write_text(writer, text.as_slice())
}

/// Writes so many pairs.
fn write_first_pairs<W: Write>(
    config: &Config,
    names: Option<&[PairNames]>,
    pairs: u8,
    writer: &mut W,
) -> Result<(), Error>
    requires few { pairs ≤ 24 }
    ensures { Written (stream W.contents writer.old writer.new)
        (flat_map (pair_plan (shown_evening config.now names.entry)) (range_with_len 1 pairs)) result }
{
    for pair in 1..pairs + 1 {
        write_pair(config, names, pair, writer)?;
    }
    Ok(())
}

/// Writes the pairs, by number.
#[tactic(auto, unfolding(crate::specs::PlanText::pairs_text))]
fn write_pairs<W: Write>(
    config: &Config,
    names: Option<&[PairNames]>,
    writer: &mut W,
) -> Result<(), Error>
    ensures { Written (stream W.contents writer.old writer.new) (pairs_text (shown_evening config.now names.entry)) result }
{
    let pairs = config.fields().movement.shape().pairs;
    write_first_pairs(config, names, pairs, writer)
}

/// Writes the evening that a configuration plans: which event is played where and when and how, and for each pair, by its
/// names, where it sits in each round. No key stands in it.
///
/// It stops at the writer's first error, or with `WriteZero` where a write takes no byte: the writer then has a prefix of
/// the text.
pub fn write_plan<W: Write>(config: &Config, writer: &mut W) -> Result<(), Error>
    ensures { Written (stream W.contents writer.old writer.new) (plan_text (evening_of config.now)) result }
{
    write_plan_with(config, None, writer)
}

/// The same with the names of a list in place of the configuration's, by pair and player, where a list is given.
pub fn write_plan_with<W: Write>(
    config: &Config,
    names: Option<&[PairNames]>,
    writer: &mut W,
) -> Result<(), Error>
    ensures { Written (stream W.contents writer.old writer.new) (plan_text (shown_evening config.now names.entry)) result }
{
    write_event(config, writer)?;
    write_pairs(config, names, writer)
}
