//! Of which event a session is.
ghost use Rattle.std.specs.Prelude.{◌≡◌, ◌∷◌, ◌++◌, [], OnOk, codes};
ghost use Rattle.bridge_config.specs.ConfigValue.{configuration_of};
ghost use Rattle.bridge_config.specs.Spelling.{scoring_word};
ghost use Rattle.line_replies.specs.ReplyTexts.{each_spaced, spaced_line, listed_text};
ghost use Rattle.line_text.specs.Lines.{lines_text};
ghost use Rattle.desk_replies.specs.Told.{plan_words, event_lines, keyless_text};

use crate::text::{push_bad_line, push_number, push_str, push_word};
use bridge_cards::Scoring;
use bridge_config::ConfigFields;
use std::alloc::AllocError;

/// The word for how scores are compared.
fn scoring_word(scoring: Scoring) -> &'static str
    ensures { result.now ≡ scoring_word scoring }
{
    match scoring {
        Scoring::MatchPoints => "MP",
        Scoring::Imps => "IMP",
    }
}

/// Adds a line of a first word and a text.
fn push_line(text: &mut Vec<u8>, first: &str, word: &str) -> Result<(), AllocError>
    ensures { OnOk result (text.new.items ≡ text.old.items ++ lines_text (spaced_line first.now (word.now ∷ []) ∷ [])) }
{
    push_str(text, first)?;
    push_word(text, word)?;
    push_str(text, "\n")
}

/// Adds the words of the plan.
fn push_plan_words(text: &mut Vec<u8>, fields: &ConfigFields) -> Result<(), AllocError>
    ensures { OnOk result (text.new.items ≡ text.old.items ++ each_spaced (plan_words (configuration_of fields.now))) }
{
    let shape = fields.movement.shape();
    push_number(text, u32::from(shape.tables))?;
    push_number(text, u32::from(shape.rounds))?;
    push_number(text, u32::from(fields.boards))?;
    push_word(text, scoring_word(fields.scoring))
}

/// Adds the line of the plan.
fn push_plan(text: &mut Vec<u8>, fields: &ConfigFields) -> Result<(), AllocError>
    ensures { OnOk result (text.new.items ≡ text.old.items ++ lines_text (spaced_line (codes "PLAN") (plan_words (configuration_of fields.now)) ∷ [])) }
{
    push_str(text, "PLAN")?;
    push_plan_words(text, fields)?;
    push_str(text, "\n")
}

/// Adds the lines of the event.
fn push_lines(text: &mut Vec<u8>, fields: &ConfigFields) -> Result<(), AllocError>
    ensures { OnOk result (text.new.items ≡ text.old.items ++ lines_text (event_lines (configuration_of fields.now))) }
{
    push_line(text, "EVENT", &fields.event)?;
    push_line(text, "SITE", &fields.site)?;
    push_line(text, "DATE", &fields.date)?;
    push_plan(text, fields)
}

/// Adds of which event the session is.
fn push_event(text: &mut Vec<u8>, fields: &ConfigFields) -> Result<(), AllocError>
    ensures { OnOk result (text.new.items ≡ text.old.items ++ listed_text (event_lines (configuration_of fields.now))) }
{
    push_str(text, "OK\n")?;
    push_lines(text, fields)?;
    push_str(text, ".\n")
}

/// Adds what is answered to bytes that ask by no key: where there are none, of which event the session is.
pub(crate) fn push_keyless(
    text: &mut Vec<u8>,
    fields: &ConfigFields,
    bytes: &[u8],
) -> Result<(), AllocError>
    ensures { OnOk result (text.new.items ≡ text.old.items ++ keyless_text (configuration_of fields.now) bytes.now) }
{
    if bytes.is_empty() {
        push_event(text, fields)
    } else {
        push_bad_line(text)
    }
}
