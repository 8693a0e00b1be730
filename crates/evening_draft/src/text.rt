//! The text of a configuration.
ghost use Rattle.std.specs.Prelude.{◌≡◌, ◌≤◌, ◌∷◌, [], length, map, codes, All};
ghost use Rattle.std.specs.Fmt.{decimal};
ghost use Rattle.line_text.specs.Words.{spaced};
ghost use Rattle.line_text.specs.Streams.{stream, Written};
ghost use Rattle.bridge_config.specs.ConfigValue.{pair_of, heading_of, people_of};
ghost use Rattle.bridge_config.specs.Limits.{IsPair};
ghost use Rattle.bridge_config.specs.Spelling.{heading_lines, people_lines, pair_lines, pair_text, scoring_word};
ghost use Rattle.evening_draft.specs.ConfigText.{ended, text_of, IsConfigWritten};

use crate::form::form_of;
use crate::line::{line_of_six, line_of_two};
use crate::rows::write_movement;
use bridge_cards::Scoring;
use bridge_config::{Config, Key, PairFields};
use line_text::{Five, number_text, write_text};
use page_layout::{PageText, push_bytes};
use std::io::{Error, Write};

/// The word of a scoring.
fn scoring_word(scoring: Scoring) -> &'static [u8]
    ensures word { result.now ≡ scoring_word scoring }
    ensures short { length result.now ≤ 3 }
{
    match scoring {
        Scoring::MatchPoints => b"MP",
        Scoring::Imps => b"IMP",
    }
}

/// The first five lines.
fn heading_text(config: &Config) -> PageText
    ensures { result.items ≡ text_of (heading_lines (heading_of config.now)) }
{
    let fields = config.fields();
    let boards = number_text(u32::from(fields.boards));
    let mut text = PageText::new();
    push_bytes(
        &mut text,
        line_of_two(b"EVENT", fields.event.as_str().as_bytes()).as_slice(),
    );
    push_bytes(
        &mut text,
        line_of_two(b"SITE", fields.site.as_str().as_bytes()).as_slice(),
    );
    push_bytes(
        &mut text,
        line_of_two(b"DATE", fields.date.as_str().as_bytes()).as_slice(),
    );
    push_bytes(
        &mut text,
        line_of_two(b"SCORING", scoring_word(fields.scoring)).as_slice(),
    );
    push_bytes(
        &mut text,
        line_of_two(b"BOARDS", boards.as_str().as_bytes()).as_slice(),
    );
    text
}

/// The line of the director's key.
fn director_line(key: Key) -> PageText
    ensures { result.items ≡ ended (spaced (codes "DIRECTOR" ∷ decimal key.0 ∷ [])) }
{
    line_of_two(b"DIRECTOR", number_text(key.0).as_str().as_bytes())
}

/// The line of a pair.
fn pair_line(index: u32, pair: &PairFields) -> PageText
    requires { IsPair (pair_of pair.now) }
    ensures { result.items ≡ ended (pair_text index (pair_of pair.now)) }
{
    let [one, other] = pair.names;
    let [first, second] = pair.keys;
    let index = number_text(index);
    let first = number_text(first.0);
    let second = number_text(second.0);
    let words = Five {
        first: index.as_str().as_bytes(),
        second: one.as_str().as_bytes(),
        third: first.as_str().as_bytes(),
        fourth: other.as_str().as_bytes(),
        fifth: second.as_str().as_bytes(),
    };
    line_of_six(b"PAIR", words)
}

/// Writes a pair.
fn write_pair<W: Write>(index: u32, pair: &PairFields, writer: &mut W) -> Result<(), Error>
    requires { IsPair (pair_of pair.now) }
    ensures { Written (stream W.contents writer.old writer.new) (ended (pair_text index (pair_of pair.now))) result }
{
    let line = pair_line(index, pair);
    write_text(writer, line.as_slice())
}

/// Writes pairs, by number.
fn write_pairs<W: Write>(pairs: &[PairFields], writer: &mut W) -> Result<(), Error>
    requires few { length pairs.now ≤ 24 }
    requires pairs { All IsPair (map pair_of pairs.now) }
    ensures { Written (stream W.contents writer.old writer.new) (text_of (pair_lines 1 (map pair_of pairs.now))) result }
{
    for (index, pair) in pairs.iter().enumerate() {
        write_pair(index as u32 + 1, pair, writer)?;
    }
    Ok(())
}

/// Writes the director's key.
fn write_director<W: Write>(key: Key, writer: &mut W) -> Result<(), Error>
    ensures { Written (stream W.contents writer.old writer.new)
        (ended (spaced (codes "DIRECTOR" ∷ decimal key.0 ∷ []))) result }
{
    let line = director_line(key);
    write_text(writer, line.as_slice())
}

/// Writes the director's key and the pairs.
fn write_keys<W: Write>(director: Key, pairs: &[PairFields], writer: &mut W) -> Result<(), Error>
    requires few { length pairs.now ≤ 24 }
    requires pairs { All IsPair (map pair_of pairs.now) }
    ensures { Written (stream W.contents writer.old writer.new)
        (text_of (people_lines (record { director = director.0; pairs = map pair_of pairs.now }))) result }
{
    write_director(director, writer)?;
    write_pairs(pairs, writer)
}

/// Writes the lines after the movement's.
fn write_people<W: Write>(config: &Config, writer: &mut W) -> Result<(), Error>
    ensures { Written (stream W.contents writer.old writer.new) (text_of (people_lines (people_of config.now))) result }
{
    let fields = config.fields();
    write_keys(fields.director, fields.pairs.as_slice(), writer)
}

/// Writes the first five lines.
fn write_heading<W: Write>(config: &Config, writer: &mut W) -> Result<(), Error>
    ensures { Written (stream W.contents writer.old writer.new) (text_of (heading_lines (heading_of config.now))) result }
{
    let text = heading_text(config);
    write_text(writer, text.as_slice())
}

/// Writes the text of a configuration, which is read as that configuration. A Mitchell stands in one line, any other
/// movement in its rows.
///
/// It stops at the writer's first error, or with `WriteZero` where a write takes no byte: the writer then has a prefix of
/// the text.
pub fn write_config<W: Write>(config: &Config, writer: &mut W) -> Result<(), Error>
    ensures { IsConfigWritten config.now (stream W.contents writer.old writer.new) result }
{
    let movement = &config.fields().movement;
    let form = form_of(movement);
    write_heading(config, writer)?;
    write_movement(form, movement, writer)?;
    write_people(config, writer)
}
