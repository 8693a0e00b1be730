//! Reads the text of a configuration.
ghost use Rattle.std.specs.Prelude.{◌≡◌, ◌+◌, ◌≤◌, ◌<◌, ◌∷◌, [], IfOk, map, length, Ok};
ghost use Rattle.std.specs.Str.Lines.{lines};
ghost use Rattle.bridge_movement.specs.Shape.{IsShape, row_count};
ghost use Rattle.bridge_config.specs.ConfigValue.{ConfigValue, pair_of, key_number};
ghost use Rattle.bridge_config.specs.Spelling.{Spells};
ghost use Rattle.bridge_config.specs.Limits.{IsConfiguration};
ghost use Rattle.bridge_config.specs.LineReading.{SeenAs};
ghost use Rattle.bridge_config.specs.Reading.{heading_in, rows_in, pairs_in, people_in, JudgesRows, ReadsMovement, ReadsAfterHeading, ReadsConfiguration, due_line, stated_by};
ghost use Rattle.bridge_config.specs.Parts.{view_of_heading, view_of_people, moved_of};

use crate::config::Config;
use crate::fields::{ConfigFields, DATE_BYTES, Key, MOST_KEYS, NAME_BYTES, PairFields};
use crate::line::{due_line, has_line};
use crate::refused::{ConfigFault, ConfigRefused};
use arrayvec::{ArrayString, ArrayVec};
use bridge_cards::Scoring;
use bridge_movement::{MOST_PAIRS, MOST_ROWS, MOST_TABLES, Movement, Row, Shape};

/// The most bytes that a text may have.
const CONFIG_BYTES: usize = 16384;

/// What the first five lines state.
#[derive(Clone, Copy)]
struct Heading {
    /// The name after `EVENT`.
    event: ArrayString<NAME_BYTES>,
    /// The name after `SITE`.
    site: ArrayString<NAME_BYTES>,
    /// The date after `DATE`.
    date: ArrayString<DATE_BYTES>,
    /// How scores are compared.
    scoring: Scoring,
    /// The number of boards in a set.
    boards: u8,
}

/// A movement, the number of the line after its last, and the text from there.
#[derive(Drop)]
struct Moved<'a> {
    movement: Movement,
    number: u32,
    rest: &'a [u8],
}

/// What the lines after the movement's state.
#[derive(Drop)]
struct People {
    director: Key,
    pairs: ArrayVec<PairFields, MOST_PAIRS>,
}

/// Reads the text of a configuration, and names the first fault: the text's length first, and then line by line.
///
/// In one line `Form` comes before `Range`, and `Range` before `KeyTwice`. `Movement` comes as the last row was read,
/// with the line of the row at fault. Where a line is missing, or one stands after the last, the fault is its `Form`.
pub fn read_config(text: &[u8]) -> Result<Config, ConfigFault>
    // What is read is spelled so.
    ensures found { IfOk result (Spells text.now) }
    // What is spelled so is read.
    ensures only { (configuration : ConfigValue) → Spells text.now configuration
        → SeenAs (λ config. config) result (Ok configuration) }
    // Which fault it is.
    ensures exact { ReadsConfiguration text.now result }
{
    read_text(text)
}

fn read_text(text: &[u8]) -> Result<Config, ConfigFault>
    ensures { ReadsConfiguration text.now result }
{
    if text.len() > CONFIG_BYTES {
        return Err(ConfigFault {
            line: 0,
            cause: ConfigRefused::TooLong,
        });
    }
    read_lines(text)
}

fn read_lines(text: &[u8]) -> Result<Config, ConfigFault>
    requires { length text.now ≤ CONFIG_BYTES }
    ensures { ReadsAfterHeading (heading_in (lines text.now)) result }
{
    match read_heading(text) {
        Ok((heading, rest)) => {
            let moved = read_movement(rest)?;
            let pairs = moved.movement.shape().pairs;
            let people = read_people(pairs, moved.number, moved.rest)?;
            Ok(config_of(heading, moved.movement, people))
        }
        Err(fault) => Err(fault),
    }
}

/// Reads the first five lines.
#[tactic(auto, unfolding(crate::specs::Reading::heading_in))]
fn read_heading(text: &[u8]) -> Result<(Heading, &[u8]), ConfigFault>
    ensures { SeenAs (λ read. (view_of_heading read.0, lines read.1.now)) result (heading_in (lines text.now)) }
{
    let (line, rest) = due_line(1, text)?;
    let event = line.name(b"EVENT")?;
    let (line, rest) = due_line(2, rest)?;
    let site = line.name(b"SITE")?;
    let (line, rest) = due_line(3, rest)?;
    let date = line.date()?;
    let (line, rest) = due_line(4, rest)?;
    let scoring = line.scoring()?;
    let (line, rest) = due_line(5, rest)?;
    let boards = line.number(b"BOARDS", 1, 3)?;
    let heading = Heading {
        event,
        site,
        date,
        scoring,
        boards: boards as u8,
    };
    Ok((heading, rest))
}

/// Reads the movement, from the sixth line on.
fn read_movement(text: &[u8]) -> Result<Moved<'_>, ConfigFault>
    ensures movement { ReadsMovement (due_line 6 (lines text.now)) (moved_of result) }
    ensures number { IfOk result (λ moved. moved.number ≤ 151) }
{
    let (line, rest) = due_line(6, text)?;
    if line.has_word_after(b"MITCHELL") {
        let tables = line.number(b"MITCHELL", 2, MOST_TABLES as u32)?;
        Ok(Moved {
            movement: Movement::mitchell(tables as u8),
            number: 7,
            rest,
        })
    } else {
        read_movement_rows(line.shape()?, rest)
    }
}

/// Reads the rows of a movement of that shape, from the seventh line on.
fn read_movement_rows(shape: Shape, text: &[u8]) -> Result<Moved<'_>, ConfigFault>
    requires { IsShape shape }
    ensures movement { JudgesRows shape (rows_in (row_count shape) 7 (lines text.now)) (moved_of result) }
    ensures number { IfOk result (λ moved. moved.number ≤ 151) }
{
    let count = shape.row_count() as u32;
    let (rows, rest) = read_rows(count, text)?;
    let movement = Movement::from_rows(shape, &rows).map_err(|refused| ConfigFault {
        line: 6 + u32::from(refused.row_number()),
        cause: ConfigRefused::Movement(refused),
    })?;
    Ok(Moved {
        movement,
        number: 7 + count,
        rest,
    })
}

/// Reads that many rows, from the seventh line on.
fn read_rows(count: u32, text: &[u8]) -> Result<(ArrayVec<Row, MOST_ROWS>, &[u8]), ConfigFault>
    requires { count ≤ MOST_ROWS }
    ensures { SeenAs (λ read. (read.0.items, lines read.1.now)) result (rows_in count 7 (lines text.now)) }
{
    let mut rows = ArrayVec::new();
    let mut rest = text;
    for index in 0..count {
        let (line, after) = due_line(7 + index, rest)?;
        rows.push(line.row()?);
        rest = after;
    }
    Ok((rows, rest))
}

/// Reads the director's key and that many pairs, the first of these lines having that number.
#[tactic(auto, unfolding(crate::specs::Reading::people_in))]
fn read_people(count: u8, number: u32, text: &[u8]) -> Result<People, ConfigFault>
    requires count { count ≤ MOST_PAIRS }
    requires number { number ≤ 151 }
    ensures { SeenAs view_of_people result (people_in count number (lines text.now)) }
{
    let (line, rest) = due_line(number, text)?;
    let director = Key(line.number(b"DIRECTOR", 0, u32::MAX)?);
    let (pairs, rest) = read_pairs(u32::from(count), number + 1, director, rest)?;
    if has_line(rest) {
        return Err(ConfigFault {
            line: number + 1 + u32::from(count),
            cause: ConfigRefused::Form,
        });
    }
    Ok(People { director, pairs })
}

/// Reads that many pairs, the first of these lines having that number, after the director's key.
fn read_pairs(
    count: u32,
    number: u32,
    director: Key,
    text: &[u8],
) -> Result<(ArrayVec<PairFields, MOST_PAIRS>, &[u8]), ConfigFault>
    requires count { count ≤ MOST_PAIRS }
    requires number { number ≤ 152 }
    ensures { SeenAs (λ read. (map pair_of read.0.items, lines read.1.now)) result
        (pairs_in count number 1 (key_number director ∷ []) (lines text.now)) }
{
    let mut pairs = ArrayVec::new();
    let mut keys: ArrayVec<Key, MOST_KEYS> = ArrayVec::new();
    keys.push(director);
    let mut rest = text;
    for index in 0..count {
        let (line, after) = due_line(number + index, rest)?;
        let pair = line.pair(1 + index, keys.as_slice())?;
        pairs.push(pair);
        keys.try_extend_from_slice(&pair.keys).unwrap();
        rest = after;
    }
    Ok((pairs, rest))
}

/// The configuration of the parts that were read.
fn config_of(heading: Heading, movement: Movement, people: People) -> Config
    requires { IsConfiguration (stated_by (view_of_heading heading) movement (view_of_people people)) }
    ensures { result ≡ stated_by (view_of_heading heading) movement (view_of_people people) }
{
    let fields = ConfigFields {
        event: heading.event,
        site: heading.site,
        date: heading.date,
        scoring: heading.scoring,
        boards: heading.boards,
        movement,
        director: people.director,
        pairs: people.pairs,
    };
    Config::from_fields(fields).unwrap()
}
