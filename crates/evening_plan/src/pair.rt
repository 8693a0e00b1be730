//! Where a pair sits in each round.
ghost use Rattle.std.specs.Prelude.{◌≡◌, ◌≤◌, ◌-◌, ◌∷◌, [], length, flat_map, slice_index_or};
ghost use Rattle.std.specs.List.{range_with_len};
ghost use Rattle.line_text.specs.Streams.{stream, Written};
ghost use Rattle.bridge_config.specs.ConfigValue.{both_names};
ghost use Rattle.page_layout.specs.declared.format.Format.TheVariants.{Plain};
ghost use Rattle.evening_plan.specs.Evening.{evening_of, shown_evening};
ghost use Rattle.evening_plan.specs.PairText.{pair_words, round_titles, boards_cell, played_row, rest_row, round_row, round_text, rounds_text, pair_plan};

use crate::columns::{PLAY_COLUMNS, REST_COLUMNS};
use crate::seat::seat_row;
use crate::text::push_number;
use arrayvec::ArrayString;
use bridge_config::Config;
use bridge_movement::{Row, boards_before, last_board};
use evening_draft::{PairNames, shown_name};
use line_text::{number_text, write_text};
use page_layout::{Format, PageText, push_bytes, push_row, push_titles};
use std::io::{Error, Write};

/// Both names of a pair.
fn both_names(first: &str, second: &str) -> ArrayString<325>
    requires first { length first.now ≤ 160 }
    requires second { length second.now ≤ 160 }
    ensures { result.bytes ≡ both_names (first.now ∷ second.now ∷ []) }
{
    let mut names = ArrayString::new();
    names.push_str(first);
    names.push_str(" and ");
    names.push_str(second);
    names
}

/// The heading of a pair: its number and its names.
#[tactic(auto, unfolding(crate::specs::PairText::pair_words))]
fn pair_words(pair: u8, first: &str, second: &str) -> PageText
    requires first { length first.now ≤ 160 }
    requires second { length second.now ≤ 160 }
    ensures { result.items ≡ pair_words pair (first.now ∷ second.now ∷ []) }
{
    let mut text = PageText::new();
    push_bytes(&mut text, b"\nPair ");
    push_number(&mut text, u32::from(pair));
    push_bytes(&mut text, b": ");
    push_bytes(&mut text, both_names(first, second).as_str().as_bytes());
    push_bytes(&mut text, b"\n");
    text
}

/// Writes the heading of the pair of that number.
fn write_words<W: Write>(
    config: &Config,
    names: Option<&[PairNames]>,
    pair: u8,
    writer: &mut W,
) -> Result<(), Error>
    ensures { Written (stream W.contents writer.old writer.new)
        (pair_words pair (slice_index_or (shown_evening config.now names.entry).names (pair - 1) [])) result }
{
    let pairs = config.fields().pairs.as_slice();
    let first = shown_name(names, pairs, pair, true);
    let second = shown_name(names, pairs, pair, false);
    let text = pair_words(pair, first, second);
    write_text(writer, text.as_slice())
}

/// The titles of a pair's rounds.
#[tactic(auto, unfolding(crate::specs::PairText::round_titles))]
fn round_titles(format: Format) -> PageText
    ensures { result.items ≡ round_titles format }
{
    let titles = [
        b"Round".as_slice(),
        b"Table",
        b"Side",
        b"Against",
        b"Set",
        b"Boards",
    ];
    let mut text = PageText::new();
    push_titles(&mut text, format, &PLAY_COLUMNS, &titles);
    text
}

/// Writes the titles of a pair's rounds.
fn write_titles<W: Write>(writer: &mut W) -> Result<(), Error>
    ensures { Written (stream W.contents writer.old writer.new) (round_titles Plain) result }
{
    let text = round_titles(Format::Plain);
    write_text(writer, text.as_slice())
}

/// The boards of a set, of so many boards.
fn boards_cell(boards: u8, set: u8) -> ArrayString<24>
    ensures text { result.bytes ≡ boards_cell boards set }
    ensures short { length result.bytes ≤ 24 }
{
    let mut text = ArrayString::new();
    if boards == 1 {
        text.push_str(number_text(u32::from(set)).as_str());
    } else {
        let first = u32::from(boards_before(boards, set)) + 1;
        text.push_str(number_text(first).as_str());
        text.push_str(" to ");
        text.push_str(number_text(u32::from(last_board(boards, set))).as_str());
    }
    text
}

/// A round that is played: the round, the table, the side, the pair against it, the set and its boards.
#[tactic(auto, unfolding(crate::specs::PairText::played_row))]
fn played_row(boards: u8, row: Row, side: &[u8], against: u8) -> PageText
    requires { length side.now ≤ 2 }
    ensures { result.items ≡ played_row boards row side.now against }
{
    let round = number_text(u32::from(row.round));
    let table = number_text(u32::from(row.table));
    let against = number_text(u32::from(against));
    let set = number_text(u32::from(row.set));
    let played = boards_cell(boards, row.set);
    let cells = [
        round.as_str().as_bytes(),
        table.as_str().as_bytes(),
        side,
        against.as_str().as_bytes(),
        set.as_str().as_bytes(),
        played.as_str().as_bytes(),
    ];
    let mut text = PageText::new();
    push_row(&mut text, Format::Plain, &PLAY_COLUMNS, &cells);
    text
}

/// A round in which the pair has no opponents.
#[tactic(auto, unfolding(crate::specs::PairText::rest_row))]
fn rest_row(round: u8) -> PageText
    ensures { result.items ≡ rest_row round }
{
    let round = number_text(u32::from(round));
    let cells = [round.as_str().as_bytes(), b"sits out"];
    let mut text = PageText::new();
    push_row(&mut text, Format::Plain, &REST_COLUMNS, &cells);
    text
}

/// A round, by the row that the pair plays.
fn round_row(boards: u8, pair: u8, round: u8, seat: Option<Row>) -> PageText
    ensures { result.items ≡ round_row boards pair round seat }
{
    match seat {
        None => rest_row(round),
        Some(row) if row.ns == pair => played_row(boards, row, b"NS", row.ew),
        Some(row) => played_row(boards, row, b"EW", row.ns),
    }
}

/// Writes a round of a pair.
fn write_round<W: Write>(config: &Config, pair: u8, round: u8, writer: &mut W) -> Result<(), Error>
    ensures { Written (stream W.contents writer.old writer.new) (round_text (evening_of config.now) pair round) result }
{
    let fields = config.fields();
    let seat = seat_row(round, pair, fields.movement.rows());
    let text = round_row(fields.boards, pair, round, seat);
    write_text(writer, text.as_slice())
}

/// Writes so many rounds of a pair.
fn write_first_rounds<W: Write>(
    config: &Config,
    pair: u8,
    rounds: u8,
    writer: &mut W,
) -> Result<(), Error>
    requires few { rounds ≤ 12 }
    ensures { Written (stream W.contents writer.old writer.new) (flat_map (round_text (evening_of config.now) pair) (range_with_len 1 rounds)) result }
{
    for round in 1..rounds + 1 {
        write_round(config, pair, round, writer)?;
    }
    Ok(())
}

/// Writes the rounds of a pair.
#[tactic(auto, unfolding(crate::specs::PairText::rounds_text))]
fn write_rounds<W: Write>(config: &Config, pair: u8, writer: &mut W) -> Result<(), Error>
    ensures { Written (stream W.contents writer.old writer.new) (rounds_text (evening_of config.now) pair) result }
{
    let rounds = config.fields().movement.shape().rounds;
    write_first_rounds(config, pair, rounds, writer)
}

/// Writes a pair, with these names or its own: its heading, and a row for each round.
pub fn write_pair<W: Write>(
    config: &Config,
    names: Option<&[PairNames]>,
    pair: u8,
    writer: &mut W,
) -> Result<(), Error>
    ensures { Written (stream W.contents writer.old writer.new) (pair_plan (shown_evening config.now names.entry) pair) result }
{
    write_words(config, names, pair, writer)?;
    write_titles(writer)?;
    write_rounds(config, pair, writer)
}
