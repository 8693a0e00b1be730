//! By which names a pair is shown.
ghost use Rattle.std.specs.Prelude.{◌≡◌, ◌≤◌, ◌∷◌, [], length, map};
ghost use Rattle.bridge_config.specs.ConfigValue.{pair_of, both_names, pair_names};
ghost use Rattle.bridge_results.specs.ShownPairs.{listed_pair, shown_pair, in_columns, names_cell};

use crate::pages::columns::NAMES_COLUMNS;
use arrayvec::ArrayString;
use bridge_config::{PairFields, pair_names};
use evening_draft::PairNames;
use page_layout::Format;
use unicode_width::UnicodeWidthStr;

/// The most bytes of both names of a pair, with a word between.
pub const SHOWN_BYTES: usize = 325;

/// The most bytes of a cell with them, and of blanks behind them.
pub const CELL_BYTES: usize = 378;

/// Both names of a pair.
pub type ShownNames = ArrayString<SHOWN_BYTES>;

/// A cell with them.
pub type NamesCell = ArrayString<CELL_BYTES>;

/// Both names of a pair of a list.
fn both_names(found: &PairNames) -> ShownNames
    ensures { result.bytes ≡ both_names (found.now.first.bytes ∷ found.now.second.bytes ∷ []) }
{
    let mut text = ShownNames::new();
    text.push_str(found.first.as_str());
    text.push_str(" and ");
    text.push_str(found.second.as_str());
    text
}

/// Both names of the pair of that number in a list; none where there is no such pair.
fn listed_pair(names: &[PairNames], pair: u8) -> ShownNames
    ensures { result.bytes ≡ listed_pair names.now pair }
{
    match names.get(usize::from(pair.saturating_sub(1))) {
        Some(found) => both_names(found),
        None => ShownNames::new(),
    }
}

/// The same of a configuration.
fn configured_pair(pairs: &[PairFields], pair: u8) -> ShownNames
    ensures { result.bytes ≡ pair_names (map pair_of pairs.now) pair }
{
    let mut text = ShownNames::new();
    text.push_str(pair_names(pairs, pair).as_str());
    text
}

/// Both names of the pair of that number, from 1: of a list, where there is one, and otherwise of the configuration.
pub fn shown_pair(names: Option<&[PairNames]>, pairs: &[PairFields], pair: u8) -> ShownNames
    ensures names { result.bytes ≡ shown_pair names.entry (map pair_of pairs.now) pair }
    ensures short { length result.bytes ≤ SHOWN_BYTES }
{
    match names {
        Some(names) => listed_pair(names, pair),
        None => configured_pair(pairs, pair),
    }
}

/// A text that fills the column of names, by the columns of a terminal that it takes.
fn in_columns(text: &str) -> NamesCell
    requires { length text.now ≤ SHOWN_BYTES }
    ensures { result.bytes ≡ in_columns 53 text.now }
{
    let mut cell = NamesCell::new();
    cell.push_str(text);
    for _blank in 0..NAMES_COLUMNS.saturating_sub(text.width()) {
        cell.push_str(" ");
    }
    cell
}

/// A text as a cell.
fn whole(text: &ShownNames) -> NamesCell
    ensures { result.bytes ≡ text.now.bytes }
{
    let mut cell = NamesCell::new();
    cell.push_str(text.as_str());
    cell
}

/// Both names of a pair in the cell of a table.
pub fn names_cell(
    format: Format,
    names: Option<&[PairNames]>,
    pairs: &[PairFields],
    pair: u8,
) -> NamesCell
    ensures names { result.bytes ≡ names_cell format names.entry (map pair_of pairs.now) pair }
    ensures short { length result.bytes ≤ CELL_BYTES }
{
    match (format, names) {
        (Format::Plain, Some(names)) => in_columns(listed_pair(names, pair).as_str()),
        (Format::Plain, None) => whole(&configured_pair(pairs, pair)),
        (Format::Html, names) => whole(&shown_pair(names, pairs, pair)),
    }
}
