//! The slips of an evening.
ghost use Rattle.std.specs.Prelude.{◌≡◌, ◌≤◌, flat_map};
ghost use Rattle.std.specs.List.{range_with_len};
ghost use Rattle.line_text.specs.Streams.{stream, Written};
ghost use Rattle.page_layout.specs.Page.{page_end};
ghost use Rattle.evening_slips.specs.Slips.{HasAddress, slips_start, director_text, player_text, pair_text, pairs_text, slips_text};

use crate::player::{place_words, player_key};
use crate::sheet::SlipSheet;
use crate::slip::{director_text, slip_text};
use crate::style::SLIPS_START;
use bridge_config::Config;
use evening_draft::{PairNames, shown_name};
use line_text::write_text;
use page_layout::{Format, PageText, push_page_end};
use std::io::{Error, Write};

/// What begins a page of slips.
fn slips_start(format: Format) -> &'static [u8]
    ensures { result.now ≡ slips_start format }
{
    match format {
        Format::Plain => b"",
        Format::Html => SLIPS_START,
    }
}

/// Writes what begins a page of slips.
fn write_start<W: Write>(sheet: &SlipSheet<'_>, writer: &mut W) -> Result<(), Error>
    ensures { Written (stream W.contents writer.old writer.new) (slips_start sheet.now.format) result }
{
    write_text(writer, slips_start(sheet.format))
}

/// Writes what ends it.
fn write_end<W: Write>(sheet: &SlipSheet<'_>, writer: &mut W) -> Result<(), Error>
    ensures { Written (stream W.contents writer.old writer.new) (page_end sheet.now.format) result }
{
    let mut text = PageText::new();
    push_page_end(&mut text, sheet.format);
    write_text(writer, text.as_slice())
}

/// Writes the director's slip.
fn write_director<W: Write>(
    sheet: &SlipSheet<'_>,
    config: &Config,
    writer: &mut W,
) -> Result<(), Error>
    requires { HasAddress sheet.now }
    ensures { Written (stream W.contents writer.old writer.new) (director_text sheet.now config.now.director) result }
{
    let text = director_text(sheet, config.fields().director);
    write_text(writer, text.as_slice())
}

/// The slip of the first or the second player of the pair of that number.
#[tactic(auto, unfolding(crate::specs::Slips::player_text))]
fn player_text(
    sheet: &SlipSheet<'_>,
    config: &Config,
    names: Option<&[PairNames]>,
    pair: u8,
    first: bool,
) -> PageText
    requires { HasAddress sheet.now }
    ensures { result.items ≡ player_text sheet.now config.now names.entry pair first }
{
    let fields = config.fields();
    let pairs = fields.pairs.as_slice();
    let name = shown_name(names, pairs, pair, first);
    let place = place_words(first, fields.movement.place(1, pair));
    slip_text(sheet, name, pair, &place, player_key(pairs, pair, first))
}

/// Writes the slip of the first or the second player of the pair of that number.
fn write_player<W: Write>(
    sheet: &SlipSheet<'_>,
    config: &Config,
    names: Option<&[PairNames]>,
    pair: u8,
    first: bool,
    writer: &mut W,
) -> Result<(), Error>
    requires { HasAddress sheet.now }
    ensures { Written (stream W.contents writer.old writer.new) (player_text sheet.now config.now names.entry pair first) result }
{
    let text = player_text(sheet, config, names, pair, first);
    write_text(writer, text.as_slice())
}

/// Writes both slips of the pair of that number.
fn write_pair<W: Write>(
    sheet: &SlipSheet<'_>,
    config: &Config,
    names: Option<&[PairNames]>,
    pair: u8,
    writer: &mut W,
) -> Result<(), Error>
    requires { HasAddress sheet.now }
    ensures { Written (stream W.contents writer.old writer.new) (pair_text sheet.now config.now names.entry pair) result }
{
    write_player(sheet, config, names, pair, true, writer)?;
    write_player(sheet, config, names, pair, false, writer)
}

/// Writes the slips of so many pairs.
fn write_first_pairs<W: Write>(
    sheet: &SlipSheet<'_>,
    config: &Config,
    names: Option<&[PairNames]>,
    pairs: u8,
    writer: &mut W,
) -> Result<(), Error>
    requires address { HasAddress sheet.now }
    requires few { pairs ≤ 24 }
    ensures { Written (stream W.contents writer.old writer.new)
        (flat_map (pair_text sheet.now config.now names.entry) (range_with_len 1 pairs)) result }
{
    for pair in 1..pairs + 1 {
        write_pair(sheet, config, names, pair, writer)?;
    }
    Ok(())
}

/// Writes the slips of the pairs, by number.
#[tactic(auto, unfolding(crate::specs::Slips::pairs_text))]
fn write_pairs<W: Write>(
    sheet: &SlipSheet<'_>,
    config: &Config,
    names: Option<&[PairNames]>,
    writer: &mut W,
) -> Result<(), Error>
    requires { HasAddress sheet.now }
    ensures { Written (stream W.contents writer.old writer.new) (pairs_text sheet.now config.now names.entry) result }
{
    let pairs = config.fields().movement.shape().pairs;
    write_first_pairs(sheet, config, names, pairs, writer)
}

/// Writes a page of slips to cut out, the director's and then each player's: its name, its pair, the table and the seat at which it
/// begins, its key, and where the pages are. A name is that of the list, where one is given, and otherwise the configuration's.
///
/// In HTML there are eight slips to a sheet of A4. It stops at the writer's first error, or with `WriteZero` where a write takes
/// no byte: the writer then has a prefix of the text.
pub fn write_slips<W: Write>(
    config: &Config,
    names: Option<&[PairNames]>,
    sheet: &SlipSheet<'_>,
    writer: &mut W,
) -> Result<(), Error>
    requires { HasAddress sheet.now }
    ensures { Written (stream W.contents writer.old writer.new) (slips_text sheet.now config.now names.entry) result }
{
    write_start(sheet, writer)?;
    write_director(sheet, config, writer)?;
    write_pairs(sheet, config, names, writer)?;
    write_end(sheet, writer)
}
