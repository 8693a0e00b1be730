//! The sheet of the score cards in HTML.
ghost use Rattle.std.specs.Prelude.{◌≡◌, ◌≤◌, ◌++◌, flat_map, IfSome};
ghost use Rattle.std.specs.List.{range_with_len};
ghost use Rattle.line_text.specs.Streams.{stream, Written};
ghost use Rattle.page_layout.specs.Page.{section_end, page_end};
ghost use Rattle.bridge_results.specs.RankingText.{ranked_items};
ghost use Rattle.bridge_results.specs.HtmlCard.{standing_of, card_html};
ghost use Rattle.bridge_results.specs.HtmlPage.{html_card_on, html_cards, cards_start, html_card_sheet};

use crate::card::CardLine;
use crate::html::card::{Standing, standing_of, write_card};
use crate::results::Results;
use bridge_config::Config;
use bridge_score::MOST_LINES;
use bridge_session::{Ranking, Session};
use evening_draft::PairNames;
use line_text::write_text;
use page_layout::{Format, PageText, push_page_end, push_section_end};
use std::io::{Error, Write};

/// Writes the card of a pair with these lines.
fn write_card_by<W: Write>(
    names: Option<&[PairNames]>,
    config: &Config,
    pair: u8,
    standing: &Option<Standing>,
    lines: &[CardLine],
    writer: &mut W,
) -> Result<(), Error>
    requires { IfSome standing.now (λ standing. standing.among ≤ MOST_LINES) }
    ensures { Written (stream W.contents writer.old writer.new) (card_html config.now.scoring names.entry config.now.pairs pair standing.now lines.now) result }
{
    let fields = config.fields();
    let pairs = fields.pairs.as_slice();
    write_card(fields.scoring, names, pairs, pair, standing, lines, writer)
}

/// Writes the card of a pair.
fn write_card_of<W: Write>(
    names: Option<&[PairNames]>,
    session: &Session,
    results: &Results<'_>,
    first: &Option<Ranking>,
    second: &Option<Ranking>,
    pair: u8,
    writer: &mut W,
) -> Result<(), Error>
    requires { results.now ≡ session.now }
    ensures { Written (stream W.contents writer.old writer.new) (html_card_on names.entry session.now (ranked_items first.now) (ranked_items second.now) pair) result }
{
    let card = results.score_card(pair);
    let standing = standing_of(first, second, pair);
    write_card_by(
        names,
        session.config(),
        pair,
        &standing,
        card.as_slice(),
        writer,
    )
}

/// Writes the cards of the pairs, by number.
fn write_cards<W: Write>(
    names: Option<&[PairNames]>,
    session: &Session,
    results: &Results<'_>,
    first: &Option<Ranking>,
    second: &Option<Ranking>,
    pairs: u8,
    writer: &mut W,
) -> Result<(), Error>
    requires results { results.now ≡ session.now }
    requires few { pairs ≤ 24 }
    ensures { Written (stream W.contents writer.old writer.new) (flat_map (html_card_on names.entry session.now (ranked_items first.now) (ranked_items second.now)) (range_with_len 1 pairs)) result }
{
    for pair in 1..pairs + 1 {
        write_card_of(names, session, results, first, second, pair, writer)?;
    }
    Ok(())
}

/// Writes the cards of all pairs.
fn write_all_cards<W: Write>(
    names: Option<&[PairNames]>,
    session: &Session,
    results: &Results<'_>,
    first: &Option<Ranking>,
    second: &Option<Ranking>,
    writer: &mut W,
) -> Result<(), Error>
    requires { results.now ≡ session.now }
    ensures { Written (stream W.contents writer.old writer.new) (html_cards names.entry session.now (ranked_items first.now) (ranked_items second.now)) result }
{
    let pairs = session.config().fields().movement.shape().pairs;
    write_cards(names, session, results, first, second, pairs, writer)
}

/// Writes what ends the sheet, and the page.
fn write_sheet_end<W: Write>(format: Format, writer: &mut W) -> Result<(), Error>
    ensures { Written (stream W.contents writer.old writer.new) (section_end format ++ page_end format) result }
{
    let mut text = PageText::new();
    push_section_end(&mut text, format);
    push_page_end(&mut text, format);
    write_text(writer, text.as_slice())
}

/// Writes what begins the sheet of the score cards.
fn write_sheet_start<W: Write>(writer: &mut W) -> Result<(), Error>
    ensures { Written (stream W.contents writer.old writer.new) cards_start result }
{
    write_text(
        writer,
        b"<section class=\"sheet\" id=\"cards\">\n<h2>Score cards</h2>\n",
    )
}

/// Writes the sheet of the score cards, and what ends the page.
pub fn write_card_sheet<W: Write>(
    names: Option<&[PairNames]>,
    session: &Session,
    results: &Results<'_>,
    first: &Option<Ranking>,
    second: &Option<Ranking>,
    writer: &mut W,
) -> Result<(), Error>
    requires { results.now ≡ session.now }
    ensures { Written (stream W.contents writer.old writer.new) (html_card_sheet names.entry session.now (ranked_items first.now) (ranked_items second.now)) result }
{
    write_sheet_start(writer)?;
    write_all_cards(names, session, results, first, second, writer)?;
    write_sheet_end(Format::Html, writer)
}
