//! The score card of a pair in HTML, with its place.
ghost use Rattle.std.specs.Prelude.{◌≡◌, ◌==◌, ◌≤◌, ◌++◌, length, map, position, slice_get, option_and_then, IfSome};
ghost use Rattle.line_text.specs.Streams.{stream, Written};
ghost use Rattle.bridge_config.specs.ConfigValue.{pair_of};
ghost use Rattle.bridge_cards.specs.declared.scoring.Scoring.TheVariants.{MatchPoints, Imps};
ghost use Rattle.bridge_results.specs.RankingText.{ranked_items};
ghost use Rattle.bridge_results.specs.HtmlCard.{standing_in, standing_by, standing_of, card_start, sum_words, place_words, standing_words, standing_html, html_card_titles, html_card_head, html_card_table, card_top, card_html};

use crate::card::CardLine;
use crate::html::card_rows::write_rows;
use crate::html::columns::{SHARE_CARD_COLUMNS, SUM_CARD_COLUMNS};
use crate::html::links::pair_target;
use crate::pages::pair_card::pair_words;
use crate::pages::ranking::{imps_cell, points_cell, write_end};
use arrayvec::ArrayString;
use bridge_config::PairFields;
use bridge_score::{MOST_LINES, Ranked, Scoring, share_percent};
use bridge_session::Ranking;
use evening_draft::PairNames;
use line_text::{number_text, percent_text, tenths_text, write_text};
use page_layout::{Format, Level, PageText, push_bytes, push_heading, push_paragraph, push_titles};
use std::io::{Error, Write};

/// The place of a pair in a ranking, and among how many.
#[derive(Clone, Copy)]
pub struct Standing {
    /// The pair, its place and its total.
    pub ranked: Ranked,
    /// How many pairs the ranking has.
    pub among: usize,
}

/// The index of a pair in a ranking.
fn index_of(ranking: &[Ranked], pair: u8) -> Option<usize>
    ensures { result ≡ position (λ ranked. ranked.pair == pair) ranking.now }
{
    ranking.iter().position(|ranked| ranked.pair == pair)
}

/// A pair of a ranking.
fn ranked_in(ranking: &[Ranked], pair: u8) -> Option<Ranked>
    ensures { result ≡ option_and_then (slice_get ranking.now) (position (λ ranked. ranked.pair == pair) ranking.now) }
{
    let index = index_of(ranking, pair)?;
    ranking.get(index).copied()
}

/// The place of a pair in a ranking.
fn standing_in(ranking: &Ranking, pair: u8) -> Option<Standing>
    ensures standing { result ≡ standing_in ranking.now.items pair }
    ensures few { IfSome result (λ standing. standing.among ≤ MOST_LINES) }
{
    let among = ranking.len();
    let ranked = ranked_in(ranking.as_slice(), pair)?;
    Some(Standing { ranked, among })
}

/// The place of a pair in a field, if there is such a field.
fn standing_by(ranking: &Option<Ranking>, pair: u8) -> Option<Standing>
    ensures standing { result ≡ standing_by (ranked_items ranking.now) pair }
    ensures few { IfSome result (λ standing. standing.among ≤ MOST_LINES) }
{
    standing_in(ranking.as_ref()?, pair)
}

/// The place of a pair in its field.
pub fn standing_of(first: &Option<Ranking>, second: &Option<Ranking>, pair: u8) -> Option<Standing>
    ensures few { IfSome result (λ standing. standing.among ≤ MOST_LINES) }
    ensures standing { result ≡ standing_of (ranked_items first.now) (ranked_items second.now) pair }
{
    match standing_by(first, pair) {
        Some(standing) => Some(standing),
        None => standing_by(second, pair),
    }
}

/// Writes what stands above the place of a pair.
#[tactic(auto, unfolding(crate::specs::HtmlCard::card_start))]
fn write_start<W: Write>(
    names: Option<&[PairNames]>,
    pairs: &[PairFields],
    pair: u8,
    writer: &mut W,
) -> Result<(), Error>
    ensures { Written (stream W.contents writer.old writer.new) (card_start names.entry (map pair_of pairs.now) pair) result }
{
    let target = pair_target(pair);
    let heading = pair_words(names, pairs, pair);
    let mut text = PageText::new();
    push_bytes(&mut text, b"<section class=\"card\" id=\"");
    push_bytes(&mut text, target.as_str().as_bytes());
    push_bytes(&mut text, b"\">\n");
    push_heading(
        &mut text,
        Format::Html,
        Level::Part,
        heading.as_str().as_bytes(),
    );
    write_text(writer, text.as_slice())
}

/// The matchpoints of a pair, how many were available, and per cent.
fn share_words(ranked: &Ranked) -> ArrayString<80>
    ensures text { result.bytes ≡ sum_words MatchPoints ranked.now }
    ensures short { length result.bytes ≤ 66 }
{
    let mut text = ArrayString::new();
    text.push_str(points_cell(ranked).as_str());
    text.push_str(" of ");
    text.push_str(tenths_text(u64::from(ranked.available)).as_str());
    text.push_str(", ");
    text.push_str(percent_text(share_percent(ranked)).as_str());
    text.push_str(" %");
    text
}

/// The IMPs of a pair.
fn imp_words(ranked: &Ranked) -> ArrayString<80>
    ensures text { result.bytes ≡ sum_words Imps ranked.now }
    ensures short { length result.bytes ≤ 66 }
{
    let mut text = ArrayString::new();
    text.push_str(imps_cell(ranked).as_str());
    text.push_str(" IMPs");
    text
}

/// What a pair has in all.
fn sum_words(scoring: Scoring, ranked: &Ranked) -> ArrayString<80>
    ensures text { result.bytes ≡ sum_words scoring ranked.now }
    ensures short { length result.bytes ≤ 66 }
{
    match scoring {
        Scoring::MatchPoints => share_words(ranked),
        Scoring::Imps => imp_words(ranked),
    }
}

/// The place of a pair.
fn place_words(standing: &Standing) -> ArrayString<40>
    requires { standing.now.among ≤ MOST_LINES }
    ensures text { result.bytes ≡ place_words standing.now }
    ensures short { length result.bytes ≤ 40 }
{
    let mut text = ArrayString::new();
    text.push_str("Place ");
    text.push_str(number_text(u32::from(standing.ranked.place)).as_str());
    text.push_str(" of ");
    text.push_str(number_text(standing.among as u32).as_str());
    text
}

/// The place and the total of a pair.
fn standing_words(scoring: Scoring, standing: &Standing) -> ArrayString<120>
    requires { standing.now.among ≤ MOST_LINES }
    ensures text { result.bytes ≡ standing_words scoring standing.now }
    ensures short { length result.bytes ≤ 120 }
{
    let mut text = ArrayString::new();
    text.push_str(place_words(standing).as_str());
    text.push_str(": ");
    text.push_str(sum_words(scoring, &standing.ranked).as_str());
    text
}

/// The place and the total of a pair as a paragraph, where it has a place.
fn standing_html(scoring: Scoring, standing: &Option<Standing>) -> PageText
    requires { IfSome standing.now (λ standing. standing.among ≤ MOST_LINES) }
    ensures { result.items ≡ standing_html scoring standing.now }
{
    let mut text = PageText::new();
    match standing {
        Some(known) => {
            let words = standing_words(scoring, known);
            push_paragraph(&mut text, Format::Html, words.as_str().as_bytes());
            text
        }
        None => text,
    }
}

/// Writes the names of a pair and its place.
fn write_top<W: Write>(
    scoring: Scoring,
    names: Option<&[PairNames]>,
    pairs: &[PairFields],
    pair: u8,
    standing: &Option<Standing>,
    writer: &mut W,
) -> Result<(), Error>
    requires { IfSome standing.now (λ standing. standing.among ≤ MOST_LINES) }
    ensures { Written (stream W.contents writer.old writer.new) (card_top scoring names.entry (map pair_of pairs.now) pair standing.now) result }
{
    write_start(names, pairs, pair, writer)?;
    write_text(writer, standing_html(scoring, standing).as_slice())
}

/// Adds the titles of a card.
fn push_card_titles(text: &mut PageText, scoring: Scoring)
    requires { length text.old.items ≤ 2000 }
    ensures { text.new.items ≡ text.old.items ++ html_card_titles scoring }
{
    match scoring {
        Scoring::MatchPoints => push_titles(
            text,
            Format::Html,
            &SHARE_CARD_COLUMNS,
            &[
                b"Board",
                b"Side",
                b"Against",
                b"Names",
                b"Contract",
                b"By",
                b"Score",
                b"MP",
                b"%",
            ],
        ),
        Scoring::Imps => push_titles(
            text,
            Format::Html,
            &SUM_CARD_COLUMNS,
            &[
                b"Board",
                b"Side",
                b"Against",
                b"Names",
                b"Contract",
                b"By",
                b"Score",
                b"IMPs",
            ],
        ),
    }
}

/// Writes what stands above the rows of a card.
#[tactic(auto, unfolding(crate::specs::HtmlCard::html_card_head))]
fn write_card_head<W: Write>(scoring: Scoring, writer: &mut W) -> Result<(), Error>
    ensures { Written (stream W.contents writer.old writer.new) (html_card_head scoring) result }
{
    let mut text = PageText::new();
    push_bytes(&mut text, b"<table>\n<caption>Boards</caption>\n");
    push_card_titles(&mut text, scoring);
    write_text(writer, text.as_slice())
}

/// Writes the table of a card.
fn write_card_table<W: Write>(
    scoring: Scoring,
    names: Option<&[PairNames]>,
    pairs: &[PairFields],
    lines: &[CardLine],
    writer: &mut W,
) -> Result<(), Error>
    ensures { Written (stream W.contents writer.old writer.new) (html_card_table scoring names.entry (map pair_of pairs.now) lines.now) result }
{
    write_card_head(scoring, writer)?;
    write_rows(scoring, names, pairs, lines, writer)?;
    write_end(Format::Html, writer)
}

/// Writes the card of a pair, from its lines.
pub fn write_card<W: Write>(
    scoring: Scoring,
    names: Option<&[PairNames]>,
    pairs: &[PairFields],
    pair: u8,
    standing: &Option<Standing>,
    lines: &[CardLine],
    writer: &mut W,
) -> Result<(), Error>
    requires { IfSome standing.now (λ standing. standing.among ≤ MOST_LINES) }
    ensures { Written (stream W.contents writer.old writer.new) (card_html scoring names.entry (map pair_of pairs.now) pair standing.now lines.now) result }
{
    write_top(scoring, names, pairs, pair, standing, writer)?;
    write_card_table(scoring, names, pairs, lines, writer)
}
