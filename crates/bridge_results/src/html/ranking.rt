//! The ranking of a field in HTML.
ghost use Rattle.std.specs.Prelude.{◌≡◌, ◌≤◌, length, map};
ghost use Rattle.line_text.specs.Streams.{stream, Written};
ghost use Rattle.bridge_config.specs.ConfigValue.{pair_of};
ghost use Rattle.bridge_cards.specs.declared.scoring.Scoring.TheVariants.{MatchPoints, Imps};
ghost use Rattle.page_layout.specs.declared.format.Format.TheVariants.{Html};
ghost use Rattle.bridge_results.specs.HtmlPage.{html_ranked, html_ranking_start, html_ranked_rows, html_ranking_of, html_ranking};

use crate::html::links::{linked_row, pair_target};
use crate::pages::columns::{SHARE_COLUMNS, SUM_COLUMNS};
use crate::pages::ranking::{imps_cell, points_cell, push_ranked_titles, write_end};
use crate::pages::shown::shown_pair;
use bridge_config::{Config, PairFields};
use bridge_score::{Ranked, Scoring, share_percent};
use evening_draft::PairNames;
use line_text::{number_text, percent_text, tenths_text, write_text};
use page_layout::{Format, PageText, push_bytes};
use std::io::{Error, Write};

/// The row of a pair by matchpoints.
fn share_row(names: Option<&[PairNames]>, pairs: &[PairFields], ranked: &Ranked) -> PageText
    ensures { result.items ≡ html_ranked MatchPoints names.entry (map pair_of pairs.now) ranked.now }
{
    let place = number_text(u32::from(ranked.place));
    let pair = number_text(u32::from(ranked.pair));
    let shown = shown_pair(names, pairs, ranked.pair);
    let value = points_cell(ranked);
    let available = tenths_text(u64::from(ranked.available));
    let percent = percent_text(share_percent(ranked));
    let target = pair_target(ranked.pair);
    let cells = [
        place.as_str().as_bytes(),
        pair.as_str().as_bytes(),
        shown.as_str().as_bytes(),
        value.as_str().as_bytes(),
        available.as_str().as_bytes(),
        percent.as_str().as_bytes(),
    ];
    let targets: [&[u8]; 6] = [b"", target.as_str().as_bytes(), b"", b"", b"", b""];
    linked_row(&SHARE_COLUMNS, &targets, &cells)
}

/// The row of a pair by IMPs.
fn sum_row(names: Option<&[PairNames]>, pairs: &[PairFields], ranked: &Ranked) -> PageText
    ensures { result.items ≡ html_ranked Imps names.entry (map pair_of pairs.now) ranked.now }
{
    let place = number_text(u32::from(ranked.place));
    let pair = number_text(u32::from(ranked.pair));
    let shown = shown_pair(names, pairs, ranked.pair);
    let value = imps_cell(ranked);
    let target = pair_target(ranked.pair);
    let cells = [
        place.as_str().as_bytes(),
        pair.as_str().as_bytes(),
        shown.as_str().as_bytes(),
        value.as_str().as_bytes(),
    ];
    let targets: [&[u8]; 4] = [b"", target.as_str().as_bytes(), b"", b""];
    linked_row(&SUM_COLUMNS, &targets, &cells)
}

/// Writes the row of a pair.
fn write_row<W: Write>(
    scoring: Scoring,
    names: Option<&[PairNames]>,
    pairs: &[PairFields],
    ranked: &Ranked,
    writer: &mut W,
) -> Result<(), Error>
    ensures { Written (stream W.contents writer.old writer.new) (html_ranked scoring names.entry (map pair_of pairs.now) ranked.now) result }
{
    match scoring {
        Scoring::MatchPoints => write_text(writer, share_row(names, pairs, ranked).as_slice()),
        Scoring::Imps => write_text(writer, sum_row(names, pairs, ranked).as_slice()),
    }
}

/// Writes the rows of a ranking.
fn write_rows<W: Write>(
    scoring: Scoring,
    names: Option<&[PairNames]>,
    pairs: &[PairFields],
    ranking: &[Ranked],
    writer: &mut W,
) -> Result<(), Error>
    ensures { Written (stream W.contents writer.old writer.new) (html_ranked_rows scoring names.entry (map pair_of pairs.now) ranking.now) result }
{
    for ranked in ranking {
        write_row(scoring, names, pairs, ranked, writer)?;
    }
    Ok(())
}

/// Writes what begins a ranking of that heading.
#[tactic(auto, unfolding(crate::specs::HtmlPage::html_ranking_start))]
fn write_start<W: Write>(scoring: Scoring, heading: &[u8], writer: &mut W) -> Result<(), Error>
    requires { length heading.now ≤ 16 }
    ensures { Written (stream W.contents writer.old writer.new) (html_ranking_start scoring heading.now) result }
{
    let mut text = PageText::new();
    push_bytes(&mut text, b"<section class=\"sheet\">\n<h2>");
    push_bytes(&mut text, heading);
    push_bytes(&mut text, b"</h2>\n<table>\n<caption>");
    push_bytes(&mut text, heading);
    push_bytes(&mut text, b"</caption>\n");
    push_ranked_titles(&mut text, Format::Html, scoring);
    write_text(writer, text.as_slice())
}

/// Writes a ranking.
fn write_pairs<W: Write>(
    scoring: Scoring,
    names: Option<&[PairNames]>,
    pairs: &[PairFields],
    heading: &[u8],
    ranking: &[Ranked],
    writer: &mut W,
) -> Result<(), Error>
    requires { length heading.now ≤ 16 }
    ensures { Written (stream W.contents writer.old writer.new) (html_ranking_of scoring names.entry (map pair_of pairs.now) heading.now ranking.now) result }
{
    write_start(scoring, heading, writer)?;
    write_rows(scoring, names, pairs, ranking, writer)?;
    write_end(Format::Html, writer)
}

/// Writes a ranking of a configuration's pairs.
pub fn write_ranking<W: Write>(
    config: &Config,
    names: Option<&[PairNames]>,
    heading: &[u8],
    ranking: &[Ranked],
    writer: &mut W,
) -> Result<(), Error>
    requires { length heading.now ≤ 16 }
    ensures { Written (stream W.contents writer.old writer.new) (html_ranking config.now names.entry heading.now ranking.now) result }
{
    let fields = config.fields();
    let pairs = fields.pairs.as_slice();
    write_pairs(fields.scoring, names, pairs, heading, ranking, writer)
}
