//! The front of the page in HTML: the event and the rankings.
ghost use Rattle.std.specs.Prelude.{◌≡◌, ◌≤◌, length};
ghost use Rattle.line_text.specs.Streams.{stream, Written};
ghost use Rattle.bridge_results.specs.RankingText.{ranked_items};
ghost use Rattle.bridge_results.specs.HtmlPage.{html_field, first_heading, html_rankings, html_event, html_front};

use crate::html::ranking::write_ranking;
use crate::pages::page::write_event;
use bridge_config::Config;
use bridge_session::Ranking;
use evening_draft::PairNames;
use line_text::write_text;
use page_layout::Format;
use std::io::{Error, Write};

/// Writes the ranking of a field, if there is such a field.
fn write_field<W: Write>(
    config: &Config,
    names: Option<&[PairNames]>,
    heading: &[u8],
    ranking: &Option<Ranking>,
    writer: &mut W,
) -> Result<(), Error>
    requires { length heading.now ≤ 16 }
    ensures { Written (stream W.contents writer.old writer.new) (html_field config.now names.entry heading.now (ranked_items ranking.now)) result }
{
    match ranking {
        Some(ranking) => write_ranking(config, names, heading, ranking.as_slice(), writer),
        None => write_text(writer, b""),
    }
}

/// The heading of the first field: that of North and South where there are two.
fn first_heading(second: &Option<Ranking>) -> &'static [u8]
    ensures text { result.now ≡ first_heading (ranked_items second.now) }
    ensures short { length result.now ≤ 16 }
{
    match second {
        Some(_) => b"Ranking NS",
        None => b"Ranking",
    }
}

/// Writes the rankings of the fields.
fn write_rankings<W: Write>(
    config: &Config,
    names: Option<&[PairNames]>,
    first: &Option<Ranking>,
    second: &Option<Ranking>,
    writer: &mut W,
) -> Result<(), Error>
    ensures { Written (stream W.contents writer.old writer.new) (html_rankings config.now names.entry (ranked_items first.now) (ranked_items second.now)) result }
{
    write_field(config, names, first_heading(second), first, writer)?;
    write_field(config, names, b"Ranking EW", second, writer)
}

/// Writes the event, and links to the parts of the page.
fn write_top<W: Write>(config: &Config, writer: &mut W) -> Result<(), Error>
    ensures { Written (stream W.contents writer.old writer.new) (html_event config.now) result }
{
    write_event(Format::Html, config, writer)?;
    write_text(
        writer,
        b"<nav>\n<a href=\"#boards\">Boards</a>\n<a href=\"#cards\">Score cards</a>\n</nav>\n",
    )
}

/// Writes the event and the rankings.
pub fn write_front<W: Write>(
    config: &Config,
    names: Option<&[PairNames]>,
    first: &Option<Ranking>,
    second: &Option<Ranking>,
    writer: &mut W,
) -> Result<(), Error>
    ensures { Written (stream W.contents writer.old writer.new) (html_front config.now names.entry (ranked_items first.now) (ranked_items second.now)) result }
{
    write_top(config, writer)?;
    write_rankings(config, names, first, second, writer)
}
