//! The results of a session, whole.
ghost use Rattle.std.specs.Prelude.{◌≡◌, Option};
ghost use Rattle.line_text.specs.Streams.{stream, Written};
ghost use Rattle.bridge_score.specs.declared.ranking.Ranked.{Ranked};
ghost use Rattle.bridge_ranking.specs.declared.field.Field.TheVariants.{First, Second};
ghost use Rattle.page_layout.specs.Page.{page_end};
ghost use Rattle.bridge_results.specs.EventText.{event_text};
ghost use Rattle.bridge_results.specs.RankingText.{ranked_items, field_text};
ghost use Rattle.bridge_results.specs.Costs.{seen};
ghost use Rattle.bridge_results.specs.ResultsText.{ranked_text, rankings_text, front_text, sheets_text, plain_page, WritesPage, WritesNamedPage};

use crate::analysis::Analysis;
use crate::html::write_html;
use crate::makeable::Makeable;
use crate::pages::event::event_text;
use crate::pages::ranking::write_field;
use crate::pages::sheets::{write_board_sheet, write_card_sheet};
use crate::results::Results;
use bridge_config::Config;
use bridge_ranking::Field;
use bridge_score::Ranked;
use bridge_session::{Ranking, Session};
use evening_draft::PairNames;
use line_text::write_text;
use page_layout::{Format, PageText, push_page_end};
use std::io::{Error, Write};

/// Writes the ranking of a field of a configuration's pairs.
fn write_field_of<W: Write>(
    format: Format,
    names: Option<&[PairNames]>,
    config: &Config,
    field: Field,
    ranking: &[Ranked],
    writer: &mut W,
) -> Result<(), Error>
    ensures { Written (stream W.contents writer.old writer.new) (field_text format config.now.scoring names.entry config.now.pairs field ranking.now) result }
{
    let fields = config.fields();
    let pairs = fields.pairs.as_slice();
    write_field(format, fields.scoring, names, pairs, field, ranking, writer)
}

/// Writes the ranking of a field, if there is such a field.
fn write_ranked<W: Write>(
    format: Format,
    names: Option<&[PairNames]>,
    config: &Config,
    field: Field,
    ranking: &Option<Ranking>,
    writer: &mut W,
) -> Result<(), Error>
    ensures { Written (stream W.contents writer.old writer.new) (ranked_text format names.entry config.now field (ranked_items ranking.now)) result }
{
    match ranking {
        Some(ranking) => write_field_of(format, names, config, field, ranking.as_slice(), writer),
        None => write_text(writer, b""),
    }
}

/// Writes the head of the page.
pub fn write_event<W: Write>(format: Format, config: &Config, writer: &mut W) -> Result<(), Error>
    ensures { Written (stream W.contents writer.old writer.new) (event_text format config.now) result }
{
    let text = event_text(format, config);
    write_text(writer, text.as_slice())
}

/// Writes what ends the page.
pub fn write_page_end<W: Write>(format: Format, writer: &mut W) -> Result<(), Error>
    ensures { Written (stream W.contents writer.old writer.new) (page_end format) result }
{
    let mut text = PageText::new();
    push_page_end(&mut text, format);
    write_text(writer, text.as_slice())
}

/// Writes the rankings of the fields.
fn write_rankings<W: Write>(
    format: Format,
    names: Option<&[PairNames]>,
    config: &Config,
    first: &Option<Ranking>,
    second: &Option<Ranking>,
    writer: &mut W,
) -> Result<(), Error>
    ensures { Written (stream W.contents writer.old writer.new) (rankings_text format names.entry config.now (ranked_items first.now) (ranked_items second.now)) result }
{
    write_ranked(format, names, config, Field::First, first, writer)?;
    write_ranked(format, names, config, Field::Second, second, writer)
}

/// Writes the boards and the score cards, and the end of the page.
fn write_sheets<W: Write>(
    format: Format,
    names: Option<&[PairNames]>,
    boards: &[Option<Makeable>],
    session: &Session,
    results: &Results<'_>,
    writer: &mut W,
) -> Result<(), Error>
    requires { results.now ≡ session.now }
    ensures { Written (stream W.contents writer.old writer.new) (sheets_text format names.entry boards.now session.now) result }
{
    write_board_sheet(format, boards, session, results, writer)?;
    write_card_sheet(format, names, session, results, writer)?;
    write_page_end(format, writer)
}

/// Writes the event and the rankings.
fn write_front<W: Write>(
    format: Format,
    names: Option<&[PairNames]>,
    config: &Config,
    first: &Option<Ranking>,
    second: &Option<Ranking>,
    writer: &mut W,
) -> Result<(), Error>
    ensures { Written (stream W.contents writer.old writer.new) (front_text format names.entry config.now (ranked_items first.now) (ranked_items second.now)) result }
{
    write_event(format, config, writer)?;
    write_rankings(format, names, config, first, second, writer)
}

/// Writes the page with these rankings.
fn write_page<W: Write>(
    names: Option<&[PairNames]>,
    boards: &[Option<Makeable>],
    session: &Session,
    results: &Results<'_>,
    first: &Option<Ranking>,
    second: &Option<Ranking>,
    writer: &mut W,
) -> Result<(), Error>
    requires { results.now ≡ session.now }
    ensures { Written (stream W.contents writer.old writer.new) (plain_page names.entry boards.now session.now (ranked_items first.now) (ranked_items second.now)) result }
{
    write_front(
        Format::Plain,
        names,
        session.config(),
        first,
        second,
        writer,
    )?;
    write_sheets(Format::Plain, names, boards, session, results, writer)
}

/// Writes the results of the session as a page: the event, the ranking of each field, each board that was played with its
/// traveller and its frequencies, and the score card of each pair. It takes no memory.
///
/// It stops at the writer's first error, or with `WriteZero` where a write takes no byte: the writer then has a prefix of
/// the text.
pub fn write_results<W: Write>(
    session: &Session,
    format: Format,
    writer: &mut W,
) -> Result<(), Error>
    ensures { WritesPage (stream W.contents writer.old writer.new) format session.now result }
{
    let analysis = Analysis {
        boards: &[],
        plays: &[],
    };
    write_results_with(session, None, &analysis, format, writer)
}

/// The same with the names of a list in place of the configuration's, by pair and player, where a list is given, and below the
/// hands of a board what could be made on it and par, where the analysis tells; in HTML with marks behind the cards that gave
/// tricks away, likewise.
pub fn write_results_with<W: Write>(
    session: &Session,
    names: Option<&[PairNames]>,
    analysis: &Analysis<'_>,
    format: Format,
    writer: &mut W,
) -> Result<(), Error>
    ensures { WritesNamedPage (stream W.contents writer.old writer.new) format names.entry (seen analysis.now) session.now result }
{
    let results = Results::new(session);
    let first = results.ranking(Field::First);
    let second = results.ranking(Field::Second);
    match format {
        Format::Plain => write_page(
            names,
            analysis.boards,
            session,
            &results,
            &first,
            &second,
            writer,
        ),
        Format::Html => write_html(names, analysis, session, &results, &first, &second, writer),
    }
}
