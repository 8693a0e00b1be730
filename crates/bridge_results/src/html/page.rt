//! The results of a session as one HTML page, whole.
ghost use Rattle.std.specs.Prelude.{◌≡◌};
ghost use Rattle.line_text.specs.Streams.{stream, Written};
ghost use Rattle.bridge_results.specs.RankingText.{ranked_items};
ghost use Rattle.bridge_results.specs.Costs.{seen};
ghost use Rattle.bridge_results.specs.HtmlPage.{page_html};

use crate::analysis::Analysis;
use crate::html::boards::write_board_sheet;
use crate::html::cards::write_card_sheet;
use crate::html::front::write_front;
use crate::results::Results;
use bridge_session::{Ranking, Session};
use evening_draft::PairNames;
use std::io::{Error, Write};

/// Writes the page with these rankings: the event, the rankings, the boards with how each table played them, and the score cards.
pub fn write_html<W: Write>(
    names: Option<&[PairNames]>,
    analysis: &Analysis<'_>,
    session: &Session,
    results: &Results<'_>,
    first: &Option<Ranking>,
    second: &Option<Ranking>,
    writer: &mut W,
) -> Result<(), Error>
    requires { results.now ≡ session.now }
    ensures { Written (stream W.contents writer.old writer.new) (page_html names.entry (seen analysis.now) session.now (ranked_items first.now) (ranked_items second.now)) result }
{
    write_front(session.config(), names, first, second, writer)?;
    write_board_sheet(names, analysis, session, results, writer)?;
    write_card_sheet(names, session, results, first, second, writer)
}
