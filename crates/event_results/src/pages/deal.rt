//! The hands of a board that sections have in common.
ghost use Rattle.line_text.specs.Streams.{stream, Written};
ghost use Rattle.event_results.specs.EventPage.{board_deal};

use bridge_cards::BoardNumber;
use bridge_results::Makeable;
use bridge_results::pages::board::write_deal;
use bridge_results::pages::makeable::makeable_on;
use bridge_session::Session;
use event_ranking::first_deal;
use page_layout::Format;
use std::io::{Error, Write};

/// Writes the hands of a board, once it is dealt, and what could be made, if it is known.
pub fn write_board_deal<W: Write>(
    format: Format,
    boards: &[Option<Makeable>],
    sections: &[Session],
    board: BoardNumber,
    writer: &mut W,
) -> Result<(), Error>
    ensures { Written (stream W.contents writer.old writer.new) (board_deal format boards.now sections.now board) result }
{
    let known = makeable_on(boards, board);
    write_deal(format, board, first_deal(sections, board), known, writer)
}
