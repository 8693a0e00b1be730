//! What could be made on a board.
ghost use Rattle.std.specs.Prelude.{◌≡◌};
ghost use Rattle.line_text.specs.Streams.{stream, Written};
ghost use Rattle.results_pbn.specs.Optimum.{optimum_tags, known_tags};

use bridge_cards::{BoardNumber, dealer, vulnerability_of};
use bridge_par::par;
use bridge_results::Makeable;
use line_text::write_text;
use makeable_deals::tags::{score_tag, table_tag};
use page_layout::{PageText, push_bytes};
use std::io::{Error, Write};

/// Par, and the tricks of all declarers.
#[tactic(auto, unfolding(crate::specs::Optimum::optimum_tags))]
fn optimum_tags(board: BoardNumber, known: &Makeable) -> PageText
    ensures { result.items ≡ optimum_tags board known.now.table }
{
    let found = par(&known.table, dealer(board), vulnerability_of(board));
    let mut text = score_tag(found.score);
    push_bytes(&mut text, table_tag(&known.table).as_slice());
    text
}

/// Writes the same.
fn write_optimum<W: Write>(
    board: BoardNumber,
    known: &Makeable,
    writer: &mut W,
) -> Result<(), Error>
    ensures { Written (stream W.contents writer.old writer.new) (optimum_tags board known.now.table) result }
{
    write_text(writer, optimum_tags(board, known).as_slice())
}

/// Writes what could be made on a board, if it is known.
pub fn write_known<W: Write>(
    board: BoardNumber,
    known: Option<Makeable>,
    writer: &mut W,
) -> Result<(), Error>
    ensures { Written (stream W.contents writer.old writer.new) (known_tags board known) result }
{
    match known {
        Some(found) => write_optimum(board, &found, writer),
        None => write_text(writer, b""),
    }
}
