//! Writing what deals could make.
ghost use Rattle.line_text.specs.Streams.{stream, Written};
ghost use Rattle.makeable_deals.specs.Makeable.{deal_lines, makeable_text};

use crate::board_deal::BoardDeal;
use crate::line::lines_with;
use crate::solved::Solving;
use line_text::write_text;
use std::alloc::Global;
use std::io::Write;

/// Why not all of it was written.
#[derive(Clone, Copy, Debug, PartialEq, Eq)]
pub enum WriteFault {
    /// Memory is refused.
    Memory,
    /// A write failed.
    Write,
}

/// Writes a deal's lines.
fn write_deal<W: Write>(
    alloc: Global,
    deal: &BoardDeal,
    work: &mut Solving,
    writer: &mut W,
) -> Result<(), WriteFault>
    ensures { Written (stream W.contents writer.old writer.new) (deal_lines deal.now) result }
{
    let table = work.solve(alloc, &deal.deal).or(Err(WriteFault::Memory))?;
    write_text(writer, lines_with(deal, &table).as_slice()).or(Err(WriteFault::Write))
}

/// Writes what each of the deals could make, one after another as it is found: a line for each declarer, as `1 N 10 4 9 8 9`, with
/// the board, the declarer and the tricks in clubs, diamonds, hearts, spades and no trump, and a line for par, as
/// `1 PAR 600 3NT N 3NT S`, with the score of North and South and the contracts that reach it.
///
/// It stops at the writer's first error, and where the 32 MiB that a deal takes are refused: the writer then has a prefix of the
/// text.
pub fn write_makeable<W: Write>(
    alloc: Global,
    deals: &[BoardDeal],
    work: &mut Solving,
    writer: &mut W,
) -> Result<(), WriteFault>
    ensures { Written (stream W.contents writer.old writer.new) (makeable_text deals.now) result }
{
    for deal in deals {
        write_deal(alloc, deal, work, writer)?;
    }
    Ok(())
}
