//! The games of a text with what their deals could make.
ghost use Rattle.std.specs.Prelude.{◌≡◌, ◌++◌};
ghost use Rattle.std.specs.Str.Lines.{lines};
ghost use Rattle.line_text.specs.Streams.{stream, Written};
ghost use Rattle.makeable_deals.specs.Games.{is_deal_line, deal_tags, whole_line, first_tags, tags_after, deals_after, games_text};

use crate::board_deal::BoardDeal;
use crate::solved::Solving;
use crate::tags::tags_with;
use crate::write::WriteFault;
use line_text::{first_line, write_text};
use std::alloc::Global;
use std::io::Write;

/// Whether a line is a deal's.
fn is_deal_line(line: &[u8]) -> bool
    ensures { result ≡ is_deal_line line.now }
{
    line.starts_with(b"[Deal \"") || line.starts_with(b"DEAL ")
}

/// The deals that are due after a line.
fn deals_after<'a>(line: &[u8], deals: &'a [BoardDeal]) -> &'a [BoardDeal]
    ensures { result.now ≡ deals_after line.now deals.now }
{
    if !is_deal_line(line) {
        return deals;
    }
    match deals.split_first() {
        Some((_, rest)) => rest,
        None => deals,
    }
}

/// Writes a piece of a text.
fn write_piece<W: Write>(piece: &[u8], writer: &mut W) -> Result<(), WriteFault>
    ensures { Written (stream W.contents writer.old writer.new) piece.now result }
{
    write_text(writer, piece).or(Err(WriteFault::Write))
}

/// Writes a line with its line feed.
fn write_whole_line<W: Write>(line: &[u8], writer: &mut W) -> Result<(), WriteFault>
    ensures { Written (stream W.contents writer.old writer.new) (whole_line line.now) result }
{
    write_piece(line, writer)?;
    write_piece(b"\n", writer)
}

/// Writes the tags of a deal.
fn write_tags<W: Write>(
    alloc: Global,
    deal: &BoardDeal,
    work: &mut Solving,
    writer: &mut W,
) -> Result<(), WriteFault>
    ensures { Written (stream W.contents writer.old writer.new) (deal_tags deal.now) result }
{
    let table = work.solve(alloc, &deal.deal).or(Err(WriteFault::Memory))?;
    write_piece(tags_with(deal, &table).as_slice(), writer)
}

/// Writes the tags of the first of the deals.
fn write_first<W: Write>(
    alloc: Global,
    deals: &[BoardDeal],
    work: &mut Solving,
    writer: &mut W,
) -> Result<(), WriteFault>
    ensures { Written (stream W.contents writer.old writer.new) (first_tags deals.now) result }
{
    match deals.split_first() {
        Some((deal, _)) => write_tags(alloc, deal, work, writer),
        None => Ok(()),
    }
}

/// Writes what stands after a line: where it is a deal's, the tags of the first of the deals.
fn write_after<W: Write>(
    alloc: Global,
    line: &[u8],
    deals: &[BoardDeal],
    work: &mut Solving,
    writer: &mut W,
) -> Result<(), WriteFault>
    ensures { Written (stream W.contents writer.old writer.new) (tags_after line.now deals.now) result }
{
    if is_deal_line(line) {
        write_first(alloc, deals, work, writer)
    } else {
        Ok(())
    }
}

/// Writes a line, and what stands after it.
fn write_game_line<W: Write>(
    alloc: Global,
    line: &[u8],
    deals: &[BoardDeal],
    work: &mut Solving,
    writer: &mut W,
) -> Result<(), WriteFault>
    ensures { Written (stream W.contents writer.old writer.new) (whole_line line.now ++ tags_after line.now deals.now) result }
{
    write_whole_line(line, writer)?;
    write_after(alloc, line, deals, work, writer)
}

/// Writes the lines of a text in Portable Bridge Notation, which has these deals, each with a line feed, and after each line that
/// is a deal's the tags `OptimumScore`, `ParContract` and `OptimumResultTable`.
///
/// It stops at the writer's first error, and where the 32 MiB that a deal takes are refused: the writer then has a prefix of the
/// text.
pub fn write_games<W: Write>(
    alloc: Global,
    text: &[u8],
    deals: &[BoardDeal],
    work: &mut Solving,
    writer: &mut W,
) -> Result<(), WriteFault>
    ensures { Written (stream W.contents writer.old writer.new) (games_text (lines text.now) deals.now) result }
{
    let mut rest = text;
    let mut left = deals;
    while let Some((line, after)) = first_line(rest) {
        write_game_line(alloc, line, left, work, writer)?;
        left = deals_after(line, left);
        rest = after;
    }
    Ok(())
}
