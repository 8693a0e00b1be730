//! The auction command: the calls of a board in, replies and the contract out.
ghost use Rattle.std.specs.Prelude.{◌≡◌, ◌<◌, ◌≤◌, [], ◌++◌, List, ℕ, length, OnOk, IfOk, IfErr};
ghost use Rattle.std.specs.Io.KnownBytes.{IsAtEnd};
ghost use Rattle.bridge_cards.specs.Board.{dealer_of};
ghost use Rattle.auction_command.specs.Replies.{ending};
ghost use Rattle.line_replies.specs.Limit.{limit_notice};
ghost use Rattle.line_text.specs.Streams.{stream, Written};
ghost use Rattle.auction_command.specs.AuctionLines.{Answers};
ghost use Rattle.auction_command.specs.Heard.{Heard, AnswersAll, StopsAt};
ghost use Rattle.line_replies.specs.declared.fault.ServeFault.TheVariants.{Write as WriteFault};

use crate::auction_lines::{AuctionLines, PIECE_BYTES, REPLIES_BYTES};
use arrayvec::ArrayString;
use bridge_cards::{BoardNumber, dealer};
use line_replies::{MOST_BYTES, ServeFault, limit_notice, read_piece, write_whole};
use std::io::{Read, Write};

/// Reads the calls of a board's auction line by line, and writes a reply to each and then the last line.
///
/// The replies to the lines that a read completes are written before the next read. Of the reader's bytes
/// at most 65,536 are read. It takes no memory.
///
/// `Read` comes at the first error of the reader, and `Write` at the first error of the writer or where it takes no byte:
/// that they come only there no clause says, and tests show it.
pub fn run_auction<R: Read, W: Write>(
    board: BoardNumber,
    reader: &mut R,
    writer: &mut W,
) -> Result<(), ServeFault>
    // All that is written is the output for the reader's bytes, however the reads cut them.
    ensures ok { OnOk result (AnswersAll (dealer_of board)
        (stream R.remaining reader.old reader.new) (stream W.contents writer.old writer.new)) }
    // At a read fault the replies to the complete lines before it are written, and no last line.
    // At a write fault a prefix of the output for the bytes read so far is written.
    ensures fault { IfErr result (StopsAt (dealer_of board)
        (stream R.remaining reader.old reader.new) (stream W.contents writer.old writer.new)) }
{
    let mut auction_lines = AuctionLines::new(dealer(board));
    let left = answer_lines(&mut auction_lines, reader, writer)?;
    write_ending(&auction_lines, left == 0, writer)
}

/// Answers the lines of the reader's bytes, up to the limit, and says how many bytes were left to it.
fn answer_lines<R: Read, W: Write>(
    auction_lines: &mut AuctionLines,
    reader: &mut R,
    writer: &mut W,
) -> Result<usize, ServeFault>
    requires no_calls { auction_lines.old.calls ≡ [] }
    requires no_line { auction_lines.old.line ≡ [] }
    ensures heard { IfOk result (Heard auction_lines.old.dealer (R.remaining reader.old) (R.remaining reader.new)
        (W.contents writer.old) (W.contents writer.new) auction_lines.new) }
    ensures end { IfOk result (λ left. 0 < left → IsAtEnd (R.remaining reader.new)) }
    ensures fault { IfErr result (StopsAt auction_lines.old.dealer
        (stream R.remaining reader.old reader.new) (stream W.contents writer.old writer.new)) }
{
    let mut piece = [0; PIECE_BYTES];
    let mut left = MOST_BYTES;
    while left > 0 {
        let taken = read_piece(reader, &mut piece, left)?;
        if taken == 0 {
            return Ok(left);
        }
        left -= taken;
        answer_piece(auction_lines, &piece[..taken], writer)?;
    }
    Ok(0)
}

/// Writes the replies to the lines that the piece completes.
fn answer_piece<W: Write>(
    auction_lines: &mut AuctionLines,
    piece: &[u8],
    writer: &mut W,
) -> Result<(), ServeFault>
    requires { length piece.now ≤ PIECE_BYTES }
    ensures written { (text : List ℕ) × Answers auction_lines.old auction_lines.new piece.now text
        × Written (stream W.contents writer.old writer.new) text result }
    ensures fault { IfErr result (λ fault. fault ≡ WriteFault) }
{
    let mut out = ArrayString::<REPLIES_BYTES>::new();
    auction_lines.feed(piece, &mut out);
    write_whole(writer, out.as_str())
}

/// Writes the last line, below a notice where the limit of bytes was reached.
fn write_ending<W: Write>(
    auction_lines: &AuctionLines,
    at_limit: bool,
    writer: &mut W,
) -> Result<(), ServeFault>
    ensures written { Written (stream W.contents writer.old writer.new)
        (limit_notice at_limit ++ ending auction_lines.now.dealer auction_lines.now.calls) result }
    ensures fault { IfErr result (λ fault. fault ≡ WriteFault) }
{
    let mut out = ArrayString::<REPLIES_BYTES>::new();
    out.push_str(limit_notice(at_limit));
    auction_lines.push_ending(&mut out);
    write_whole(writer, out.as_str())
}
