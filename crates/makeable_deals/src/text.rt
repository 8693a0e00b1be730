//! A text that a reader gives.
ghost use Rattle.std.specs.Prelude.{◌≡◌, [], IfOk, IfErr, OnOk};
ghost use Rattle.line_text.specs.Streams.{stream};
ghost use Rattle.makeable_deals.specs.Making.{ReadsOn, IsTextRead, IsNoText};

use crate::file::MakeableFault;
use crate::refused::DealsFault;
use std::io::Read;

/// The most bytes of a file that are read: one more than a text of deals may have.
pub const TEXT_BYTES: usize = 4_000_001;

/// The most bytes that are read at a time.
const PIECE_BYTES: usize = 4096;

/// Reads once, and adds what is read to the text. The answer is whether that was anything: none comes only at the end.
fn read_on<R: Read>(reader: &mut R, text: &mut Vec<u8>) -> Result<bool, MakeableFault>
    ensures read { IfOk result (ReadsOn (stream R.remaining reader.old reader.new) text.old.items text.new.items) }
    ensures none { IfErr result IsNoText }
{
    let mut piece = [0; PIECE_BYTES];
    match reader.read(&mut piece) {
        Ok(taken) => match text.extend_from_slice(&piece[..taken]) {
            Ok(()) => Ok(taken > 0),
            Err(_) => Err(MakeableFault::Deals(DealsFault::Memory)),
        },
        Err(_) => Err(MakeableFault::Read),
    }
}

/// Reads a text, of at most its first bytes.
pub fn read_text<R: Read>(reader: &mut R, text: &mut Vec<u8>) -> Result<(), MakeableFault>
    requires { text.old.items ≡ [] }
    ensures read { OnOk result (IsTextRead (stream R.remaining reader.old reader.new) text.new.items) }
    ensures none { IfErr result IsNoText }
{
    while text.len() < TEXT_BYTES {
        if !read_on(reader, text)? {
            return Ok(());
        }
    }
    Ok(())
}
