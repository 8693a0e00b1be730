//! A text that a reader gives.
ghost use Rattle.std.specs.Prelude.{◌≡◌, ◌<◌, ◌≤◌, [], length, IfOk, OnOk};
ghost use Rattle.line_text.specs.Streams.{stream};
ghost use Rattle.evening_commands.specs.TextFile.{ReadsOn, IsTextRead};

use arrayvec::ArrayVec;
use std::io::Read;

/// The most bytes of a file that are read: one more than a configuration or a list of names may have.
pub const FILE_BYTES: usize = 16385;

/// The most bytes that are read at a time.
const PIECE_BYTES: usize = 512;

/// The first bytes of a file.
pub type Text = ArrayVec<u8, FILE_BYTES>;

/// A read failed.
#[derive(Clone, Copy, Debug, PartialEq, Eq)]
pub struct NoRead;

/// Reads once, and adds what is read to the text. The answer is whether that was anything: none comes only at the end.
fn read_on<R: Read>(reader: &mut R, text: &mut Text) -> Result<bool, NoRead>
    requires { length text.old.items < FILE_BYTES }
    ensures read { IfOk result (ReadsOn (stream R.remaining reader.old reader.new) text.old.items text.new.items) }
    ensures few { length text.new.items ≤ FILE_BYTES }
{
    let mut piece = [0; PIECE_BYTES];
    let most = PIECE_BYTES.min(text.remaining_capacity());
    match reader.read(&mut piece[..most]) {
        Ok(taken) => {
            text.try_extend_from_slice(&piece[..taken]).unwrap();
            Ok(taken > 0)
        }
        Err(_) => Err(NoRead),
    }
}

/// Reads a text, of at most its first 16,385 bytes.
pub fn read_text<R: Read>(reader: &mut R, text: &mut Text) -> Result<(), NoRead>
    requires { text.old.items ≡ [] }
    ensures { OnOk result (IsTextRead (stream R.remaining reader.old reader.new) text.new.items) }
{
    while text.len() < FILE_BYTES {
        if !read_on(reader, text)? {
            return Ok(());
        }
    }
    Ok(())
}
