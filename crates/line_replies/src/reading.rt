//! Reading bytes up to a limit, and the notice where it is reached.
ghost use Rattle.std.specs.Prelude.{◌≡◌, ◌<◌, ◌≤◌, length, take, OnErr, IfOk, IfErr};
ghost use Rattle.std.specs.Io.KnownBytes.{IsAtEnd};
ghost use Rattle.line_text.specs.Streams.{stream, Gives, IsUntouched};
ghost use Rattle.line_replies.specs.Limit.{limit_notice};
ghost use Rattle.line_replies.specs.declared.fault.ServeFault.TheVariants.{Read as ReadFault};

use crate::fault::ServeFault;
use std::io::Read;

/// The most bytes that are read.
pub const MOST_BYTES: usize = 65536;

/// Reads once, at most so many bytes, into the piece from its beginning. None come only at the end of the input.
pub fn read_piece<R: Read>(
    reader: &mut R,
    piece: &mut [u8],
    most: usize,
) -> Result<usize, ServeFault>
    requires room { (0 < most) × (0 < length piece.old) }
    ensures bound { IfOk result (λ taken. (taken ≤ most) × (taken ≤ length piece.new)) }
    ensures ok { IfOk result (λ taken. Gives (stream R.remaining reader.old reader.new) (take taken piece.new)) }
    ensures end { IfOk result (λ taken. taken ≡ 0 → IsAtEnd (R.remaining reader.new)) }
    ensures err { OnErr result (IsUntouched (stream R.remaining reader.old reader.new)) }
    ensures fault { IfErr result (λ fault. fault ≡ ReadFault) }
{
    let room = piece.len().min(most);
    reader.read(&mut piece[..room]).or(Err(ServeFault::Read))
}

/// What stands before the last line.
pub fn limit_notice(at_limit: bool) -> &'static str
    ensures text { result.now ≡ limit_notice at_limit }
    ensures short { length result.now ≤ 15 }
{
    if at_limit { "ERR 32 TooMuch\n" } else { "" }
}
