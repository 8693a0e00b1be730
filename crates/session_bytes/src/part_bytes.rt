//! The bytes of a part of a session, as they are written one after the other.
ghost use Rattle.std.specs.Prelude.{◌≡◌, ◌+◌, ◌<◌, ◌≤◌, ◌++◌, length};
ghost use Rattle.session_bytes.specs.Parts.{text_bytes, value_if};

use arrayvec::ArrayVec;
use session_store::PAYLOAD_BYTES;

/// Adds bytes.
pub fn put(part: &mut ArrayVec<u8, PAYLOAD_BYTES>, bytes: &[u8])
    requires { length part.old.items + length bytes.now ≤ 480 }
    ensures { part.new.items ≡ part.old.items ++ bytes.now }
{
    part.try_extend_from_slice(bytes).unwrap();
}

/// Adds a text: its length, and then its bytes.
pub fn put_text(part: &mut ArrayVec<u8, PAYLOAD_BYTES>, text: &[u8])
    requires room { length part.old.items + 1 + length text.now ≤ 480 }
    requires short { length text.now < 256 }
    ensures { part.new.items ≡ part.old.items ++ text_bytes text.now }
{
    part.push(text.len() as u8);
    put(part, text);
}

/// The value where the test holds, and otherwise 0.
pub fn value_if(test: bool, value: u8) -> u8
    ensures value { result ≡ value_if test value }
    ensures most { result ≤ value }
{
    if test { value } else { 0 }
}
