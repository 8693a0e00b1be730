//! A part of a page, made inline before it is written.
ghost use Rattle.std.specs.Prelude.{◌≡◌, ◌+◌, ◌≤◌, ◌++◌, length, replicate};
ghost use Rattle.arrayvec.specs.ArrayVec.{array_vec_len};

use arrayvec::ArrayVec;

/// The room for a part of a page, in bytes.
pub const PAGE_BYTES: usize = 16384;

/// The bytes of a part of a page.
pub type PageText = ArrayVec<u8, PAGE_BYTES>;

/// Adds bytes as they are.
pub fn push_bytes(text: &mut PageText, bytes: &[u8])
    requires { array_vec_len text.old + length bytes.now ≤ PAGE_BYTES }
    ensures text { text.new.items ≡ text.old.items ++ bytes.now }
    ensures room { array_vec_len text.new ≡ array_vec_len text.old + length bytes.now }
{
    text.try_extend_from_slice(bytes).unwrap();
}

/// Adds so many blanks.
pub fn push_blanks(text: &mut PageText, count: usize)
    requires { array_vec_len text.old + count ≤ PAGE_BYTES }
    ensures text { text.new.items ≡ text.old.items ++ replicate count 32 }
    ensures room { array_vec_len text.new ≡ array_vec_len text.old + count }
{
    for _blank in 0..count {
        text.push(b' ');
    }
}
