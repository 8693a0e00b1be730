//! The text of one game, made inline before it is written.
ghost use Rattle.std.specs.Prelude.{◌≡◌, ◌+◌, ◌≤◌, ◌∷◌, ◌++◌, [], length};
ghost use Rattle.arrayvec.specs.ArrayString.{array_string_len};
ghost use Rattle.bridge_pbn.specs.Tags.{tag};

use arrayvec::ArrayString;

/// The room for a game: 19 tag pairs, 319 calls, 13 tricks and a star.
pub const GAME_BYTES: usize = 4096;

/// The text of a game.
pub type GameText = ArrayString<GAME_BYTES>;

/// The room for a line with a tag pair: a name of at most 10 bytes, and a value of at most the 69 of a deal. One byte is
/// to spare.
pub const TAG_BYTES: usize = 86;

/// Adds a line with a tag pair.
pub fn push_tag(text: &mut GameText, name: &str, value: &str)
    requires name { length name.now ≤ 10 }
    requires value { length value.now ≤ 69 }
    requires room { array_string_len text.old + TAG_BYTES ≤ GAME_BYTES }
    ensures line { text.new.bytes ≡ text.old.bytes ++ (tag name.now value.now ++ 10 ∷ []) }
    ensures room { array_string_len text.new ≤ array_string_len text.old + TAG_BYTES }
{
    text.push_str("[");
    text.push_str(name);
    text.push_str(" \"");
    text.push_str(value);
    text.push_str("\"]\n");
}
