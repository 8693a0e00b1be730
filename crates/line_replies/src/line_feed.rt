//! Lines cut from bytes as they come.
ghost use Rattle.std.specs.Prelude.{◌≡◌, ◌∷◌, ◌++◌, [], ℕ, List, true};
ghost use Rattle.std.specs.Option.{option_map_or};
ghost use Rattle.std.specs.List.{list_all};
ghost use Rattle.line_text.specs.Lines.{is_within_line};
ghost use Rattle.line_replies.specs.LineFeed.{kept_lines};

use arrayvec::ArrayVec;
use line_text::LINE_BYTES;
use std::marker::Model;
use std::mem;

/// What is kept of a line, without its line feed: one byte more than a line may have tells that it is too long.
pub const KEPT_BYTES: usize = LINE_BYTES + 1;

/// A complete line, or its first 129 bytes.
pub type KeptLine = ArrayVec<u8, KEPT_BYTES>;

/// A stream's bytes, taken one by one, and the line that has begun.
#[derive(Drop)]
pub struct LineFeed {
    /// What is kept of the line that has begun.
    line: KeptLine,
}

impl Model for LineFeed {
    ghost use Rattle.std.specs.Prelude.{◌≡◌, ℕ, List, true};
    ghost use Rattle.std.specs.List.{list_all};
    ghost use Rattle.line_text.specs.Lines.{is_within_line};

    ghost Value = { List ℕ };

    ghost view = { λ d. d.line.items };

    ghost invariant = { λ d. list_all is_within_line d.line.items ≡ true };
}

impl LineFeed {
    /// Before the first byte.
    pub fn new() -> LineFeed
        ensures { result ≡ [] }
    {
        LineFeed {
            line: ArrayVec::new(),
        }
    }

    /// Takes the next byte, and gives the line that it completes.
    ///
    /// The lines that are complete and those still to come stay the same lines together, so how the bytes came makes no
    /// difference.
    pub fn take_byte(&mut self, byte: u8) -> Option<KeptLine>
        ensures lines { (rest : List ℕ) → kept_lines (self.old ++ byte ∷ rest)
            ≡ option_map_or (λ line. line.items ∷ []) result [] ++ kept_lines (self.new ++ rest) }
        ensures within { list_all is_within_line self.new ≡ true }
    {
        let is_full = self.line.is_full();
        if byte == b'\n' {
            return Some(mem::take(&mut self.line));
        }
        if is_full {
            return None;
        }
        self.line.push(byte);
        None
    }
}
