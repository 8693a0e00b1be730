//! The letters of a section.
ghost use Rattle.std.specs.Prelude.{◌≡◌, ◌≤◌, length};
ghost use Rattle.event_ranking.specs.EventText.{section_text};

use arrayvec::ArrayString;

/// The letters of a section.
pub type SectionLetters = ArrayString<2>;

/// The letters of the section of that number, from 1: A to Z, then AA, AB and so on.
pub fn section_letters(section: u8) -> SectionLetters
    ensures text { result.bytes ≡ section_text section }
    ensures short { length result.bytes ≤ 2 }
{
    let index = section.saturating_sub(1);
    let mut letters = ArrayString::new();
    if 26 < section {
        letters.push(char::from(b'@' + index / 26));
    }
    letters.push(char::from(b'A' + index % 26));
    letters
}
