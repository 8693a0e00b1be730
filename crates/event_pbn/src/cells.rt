//! The section of a row.
ghost use Rattle.std.specs.Prelude.{◌≡◌, ◌≤◌};
ghost use Rattle.arrayvec.specs.ArrayVec.{array_vec_len};
ghost use Rattle.event_pbn.specs.SectionCell.{section_cell};

use event_ranking::section_letters;
use page_layout::{PageText, push_bytes};
use results_pbn::cells::push_blanks;

/// The letters of a section, which begin a row.
#[tactic(auto, unfolding(crate::specs::SectionCell::section_cell))]
pub fn section_cell(section: u8) -> PageText
    ensures cell { result.items ≡ section_cell section }
    ensures short { array_vec_len result ≤ 5 }
{
    let letters = section_letters(section);
    let mut text = PageText::new();
    push_bytes(&mut text, letters.as_str().as_bytes());
    push_blanks(&mut text, 2usize.saturating_sub(letters.len()));
    push_bytes(&mut text, b" ");
    text
}
