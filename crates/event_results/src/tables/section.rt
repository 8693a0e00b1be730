//! The section in a row.
ghost use Rattle.std.specs.Prelude.{◌≡◌, ◌≤◌};
ghost use Rattle.arrayvec.specs.ArrayVec.{array_vec_len};
ghost use Rattle.event_results.specs.EventTables.{section_field};

use event_ranking::section_letters;
use page_layout::{PageText, push_bytes};

/// The section that begins a row.
#[tactic(auto, unfolding(crate::specs::EventTables::section_field))]
pub fn section_field(section: u8) -> PageText
    ensures text { result.items ≡ section_field section }
    ensures short { array_vec_len result ≤ 3 }
{
    let mut text = PageText::new();
    push_bytes(&mut text, section_letters(section).as_str().as_bytes());
    push_bytes(&mut text, b",");
    text
}
