//! One slip.
ghost use Rattle.std.specs.Prelude.{◌≡◌, ◌+◌, ◌≤◌, ◌++◌, length};
ghost use Rattle.arrayvec.specs.ArrayVec.{array_vec_len};
ghost use Rattle.evening_slips.specs.Slips.{HasAddress, address_text, slip_start, slip_head, slip_tail, slip_text, director_text};

use crate::key::key_words;
use crate::player::{Words, pair_words};
use crate::sheet::SlipSheet;
use bridge_config::Key;
use page_layout::{
    Format, Level, PAGE_BYTES, PageText, push_bytes, push_heading, push_paragraph, push_section_end,
};

/// What begins a slip: in plain text a line to cut along.
fn slip_start(format: Format) -> &'static [u8]
    ensures text { result.now ≡ slip_start format }
    ensures short { length result.now ≤ 50 }
{
    match format {
        Format::Plain => b"- - - - - - - - - - - - - - - - - - - - - - - -\n",
        Format::Html => b"<section class=\"slip\">\n",
    }
}

/// A slip with the name of whose it is.
#[tactic(auto, unfolding(crate::specs::Slips::slip_head))]
fn slip_head(format: Format, name: &str) -> PageText
    requires { length name.now ≤ 160 }
    ensures text { result.items ≡ slip_head format name.now }
    ensures short { array_vec_len result ≤ 5100 }
{
    let mut text = PageText::new();
    push_bytes(&mut text, slip_start(format));
    push_heading(&mut text, format, Level::Sheet, name.as_bytes());
    text
}

/// Adds where the pages are, if that is known.
fn push_address(text: &mut PageText, sheet: &SlipSheet<'_>)
    requires address { HasAddress sheet.now }
    requires room { array_vec_len text.old + 3110 ≤ PAGE_BYTES }
    ensures text { text.new.items ≡ text.old.items ++ address_text sheet.now.format sheet.now.address }
    ensures room { array_vec_len text.new ≤ array_vec_len text.old + 3110 }
{
    match sheet.address {
        Some(address) => push_paragraph(text, sheet.format, address.as_bytes()),
        None => {}
    }
}

/// Adds the key, and where the pages are.
#[tactic(auto, unfolding(crate::specs::Slips::slip_tail))]
fn push_tail(text: &mut PageText, sheet: &SlipSheet<'_>, key: Key)
    requires address { HasAddress sheet.now }
    requires room { array_vec_len text.old + 4100 ≤ PAGE_BYTES }
    ensures { text.new.items ≡ text.old.items ++ slip_tail sheet.now key.0 }
{
    let words = key_words(key);
    push_heading(text, sheet.format, Level::Part, words.as_slice());
    push_address(text, sheet);
    push_section_end(text, sheet.format);
}

/// The slip of a player of that name and pair, which begins there and has that key.
#[tactic(auto, unfolding(crate::specs::Slips::slip_text))]
pub fn slip_text(sheet: &SlipSheet<'_>, name: &str, pair: u8, place: &Words, key: Key) -> PageText
    requires address { HasAddress sheet.now }
    requires name { length name.now ≤ 160 }
    ensures { result.items ≡ slip_text sheet.now name.now pair place.now.bytes key.0 }
{
    let mut text = slip_head(sheet.format, name);
    let number = pair_words(pair);
    push_paragraph(&mut text, sheet.format, number.as_str().as_bytes());
    push_paragraph(&mut text, sheet.format, place.as_str().as_bytes());
    push_tail(&mut text, sheet, key);
    text
}

/// The director's slip.
#[tactic(auto, unfolding(crate::specs::Slips::director_text))]
pub fn director_text(sheet: &SlipSheet<'_>, key: Key) -> PageText
    requires { HasAddress sheet.now }
    ensures { result.items ≡ director_text sheet.now key.0 }
{
    let mut text = slip_head(sheet.format, "Director");
    push_tail(&mut text, sheet, key);
    text
}
