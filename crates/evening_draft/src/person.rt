//! A name as people write it.
ghost use Rattle.std.specs.Prelude.{◌≡◌, length, chars};
ghost use Rattle.std.specs.List.{list_all};
ghost use Rattle.evening_draft.specs.Names.{is_plain, JudgesName, ReadsName};

use crate::names_refused::NamesRefused;
use crate::wishes::{PERSON_BYTES, PersonName};

/// The most characters of a name.
const PERSON_CHARACTERS: usize = 40;

/// Whether the character may stand in a name.
fn is_plain(c: char) -> bool
    ensures { result ≡ is_plain c }
{
    let c = c as u32;
    32 <= c
        && !(127 <= c && c <= 159)
        && c != 38
        && !(0x202A <= c && c <= 0x202E)
        && !(0x2066 <= c && c <= 0x2069)
}

/// Whether each character of the text may stand in a name.
fn are_plain(name: &str) -> bool
    ensures { result ≡ list_all is_plain (chars name.now) }
{
    for c in name.chars() {
        if !is_plain(c) {
            return false;
        }
    }
    true
}

/// How many characters the text has.
fn count(name: &str) -> usize
    ensures { result ≡ length (chars name.now) }
{
    name.chars().count()
}

/// The name that the bytes are.
fn read_name(name: &[u8]) -> Result<PersonName, NamesRefused>
    ensures { JudgesName name.now result }
{
    if name.is_empty() {
        return Err(NamesRefused::NoName);
    }
    let Ok(text) = str::from_utf8(name) else {
        return Err(NamesRefused::NotText);
    };
    if !are_plain(text) {
        return Err(NamesRefused::Character);
    }
    if count(text) > PERSON_CHARACTERS || text.len() > PERSON_BYTES {
        return Err(NamesRefused::LongName);
    }
    let mut person = PersonName::new();
    person.push_str(text);
    Ok(person)
}

/// The name on one side of a line, without the white space at its ends.
pub fn read_person(side: &[u8]) -> Result<PersonName, NamesRefused>
    ensures { ReadsName side.now result }
{
    read_name(side.trim_ascii())
}
