//! Where a player begins, and its key.
ghost use Rattle.std.specs.Prelude.{◌≡◌, ◌≤◌, length, map};
ghost use Rattle.bridge_config.specs.ConfigValue.{pair_of};
ghost use Rattle.evening_slips.specs.Slips.{player_key, seat_name, place_words, pair_words};

use arrayvec::ArrayString;
use bridge_cards::Side;
use bridge_config::{Key, PairFields};
use bridge_movement::Place;
use line_text::number_text;

/// The room for a few words, in bytes.
const WORDS_BYTES: usize = 30;

/// A few words.
pub type Words = ArrayString<WORDS_BYTES>;

/// The key of the first or the second player of the pair of that number, from 1; 0 where there is no such pair.
pub fn player_key(pairs: &[PairFields], pair: u8, first: bool) -> Key
    ensures { result.0 ≡ player_key (map pair_of pairs.now) pair first }
{
    match pairs.get(usize::from(pair.saturating_sub(1))) {
        Some(found) if first => found.keys[0],
        Some(found) => found.keys[1],
        None => Key(0),
    }
}

/// Where the first or the second player of a pair on that side sits.
fn seat_name(side: Side, first: bool) -> &'static str
    ensures name { result.now ≡ seat_name side first }
    ensures short { length result.now ≤ 5 }
{
    match side {
        Side::NorthSouth if first => "North",
        Side::NorthSouth => "South",
        Side::EastWest if first => "East",
        Side::EastWest => "West",
    }
}

/// The table and the seat at which a player begins.
pub fn place_words(first: bool, place: Option<Place>) -> Words
    ensures { result.bytes ≡ place_words first place }
{
    let mut words = Words::new();
    match place {
        None => words.push_str("Sits out in round 1"),
        Some(place) => {
            words.push_str("Table ");
            words.push_str(number_text(u32::from(place.table)).as_str());
            words.push_str(", ");
            words.push_str(seat_name(place.side, first));
        }
    }
    words
}

/// The number of a pair.
pub fn pair_words(pair: u8) -> Words
    ensures { result.bytes ≡ pair_words pair }
{
    let mut words = Words::new();
    words.push_str("Pair ");
    words.push_str(number_text(u32::from(pair)).as_str());
    words
}
