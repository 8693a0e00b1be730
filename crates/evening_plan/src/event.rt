//! The head of the plan: which event is played where and when, and how.
ghost use Rattle.std.specs.Prelude.{◌≡◌, ◌+◌, ◌≤◌, ◌++◌, length};
ghost use Rattle.arrayvec.specs.ArrayVec.{array_vec_len};
ghost use Rattle.bridge_movement.specs.Shape.{IsShape};
ghost use Rattle.evening_plan.specs.Evening.{evening_of};
ghost use Rattle.evening_plan.specs.EventText.{event_line, seat_words, scoring_words, place_words, count_words, board_words, two_fields, field_words, event_text};

use crate::text::push_number;
use bridge_cards::Scoring;
use bridge_config::Config;
use bridge_movement::Shape;
use page_layout::{PAGE_BYTES, PageText, push_bytes};

/// The event, on a line of its own.
#[tactic(auto, unfolding(crate::specs::EventText::event_line))]
fn event_line(event: &str) -> PageText
    requires { length event.now ≤ 24 }
    ensures text { result.items ≡ event_line event.now }
    ensures short { array_vec_len result ≤ 25 }
{
    let mut text = PageText::new();
    push_bytes(&mut text, event.as_bytes());
    push_bytes(&mut text, b"\n");
    text
}

/// Where the players of a pair sit.
#[tactic(auto, unfolding(crate::specs::EventText::seat_words))]
fn seat_words() -> &'static [u8]
    ensures text { result.now ≡ seat_words }
    ensures short { length result.now ≤ 80 }
{
    b"Of a pair the first player sits North or East, the second South or West.\n"
}

/// How scores are compared.
fn scoring_words(scoring: Scoring) -> &'static [u8]
    ensures text { result.now ≡ scoring_words scoring }
    ensures short { length result.now ≤ 22 }
{
    match scoring {
        Scoring::MatchPoints => b"Scoring: matchpoints\n",
        Scoring::Imps => b"Scoring: IMPs\n",
    }
}

/// Where and when the event is played.
#[tactic(auto, unfolding(crate::specs::EventText::place_words))]
fn place_words(site: &str, date: &str) -> PageText
    requires site { length site.now ≤ 24 }
    requires date { length date.now ≤ 10 }
    ensures text { result.items ≡ place_words site.now date.now }
    ensures short { array_vec_len result ≤ 40 }
{
    let mut text = PageText::new();
    push_bytes(&mut text, site.as_bytes());
    push_bytes(&mut text, b", ");
    push_bytes(&mut text, date.as_bytes());
    push_bytes(&mut text, b"\n");
    text
}

/// How many tables, rounds and pairs there are.
#[tactic(auto, unfolding(crate::specs::EventText::count_words))]
fn count_words(shape: Shape) -> PageText
    ensures text { result.items ≡ count_words shape }
    ensures short { array_vec_len result ≤ 60 }
{
    let mut text = PageText::new();
    push_bytes(&mut text, b"Tables: ");
    push_number(&mut text, u32::from(shape.tables));
    push_bytes(&mut text, b", rounds: ");
    push_number(&mut text, u32::from(shape.rounds));
    push_bytes(&mut text, b", pairs: ");
    push_number(&mut text, u32::from(shape.pairs));
    push_bytes(&mut text, b"\n");
    text
}

/// How many sets and boards there are.
#[tactic(auto, unfolding(crate::specs::EventText::board_words))]
fn board_words(shape: Shape, boards: u8) -> PageText
    requires shape { IsShape shape }
    requires boards { boards ≤ 3 }
    ensures text { result.items ≡ board_words shape boards }
    ensures short { array_vec_len result ≤ 80 }
{
    let mut text = PageText::new();
    push_bytes(&mut text, b"Sets: ");
    push_number(&mut text, u32::from(shape.sets));
    push_bytes(&mut text, b", boards in a set: ");
    push_number(&mut text, u32::from(boards));
    push_bytes(&mut text, b", boards in all: ");
    push_number(&mut text, u32::from(shape.sets * boards));
    push_bytes(&mut text, b"\n");
    text
}

/// The two fields, whose pairs are ranked apart.
#[tactic(auto, unfolding(crate::specs::EventText::two_fields))]
fn two_fields(shape: Shape) -> PageText
    ensures text { result.items ≡ two_fields shape }
    ensures short { array_vec_len result ≤ 80 }
{
    let mut text = PageText::new();
    push_bytes(&mut text, b"Ranked: pairs 1 to ");
    push_number(&mut text, u32::from(shape.split));
    push_bytes(&mut text, b" apart from pairs ");
    push_number(&mut text, u32::from(shape.split) + 1);
    push_bytes(&mut text, b" to ");
    push_number(&mut text, u32::from(shape.pairs));
    push_bytes(&mut text, b"\n");
    text
}

/// Adds which pairs are ranked together.
fn push_fields(text: &mut PageText, shape: Shape)
    requires { array_vec_len text.old + 80 ≤ PAGE_BYTES }
    ensures text { text.new.items ≡ text.old.items ++ field_words shape }
    ensures room { array_vec_len text.new ≤ array_vec_len text.old + 80 }
{
    if shape.split == shape.pairs {
        push_bytes(text, b"Ranked: all pairs together\n");
    } else {
        push_bytes(text, two_fields(shape).as_slice());
    }
}

/// The head of the plan, a line each: the event, where and when, the scoring, and the numbers.
#[tactic(auto, unfolding(crate::specs::EventText::event_text))]
pub fn event_text(config: &Config) -> PageText
    ensures { result.items ≡ event_text (evening_of config.now) }
{
    let fields = config.fields();
    let shape = fields.movement.shape();
    let place = place_words(fields.site.as_str(), fields.date.as_str());
    let mut text = PageText::new();
    push_bytes(&mut text, event_line(fields.event.as_str()).as_slice());
    push_bytes(&mut text, place.as_slice());
    push_bytes(&mut text, scoring_words(fields.scoring));
    push_bytes(&mut text, count_words(shape).as_slice());
    push_bytes(&mut text, board_words(shape, fields.boards).as_slice());
    push_fields(&mut text, shape);
    push_bytes(&mut text, seat_words());
    text
}
