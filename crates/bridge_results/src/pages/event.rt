//! The head of the page: which event was played where and when, and how.
ghost use Rattle.std.specs.Prelude.{◌≡◌, ◌≤◌, length};
ghost use Rattle.bridge_movement.specs.Shape.{IsShape};
ghost use Rattle.bridge_results.specs.EventText.{scoring_words, place_words, count_words, event_text};

use arrayvec::ArrayString;
use bridge_cards::Scoring;
use bridge_config::Config;
use bridge_movement::Shape;
use line_text::number_text;
use page_layout::{Format, Level, PageText, push_heading, push_page_start, push_paragraph};

/// How scores are compared.
pub fn scoring_words(scoring: Scoring) -> &'static str
    ensures text { result.now ≡ scoring_words scoring }
    ensures short { length result.now ≤ 11 }
{
    match scoring {
        Scoring::MatchPoints => "Matchpoints",
        Scoring::Imps => "IMPs",
    }
}

/// Where and when a session was held.
pub fn place_words(site: &str, date: &str) -> ArrayString<40>
    requires site { length site.now ≤ 24 }
    requires date { length date.now ≤ 10 }
    ensures text { result.bytes ≡ place_words site.now date.now }
    ensures short { length result.bytes ≤ 40 }
{
    let mut text = ArrayString::new();
    text.push_str(site);
    text.push_str(", ");
    text.push_str(date);
    text
}

/// How many tables, boards and rounds the session has.
fn count_words(shape: Shape, boards: u8) -> ArrayString<80>
    requires shape { IsShape shape }
    requires boards { boards ≤ 3 }
    ensures text { result.bytes ≡ count_words shape boards }
    ensures short { length result.bytes ≤ 80 }
{
    let mut text = ArrayString::new();
    text.push_str("Tables: ");
    text.push_str(number_text(u32::from(shape.tables)).as_str());
    text.push_str(", boards: ");
    text.push_str(number_text(u32::from(shape.sets * boards)).as_str());
    text.push_str(", rounds: ");
    text.push_str(number_text(u32::from(shape.rounds)).as_str());
    text
}

/// The head of the page.
pub fn event_text(format: Format, config: &Config) -> PageText
    ensures { result.items ≡ event_text format config.now }
{
    let fields = config.fields();
    let event = fields.event.as_str().as_bytes();
    let place = place_words(fields.site.as_str(), fields.date.as_str());
    let counts = count_words(fields.movement.shape(), fields.boards);
    let mut text = PageText::new();
    push_page_start(&mut text, format, event);
    push_heading(&mut text, format, Level::Title, event);
    push_paragraph(&mut text, format, place.as_str().as_bytes());
    push_paragraph(&mut text, format, scoring_words(fields.scoring).as_bytes());
    push_paragraph(&mut text, format, counts.as_str().as_bytes());
    text
}
