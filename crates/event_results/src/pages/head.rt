//! The head of the page: which event was played where and when, how, and in how many sections.
ghost use Rattle.std.specs.Prelude.{◌≡◌, ◌≤◌, length};
ghost use Rattle.event_results.specs.EventHead.{count_words, event_head};

use arrayvec::ArrayString;
use bridge_config::Config;
use bridge_results::pages::event::{place_words, scoring_words};
use line_text::number_text;
use page_layout::{Format, Level, PageText, push_heading, push_page_start, push_paragraph};

/// How many sections there are.
fn count_words(sections: u32) -> ArrayString<40>
    ensures text { result.bytes ≡ count_words sections }
    ensures short { length result.bytes ≤ 40 }
{
    let mut text = ArrayString::new();
    text.push_str("Sections: ");
    text.push_str(number_text(sections).as_str());
    text
}

/// The head of the page of so many sections.
pub fn event_head(format: Format, config: &Config, sections: u32) -> PageText
    ensures { result.items ≡ event_head format config.now sections }
{
    let fields = config.fields();
    let event = fields.event.as_str().as_bytes();
    let place = place_words(fields.site.as_str(), fields.date.as_str());
    let counts = count_words(sections);
    let mut text = PageText::new();
    push_page_start(&mut text, format, event);
    push_heading(&mut text, format, Level::Title, event);
    push_paragraph(&mut text, format, place.as_str().as_bytes());
    push_paragraph(&mut text, format, scoring_words(fields.scoring).as_bytes());
    push_paragraph(&mut text, format, counts.as_str().as_bytes());
    text
}
