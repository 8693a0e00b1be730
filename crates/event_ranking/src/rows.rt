//! The rows of a ranking of the pairs of several sections.
ghost use Rattle.std.specs.Prelude.{◌≡◌, ◌≤◌, ◌++◌, length, map, unsigned_abs};
ghost use Rattle.std.specs.Fmt.{signed_decimal};
ghost use Rattle.line_text.specs.Decimals.{tenths_text as tenths};
ghost use Rattle.bridge_config.specs.ConfigValue.{pair_of, pair_names};
ghost use Rattle.event_ranking.specs.EventText.{pair_text, share_of, share_row, sum_row, wide_row, wide_titles};

use crate::letters::section_letters;
use crate::ranking::SectionRanked;
use arrayvec::ArrayString;
use bridge_cards::Scoring;
use bridge_config::{NAMES_BYTES, PairFields, pair_names};
use bridge_results::pages::columns::{SHARE_COLUMNS, SUM_COLUMNS};
use bridge_score::share_percent;
use line_text::{NumberText, number_text, percent_text, signed_text, tenths_text};
use page_layout::{Format, PageText, push_row, push_titles};

/// The matchpoints of a pair.
fn points_cell(ranked: &SectionRanked) -> NumberText
    ensures text { result.bytes ≡ tenths (unsigned_abs ranked.now.value) }
    ensures short { length result.bytes ≤ 22 }
{
    tenths_text(u64::from(ranked.value.unsigned_abs()))
}

/// The IMPs of a pair.
fn imps_cell(ranked: &SectionRanked) -> NumberText
    ensures text { result.bytes ≡ signed_decimal ranked.now.value }
    ensures short { length result.bytes ≤ 20 }
{
    signed_text(i64::from(ranked.value))
}

/// The section and the number of a pair.
fn pair_cell(ranked: &SectionRanked) -> ArrayString<32>
    ensures text { result.bytes ≡ pair_text ranked.now }
    ensures short { length result.bytes ≤ 32 }
{
    let mut text = ArrayString::new();
    text.push_str(section_letters(ranked.section).as_str());
    text.push_str(number_text(u32::from(ranked.pair)).as_str());
    text
}

/// What a pair gained of what was available to it, in hundredths of a per cent.
fn share_of(ranked: &SectionRanked) -> Option<u32>
    ensures { result ≡ share_of ranked.now }
{
    share_percent(&ranked.unplaced())
}

/// The row of a pair by matchpoints.
fn share_row(format: Format, names: &str, ranked: &SectionRanked) -> PageText
    requires { length names.now ≤ NAMES_BYTES }
    ensures { result.items ≡ share_row format names.now ranked.now }
{
    let place = number_text(u32::from(ranked.place));
    let pair = pair_cell(ranked);
    let value = points_cell(ranked);
    let available = tenths_text(u64::from(ranked.available));
    let percent = percent_text(share_of(ranked));
    let cells = [
        place.as_str().as_bytes(),
        pair.as_str().as_bytes(),
        names.as_bytes(),
        value.as_str().as_bytes(),
        available.as_str().as_bytes(),
        percent.as_str().as_bytes(),
    ];
    let mut text = PageText::new();
    push_row(&mut text, format, &SHARE_COLUMNS, &cells);
    text
}

/// The row of a pair by IMPs.
fn sum_row(format: Format, names: &str, ranked: &SectionRanked) -> PageText
    requires { length names.now ≤ NAMES_BYTES }
    ensures { result.items ≡ sum_row format names.now ranked.now }
{
    let place = number_text(u32::from(ranked.place));
    let pair = pair_cell(ranked);
    let value = imps_cell(ranked);
    let cells = [
        place.as_str().as_bytes(),
        pair.as_str().as_bytes(),
        names.as_bytes(),
        value.as_str().as_bytes(),
    ];
    let mut text = PageText::new();
    push_row(&mut text, format, &SUM_COLUMNS, &cells);
    text
}

/// The row of a pair, with its names among these pairs of its section.
pub fn wide_row(
    format: Format,
    scoring: Scoring,
    pairs: &[PairFields],
    ranked: &SectionRanked,
) -> PageText
    ensures { result.items ≡ wide_row format scoring (pair_names (map pair_of pairs.now) ranked.now.pair) ranked.now }
{
    let names = pair_names(pairs, ranked.pair);
    match scoring {
        Scoring::MatchPoints => share_row(format, names.as_str(), ranked),
        Scoring::Imps => sum_row(format, names.as_str(), ranked),
    }
}

/// Adds the titles of a ranking.
pub fn push_wide_titles(text: &mut PageText, format: Format, scoring: Scoring)
    requires { length text.old.items ≤ 2000 }
    ensures { text.new.items ≡ text.old.items ++ wide_titles format scoring }
{
    match scoring {
        Scoring::MatchPoints => push_titles(
            text,
            format,
            &SHARE_COLUMNS,
            &[b"Place", b"Pair", b"Names", b"MP", b"Available", b"%"],
        ),
        Scoring::Imps => push_titles(
            text,
            format,
            &SUM_COLUMNS,
            &[b"Place", b"Pair", b"Names", b"IMPs"],
        ),
    }
}
