//! An evening as words wish for it.
ghost use Rattle.std.specs.Prelude.{◌≡◌, ◌<◌, ◌≤◌, length, MatchOption, IfSome, IfNone, IfOk, IfErr};
ghost use Rattle.evening_draft.specs.Wishing.{suited, AreWishes, IsLongHeading, MakesEvening, RefusesEvening};

use crate::drafting::draft;
use crate::refused::DraftRefused;
use crate::wishes::{PairNames, Wishes};
use arrayvec::ArrayString;
use bridge_cards::Scoring;
use bridge_config::Config;
use bridge_movement::NamedMovement;

/// What is wished of an evening, in words.
#[derive(Clone, Copy)]
pub struct WishWords<'a> {
    /// Which movement is played, in place of the one that suits the number of pairs.
    pub movement: Option<NamedMovement>,
    /// How many boards each pair is to play, about.
    pub boards: u8,
    /// How scores are compared.
    pub scoring: Scoring,
    /// The name of the event. It may be no name.
    pub event: &'a str,
    /// The name of the site, likewise.
    pub site: &'a str,
    /// The date. It may be none.
    pub date: &'a str,
    /// What keys are drawn from.
    pub seed: [u8; 32],
}

/// The movement that suits so many pairs: a Howell up to 7, and a Mitchell from 8 on.
fn suited(pairs: usize) -> NamedMovement
    ensures { result ≡ suited pairs }
{
    if pairs <= 7 {
        NamedMovement::Howell
    } else {
        NamedMovement::Mitchell
    }
}

/// The text inline, where there is room for it.
fn fitting<const N: usize>(text: &str) -> Option<ArrayString<N>>
    ensures { MatchOption result (N < length text.now) (λ inline. inline.bytes ≡ text.now) }
{
    if text.len() > N {
        return None;
    }
    let mut inline = ArrayString::new();
    inline.push_str(text);
    Some(inline)
}

/// The wishes for so many pairs; `None` where a text is longer than any that there may be.
fn wishes_of(words: &WishWords<'_>, pairs: usize) -> Option<Wishes>
    ensures wishes { IfSome result (AreWishes words.now pairs) }
    ensures none { IfNone result (IsLongHeading words.now) }
{
    Some(Wishes {
        movement: words.movement.unwrap_or(suited(pairs)),
        boards: words.boards,
        scoring: words.scoring,
        event: fitting(words.event)?,
        site: fitting(words.site)?,
        date: fitting(words.date)?,
        seed: words.seed,
    })
}

/// The configuration of an evening for these pairs, as the words wish for it.
///
/// Refused is the first of these: an event, a site or a date of more bytes than there may be (`Heading`), and then what `draft`
/// refuses.
pub fn draft_evening(names: &[PairNames], words: &WishWords<'_>) -> Result<Config, DraftRefused>
    requires { length names.now ≤ 24 }
    ensures made { IfOk result (MakesEvening words.now names.now) }
    ensures refused { IfErr result (RefusesEvening words.now (length names.now)) }
{
    match wishes_of(words, names.len()) {
        Some(wishes) => draft(names, &wishes),
        None => Err(DraftRefused::Heading),
    }
}
