//! What a table of a search knows of hands.
ghost use Rattle.std.specs.Prelude.{◌≡◌, Some, None};

use crate::answer::Answer;
use bridge_cards::Card;

/// What a table, or a part of it, knows of hands.
#[derive(Clone, Copy)]
pub struct Known {
    /// The answer, if something found tells it.
    pub answer: Option<Answer>,
    /// The card to try first, if some hands with those lengths were met.
    pub best: Option<Card>,
    /// Where something stands that is true of the hands, from 1 on; 0 where there is nothing.
    pub place: u32,
}

impl Known {
    /// No answer is known.
    pub fn open(best: Option<Card>, place: u32) -> Known
        ensures { result.answer ≡ None }
    {
        Known {
            answer: None,
            best,
            place,
        }
    }

    /// An answer is known.
    pub fn answered(answer: Answer, place: u32) -> Known
        ensures { result.answer ≡ Some answer }
    {
        Known {
            answer: Some(answer),
            best: None,
            place,
        }
    }
}
