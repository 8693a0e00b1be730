//! Endings of plays, for the solver.
ghost use Rattle.std.specs.Prelude.{◌≡◌, ◌*◌, ◌/◌, ◌≤◌, Ok, Err, IfOk, MatchResult};
ghost use Rattle.std.specs.Bool.{OnTrue};
ghost use Rattle.std.specs.Option.{option_copied};
ghost use Rattle.bridge_endings.specs.Ending.{IsEnding};
ghost use Rattle.bridge_play.specs.Trick.{whole_tricks};
ghost use Rattle.bridge_session.specs.Ending.{plain_ending, ending_after, leave_an_ending, ending_in, ending_answer};

use super::Session;
use bridge_config::Key;
use bridge_endings::Ending;
use bridge_play::Play;
use bridge_table::check_director;
use session_rules::{PlayId, Refused};

/// The fewest cards after which each hand has at most six.
const LEAST_CARDS: usize = 28;

/// What is left of a play after so many of its whole tricks.
fn ending_after(play: &Play, tricks: usize) -> Ending
    requires few_left { 7 ≤ tricks }
    requires played { tricks ≤ whole_tricks play.now.cards }
    ensures left { plain_ending result ≡ ending_after play.now (4 * tricks) }
    ensures ending { IsEnding result.hands }
{
    let trump = play.contract().bid.denomination.suit();
    Ending::new(play.hands_after(tricks), trump, play.leader(tricks)).unwrap()
}

/// Whether so many cards are whole tricks, leave at most six, and were played.
fn leave_an_ending(play: &Play, cards: usize) -> bool
    ensures answer { result ≡ leave_an_ending play.now cards }
    ensures tricks { OnTrue result ((4 * (cards / 4) ≡ cards) × (7 ≤ cards / 4) × (cards / 4 ≤ whole_tricks play.now.cards)) }
{
    cards % 4 == 0 && cards >= LEAST_CARDS && cards <= play.cards().len()
}

/// What is left of a play after so many of its cards: `NoContract` before there is one, and `NotAnEnding` where these are
/// not whole tricks, leave more than six, or are more than were played.
fn ending_in(play: Option<&Play>, cards: u8) -> Result<Ending, Refused>
    ensures answer { MatchResult result (λ ending. ending_in cards (option_copied play.entry) ≡ Ok (plain_ending ending)) (λ refused. ending_in cards (option_copied play.entry) ≡ Err refused) }
    ensures ending { IfOk result (λ ending. IsEnding ending.hands) }
{
    let cards = usize::from(cards);
    let play = play.ok_or(Refused::NoContract)?;
    if !leave_an_ending(play, cards) {
        return Err(Refused::NotAnEnding);
    }
    Ok(ending_after(play, cards / 4))
}

impl Session {
    /// What is left of a play after its first cards: the hands, the trump suit, and the seat that leads to the next trick.
    /// It is there for each contract, also of a play that is void or adjusted. Only the director may ask. Refused are, in this order:
    /// `NoKey`, `NotAllowed`, `NoSuchPlay`, `NotYet`, `NoContract`, and `NotAnEnding` where so many cards are not whole
    /// tricks, are fewer than 28, which leave six tricks, or more than were played. It takes no memory.
    pub fn ending(&self, key: Key, play: PlayId, cards: u8) -> Result<Ending, Refused>
        ensures answer { MatchResult result (λ ending. ending_answer self.now key.0 play cards ≡ Ok (plain_ending ending)) (λ refused. ending_answer self.now key.0 play cards ≡ Err refused) }
        ensures ending { IfOk result (λ ending. IsEnding ending.hands) }
    {
        check_director(&self.config, key)?;
        let round = play.round.number();
        let record = self.record_of(play).ok_or(Refused::NoSuchPlay)?;
        if self.round < round {
            return Err(Refused::NotYet);
        }
        ending_in(record.play.as_ref(), cards)
    }
}
