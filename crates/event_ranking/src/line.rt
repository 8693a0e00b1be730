//! What a pair gains in its own section's plays against the scores of all sections.
ghost use Rattle.std.specs.Prelude.{◌≡◌, ◌≤◌};
ghost use Rattle.bridge_cards.specs.Board.{IsBoard};
ghost use Rattle.bridge_ranking.specs.Ranking.{scores_on, gained, available_of, value_in, available_in};
ghost use Rattle.bridge_ranking.specs.Gains.{IsGainWithin};
ghost use Rattle.event_ranking.specs.Joint.{joint, joint_line};
ghost use Rattle.event_ranking.specs.Wide.{AreOfSection};

use crate::gain::{available_of, gained};
use crate::wide::WideScores;
use bridge_cards::{Scoring, Side};
use bridge_ranking::{Game, side_in};
use bridge_score::Line;

/// What a pair gained, and what was available to it.
#[derive(Clone, Copy)]
struct Gain {
    /// What was gained: tenths of matchpoints, or IMPs.
    value: i32,
    /// What was available, in tenths of matchpoints.
    available: u32,
}

/// What a side gains in a play, and what is available to it.
fn gain_on(scoring: Scoring, wide: &WideScores, side: Side, game: Game) -> Gain
    requires { IsBoard game.board }
    ensures value { result.value ≡ gained scoring (scores_on (joint wide.now) side game.board) side game.result }
    ensures available { result.available ≡ available_of (scores_on (joint wide.now) side game.board) }
    ensures within { IsGainWithin scoring result.value result.available }
    ensures most { result.available ≤ 345580 }
{
    let scores = wide.scores(game.board);
    Gain {
        value: gained(scoring, scores, side, game.result),
        available: available_of(scores),
    }
}

/// What a pair gained in a play, and what was available to it, if it played there.
fn gain_in(scoring: Scoring, wide: &WideScores, pair: u8, game: Game) -> Gain
    requires { IsBoard game.board }
    ensures value { result.value ≡ value_in scoring (joint wide.now) pair game }
    ensures available { result.available ≡ available_in (joint wide.now) pair game }
    ensures within { IsGainWithin scoring result.value result.available }
    ensures most { result.available ≤ 345580 }
{
    match side_in(pair, game) {
        Some(side) => gain_on(scoring, wide, side, game),
        None => Gain {
            value: 0,
            available: 0,
        },
    }
}

/// What a pair gained in its section's plays, against the scores of all sections.
pub fn joint_line(scoring: Scoring, wide: &WideScores, own: &[Game], pair: u8) -> Line
    requires { AreOfSection own.now }
    ensures { result ≡ joint_line scoring (joint wide.now) own.now pair }
{
    let mut value = 0;
    let mut available = 0;
    for game in own {
        let gain = gain_in(scoring, wide, pair, *game);
        value += gain.value;
        available += gain.available;
    }
    Line {
        pair,
        value,
        available,
    }
}
