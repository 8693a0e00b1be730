//! What a score gains against the scores of its board in all sections, or is awarded (Laws 12C2, 78). Matchpoints are in tenths.
ghost use Rattle.std.specs.Prelude.{◌≡◌, ◌≤◌, ◌<◌, ◌*◌, ◌-◌, length, map, position, sum_by, pos, neg_ℤ, ◌≤ℤ◌};
ghost use Rattle.std.specs.Ordering.{int_eq};
ghost use Rattle.bridge_score.specs.Comparison.{int_sum_by, matchpoints_against, matchpoints_of, imps_against, cross_imps_of};
ghost use Rattle.bridge_ranking.specs.Ranking.{score_for, gain_at, gain_of, available_of, award, gained};
ghost use Rattle.bridge_ranking.specs.Gains.{IsGainWithin};
ghost use Rattle.event_ranking.specs.Joint.{other_gain};

use bridge_cards::{Scoring, Side};
use bridge_ranking::{PlayResult, average_for};
use bridge_score::imps_against;
use session_rules::Average;

/// The most scores of a board: 40 sections have 432 plays each.
pub const MOST_SCORES: usize = 17280;

/// The matchpoints against one other score, in tenths (Law 78A).
fn matchpoints_against(own: i32, other: i32) -> u32
    ensures value { result ≡ matchpoints_against own other }
    ensures most { result ≤ 20 }
{
    if other < own {
        20
    } else if other == own {
        10
    } else {
        0
    }
}

/// The matchpoints against those scores, in tenths.
fn matchpoints_over(own: i32, others: &[i32]) -> u32
    requires { length others.now ≤ MOST_SCORES }
    ensures value { result ≡ sum_by (matchpoints_against own) others.now }
    ensures most { result ≤ 20 * length others.now }
{
    others
        .iter()
        .map(|other| matchpoints_against(own, *other))
        .sum()
}

/// The matchpoints of the score at an index, in tenths.
fn matchpoints(scores: &[i32], index: usize) -> u32
    requires count { length scores.now ≤ MOST_SCORES }
    requires index { index < length scores.now }
    ensures value { result ≡ matchpoints_of scores.now index }
    ensures most { result ≤ 20 * (length scores.now - 1) }
{
    let own = scores[index];
    matchpoints_over(own, &scores[..index]) + matchpoints_over(own, &scores[index + 1..])
}

/// The sum of the IMPs against those scores.
fn imps_over(own: i32, others: &[i32]) -> i32
    requires { length others.now ≤ MOST_SCORES }
    ensures value { result ≡ int_sum_by (imps_against own) others.now }
    ensures least { neg_ℤ (pos (24 * length others.now)) ≤ℤ result }
    ensures most { result ≤ℤ pos (24 * length others.now) }
{
    let mut total = 0;
    for other in others {
        total += imps_against(own, *other);
    }
    total
}

/// The cross-IMPs of the score at an index.
fn cross_imps(scores: &[i32], index: usize) -> i32
    requires count { length scores.now ≤ MOST_SCORES }
    requires index { index < length scores.now }
    ensures value { result ≡ cross_imps_of scores.now index }
    ensures least { neg_ℤ (pos (24 * (length scores.now - 1))) ≤ℤ result }
    ensures most { result ≤ℤ pos (24 * (length scores.now - 1)) }
{
    let own = scores[index];
    imps_over(own, &scores[..index]) + imps_over(own, &scores[index + 1..])
}

/// What the score at an index gains against the others.
fn gain_at(scoring: Scoring, scores: &[i32], index: usize) -> i32
    requires count { length scores.now ≤ MOST_SCORES }
    requires index { index < length scores.now }
    ensures value { result ≡ gain_at scoring scores.now index }
    ensures within { IsGainWithin scoring result (available_of scores.now) }
{
    match scoring {
        Scoring::MatchPoints => matchpoints(scores, index) as i32,
        Scoring::Imps => cross_imps(scores, index),
    }
}

/// What is available to each of these scores of a board, in tenths: 20 for each other score.
pub fn available_of(scores: &[i32]) -> u32
    requires { length scores.now ≤ MOST_SCORES }
    ensures available { result ≡ available_of scores.now }
    ensures most { result ≤ 345580 }
{
    20 * (scores.len().saturating_sub(1) as u32)
}

/// What the other side gains where one gains so much: the rest of what is available, or what the one loses.
fn other_gain(scoring: Scoring, gain: i32, available: u32) -> i32
    requires within { IsGainWithin scoring gain available }
    requires most { available ≤ 345580 }
    ensures value { result ≡ other_gain scoring gain available }
    ensures within { IsGainWithin scoring result available }
{
    match scoring {
        Scoring::MatchPoints => available as i32 - gain,
        Scoring::Imps => -gain,
    }
}

/// What a side gains at the index of a score of North and South.
fn side_gain_at(scoring: Scoring, scores: &[i32], side: Side, index: usize) -> i32
    requires count { length scores.now ≤ MOST_SCORES }
    requires index { index < length scores.now }
    ensures value { result ≡ gain_at scoring (map (score_for side) scores.now) index }
    ensures within { IsGainWithin scoring result (available_of scores.now) }
{
    let gain = gain_at(scoring, scores, index);
    match side {
        Side::NorthSouth => gain,
        Side::EastWest => other_gain(scoring, gain, available_of(scores)),
    }
}

/// The first index of a score.
fn index_of_score(scores: &[i32], own: i32) -> Option<usize>
    ensures { result ≡ position (int_eq own) scores.now }
{
    scores.iter().position(|score| own == *score)
}

/// What a side gains by a score of North and South.
fn gain_of(scoring: Scoring, scores: &[i32], side: Side, own: i32) -> i32
    requires { length scores.now ≤ MOST_SCORES }
    ensures value { result ≡ gain_of scoring (map (score_for side) scores.now) (score_for side own) }
    ensures within { IsGainWithin scoring result (available_of scores.now) }
{
    match index_of_score(scores, own) {
        Some(index) => side_gain_at(scoring, scores, side, index),
        None => 0,
    }
}

/// An average of so much that is available, of matchpoints alone (Law 12C2).
fn award(scoring: Scoring, average: Average, available: u32) -> i32
    requires { available ≤ 345580 }
    ensures value { result ≡ award scoring average available }
    ensures within { IsGainWithin scoring result available }
{
    match scoring {
        Scoring::MatchPoints => (u32::from(average.percent()) * available / 100) as i32,
        Scoring::Imps => 0,
    }
}

/// What a side gains on a board, by what its play is compared by and the scores of North and South.
pub fn gained(scoring: Scoring, scores: &[i32], side: Side, by: PlayResult) -> i32
    requires { length scores.now ≤ MOST_SCORES }
    ensures value { result ≡ gained scoring (map (score_for side) scores.now) side by }
    ensures within { IsGainWithin scoring result (available_of scores.now) }
{
    match by {
        PlayResult::Score(score) => gain_of(scoring, scores, side, score),
        PlayResult::Averages { ns, ew } => {
            award(scoring, average_for(side, ns, ew), available_of(scores))
        }
    }
}
