//! How a score compares with the other scores of its board (Law 78).
ghost use Rattle.std.specs.Prelude.{◌≡◌, ◌≤◌, ◌<◌, ◌*◌, ◌-◌, length, All, sum_by, pos, neg_ℤ, ◌≤ℤ◌};
ghost use Rattle.bridge_score.specs.ScoringTable.{IsScore};
ghost use Rattle.bridge_score.specs.Comparison.{int_sum_by, matchpoints_against, matchpoints_of};
ghost use Rattle.bridge_score.specs.Comparison.{imps_against, cross_imps_of};

use crate::imp_scale::imps;

/// The matchpoints against one other score, in tenths.
fn matchpoints_against(own: i32, other: i32) -> u16
    ensures value { result ≡ matchpoints_against own other }
    ensures most { result ≤ 20 }
{
    if other < own {
        20
    } else if other == own {
        10
    } else {
        0
    }
}

/// The matchpoints against those scores, in tenths.
fn matchpoints_over(own: i32, others: &[i32]) -> u16
    requires { length others.now ≤ 144 }
    ensures value { result ≡ sum_by (matchpoints_against own) others.now }
    ensures most { result ≤ 20 * length others.now }
{
    others
        .iter()
        .map(|other| matchpoints_against(own, *other))
        .sum()
}

/// The matchpoints of the score at index `i`, from 0, of the scores of a board, in tenths: 20 for each other score that is
/// inferior, 10 for each that is equal (Law 78A). There are at most 144 scores, each from -7600 to 7600.
pub fn matchpoints(scores: &[i32], i: usize) -> u16
    requires count { length scores.now ≤ 144 }
    requires scores { All IsScore scores.now }
    requires index { i < length scores.now }
    ensures value { result ≡ matchpoints_of scores.now i }
    ensures most { result ≤ 20 * (length scores.now - 1) }
{
    let own = scores[i];
    matchpoints_over(own, &scores[..i]) + matchpoints_over(own, &scores[i + 1..])
}

/// The IMPs against one other score, below 0 where that is greater (Law 78B).
pub fn imps_against(own: i32, other: i32) -> i32
    ensures value { result ≡ imps_against own other }
    ensures least { neg_ℤ (pos 24) ≤ℤ result }
    ensures most { result ≤ℤ pos 24 }
{
    let imps = i32::from(imps(own.abs_diff(other)));
    if own < other { -imps } else { imps }
}

/// The sum of the IMPs against those scores.
fn imps_over(own: i32, others: &[i32]) -> i32
    requires { length others.now ≤ 144 }
    ensures value { result ≡ int_sum_by (imps_against own) others.now }
    ensures least { neg_ℤ (pos (24 * length others.now)) ≤ℤ result }
    ensures most { result ≤ℤ pos (24 * length others.now) }
{
    let mut total = 0;
    for other in others {
        total += imps_against(own, *other);
    }
    total
}

/// The cross-IMPs of the score at index `i`, from 0, of the scores of a board: the sum of the IMPs against each other
/// score, won from a lesser one and lost to a greater one (Law 78B). There are at most 144 scores, each from -7600 to
/// 7600.
pub fn cross_imps(scores: &[i32], i: usize) -> i32
    requires count { length scores.now ≤ 144 }
    requires scores { All IsScore scores.now }
    requires index { i < length scores.now }
    ensures value { result ≡ cross_imps_of scores.now i }
    ensures least { neg_ℤ (pos (24 * (length scores.now - 1))) ≤ℤ result }
    ensures most { result ≤ℤ pos (24 * (length scores.now - 1)) }
{
    let own = scores[i];
    imps_over(own, &scores[..i]) + imps_over(own, &scores[i + 1..])
}
