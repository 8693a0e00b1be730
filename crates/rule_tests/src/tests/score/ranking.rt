//! Lines ranked under each scoring.
ghost use Rattle.std.specs.Prelude.{◌≡◌};

use crate::tests::expect_eq;
use bridge_score::{Line, Ranked, Scoring, rank};

/// The line of a pair.
const fn line(pair: u8, value: i32, available: u32) -> Line
    ensures { result ≡ record { pair = pair; value = value; available = available } }
{
    Line {
        pair,
        value,
        available,
    }
}

/// A place, and the line that has it.
const fn at(place: u8, pair: u8, value: i32, available: u32) -> Ranked {
    Ranked {
        place,
        pair,
        value,
        available,
    }
}

// By share, where nothing was available last; by sum; of no lines.
#[test]
fn lines_are_ranked(rt: HostRuntime) {
    let shares = [
        line(9, 0, 0),
        line(1, 3, 6),
        line(2, 2, 4),
        line(3, 0, 0),
        line(4, 5, 6),
        line(5, 0, 6),
    ];
    let by_share = [
        at(1, 4, 5, 6),
        at(2, 1, 3, 6),
        at(2, 2, 2, 4),
        at(4, 5, 0, 6),
        at(5, 3, 0, 0),
        at(5, 9, 0, 0),
    ];
    let ranking = rank(Scoring::MatchPoints, &shares);
    expect_eq(&rt, ranking.as_slice(), by_share.as_slice(), "shares");
    let sums = [
        line(4, -31, 0),
        line(3, 9, 0),
        line(1, 13, 0),
        line(2, 9, 0),
    ];
    let by_sum = [
        at(1, 1, 13, 0),
        at(2, 2, 9, 0),
        at(2, 3, 9, 0),
        at(4, 4, -31, 0),
    ];
    let ranking = rank(Scoring::Imps, &sums);
    expect_eq(&rt, ranking.as_slice(), by_sum.as_slice(), "sums");
    let ranking = rank(Scoring::MatchPoints, &[]);
    expect_eq(&rt, ranking.len(), 0, "no lines");
}
