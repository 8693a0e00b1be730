//! The scale of IMPs, a board of four scores, and percentages.
ghost use Rattle.std.specs.Prelude.{◌<◌};

use crate::tests::expect_eq;
use bridge_score::{cross_imps, imps, matchpoints, percent_hundredths};

/// The differences at which 1 to 24 IMPs begin, as Law 78B prints them.
static BEGINNINGS: [u32; 24] = [
    20, 50, 90, 130, 170, 220, 270, 320, 370, 430, 500, 600, 750, 900, 1100, 1300, 1500, 1750,
    2000, 2250, 2500, 3000, 3500, 4000,
];

#[test]
fn imps_begin_where_the_scale_says(rt: HostRuntime) {
    for (before, beginning) in BEGINNINGS.iter().enumerate() {
        let before = before as u8;
        expect_eq(&rt, imps(*beginning - 1), before, beginning);
        expect_eq(&rt, imps(*beginning), before + 1, beginning);
    }
    expect_eq(&rt, imps(u32::MAX), 24, "the most");
}

/// What one of four scores earns by matchpoints, and by IMPs.
fn earned(i: usize) -> (u16, i32)
    requires { i < 4 }
{
    let scores = [450, 420, 420, -50];
    (matchpoints(&scores, i), cross_imps(&scores, i))
}

#[test]
fn a_board_of_four_scores(rt: HostRuntime) {
    expect_eq(&rt, earned(0), (60, 13), 450);
    expect_eq(&rt, earned(1), (30, 9), 420);
    expect_eq(&rt, earned(2), (30, 9), 420);
    expect_eq(&rt, earned(3), (0, -31), -50);
}

#[test]
fn percentages_are_rounded(rt: HostRuntime) {
    expect_eq(&rt, percent_hundredths(0, 0), None, "of nothing");
    expect_eq(&rt, percent_hundredths(2, 6), Some(3333), "a third");
    expect_eq(&rt, percent_hundredths(4, 6), Some(6667), "two thirds");
    expect_eq(&rt, percent_hundredths(1, 20_000), Some(1), "half of one");
    expect_eq(&rt, percent_hundredths(1, 20_001), Some(0), "less");
    let most = percent_hundredths(9_999_999, 10_000_000);
    expect_eq(&rt, most, Some(10_000), "nearly all");
}
