//! What the scores of one board gain from one another, all together.
ghost use Rattle.std.specs.Prelude.{◌≡◌, ◌≤◌, ◌*◌, ◌-◌, List, length, map, sum, ℤ};
ghost use Rattle.bridge_score.specs.Comparison.{int_sum, matchpoints_of, cross_imps_of, indexes};

/// The matchpoints that a board of so many scores shares out, in tenths: 10 n (n - 1), whatever the scores.
pub fn matchpoints_shared(count: usize) -> usize
    requires { count ≤ 144 }
    ensures value { result ≡ 10 * (count * (count - 1)) }
    ensures every_board { (scores : List ℤ) →
        sum (map (matchpoints_of scores) (indexes scores)) ≡ 10 * (length scores * (length scores - 1)) }
{
    10 * (count * count.saturating_sub(1))
}

/// The cross-IMPs that a board shares out: what one score wins another loses, so there are none, whatever the scores.
pub fn cross_imps_shared() -> i32
    ensures { (scores : List ℤ) → int_sum (map (cross_imps_of scores) (indexes scores)) ≡ result }
{
    0
}
