//! How many boards there are in a set.
ghost use Rattle.std.specs.Prelude.{◌≡◌, ◌*◌, ◌≤◌, ℕ};
ghost use Rattle.evening_draft.specs.Draft.{distance, nearer, boards_for};

/// How far two numbers are apart.
fn distance(one: u8, other: u8) -> u8
    ensures { result ≡ distance one other }
{
    if one < other {
        other - one
    } else {
        one - other
    }
}

/// One number of boards in a set or another: the one by which a pair plays nearer to so many boards.
fn nearer(rounds: u8, wanted: u8, one: u8, other: u8) -> u8
    requires rounds { rounds ≤ 12 }
    requires one { one ≤ 3 }
    requires other { other ≤ 3 }
    ensures { result ≡ nearer rounds wanted one other }
{
    if distance(wanted, rounds * other) < distance(wanted, rounds * one) {
        other
    } else {
        one
    }
}

/// How many boards a set has, 1 to 3, for each pair to play as near to so many boards as there can be.
pub fn boards_for(rounds: u8, wanted: u8) -> u8
    requires { rounds ≤ 12 }
    ensures boards { result ≡ boards_for rounds wanted }
    ensures least { 1 ≤ result }
    ensures most { result ≤ 3 }
    ensures nearest { (boards : ℕ) → 1 ≤ boards → boards ≤ 3
        → distance wanted (rounds * result) ≤ distance wanted (rounds * boards) }
{
    let fewer = nearer(rounds, wanted, 1, 2);
    nearer(rounds, wanted, fewer, 3)
}
