//! Two bounds of a worth, and how an answer brings them closer.
ghost use Rattle.std.specs.Prelude.{◌≡◌, ℕ, ◌+◌, ◌<◌, ◌≤◌, nat_le};
ghost use Rattle.bridge_endings.specs.Between.{IsBounded};

/// Two bounds of the worth of an ending.
#[derive(Clone, Copy)]
pub struct Bounds {
    /// At least so many tricks of North and South.
    pub least: u8,
    /// At most so many.
    pub most: u8,
}

/// The bounds once it is known whether so many tricks are reached.
pub fn narrowed(known: Bounds, need: u8, answer: bool) -> Bounds
    requires { known.least < need }
    ensures bounded { (worth : ℕ) → IsBounded worth known → answer ≡ nat_le need worth → IsBounded worth result }
    ensures closer { need ≤ known.most → (result.most ≤ known.most) × (result.most + known.least < known.most + result.least) }
{
    if answer {
        Bounds {
            least: need,
            most: known.most,
        }
    } else {
        Bounds {
            least: known.least,
            most: need - 1,
        }
    }
}
