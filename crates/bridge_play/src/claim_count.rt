//! How many claims were made in a play.
ghost use Rattle.std.specs.Prelude.{◌≡◌, ◌↔◌, IsSome, IfSome};
ghost use Rattle.bridge_play.specs.Play.{IsClaimCount};

use std::marker::Model;

/// The most claims of one play.
pub(crate) const MOST_CLAIMS: u8 = 99;

/// How many claims were made in a play, 0 to 99.
#[derive(Clone, Copy, Debug, PartialEq, Eq)]
pub struct ClaimCount {
    pub(crate) number: u8,
}

impl Model for ClaimCount {
    ghost use Rattle.std.specs.Prelude.{ℕ};
    ghost use Rattle.bridge_play.specs.Play.{IsClaimCount};

    ghost Value = { ℕ };

    ghost view = { λ n. n.number };

    ghost invariant = { λ n. IsClaimCount n.number };

    ghost inverse = { λ number. record { number = number } };
}

/// No claim was made.
impl Default for ClaimCount {
    ghost use Rattle.std.specs.Prelude.{◌≡◌};

    ghost is_default = { λ claims. claims ≡ 0 };

    fn default() -> Self {
        ClaimCount { number: 0 }
    }
}

impl ClaimCount {
    /// So many claims, or `None` where they are more than 99.
    pub fn new(number: u8) -> Option<ClaimCount>
        ensures valid { IsSome result ↔ IsClaimCount number }
        ensures value { IfSome result (λ made. made ≡ number) }
    {
        if number <= MOST_CLAIMS {
            Some(ClaimCount { number })
        } else {
            None
        }
    }

    /// The number, 0 to 99.
    pub fn number(self) -> u8
        ensures number { result ≡ self }
        ensures range { IsClaimCount result }
    {
        self.number
    }
}
