//! The ranks of cards (Law 1).
ghost use Rattle.std.specs.Prelude.{◌≡◌, ◌≢◌, ◌↔◌, ℕ, ◌+◌, ◌<◌, IsSome, IfSome, IfNone};
ghost use Rattle.bridge_cards.specs.Rank.{IsRank, rank_letter};

use crate::out_of_range::OutOfRange;
use std::fmt;
use std::marker::Model;

/// A rank of cards, from the 2 to the ace (Law 1).
#[derive(Clone, Copy, Debug, PartialEq, Eq, PartialOrd, Ord, Hash)]
pub struct Rank {
    /// 2 to 14.
    number: u8,
}

impl Model for Rank {
    ghost use Rattle.std.specs.Prelude.{ℕ};
    ghost use Rattle.bridge_cards.specs.Rank.{IsRank};

    ghost Value = { ℕ };

    ghost view = { λ r. r.number };

    ghost invariant = { λ r. IsRank r.number };

    ghost inverse = { λ n. record { number = n } };
}

impl Rank {
    /// The rank of that number, 2 to 10, then 11 for the jack to 14 for the ace; `None` for any
    /// other number.
    pub fn new(number: u8) -> Option<Rank>
        ensures valid { IsSome result ↔ IsRank number }
        ensures value { IfSome result (λ rank. rank ≡ number) }
    {
        if (2..=14).contains(&number) {
            Some(Rank { number })
        } else {
            None
        }
    }

    /// The rank at that index of a suit, from 0 for the 2.
    pub(crate) fn of_index(index: u8) -> Rank
        requires { index < 13 }
        ensures { result ≡ index + 2 }
    {
        Rank { number: index + 2 }
    }

    /// The rank's number, 2 to 14.
    pub fn number(self) -> u8
        ensures number { result ≡ self }
        ensures range { IsRank result }
    {
        self.number
    }

    /// The rank's letter: `2` to `9`, `T`, `J`, `Q`, `K` or `A`.
    #[tactic(auto, unfolding(crate::specs::Rank::rank_letter))]
    pub fn letter(self) -> u8
        ensures letter { result ≡ rank_letter self }
        ensures ascii { result < 128 }
    {
        match self.number {
            10 => b'T',
            11 => b'J',
            12 => b'Q',
            13 => b'K',
            14 => b'A',
            low => b'0' + low,
        }
    }

    /// The rank of that letter, or `None` where it is no rank's.
    #[tactic(auto, unfolding(crate::specs::Rank::rank_letter))]
    pub fn from_letter(letter: u8) -> Option<Rank>
        ensures range { IfSome result IsRank }
        ensures rank { IfSome result (λ rank. rank_letter rank ≡ letter) }
        ensures none { IfNone result ((rank : ℕ) → IsRank rank → rank_letter rank ≢ letter) }
    {
        let number = match letter {
            b'2'..=b'9' => letter - b'0',
            b'T' => 10,
            b'J' => 11,
            b'Q' => 12,
            b'K' => 13,
            b'A' => 14,
            _ => return None,
        };
        Some(Rank { number })
    }
}

/// The rank's letter.
impl fmt::Display for Rank {
    ghost use Rattle.std.specs.Prelude.{Some, [], ◌∷◌};
    ghost use Rattle.bridge_cards.specs.Rank.{rank_letter};

    ghost output = { λ rank. Some (rank_letter rank ∷ []) };

    fn fmt<W: fmt::Write>(&self, f: &mut fmt::Formatter<W>) -> fmt::Result {
        f.write_char(char::from(self.letter()))
    }
}

/// As `new`, with the number where it is out of range.
impl TryFrom<u8> for Rank {
    type Error = OutOfRange;

    ghost use Rattle.std.specs.Prelude.{◌≡◌, ◌↔◌, IsOk, IfOk};
    ghost use Rattle.bridge_cards.specs.Rank.{IsRank};

    ghost try_from_gives = { λ n r. (IsOk r ↔ IsRank n) × IfOk r (λ value. value ≡ n) };

    fn try_from(number: u8) -> Result<Rank, OutOfRange> {
        Rank::new(number).ok_or(OutOfRange(number))
    }
}
