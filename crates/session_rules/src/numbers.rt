//! The numbers that an action names, each within its range.
ghost use Rattle.std.specs.Prelude.{◌≡◌, ◌↔◌, IsSome, IfSome};
ghost use Rattle.session_rules.specs.Numbers.{IsRoundNumber, IsTableNumber, IsBoardIndex, IsTrickCount, IsMadeCount};

use bridge_movement::{MOST_ROUNDS, MOST_TABLES};
use bridge_play::TRICKS;
use std::marker::Model;

/// The number of a round, 1 to 12.
#[derive(Clone, Copy, Debug, PartialEq, Eq)]
pub struct RoundNumber {
    number: u8,
}

impl Model for RoundNumber {
    ghost use Rattle.std.specs.Prelude.{ℕ};
    ghost use Rattle.session_rules.specs.Numbers.{IsRoundNumber};

    ghost Value = { ℕ };

    ghost view = { λ n. n.number };

    ghost invariant = { λ n. IsRoundNumber n.number };

    ghost inverse = { λ number. record { number = number } };
}

/// The first round.
impl Default for RoundNumber {
    ghost use Rattle.std.specs.Prelude.{◌≡◌};

    ghost is_default = { λ round. round ≡ 1 };

    fn default() -> Self {
        RoundNumber { number: 1 }
    }
}

impl RoundNumber {
    /// The highest number of a round.
    pub const MAX: u8 = MOST_ROUNDS;

    /// The round of that number, or `None` where it is not from 1 to 12.
    pub fn new(number: u8) -> Option<RoundNumber>
        ensures valid { IsSome result ↔ IsRoundNumber number }
        ensures value { IfSome result (λ made. made ≡ number) }
    {
        if (1..=RoundNumber::MAX).contains(&number) {
            Some(RoundNumber { number })
        } else {
            None
        }
    }

    /// The number, 1 to 12.
    pub fn number(self) -> u8
        ensures number { result ≡ self }
        ensures range { IsRoundNumber result }
    {
        self.number
    }
}

/// The number of a table, 1 to 12.
#[derive(Clone, Copy, Debug, PartialEq, Eq)]
pub struct TableNumber {
    number: u8,
}

impl Model for TableNumber {
    ghost use Rattle.std.specs.Prelude.{ℕ};
    ghost use Rattle.session_rules.specs.Numbers.{IsTableNumber};

    ghost Value = { ℕ };

    ghost view = { λ n. n.number };

    ghost invariant = { λ n. IsTableNumber n.number };

    ghost inverse = { λ number. record { number = number } };
}

impl TableNumber {
    /// The highest number of a table.
    pub const MAX: u8 = MOST_TABLES;

    /// The table of that number, or `None` where it is not from 1 to 12.
    pub fn new(number: u8) -> Option<TableNumber>
        ensures valid { IsSome result ↔ IsTableNumber number }
        ensures value { IfSome result (λ made. made ≡ number) }
    {
        if (1..=TableNumber::MAX).contains(&number) {
            Some(TableNumber { number })
        } else {
            None
        }
    }

    /// The number, 1 to 12.
    pub fn number(self) -> u8
        ensures number { result ≡ self }
        ensures range { IsTableNumber result }
    {
        self.number
    }
}

/// Which board of its set, 1 to 3.
#[derive(Clone, Copy, Debug, PartialEq, Eq)]
pub struct BoardIndex {
    number: u8,
}

impl Model for BoardIndex {
    ghost use Rattle.std.specs.Prelude.{ℕ};
    ghost use Rattle.session_rules.specs.Numbers.{IsBoardIndex};

    ghost Value = { ℕ };

    ghost view = { λ n. n.number };

    ghost invariant = { λ n. IsBoardIndex n.number };

    ghost inverse = { λ number. record { number = number } };
}

impl BoardIndex {
    /// The highest index of a board.
    pub const MAX: u8 = 3;

    /// The board of that number in its set, or `None` where it is not from 1 to 3.
    pub fn new(number: u8) -> Option<BoardIndex>
        ensures valid { IsSome result ↔ IsBoardIndex number }
        ensures value { IfSome result (λ made. made ≡ number) }
    {
        if (1..=BoardIndex::MAX).contains(&number) {
            Some(BoardIndex { number })
        } else {
            None
        }
    }

    /// The number, 1 to 3.
    pub fn number(self) -> u8
        ensures number { result ≡ self }
        ensures range { IsBoardIndex result }
    {
        self.number
    }
}

/// A number of tricks, 0 to 13.
#[derive(Clone, Copy, Debug, PartialEq, Eq)]
pub struct TrickCount {
    number: u8,
}

impl Model for TrickCount {
    ghost use Rattle.std.specs.Prelude.{ℕ};
    ghost use Rattle.session_rules.specs.Numbers.{IsTrickCount};

    ghost Value = { ℕ };

    ghost view = { λ n. n.number };

    ghost invariant = { λ n. IsTrickCount n.number };

    ghost inverse = { λ number. record { number = number } };
}

impl TrickCount {
    /// The most tricks.
    pub const MAX: u8 = TRICKS as u8;

    /// That many tricks, or `None` where it is not from 0 to 13.
    pub fn new(number: u8) -> Option<TrickCount>
        ensures valid { IsSome result ↔ IsTrickCount number }
        ensures value { IfSome result (λ made. made ≡ number) }
    {
        if number <= TrickCount::MAX {
            Some(TrickCount { number })
        } else {
            None
        }
    }

    /// The number, 0 to 13.
    pub fn number(self) -> u8
        ensures number { result ≡ self }
        ensures range { IsTrickCount result }
    {
        self.number
    }
}

/// How many calls, cards or claims a player takes as made, 0 to 999.
#[derive(Clone, Copy, Debug, PartialEq, Eq)]
pub struct MadeCount {
    number: u16,
}

impl Model for MadeCount {
    ghost use Rattle.std.specs.Prelude.{ℕ};
    ghost use Rattle.session_rules.specs.Numbers.{IsMadeCount};

    ghost Value = { ℕ };

    ghost view = { λ n. n.number };

    ghost invariant = { λ n. IsMadeCount n.number };

    ghost inverse = { λ number. record { number = number } };
}

impl MadeCount {
    /// The most that a player can name.
    pub const MAX: u16 = 999;

    /// That many, or `None` where it is not from 0 to 999.
    pub fn new(number: u16) -> Option<MadeCount>
        ensures valid { IsSome result ↔ IsMadeCount number }
        ensures value { IfSome result (λ made. made ≡ number) }
    {
        if number <= MadeCount::MAX {
            Some(MadeCount { number })
        } else {
            None
        }
    }

    /// The number, 0 to 999.
    pub fn number(self) -> u16
        ensures number { result ≡ self }
        ensures range { IsMadeCount result }
    {
        self.number
    }
}
