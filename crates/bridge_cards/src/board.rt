//! Boards: who deals each, and which sides are vulnerable on it (Law 2).
ghost use Rattle.std.specs.Prelude.{◌≡◌, ◌↔◌, IsSome, IfSome};
ghost use Rattle.bridge_cards.specs.Board.{IsBoard, dealer_of, vulnerability_on};
ghost use Rattle.bridge_cards.specs.Vulnerability.{includes_side};

use crate::out_of_range::OutOfRange;
use crate::seat::{Seat, Side};
use crate::vulnerability::Vulnerability;
use std::fmt;
use std::marker::Model;

/// The number of a board, 1 to 36.
#[derive(Clone, Copy, Debug, PartialEq, Eq, PartialOrd, Ord, Hash)]
pub struct BoardNumber {
    /// 1 to 36.
    number: u8,
}

impl Model for BoardNumber {
    ghost use Rattle.std.specs.Prelude.{ℕ};
    ghost use Rattle.bridge_cards.specs.Board.{IsBoard};

    ghost Value = { ℕ };

    ghost view = { λ b. b.number };

    ghost invariant = { λ b. IsBoard b.number };

    ghost inverse = { λ n. record { number = n } };
}

impl BoardNumber {
    /// The highest number of a board.
    pub const MAX: u8 = 36;

    /// The board of that number, or `None` where it is not from 1 to 36.
    pub fn new(number: u8) -> Option<BoardNumber>
        ensures valid { IsSome result ↔ IsBoard number }
        ensures value { IfSome result (λ board. board ≡ number) }
    {
        if (1..=BoardNumber::MAX).contains(&number) {
            Some(BoardNumber { number })
        } else {
            None
        }
    }

    /// The board's number, 1 to 36.
    pub fn number(self) -> u8
        ensures number { result ≡ self }
        ensures range { IsBoard result }
    {
        self.number
    }
}

/// Who deals the board, and so calls first (Law 2): North on board 1, then clockwise.
pub fn dealer(board: BoardNumber) -> Seat
    ensures { result ≡ dealer_of board }
{
    Seat::North.clockwise(usize::from(board.number() - 1))
}

/// Which sides are vulnerable on the board (Law 2).
pub fn vulnerability_of(board: BoardNumber) -> Vulnerability
    ensures { result ≡ vulnerability_on board }
{
    let earlier = board.number() - 1;
    match (earlier + earlier / 4) % 4 {
        0 => Vulnerability::Neither,
        1 => Vulnerability::NorthSouth,
        2 => Vulnerability::EastWest,
        _ => Vulnerability::Both,
    }
}

/// Whether the side is vulnerable on the board (Law 2).
pub fn vulnerable(board: BoardNumber, side: Side) -> bool
    ensures { result ≡ includes_side (vulnerability_on board) side }
{
    vulnerability_of(board).includes(side)
}

/// The board's number.
impl fmt::Display for BoardNumber {
    ghost use Rattle.std.specs.Prelude.{Some};
    ghost use Rattle.std.specs.Fmt.{decimal};

    ghost output = { λ board. Some (decimal board) };

    fn fmt<W: fmt::Write>(&self, f: &mut fmt::Formatter<W>) -> fmt::Result {
        write!(f, "{}", self.number)
    }
}

/// As `new`, with the number where it is out of range.
impl TryFrom<u8> for BoardNumber {
    type Error = OutOfRange;

    ghost use Rattle.std.specs.Prelude.{◌≡◌, ◌↔◌, IsOk, IfOk};
    ghost use Rattle.bridge_cards.specs.Board.{IsBoard};

    ghost try_from_gives = { λ n r. (IsOk r ↔ IsBoard n) × IfOk r (λ value. value ≡ n) };

    fn try_from(number: u8) -> Result<BoardNumber, OutOfRange> {
        BoardNumber::new(number).ok_or(OutOfRange(number))
    }
}
