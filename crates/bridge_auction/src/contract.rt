//! The contract that an auction ends in (Law 22).
use crate::bid::Bid;
use crate::spelling::doubling_text;
use bridge_cards::Seat;
use std::fmt;

/// Whether the last bid was doubled or redoubled (Law 19).
#[derive(Clone, Copy, Debug, PartialEq, Eq, Hash)]
pub enum Doubling {
    /// Neither.
    Undoubled,
    /// Doubled, and not redoubled.
    Doubled,
    /// Redoubled.
    Redoubled,
}

/// What declarer has to make (Law 22).
#[derive(Clone, Copy, Debug, PartialEq, Eq, Hash)]
pub struct Contract {
    /// The last bid.
    pub bid: Bid,
    /// Whether it was doubled or redoubled.
    pub doubling: Doubling,
    /// The player who, for the side of the last bid, first bid its denomination.
    pub declarer: Seat,
}

/// The bid, `X` or `XX` where it was doubled or redoubled, a space and declarer's letter.
impl fmt::Display for Contract {
    ghost use Rattle.std.specs.Prelude.{Some};
    ghost use Rattle.bridge_auction.specs.Spelling.{contract_text};

    ghost output = { λ contract. Some (contract_text contract) };

    fn fmt<W: fmt::Write>(&self, f: &mut fmt::Formatter<W>) -> fmt::Result {
        let bid = self.bid;
        let declarer = self.declarer;
        write!(f, "{bid}")?;
        f.write_str(doubling_text(self.doubling))?;
        write!(f, " {declarer}")
    }
}

/// Nothing, `X` or `XX`.
impl fmt::Display for Doubling {
    ghost use Rattle.std.specs.Prelude.{Some};
    ghost use Rattle.bridge_auction.specs.Spelling.{doubling_text};

    ghost output = { λ doubling. Some (doubling_text doubling) };

    fn fmt<W: fmt::Write>(&self, f: &mut fmt::Formatter<W>) -> fmt::Result {
        f.write_str(doubling_text(*self))
    }
}
