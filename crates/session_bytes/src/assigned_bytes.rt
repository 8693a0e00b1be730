//! The two bytes of an assigned score.
ghost use Rattle.std.specs.Prelude.{◌≡◌, ◌≤◌, ◌<◌};
ghost use Rattle.session_rules.specs.Numbers.{IsTrickCount};
ghost use Rattle.session_bytes.specs.AssignedBytes.{doubling_number, doubling_at, assigned_byte, assigned_contract, assigned_tricks};

use bridge_auction::{Bid, Contract, Doubling};
use bridge_cards::Seat;
use session_rules::TrickCount;

/// The number of a doubling.
fn doubling_number(doubling: Doubling) -> u8
    ensures number { result ≡ doubling_number doubling }
    ensures most { result ≤ 2 }
{
    match doubling {
        Doubling::Undoubled => 0,
        Doubling::Doubled => 1,
        Doubling::Redoubled => 2,
    }
}

/// The doubling of a number.
fn doubling_at(number: u8) -> Doubling
    ensures { result ≡ doubling_at number }
{
    match number {
        0 => Doubling::Undoubled,
        1 => Doubling::Doubled,
        _ => Doubling::Redoubled,
    }
}

/// The second byte: the doubling, the declarer and declarer's tricks as one number.
pub fn assigned_byte(contract: &Contract, tricks: TrickCount) -> u8
    ensures byte { result ≡ assigned_byte contract.now tricks }
    ensures range { IsTrickCount tricks }
{
    let doubling = doubling_number(contract.doubling);
    (doubling * 4 + contract.declarer.number()) * 14 + tricks.number()
}

/// The contract of both bytes, if they are those of one.
pub fn assigned_contract(first: u8, second: u8) -> Option<Contract>
    ensures { result ≡ assigned_contract first second }
{
    if second >= 168 {
        return None;
    }
    let bid = Bid::from_number(first)?;
    Some(Contract {
        bid,
        doubling: doubling_at(second / 56),
        declarer: Seat::North.clockwise(usize::from(second / 14)),
    })
}

/// Declarer's tricks by the second byte.
pub fn assigned_tricks(second: u8) -> TrickCount
    ensures { result ≡ assigned_tricks second }
{
    TrickCount::new(second % 14).unwrap()
}
