//! What a contract is worth, in scores of North and South.
ghost use Rattle.std.specs.Prelude.{◌≡◌, ◌<◌};
ghost use Rattle.bridge_score.specs.ScoringTable.{IsScore};
ghost use Rattle.bridge_par.specs.Tricks.{IsTrickTable};
ghost use Rattle.bridge_par.specs.Par.{bid_below, doubling_for, contract_by, for_north_south, score_by, better, passed_out};

use crate::tricks::TrickTable;
use bridge_auction::{Bid, Contract, Doubling};
use bridge_cards::{Seat, Side, Vulnerability};
use bridge_score::score;

/// The bid that so many bids are above.
fn bid_below(above: u8) -> Bid
    requires { above < 35 }
    ensures { result ≡ bid_below above }
{
    Bid::from_number(34 - above).unwrap()
}

/// Doubled where the bid fails with so many tricks.
fn doubling_for(bid: &Bid, tricks: u8) -> Doubling
    ensures { result ≡ doubling_for bid.now tricks }
{
    if bid.level.number() + 6 <= tricks {
        Doubling::Undoubled
    } else {
        Doubling::Doubled
    }
}

/// The contract of the bid that so many bids are above, played by that seat.
pub(crate) fn contract_by(table: &TrickTable, above: u8, seat: Seat) -> Contract
    requires { above < 35 }
    ensures { result ≡ contract_by table.now above seat }
{
    let bid = bid_below(above);
    let doubling = doubling_for(&bid, table.of(bid.denomination, seat));
    Contract {
        bid,
        doubling,
        declarer: seat,
    }
}

/// What North and South score where that side scores so much.
fn for_north_south(side: Side, points: i32) -> i32
    requires { IsScore points }
    ensures points { result ≡ for_north_south side points }
    ensures range { IsScore result }
{
    match side {
        Side::NorthSouth => points,
        Side::EastWest => -points,
    }
}

/// What North and South score for that contract.
pub(crate) fn score_by(
    table: &TrickTable,
    vulnerability: Vulnerability,
    above: u8,
    seat: Seat,
) -> i32
    requires table { IsTrickTable table.now }
    requires above { above < 35 }
    ensures score { result ≡ score_by table.now vulnerability above seat }
    ensures range { IsScore result }
{
    let contract = contract_by(table, above, seat);
    let side = seat.side();
    let tricks = table.of(contract.bid.denomination, seat);
    for_north_south(side, score(&contract, vulnerability.includes(side), tricks))
}

/// The better of two scores of North and South, for that side.
pub(crate) fn better(side: Side, one: i32, other: i32) -> i32
    ensures { result ≡ better side one other }
{
    match side {
        Side::NorthSouth => one.max(other),
        Side::EastWest => one.min(other),
    }
}

/// The score where that side's bid is passed out.
pub(crate) fn passed_out(
    table: &TrickTable,
    vulnerability: Vulnerability,
    above: u8,
    side: Side,
) -> i32
    requires table { IsTrickTable table.now }
    requires above { above < 35 }
    ensures { result ≡ passed_out table.now vulnerability above side }
{
    match side {
        Side::NorthSouth => better(
            side,
            score_by(table, vulnerability, above, Seat::North),
            score_by(table, vulnerability, above, Seat::South),
        ),
        Side::EastWest => better(
            side,
            score_by(table, vulnerability, above, Seat::East),
            score_by(table, vulnerability, above, Seat::West),
        ),
    }
}
