//! What each side reaches at best by a bid.
ghost use Rattle.std.specs.Prelude.{◌≡◌, ◌≤◌, ◌<◌, suc};
ghost use Rattle.bridge_par.specs.Tricks.{IsTrickTable};
ghost use Rattle.bridge_par.specs.Par.{standing, par_score};
ghost use Rattle.bridge_par.specs.BestBids.{best_of, or_best, IsBest};

use crate::tricks::TrickTable;
use crate::worth::{better, passed_out};
use bridge_auction::Bid;
use bridge_cards::{Seat, Side, Vulnerability};

/// The best scores, in scores of North and South, that the sides reach by one of the highest bids.
#[derive(Clone, Copy)]
struct BestBids {
    /// That of North and South, where they can bid.
    north_south: Option<i32>,
    /// That of East and West.
    east_west: Option<i32>,
}

impl BestBids {
    /// That of a side.
    fn of(self, side: Side) -> Option<i32>
        ensures { result ≡ best_of self side }
    {
        match side {
            Side::NorthSouth => self.north_south,
            Side::EastWest => self.east_west,
        }
    }
}

/// The better for that side of a score and of its best bid, where it has one.
fn or_best(side: Side, passed: i32, best: Option<i32>) -> i32
    ensures { result ≡ or_best side passed best }
{
    match best {
        Some(best) => better(side, passed, best),
        None => passed,
    }
}

/// The score where that side's bid stands, and the other side has these bids above it.
fn standing_below(
    table: &TrickTable,
    vulnerability: Vulnerability,
    above: u8,
    side: Side,
    best: BestBids,
) -> i32
    requires table { IsTrickTable table.now }
    requires above { above < 35 }
    requires best { IsBest table.now vulnerability above best }
    ensures { result ≡ standing table.now vulnerability above side }
{
    let passed = passed_out(table, vulnerability, above, side);
    or_best(side.other(), passed, best.of(side.other()))
}

/// The best of a side with one bid more, the bid that so many are above.
fn best_with(
    table: &TrickTable,
    vulnerability: Vulnerability,
    above: u8,
    side: Side,
    best: BestBids,
) -> i32
    requires table { IsTrickTable table.now }
    requires above { above < 35 }
    requires best { IsBest table.now vulnerability above best }
    ensures { result ≡ or_best side (standing table.now vulnerability above side) (best_of best side) }
{
    let stands = standing_below(table, vulnerability, above, side, best);
    or_best(side, stands, best.of(side))
}

/// The best with one bid more, the bid that so many are above.
fn with_bid(table: &TrickTable, vulnerability: Vulnerability, above: u8, best: BestBids) -> BestBids
    requires table { IsTrickTable table.now }
    requires above { above < 35 }
    requires best { IsBest table.now vulnerability above best }
    ensures { IsBest table.now vulnerability (suc above) result }
{
    BestBids {
        north_south: Some(best_with(table, vulnerability, above, Side::NorthSouth, best)),
        east_west: Some(best_with(table, vulnerability, above, Side::EastWest, best)),
    }
}

/// The best with the so many highest bids.
fn best_bids(table: &TrickTable, vulnerability: Vulnerability, above: u8) -> BestBids
    requires table { IsTrickTable table.now }
    requires above { above ≤ 35 }
    ensures { IsBest table.now vulnerability above result }
{
    let mut best = BestBids {
        north_south: None,
        east_west: None,
    };
    for bid in 0..above {
        best = with_bid(table, vulnerability, bid, best);
    }
    best
}

/// The score that both sides reach where that seat deals.
pub(crate) fn par_score(table: &TrickTable, vulnerability: Vulnerability, dealer: Seat) -> i32
    requires { IsTrickTable table.now }
    ensures { result ≡ par_score table.now vulnerability dealer }
{
    let best = best_bids(table, vulnerability, Bid::COUNT);
    let side = dealer.side();
    let passed = or_best(side.other(), 0, best.of(side.other()));
    or_best(side, passed, best.of(side))
}
