//! The par score and the contracts that reach it.
ghost use Rattle.std.specs.Prelude.{◌≡◌, ◌≤◌, ◌<◌, ◌+◌, ◌++◌, suc};
ghost use Rattle.arrayvec.specs.ArrayVec.{array_vec_len};
ghost use Rattle.bridge_par.specs.Tricks.{IsTrickTable};
ghost use Rattle.std.specs.Ordering.{int_eq};
ghost use Rattle.bridge_par.specs.Par.{par_score, par_contracts, is_better, has_better, bid_reaches, reaches, reached_by, reaching};

use crate::best_bids::par_score;
use crate::par_contract::ParContract;
use crate::tricks::TrickTable;
use crate::worth::{contract_by, passed_out, score_by};
use arrayvec::ArrayVec;
use bridge_auction::Bid;
use bridge_cards::{Seat, Side, Vulnerability};

/// The most contracts that reach par: each bid by each declarer.
pub const MOST_CONTRACTS: usize = 140;

/// The par score of a deal, and how it is reached.
#[derive(Debug, Drop)]
pub struct ParResult {
    /// What North and South score.
    pub score: i32,
    /// The contracts that score it, that the partner would not play better, and over which the other side has no better bid: by
    /// their bids, the lowest first, then by declarer, clockwise from North. None where both sides pass.
    pub contracts: ArrayVec<ParContract, MOST_CONTRACTS>,
}

/// Whether a score is par.
fn is_par(score: i32, par: i32) -> bool
    ensures { result ≡ int_eq score par }
{
    score == par
}

/// Whether one score of North and South is better for that side than another.
fn is_better(side: Side, one: i32, other: i32) -> bool
    ensures { result ≡ is_better side one other }
{
    match side {
        Side::NorthSouth => other < one,
        Side::EastWest => one < other,
    }
}

/// The same with one bid more, the bid that so many are above.
#[tactic(auto, unfolding(crate::specs::Par::has_better))]
fn has_better_with(
    table: &TrickTable,
    vulnerability: Vulnerability,
    par: i32,
    above: u8,
    side: Side,
    found: bool,
) -> bool
    requires table { IsTrickTable table.now }
    requires above { above < 35 }
    requires found { found ≡ has_better table.now vulnerability par above side }
    ensures { result ≡ has_better table.now vulnerability par (suc above) side }
{
    is_better(side, passed_out(table, vulnerability, above, side), par) || found
}

/// Whether one of the so many highest bids is better for that side than par, where it is passed out.
#[tactic(auto, unfolding(crate::specs::Par::has_better))]
fn has_better(
    table: &TrickTable,
    vulnerability: Vulnerability,
    par: i32,
    above: u8,
    side: Side,
) -> bool
    requires table { IsTrickTable table.now }
    requires above { above ≤ 35 }
    ensures { result ≡ has_better table.now vulnerability par above side }
{
    let mut found = false;
    for bid in 0..above {
        found = has_better_with(table, vulnerability, par, bid, side, found);
    }
    found
}

/// Whether a side's bid reaches par where it is passed out, and the other side has no better bid above it.
fn bid_reaches(
    table: &TrickTable,
    vulnerability: Vulnerability,
    par: i32,
    above: u8,
    side: Side,
) -> bool
    requires table { IsTrickTable table.now }
    requires above { above < 35 }
    ensures { result ≡ bid_reaches table.now vulnerability par above side }
{
    is_par(passed_out(table, vulnerability, above, side), par)
        && !has_better(table, vulnerability, par, above, side.other())
}

/// Whether a contract reaches par: the bid that so many bids are above, played by that seat.
fn reaches(
    table: &TrickTable,
    vulnerability: Vulnerability,
    par: i32,
    above: u8,
    seat: Seat,
) -> bool
    requires table { IsTrickTable table.now }
    requires above { above < 35 }
    ensures { result ≡ reaches table.now vulnerability par above seat }
{
    is_par(score_by(table, vulnerability, above, seat), par)
        && bid_reaches(table, vulnerability, par, above, seat.side())
}

/// That contract behind those found so far, where it reaches par.
fn push_reached(
    table: &TrickTable,
    vulnerability: Vulnerability,
    par: i32,
    above: u8,
    seat: Seat,
    contracts: &mut ArrayVec<ParContract, MOST_CONTRACTS>,
)
    requires table { IsTrickTable table.now }
    requires above { above < 35 }
    requires room { array_vec_len contracts.old < MOST_CONTRACTS }
    ensures items { contracts.new.items ≡ contracts.old.items ++ reached_by table.now vulnerability par above seat }
    ensures few { array_vec_len contracts.new ≤ array_vec_len contracts.old + 1 }
{
    if reaches(table, vulnerability, par, above, seat) {
        let contract = contract_by(table, above, seat);
        contracts.push(ParContract { contract });
    }
}

/// The contracts of the bid that so many bids are above, behind those found so far.
fn push_reaching(
    table: &TrickTable,
    vulnerability: Vulnerability,
    par: i32,
    above: u8,
    contracts: &mut ArrayVec<ParContract, MOST_CONTRACTS>,
)
    requires table { IsTrickTable table.now }
    requires above { above < 35 }
    requires room { array_vec_len contracts.old + 4 ≤ MOST_CONTRACTS }
    ensures items { contracts.new.items ≡ contracts.old.items ++ reaching table.now vulnerability par above }
    ensures few { array_vec_len contracts.new ≤ array_vec_len contracts.old + 4 }
{
    push_reached(table, vulnerability, par, above, Seat::North, contracts);
    push_reached(table, vulnerability, par, above, Seat::East, contracts);
    push_reached(table, vulnerability, par, above, Seat::South, contracts);
    push_reached(table, vulnerability, par, above, Seat::West, contracts);
}

/// The contracts that reach par.
fn par_contracts(
    table: &TrickTable,
    vulnerability: Vulnerability,
    par: i32,
) -> ArrayVec<ParContract, MOST_CONTRACTS>
    requires { IsTrickTable table.now }
    ensures { result.items ≡ par_contracts table.now vulnerability par }
{
    let mut contracts = ArrayVec::new();
    for number in 0..Bid::COUNT {
        push_reaching(table, vulnerability, par, 34 - number, &mut contracts);
    }
    contracts
}

/// The par of a deal where each declarer takes those tricks: the score where the dealer calls first, each side passes or bids as
/// high as it gains by, and a contract is doubled exactly where it fails. Each number of tricks is at most 13.
pub fn par(table: &TrickTable, dealer: Seat, vulnerability: Vulnerability) -> ParResult
    requires { IsTrickTable table.now }
    ensures score { result.score ≡ par_score table.now vulnerability dealer }
    ensures contracts { result.contracts.items ≡ par_contracts table.now vulnerability result.score }
{
    let score = par_score(table, vulnerability, dealer);
    ParResult {
        score,
        contracts: par_contracts(table, vulnerability, score),
    }
}
