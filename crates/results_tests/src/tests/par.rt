//! Pars that were worked out by hand from the scoring table (Law 77).
ghost use Rattle.bridge_par.specs.Tricks.{IsTrickTable};

use crate::tests::expect_eq;
use bridge_cards::{Seat, Vulnerability};
use bridge_par::{DeclarerTricks, TrickTable, par};
use std::alloc::Global;
use std::fmt::Write;
use std::process::Abort;

/// No tricks for anyone.
const NONE: DeclarerTricks = DeclarerTricks {
    north: 0,
    east: 0,
    south: 0,
    west: 0,
};

/// No tricks for anyone in any denomination.
const NOTHING: TrickTable = TrickTable {
    clubs: NONE,
    diamonds: NONE,
    hearts: NONE,
    spades: NONE,
    no_trump: NONE,
};

/// Ten tricks for North and South.
const NORTHS_TEN: DeclarerTricks = DeclarerTricks {
    north: 10,
    east: 3,
    south: 10,
    west: 3,
};

/// Nine tricks for East and eight for West.
const EASTS_NINE: DeclarerTricks = DeclarerTricks {
    north: 4,
    east: 9,
    south: 4,
    west: 8,
};

/// Ten tricks in spades against East's nine in diamonds.
const GAME: TrickTable = TrickTable {
    diamonds: EASTS_NINE,
    spades: NORTHS_TEN,
    ..NOTHING
};

/// Fails where the par is another score than the one that is due, or other contracts reach it.
fn expect_par(
    rt: &impl Abort,
    alloc: Global,
    table: &TrickTable,
    on: (Seat, Vulnerability),
    due: (i32, &str),
)
    requires { IsTrickTable table.now }
{
    let found = par(table, on.0, on.1);
    let mut contracts = String::new(alloc);
    for reaching in found.contracts.iter() {
        let contract = reaching.contract;
        let is_written = write!(contracts, "{contract}, ").is_ok();
        expect_eq(rt, is_written, true, "memory");
    }
    expect_eq(rt, found.score, due.0, on);
    expect_eq(rt, contracts.as_str(), due.1, on);
}

#[test]
fn nobody_makes_anything(rt: HostRuntime) {
    let on = (Seat::East, Vulnerability::Both);
    expect_par(&rt, rt.alloc(), &NOTHING, on, (0, ""));
}

// Five diamonds doubled and two down costs 300, less than four spades; vulnerable it costs 500, more than 420. West would be three
// down.
#[test]
fn a_sacrifice_is_doubled_and_pays_by_its_own_vulnerability(rt: HostRuntime) {
    let alloc = rt.alloc();
    let none = (Seat::North, Vulnerability::Neither);
    expect_par(&rt, alloc, &GAME, none, (300, "5DX E, "));
    let theirs = (Seat::North, Vulnerability::EastWest);
    expect_par(&rt, alloc, &GAME, theirs, (420, "4S N, 4S S, "));
    let ours = (Seat::West, Vulnerability::NorthSouth);
    expect_par(&rt, alloc, &GAME, ours, (300, "5DX E, "));
    let both = (Seat::South, Vulnerability::Both);
    expect_par(&rt, alloc, &GAME, both, (500, "5DX E, "));
}

// Each declarer takes seven tricks without trumps, so that the side that calls first bids one no trump.
#[test]
fn the_dealer_calls_first(rt: HostRuntime) {
    let alloc = rt.alloc();
    let table = TrickTable {
        no_trump: DeclarerTricks {
            north: 7,
            east: 7,
            south: 7,
            west: 7,
        },
        ..NOTHING
    };
    let norths = (Seat::South, Vulnerability::Neither);
    expect_par(&rt, alloc, &table, norths, (90, "1NT N, 1NT S, "));
    let easts = (Seat::West, Vulnerability::Neither);
    expect_par(&rt, alloc, &table, easts, (-90, "1NT E, 1NT W, "));
}

// Seven clubs is 1,440; seven diamonds doubled and six down is 1,400.
#[test]
fn a_sacrifice_over_a_grand_slam(rt: HostRuntime) {
    let table = TrickTable {
        clubs: DeclarerTricks {
            north: 0,
            east: 0,
            south: 13,
            west: 0,
        },
        diamonds: DeclarerTricks {
            north: 6,
            east: 7,
            south: 6,
            west: 7,
        },
        ..NOTHING
    };
    let on = (Seat::East, Vulnerability::Neither);
    expect_par(&rt, rt.alloc(), &table, on, (1400, "7DX E, 7DX W, "));
}

// With nine tricks in hearts each bid up to three hearts makes 140, and nobody can bid over it.
#[test]
fn lower_bids_reach_the_same_score(rt: HostRuntime) {
    let table = TrickTable {
        hearts: DeclarerTricks {
            north: 9,
            east: 4,
            south: 8,
            west: 4,
        },
        ..NOTHING
    };
    let on = (Seat::East, Vulnerability::Neither);
    expect_par(&rt, rt.alloc(), &table, on, (140, "1H N, 2H N, 3H N, "));
}
