//! The twenty numbers of a deal.
ghost use Rattle.std.specs.Prelude.{◌≡◌, IfOk};
ghost use Rattle.bridge_par.specs.Tricks.{AreTricks, IsTrickTable};
ghost use Rattle.makeable_deals.specs.Makeable.{declarers_with, table_of};

use bridge_cards::{Deal, Seat, Suit};
use bridge_endings::DealSolver;
use bridge_par::{DeclarerTricks, TrickTable};
use std::alloc::{AllocError, Global};

/// The tricks of the declarers where that suit is trumps, or none is.
#[tactic(auto, unfolding(crate::specs::Makeable::declarers_with))]
fn declarers_with(solver: &mut DealSolver, trump: Option<Suit>) -> DeclarerTricks
    ensures tricks { result ≡ declarers_with solver.old trump }
    ensures few { AreTricks result }
    ensures deal { solver.new ≡ solver.old }
{
    let north = solver.tricks(trump, Seat::North);
    let east = solver.tricks(trump, Seat::East);
    let south = solver.tricks(trump, Seat::South);
    let west = solver.tricks(trump, Seat::West);
    DeclarerTricks {
        north,
        east,
        south,
        west,
    }
}

/// The tricks of the declarers in all denominations.
#[tactic(auto, unfolding(crate::specs::Makeable::table_of))]
fn table_by(solver: &mut DealSolver) -> TrickTable
    ensures tricks { result ≡ table_of solver.old }
    ensures few { IsTrickTable result }
{
    let clubs = declarers_with(solver, Some(Suit::Clubs));
    let diamonds = declarers_with(solver, Some(Suit::Diamonds));
    let hearts = declarers_with(solver, Some(Suit::Hearts));
    let spades = declarers_with(solver, Some(Suit::Spades));
    let no_trump = declarers_with(solver, None);
    TrickTable {
        clubs,
        diamonds,
        hearts,
        spades,
        no_trump,
    }
}

/// The tricks that each declarer of a deal takes in each denomination, where all four see all the cards.
pub fn makeable(alloc: Global, deal: &Deal) -> Result<TrickTable, AllocError>
    ensures tricks { IfOk result (λ table. table ≡ table_of deal.now) }
    ensures few { IfOk result IsTrickTable }
{
    let mut solver = DealSolver::new(alloc, deal)?;
    Ok(table_by(&mut solver))
}
