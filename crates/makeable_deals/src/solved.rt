//! A deal that was solved.
ghost use Rattle.std.specs.Prelude.{◌≡◌, IfOk};
ghost use Rattle.bridge_par.specs.Tricks.{IsTrickTable};
ghost use Rattle.makeable_deals.specs.Makeable.{table_of};

use crate::makeable::makeable;
use crate::progress::{Part, Progress};
use bridge_cards::Deal;
use bridge_par::TrickTable;
use std::alloc::{AllocError, Global};

/// A deal, and the tricks of its declarers.
#[derive(Clone, Copy)]
pub struct Solved {
    /// The deal.
    pub deal: Deal,
    /// The tricks of its declarers.
    pub table: TrickTable,
    ghost solved: { table ≡ table_of deal },
    ghost few: { IsTrickTable table },
}

/// The tricks of the declarers of a deal, found anew only where it is another than that one.
pub fn solve_after(alloc: Global, last: Option<Solved>, deal: &Deal) -> Result<Solved, AllocError>
    ensures { IfOk result (λ solved. solved.deal ≡ deal.now) }
{
    match last {
        Some(solved) if solved.deal == *deal => Ok(solved),
        _ => Ok(Solved {
            deal: *deal,
            table: makeable(alloc, deal)?,
        }),
    }
}

/// The tricks of the declarers of a deal, which is then the deal that was solved last.
fn solve_next(
    alloc: Global,
    last: &mut Option<Solved>,
    deal: &Deal,
) -> Result<TrickTable, AllocError>
    ensures tricks { IfOk result (λ table. table ≡ table_of deal.now) }
    ensures few { IfOk result IsTrickTable }
{
    let solved = solve_after(alloc, *last, deal)?;
    let table = solved.table;
    *last = Some(solved);
    Ok(table)
}

/// The work on deals one after another: the deal that was solved last, and who is told how far the work has come.
#[derive(Clone, Copy)]
pub struct Solving {
    last: Option<Solved>,
    progress: Progress,
}

impl Solving {
    /// The work on so many deals, before the first.
    pub fn of(count: usize, progress: Progress) -> Solving {
        let mut progress = progress;
        progress.begin(Part::Board, count);
        Solving {
            last: None,
            progress,
        }
    }

    /// The tricks of the declarers of the next deal.
    pub fn solve(&mut self, alloc: Global, deal: &Deal) -> Result<TrickTable, AllocError>
        ensures tricks { IfOk result (λ table. table ≡ table_of deal.now) }
        ensures few { IfOk result IsTrickTable }
    {
        self.progress.next();
        solve_next(alloc, &mut self.last, deal)
    }

    /// The work is done, or has stopped.
    pub fn end(&self) {
        self.progress.end();
    }
}
