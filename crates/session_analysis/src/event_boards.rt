//! What could be made on the boards of several sections that play the same deals.
ghost use Rattle.std.specs.Prelude.{◌≡◌, IfOk};
ghost use Rattle.std.specs.Option.{option_map};
ghost use Rattle.event_ranking.specs.Dealt.{first_deal};
ghost use Rattle.makeable_deals.specs.Makeable.{table_of};
ghost use Rattle.session_analysis.specs.Analysed.{AreEventBoardsOf, seen_table};

use crate::boards::{Boards, makeable_of};
use bridge_cards::BoardNumber;
use bridge_results::Makeable;
use bridge_session::Session;
use event_ranking::first_deal;
use makeable_deals::{Part, Progress};
use std::alloc::{AllocError, Global};

/// How many boards are dealt in any of the sections.
fn dealt_count(sections: &[Session]) -> usize {
    let mut count: usize = 0;
    for number in 1..37 {
        let board = BoardNumber::new(number).unwrap();
        if first_deal(sections, board).is_some() {
            count = count.saturating_add(1);
        }
    }
    count
}

/// What could be made on a board, by the deal of the first section that has it dealt.
fn makeable_on(
    alloc: Global,
    sections: &[Session],
    board: BoardNumber,
    progress: &mut Progress,
) -> Result<Option<Makeable>, AllocError>
    ensures { IfOk result (λ found. seen_table found ≡ option_map table_of (first_deal sections.now board)) }
{
    makeable_of(alloc, first_deal(sections, board), progress)
}

/// The same on each board that is dealt in any of the sections.
pub fn event_boards_of(
    alloc: Global,
    sections: &[Session],
    progress: &mut Progress,
) -> Result<Boards, AllocError>
    ensures { IfOk result (λ found. AreEventBoardsOf sections.now found.items) }
{
    progress.begin(Part::Board, dealt_count(sections));
    let mut found = Boards::new();
    for number in 1..37 {
        let board = BoardNumber::new(number).unwrap();
        found.push(makeable_on(alloc, sections, board, progress)?);
    }
    Ok(found)
}
