//! What could be made on the boards of a session.
ghost use Rattle.std.specs.Prelude.{◌≡◌, IfOk};
ghost use Rattle.std.specs.Option.{option_copied, option_map};
ghost use Rattle.makeable_deals.specs.Makeable.{table_of};
ghost use Rattle.session_rules.specs.State.{deal_on};
ghost use Rattle.session_analysis.specs.Analysed.{AreBoardsOf, seen_table};

use arrayvec::ArrayVec;
use bridge_cards::{BoardNumber, Deal};
use bridge_results::Makeable;
use bridge_session::Session;
use makeable_deals::makeable::makeable;
use makeable_deals::{Part, Progress};
use std::alloc::{AllocError, Global};

/// The number of boards.
const BOARDS: usize = 36;

/// What could be made on each board from board 1 on, as far as it is known.
pub type Boards = ArrayVec<Option<Makeable>, BOARDS>;

/// How many boards of a session are dealt.
fn dealt_count(session: &Session) -> usize {
    let mut count: usize = 0;
    for number in 1..37 {
        let board = BoardNumber::new(number).unwrap();
        if session.deal(board).is_some() {
            count = count.saturating_add(1);
        }
    }
    count
}

/// What could be made of a deal, once there is one.
pub(crate) fn makeable_of(
    alloc: Global,
    deal: Option<&Deal>,
    progress: &mut Progress,
) -> Result<Option<Makeable>, AllocError>
    ensures { IfOk result (λ found. seen_table found ≡ option_map table_of (option_copied deal.entry)) }
{
    match deal {
        Some(deal) => {
            progress.next();
            let table = makeable(alloc, deal)?;
            Ok(Some(Makeable { table }))
        }
        None => Ok(None),
    }
}

/// The same of a board of a session.
fn makeable_on(
    alloc: Global,
    session: &Session,
    board: BoardNumber,
    progress: &mut Progress,
) -> Result<Option<Makeable>, AllocError>
    ensures { IfOk result (λ found. seen_table found ≡ option_map table_of (deal_on session.now.deals board)) }
{
    makeable_of(alloc, session.deal(board), progress)
}

/// What could be made on each board of a session that is dealt.
pub fn boards_of(
    alloc: Global,
    session: &Session,
    progress: &mut Progress,
) -> Result<Boards, AllocError>
    ensures { IfOk result (λ found. AreBoardsOf session.now found.items) }
{
    progress.begin(Part::Board, dealt_count(session));
    let mut found = Boards::new();
    for number in 1..37 {
        let board = BoardNumber::new(number).unwrap();
        found.push(makeable_on(alloc, session, board, progress)?);
    }
    Ok(found)
}
