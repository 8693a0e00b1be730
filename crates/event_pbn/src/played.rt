//! What was played in any of the sections.
ghost use Rattle.std.specs.Prelude.{◌≡◌};
ghost use Rattle.event_pbn.specs.Played.{is_played, first_board};

use bridge_cards::BoardNumber;
use event_results::EventResults;

/// Whether a section has a play of a board.
fn is_played(results: &EventResults<'_>, board: BoardNumber) -> bool
    ensures { result ≡ is_played results.now board }
{
    !results.traveller(board).is_empty()
}

/// The first board of which a section has a play; 37 where there is none.
pub fn first_board(results: &EventResults<'_>) -> u8
    ensures { result ≡ first_board results.now }
{
    for number in 1..37 {
        let board = BoardNumber::new(number).unwrap();
        if is_played(results, board) {
            return number;
        }
    }
    37
}
