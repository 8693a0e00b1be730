//! The records of one table in one round.
ghost use Rattle.std.specs.Prelude.{◌≡◌, ◌<◌, map, position, slice_get, All, OnOk, OnErr};
ghost use Rattle.std.specs.List.{list_any};
ghost use Rattle.std.specs.Option.{option_copied};
ghost use Rattle.session_rules.specs.State.{deal_on, changed_at};
ghost use Rattle.session_rules.specs.DirectorStep.{is_begun_on, is_ruled_on};
ghost use Rattle.session_rules.specs.PlayerStep.{answer_among, acted_among};
ghost use Rattle.session_rules.specs.Valid.{IsDeed};
ghost use Rattle.session_rules.specs.StateRange.{IsCorrectionInRange};
ghost use Rattle.bridge_table.specs.Kept.{plain_of, is_kept_open, with_kept_ruling, kept_rule_answer, IsTiedIn};

use crate::record::Record;
use bridge_cards::{BoardNumber, Deal, Scoring, Seat};
use session_rules::{Correction, Deed, MadeCount, Refused};

/// The index of the current play: the first that is neither finished, void nor adjusted.
pub fn current(table: &[Record]) -> Option<usize>
    ensures { result ≡ position is_kept_open table.now }
{
    table.iter().position(|record| record.is_open())
}

/// The deal of a board, if the session has the board and it is dealt.
pub fn deal_on(deals: &[Option<Deal>], board: BoardNumber) -> Option<&Deal>
    ensures { option_copied result ≡ deal_on deals.now board }
{
    deals.get(usize::from(board.number() - 1))?.as_ref()
}

/// The record of that index, from 0, if there is one.
pub fn record_at(table: &[Record], index: usize) -> Option<&Record>
    ensures { option_copied result ≡ slice_get table.now index }
{
    table.get(index)
}

/// What a player does in the current play of the table.
pub fn act_among(
    table: &mut [Record],
    deals: &[Option<Deal>],
    board: BoardNumber,
    seat: Seat,
    at: MadeCount,
    deed: Deed,
) -> Result<(), Refused>
    requires { All (IsTiedIn deals.now) table.old }
    ensures answer { result ≡ answer_among (map plain_of table.old) (deal_on deals.now board) board seat at deed }
    ensures taken { OnOk result (map plain_of table.new ≡ acted_among seat deed (map plain_of table.old)) }
    ensures tied { All (IsTiedIn deals.now) table.new }
    ensures known { OnOk result (IsDeed deed) }
    ensures refused { OnErr result (table.new ≡ table.old) }
{
    let index = current(table).ok_or(Refused::NotCurrent)?;
    if table[index].board != board {
        return Err(Refused::NotCurrent);
    }
    let deal = deal_on(deals, board).ok_or(Refused::NotDealt)?;
    table[index].act(seat, at, deed, deal)
}

/// The answer to a ruling on the play of that index, from 0, in a round, and the ruling.
pub fn rule_among(
    table: &mut [Record],
    index: usize,
    scoring: Scoring,
    now: u8,
    round: u8,
    correction: Correction,
) -> Result<(), Refused>
    ensures answer { result ≡ kept_rule_answer scoring now round correction (slice_get table.old index) }
    ensures taken { OnOk result (table.new ≡ changed_at (with_kept_ruling correction) table.old index) }
    ensures range { OnOk result (IsCorrectionInRange correction) }
    ensures refused { OnErr result (table.new ≡ table.old) }
{
    if index >= table.len() {
        return Err(Refused::NoSuchPlay);
    }
    if now < round {
        return Err(Refused::NotYet);
    }
    table[index].rule(scoring, correction, round < now)
}

/// Whether a play of the table is neither finished, void nor adjusted.
pub fn has_open(table: &[Record]) -> bool
    ensures { result ≡ list_any is_kept_open table.now }
{
    table.iter().any(|record| record.is_open())
}

/// Whether a call was made in a play of the board.
pub fn has_begun(table: &[Record], board: BoardNumber) -> bool
    ensures { result ≡ list_any (λ kept. is_begun_on board (plain_of kept)) table.now }
{
    table.iter().any(|record| record.is_begun_on(board))
}

/// Whether a ruling stands on a play of the board.
pub fn has_ruling(table: &[Record], board: BoardNumber) -> bool
    ensures { result ≡ list_any (λ kept. is_ruled_on board (plain_of kept)) table.now }
{
    table.iter().any(|record| record.is_ruled_on(board))
}
