//! The deals and the records of a session at its opening.
ghost use Rattle.std.specs.Prelude.{◌≡◌, ◌≤◌, ◌+◌, ◌-◌, ◌*◌, map, replicate, IfOk, All, None};
ghost use Rattle.std.specs.List.{range_with_len};
ghost use Rattle.bridge_config.specs.Limits.{IsConfiguration};
ghost use Rattle.bridge_table.specs.Kept.{new_record};
ghost use Rattle.bridge_session.specs.KeptSession.{new_table};

use bridge_cards::{BoardNumber, Deal};
use bridge_config::Config;
use bridge_movement::{Row, boards_before};
use bridge_table::Record;
use std::alloc::{AllocError, Global};

/// So many boards, none of them dealt.
fn undealt(alloc: Global, count: usize) -> Result<Vec<Option<Deal>>, AllocError>
    ensures { IfOk result (λ deals. deals.items ≡ replicate count None) }
{
    let mut deals = Vec::with_capacity(alloc, count)?;
    for _ in 0..count {
        deals.push(None)?;
    }
    Ok(deals)
}

/// A record for each of so many boards, from the first on.
fn new_records(alloc: Global, first: u8, count: u8) -> Result<Vec<Record>, AllocError>
    requires least { 1 ≤ first }
    requires most { first + count ≤ 37 }
    ensures { IfOk result (λ table. table.items ≡ map new_record (range_with_len first count)) }
{
    let mut table = Vec::with_capacity(alloc, usize::from(count))?;
    for index in 0..count {
        table.push(Record::new(BoardNumber::new(first + index).unwrap()))?;
    }
    Ok(table)
}

/// The records of a row: one for each board of its set where the row is live.
fn opening_table(alloc: Global, row: Row, boards: u8) -> Result<Vec<Record>, AllocError>
    requires least { 1 ≤ row.set }
    requires most { row.set ≤ 12 }
    requires boards { boards ≤ 3 }
    ensures { IfOk result (λ table. table.items ≡ new_table boards row) }
{
    if row.is_live() {
        new_records(alloc, boards_before(boards, row.set) as u8 + 1, boards)
    } else {
        Ok(Vec::new(alloc))
    }
}

/// The records of all the rows.
fn opening_tables(alloc: Global, rows: &[Row], boards: u8) -> Result<Vec<Vec<Record>>, AllocError>
    requires sets { All (λ row. (1 ≤ row.set) × (row.set ≤ 12)) rows.now }
    requires boards { boards ≤ 3 }
    ensures { IfOk result (λ tables. map (λ table. table.items) tables.items ≡ map (new_table boards) rows.now) }
{
    let mut tables = Vec::with_capacity(alloc, rows.len())?;
    for row in rows {
        tables.push(opening_table(alloc, *row, boards)?)?;
    }
    Ok(tables)
}

/// The room of a session, as it is at the opening.
#[derive(Drop)]
pub struct Room {
    /// By the boards' numbers.
    pub deals: Vec<Option<Deal>>,
    /// By the rows of the movement.
    pub tables: Vec<Vec<Record>>,
}

/// All the memory that a session of the configuration takes, with no board dealt.
pub fn room_of(alloc: Global, config: &Config) -> Result<Room, AllocError>
    ensures limits { IsConfiguration config.now }
    ensures deals { IfOk result (λ room. room.deals.items ≡ replicate (config.now.movement.shape.sets * config.now.boards) None) }
    ensures tables { IfOk result (λ room. map (λ table. table.items) room.tables.items ≡ map (new_table config.now.boards) config.now.movement.rows) }
{
    let fields = config.fields();
    let count = usize::from(fields.movement.shape().sets) * usize::from(fields.boards);
    let deals = undealt(alloc, count)?;
    let tables = opening_tables(alloc, fields.movement.rows(), fields.boards)?;
    Ok(Room { deals, tables })
}
