//! The rows of a Mitchell movement.
ghost use Rattle.std.specs.Prelude.{◌≡◌, ◌<◌, ◌≤◌};
ghost use Rattle.bridge_movement.specs.Mitchell.{mitchell_shape, mitchell_row, tables_moved};

use crate::row::Row;
use crate::shape::Shape;

/// The shape of the Mitchell movement of that many tables.
pub(crate) fn shape_of(tables: u8) -> Shape
    requires least { 2 ≤ tables }
    requires most { tables ≤ 12 }
    ensures { result ≡ mitchell_shape tables }
{
    Shape {
        tables,
        rounds: if tables % 2 == 0 { tables - 1 } else { tables },
        sets: tables,
        pairs: 2 * tables,
        split: tables,
    }
}

/// How many tables the pairs of East and West have gone on by the round, from 0: one after each round, and where the
/// tables are even in number one more from round `tables / 2` on, since they would meet the sets of the earlier rounds
/// again.
fn tables_moved(tables: u8, round: u8) -> u8
    requires least { 2 ≤ tables }
    requires most { tables ≤ 12 }
    requires round { round < tables }
    ensures { result ≡ tables_moved tables round }
{
    if tables % 2 == 0 && tables / 2 <= round {
        round + 1
    } else {
        round
    }
}

/// The row of that round and table, both from 0.
pub(crate) fn row_of(tables: u8, round: u8, table: u8) -> Row
    requires least { 2 ≤ tables }
    requires most { tables ≤ 12 }
    requires round { round < tables }
    requires table { table < tables }
    ensures { result ≡ mitchell_row tables round table }
{
    let moved = tables_moved(tables, round);
    Row {
        round: round + 1,
        table: table + 1,
        ns: table + 1,
        ew: tables + 1 + (table + tables - moved) % tables,
        set: (table + round) % tables + 1,
    }
}
