//! The rows of a Howell movement.
ghost use Rattle.std.specs.Prelude.{◌≡◌, ◌<◌, ◌≤◌, ◌*◌, ◌-◌, [], slice_index_or};
ghost use Rattle.bridge_movement.specs.Howell.{howell_shape, howell_row, first_round, gone_on};

use crate::row::Row;
use crate::shape::Shape;

/// Who meets at a table in the first round: the pair of North and South, the pair of East and West, and their set.
type Meeting = [u8; 3];

/// The first round at two tables, where both play one set.
const TWO_TABLES: [Meeting; 2] = [[4, 1, 1], [2, 3, 1]];

/// The first round at three tables, which all play one set.
const THREE_TABLES: [Meeting; 3] = [[6, 1, 1], [2, 5, 1], [3, 4, 1]];

/// The first round at four tables.
const FOUR_TABLES: [Meeting; 4] = [[8, 1, 1], [2, 4, 3], [3, 7, 5], [5, 6, 2]];

/// The first round at five tables.
const FIVE_TABLES: [Meeting; 5] = [[10, 1, 1], [3, 2, 6], [4, 8, 5], [5, 7, 3], [6, 9, 8]];

/// The first round at six tables.
const SIX_TABLES: [Meeting; 6] = [
    [12, 1, 1],
    [3, 2, 4],
    [7, 4, 10],
    [9, 5, 2],
    [11, 6, 5],
    [8, 10, 6],
];

/// The shape of the Howell movement of that many tables.
pub(crate) fn shape_of(tables: u8) -> Shape
    requires least { 2 ≤ tables }
    requires most { tables ≤ 6 }
    ensures { result ≡ howell_shape tables }
{
    Shape {
        tables,
        rounds: 2 * tables - 1,
        sets: 2 * tables - 1,
        pairs: 2 * tables,
        split: 2 * tables,
    }
}

/// Who meets at that table, from 0, in the first round.
fn first_meeting(tables: u8, table: u8) -> Meeting
    requires least { 2 ≤ tables }
    requires most { tables ≤ 6 }
    requires table { table < tables }
    ensures { result ≡ slice_index_or (first_round tables) table [] }
{
    let table = usize::from(table);
    match tables {
        2 => TWO_TABLES[table],
        3 => THREE_TABLES[table],
        4 => FOUR_TABLES[table],
        5 => FIVE_TABLES[table],
        _ => SIX_TABLES[table],
    }
}

/// A pair's or a set's number after so many rounds, where it goes on by one a round: 1 comes after the highest, and a
/// number above the highest stays.
fn gone_on(highest: u8, round: u8, number: u8) -> u8
    requires highest { highest ≤ 11 }
    requires round { round < highest }
    ensures { result ≡ gone_on highest round number }
{
    if number <= highest {
        (number.saturating_sub(1) + round) % highest + 1
    } else {
        number
    }
}

/// The row of that round and table, both from 0.
pub(crate) fn row_of(tables: u8, round: u8, table: u8) -> Row
    requires least { 2 ≤ tables }
    requires most { tables ≤ 6 }
    requires round { round < 2 * tables - 1 }
    requires table { table < tables }
    ensures { result ≡ howell_row tables round table }
{
    let highest = 2 * tables - 1;
    let [ns, ew, set] = first_meeting(tables, table);
    Row {
        round: round + 1,
        table: table + 1,
        ns: gone_on(highest, round, ns),
        ew: gone_on(highest, round, ew),
        set: gone_on(highest, round, set),
    }
}
