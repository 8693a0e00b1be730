//! The Mitchell movement as players and boards walk it.
ghost use Rattle.std.specs.Prelude.{◌≤◌};

use arrayvec::ArrayVec;
use bridge_movement::Row;

/// The rows of the Mitchell movement, made by moving the pairs of East and West one table up and the sets one table
/// down after each round, and the pairs one more after as many rounds as half an even number of tables, which then have
/// one round less.
pub fn mitchell_rows(tables: u8) -> ArrayVec<Row, 144>
    requires least { 2 ≤ tables }
    requires most { tables ≤ 12 }
{
    let count = usize::from(tables);
    let mut pairs = [0; 12];
    let mut sets = [0; 12];
    for table in 0..tables {
        pairs[usize::from(table)] = tables + 1 + table;
        sets[usize::from(table)] = table + 1;
    }
    let rounds = if tables % 2 == 0 { tables - 1 } else { tables };
    let mut rows = ArrayVec::new();
    for round in 1..=rounds {
        for table in 0..count {
            let row = Row {
                round,
                table: table as u8 + 1,
                ns: table as u8 + 1,
                ew: pairs[table],
                set: sets[table],
            };
            let _ = rows.try_push(row);
        }
        pairs[..count].rotate_right(1);
        sets[..count].rotate_left(1);
        if tables % 2 == 0 && round == tables / 2 {
            pairs[..count].rotate_right(1);
        }
    }
    rows
}
