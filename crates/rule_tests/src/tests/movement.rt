//! Rows that are a movement and rows that are not, and the Mitchell movement beside a plain twin.
ghost use Rattle.bridge_movement.specs.Shape.{IsShape};

mod twin;

use crate::tests::expect_eq;
use bridge_cards::Side;
use bridge_movement::{Movement, MovementRefused, Place, Row, Shape};
use twin::mitchell_rows;

/// A fair movement of two tables: round, table, North and South, East and West, and set of each row.
static GOOD: [[u8; 5]; 4] = [
    [1, 1, 1, 3, 1],
    [1, 2, 2, 4, 2],
    [2, 1, 1, 4, 3],
    [2, 2, 2, 3, 4],
];

const TWO_TABLE_SHAPE: Shape = Shape {
    tables: 2,
    rounds: 2,
    sets: 4,
    pairs: 4,
    split: 2,
};

/// What stands for rows of the good movement, counted from 0, and why the rows are then refused.
static REFUSED: [(&[(usize, [u8; 5])], MovementRefused); 11] = [
    (&[(1, [2, 1, 2, 4, 2])], MovementRefused::MissingRow(2)),
    (&[(3, [2, 2, 2, 255, 4])], MovementRefused::BadPair(4)),
    (&[(1, [1, 2, 2, 2, 2])], MovementRefused::SamePair(2)),
    // a set above 4, where a pair sits out
    (&[(3, [2, 2, 0, 3, 5])], MovementRefused::BadSet(4)),
    // a pair at two tables of a round, where it sits out
    (&[(3, [2, 2, 4, 0, 4])], MovementRefused::PairTwice(4)),
    // a set again, on one side and across
    (&[(2, [2, 1, 1, 4, 1])], MovementRefused::SetAgain(3)),
    (&[(3, [2, 2, 3, 2, 1])], MovementRefused::SetAgain(4)),
    // two faults: the order of all rows comes first, then the earlier row, then the order of the faults
    (
        &[(0, [1, 1, 5, 3, 1]), (3, [2, 1, 2, 3, 4])],
        MovementRefused::MissingRow(4),
    ),
    (
        &[(0, [1, 1, 1, 3, 5]), (1, [1, 2, 5, 4, 2])],
        MovementRefused::BadSet(1),
    ),
    (&[(0, [1, 1, 5, 5, 5])], MovementRefused::BadPair(1)),
    (&[(1, [1, 2, 1, 3, 1])], MovementRefused::PairTwice(2)),
];

/// The row of those numbers.
fn row(numbers: [u8; 5]) -> Row {
    let [round, table, ns, ew, set] = numbers;
    Row {
        round,
        table,
        ns,
        ew,
        set,
    }
}

/// The rows of the good movement.
fn good() -> [Row; 4] {
    [row(GOOD[0]), row(GOOD[1]), row(GOOD[2]), row(GOOD[3])]
}

/// The good movement with some rows changed.
fn changed(changes: &[(usize, [u8; 5])]) -> [Row; 4] {
    let mut rows = good();
    for (index, numbers) in changes {
        if let Some(changed) = rows.get_mut(*index) {
            *changed = row(*numbers);
        }
    }
    rows
}

/// Why these rows are refused, if they are.
fn refusal(shape: Shape, rows: &[Row]) -> Option<MovementRefused>
    requires { IsShape shape }
{
    Movement::from_rows(shape, rows).err()
}

/// The place of East and West at that table with that set.
fn east_west(table: u8, set: u8) -> Option<Place> {
    Some(Place {
        table,
        side: Side::EastWest,
        set,
    })
}

#[test]
fn mitchell_of_four_tables(rt: HostRuntime) {
    let movement = Movement::mitchell(4);
    expect_eq(&rt, movement.shape().rounds, 3, "rounds");
    expect_eq(&rt, movement.place(1, 5), east_west(1, 1), 1);
    expect_eq(&rt, movement.place(2, 5), east_west(2, 3), 2);
    expect_eq(&rt, movement.place(3, 5), east_west(4, 2), 3);
    expect_eq(&rt, movement.place(1, 9), None, "there is no pair 9");
}

/// The row of a round and table, if there is one.
fn row_at(movement: &Movement, round: u8, table: u8) -> Option<Row> {
    let shape = movement.shape();
    if 1 <= round && round <= shape.rounds && 1 <= table && table <= shape.tables {
        Some(movement.row(round, table))
    } else {
        None
    }
}

#[test]
fn mitchell_moves_pairs_and_sets(rt: HostRuntime) {
    for tables in 2..13 {
        let movement = Movement::mitchell(tables);
        let shape = movement.shape();
        let rows = mitchell_rows(tables);
        let count = usize::from(shape.rounds) * usize::from(tables);
        expect_eq(&rt, rows.len(), count, tables);
        for due in rows.as_slice() {
            let found = row_at(&movement, due.round, due.table);
            expect_eq(&rt, found, Some(*due), tables);
        }
    }
}

#[test]
fn rows_at_fault_are_refused(rt: HostRuntime) {
    for (changes, refused) in REFUSED.as_slice() {
        let rows = changed(changes);
        let found = refusal(TWO_TABLE_SHAPE, &rows);
        expect_eq(&rt, found, Some(*refused), rows);
    }
}

#[test]
fn rows_lacking_or_left_over_are_refused(rt: HostRuntime) {
    let rows = good();
    for count in 0..4 {
        let refused = MovementRefused::MissingRow(count as u16 + 1);
        let found = refusal(TWO_TABLE_SHAPE, &rows[..count]);
        expect_eq(&rt, found, Some(refused), count);
    }
    expect_eq(&rt, refusal(TWO_TABLE_SHAPE, &rows), None, "all rows");
    let more = [rows[0], rows[1], rows[2], rows[3], rows[3]];
    let refused = MovementRefused::MissingRow(5);
    expect_eq(
        &rt,
        refusal(TWO_TABLE_SHAPE, &more),
        Some(refused),
        "one more",
    );
}
