//! The text of two tables, `examples/rows.txt`. Changes of it that are refused stand in `examples/refused/rows.txt`.
use crate::tests::expect_eq;
use bridge_config::{Key, read_config};
use bridge_movement::{Row, Shape};
use std::test::Fail;
use test_texts::TWO_TABLES;

/// The keys of each pair.
static KEYS: [[Key; 2]; 4] = [
    [Key(11), Key(12)],
    [Key(21), Key(22)],
    [Key(31), Key(32)],
    [Key(41), Key(42)],
];

#[test]
fn the_text_of_two_tables_is_read(rt: HostRuntime) -> Result<(), Fail> {
    let config = read_config(TWO_TABLES.as_bytes())?;
    let fields = config.fields();
    let shape = Shape {
        tables: 2,
        rounds: 1,
        sets: 1,
        pairs: 4,
        split: 2,
    };
    expect_eq(&rt, fields.movement.shape(), shape, "shape");
    let row = Row {
        round: 1,
        table: 2,
        ns: 2,
        ew: 4,
        set: 1,
    };
    expect_eq(&rt, fields.movement.row(1, 2), row, "row");
    expect_eq(&rt, fields.pairs.len(), KEYS.len(), "pairs");
    for (index, pair) in fields.pairs.iter().enumerate() {
        expect_eq(&rt, Some(&pair.keys), KEYS.get(index), index);
    }
    Ok(())
}
