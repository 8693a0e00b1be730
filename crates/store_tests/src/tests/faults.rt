//! Kinds of faults, and of power cuts.
use sector_disk::Fail;

/// The lists of values that a power cut picks.
pub fn picks() -> [[u32; 2048]; 4] {
    let mut lists = [[0; 2048], [1; 2048], [0; 2048], [0; 2048]];
    let mixed = [0, 1, 4, 4, 1];
    for i in 0..2048 {
        lists[2][i] = (i % 2) as u32;
        lists[3][i] = mixed[i % 5];
    }
    lists
}

/// How often calls fail, and whether one that fails has effect.
pub const FUSES: [(Fail, bool); 4] = [
    (Fail::Once, false),
    (Fail::Once, true),
    (Fail::Always, false),
    (Fail::Always, true),
];
