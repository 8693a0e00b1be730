//! Two texts in which one byte is another: as many are accepted as by the form of `docs/FORMATS.md`.
use crate::tests::expect_eq;
use bridge_config::read_config;
use std::alloc::{AllocError, Global};
use test_texts::TWO_TABLES;

/// As `examples/rows.txt`, with a Mitchell movement.
const MITCHELL: &str = "EVENT Club-Night
SITE Town-Hall
DATE 2026.03.14
SCORING MP
BOARDS 1
MITCHELL 2
DIRECTOR 100
PAIR 1 Ann 11 Bob 12
PAIR 2 Cat 21 Dan 22
PAIR 3 Eve 31 Fay 32
PAIR 4 Gus 41 Hal 42
";

/// What is put for a byte, beside the byte that is one greater.
static BYTES: [u8; 8] = [b' ', b'0', b'9', b'A', b'.', b'\n', b'\r', 200];

/// Puts a byte for the one at that index.
fn put(text: &mut [u8], index: usize, byte: u8) {
    if let Some(at) = text.get_mut(index) {
        *at = byte;
    }
}

/// 1 where the text is accepted in which another byte is put for this one, and else 0.
fn accepted_with(text: &mut [u8], index: usize, byte: u8, other: u8) -> usize {
    put(text, index, other);
    let is_accepted = other != byte && read_config(text).is_ok();
    put(text, index, byte);
    usize::from(is_accepted)
}

/// How many of the texts are accepted in which another byte is put for one. A text counts twice where the byte that is one
/// greater is also one of `BYTES`.
fn accepted_bytes(alloc: Global, text: &str) -> Result<usize, AllocError> {
    let mut changed = text.as_bytes().to_vec(alloc)?;
    let mut accepted = 0usize;
    for (index, byte) in text.as_bytes().iter().enumerate() {
        for other in &BYTES {
            let more = accepted_with(&mut changed, index, *byte, *other);
            accepted = accepted.saturating_add(more);
        }
        let more = accepted_with(&mut changed, index, *byte, byte.wrapping_add(1));
        accepted = accepted.saturating_add(more);
    }
    Ok(accepted)
}

#[test]
fn bytes_changed(rt: HostRuntime) -> Result<(), AllocError> {
    let accepted = accepted_bytes(rt.alloc(), TWO_TABLES)?;
    expect_eq(&rt, accepted, 285, "two tables");
    let accepted = accepted_bytes(rt.alloc(), MITCHELL)?;
    expect_eq(&rt, accepted, 278, "a Mitchell movement");
    Ok(())
}
