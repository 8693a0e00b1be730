//! The shuffle, written out from its published form.
use crate::tests::expect_eq;
use bridge_cards::{BoardNumber, deal_board};
use std::process::Abort;

/// The words of ChaCha20 in turn, with the seed as the key, on the stream of that number.
#[derive(Drop)]
struct Words {
    seed: [u8; 32],
    stream: u32,
    taken: u32,
}

impl Words {
    fn next(&mut self) -> u32 {
        let block = block(first_state(&self.seed, [self.taken / 16, 0, self.stream, 0]));
        let word = block[(self.taken % 16) as usize];
        self.taken = self.taken.wrapping_add(1);
        word
    }
}

/// The state before the rounds: four constants, the eight words of the key, and the last four words.
/// These are the number of the block and that of the stream, each of 64 bits with its low half first.
fn first_state(key: &[u8; 32], last: [u32; 4]) -> [u32; 16] {
    let mut state = [0; 16];
    state[0] = 0x6170_7865;
    state[1] = 0x3320_646e;
    state[2] = 0x7962_2d32;
    state[3] = 0x6b20_6574;
    for index in 0..8 {
        state[4 + index] = u32::from_le_bytes([
            key[4 * index],
            key[4 * index + 1],
            key[4 * index + 2],
            key[4 * index + 3],
        ]);
    }
    for index in 0..4 {
        state[12 + index] = last[index];
    }
    state
}

/// The quarter round on the words of the state at these indexes (RFC 8439, sections 2.1 and 2.2).
fn quarter_round(state: &mut [u32; 16], indexes: [usize; 4]) {
    let mut a = state[indexes[0] % 16];
    let mut b = state[indexes[1] % 16];
    let mut c = state[indexes[2] % 16];
    let mut d = state[indexes[3] % 16];
    a = a.wrapping_add(b);
    d = (d ^ a).rotate_left(16);
    c = c.wrapping_add(d);
    b = (b ^ c).rotate_left(12);
    a = a.wrapping_add(b);
    d = (d ^ a).rotate_left(8);
    c = c.wrapping_add(d);
    b = (b ^ c).rotate_left(7);
    state[indexes[0] % 16] = a;
    state[indexes[1] % 16] = b;
    state[indexes[2] % 16] = c;
    state[indexes[3] % 16] = d;
}

/// The indexes of each quarter round of a double round.
static DOUBLE_ROUND: [[usize; 4]; 8] = [
    [0, 4, 8, 12],
    [1, 5, 9, 13],
    [2, 6, 10, 14],
    [3, 7, 11, 15],
    [0, 5, 10, 15],
    [1, 6, 11, 12],
    [2, 7, 8, 13],
    [3, 4, 9, 14],
];

/// The block of that state (RFC 8439, section 2.3): ten double rounds, and the state added to them.
fn block(first: [u32; 16]) -> [u32; 16] {
    let mut state = first;
    for _ in 0..10 {
        for indexes in DOUBLE_ROUND.as_slice() {
            quarter_round(&mut state, *indexes);
        }
    }
    for index in 0..16 {
        state[index] = state[index].wrapping_add(first[index]);
    }
    state
}

/// A number below the range as `rand` draws it, by Canon's method: the upper half of a word times the
/// range, and one more where the lower half carries with that of the next word.
fn below(range: u32, words: &mut Words) -> u32 {
    let product = u64::from(words.next()).wrapping_mul(u64::from(range));
    let upper = (product >> 32) as u32;
    let lower = (product & 0xffff_ffff) as u32;
    if lower <= range.wrapping_neg() {
        return upper;
    }
    let next = u64::from(words.next()).wrapping_mul(u64::from(range)) >> 32;
    match lower.checked_add(next as u32) {
        Some(_) => upper,
        None => upper.wrapping_add(1),
    }
}

/// The product of as many numbers from this one on as fits 32 bits, and how many they are.
fn chunk_from(first: u8) -> (u32, u32) {
    let first = u32::from(first);
    let mut product = first;
    for factor in first + 1..first + 32 {
        match product.checked_mul(factor) {
            Some(more) => product = more,
            None => return (product, factor - first),
        }
    }
    (product, 32)
}

/// The deck after the shuffle of `rand` 0.10. Each card from the second on changes places with the
/// one at an index up to its own. A draw below the product of their numbers of places serves several
/// cards: each takes the remainder by its number of places, and the last what is left.
fn shuffled(words: &mut Words) -> Option<[u8; 52]> {
    let mut deck = [0; 52];
    for (number, card) in (0..52).zip(&mut deck) {
        *card = number;
    }
    let mut draw = 0;
    let mut served: u32 = 0;
    for index in 1..52u8 {
        let places = u32::from(index) + 1;
        if served == 0 {
            let (range, count) = chunk_from(index + 1);
            draw = below(range, words);
            served = count;
        }
        served = served.wrapping_sub(1);
        let chosen = if served == 0 { draw } else { draw % places };
        draw /= places;
        if chosen >= places {
            return None;
        }
        deck.swap(usize::from(index), chosen as usize);
    }
    Some(deck)
}

/// The hands of the deal as sets of bits, North's first: 13 cards each of the shuffled deck.
fn expected_hands(seed: &[u8; 32], board: u8) -> Option<[u64; 4]> {
    let mut words = Words {
        seed: *seed,
        stream: u32::from(board),
        taken: 0,
    };
    let mut hands = [0; 4];
    for (index, card) in shuffled(&mut words)?.iter().enumerate() {
        hands[index / 13] |= 1u64.checked_shl(u32::from(*card))?;
    }
    Some(hands)
}

/// The hands that `deal_board` deals, in the same form.
fn hands_dealt(seed: &[u8; 32], board: u8) -> Option<[u64; 4]> {
    let deal = deal_board(seed, BoardNumber::new(board)?);
    let [north, east, south, west] = deal.hands();
    Some([north.bits(), east.bits(), south.bits(), west.bits()])
}

/// The zero seed, or the one whose only set bit is that of this number.
fn seed_of(bit: Option<u8>) -> [u8; 32] {
    let mut seed = [0; 32];
    if let Some(bit) = bit {
        seed[usize::from(bit / 8)] = 1u8.wrapping_shl(u32::from(bit % 8));
    }
    seed
}

/// The words of the block of RFC 8439, section 2.3.2.
static RFC_BLOCK: [u32; 16] = [
    0xe4e7_f110,
    0x1559_3bd1,
    0x1fdd_0f50,
    0xc471_20a3,
    0xc7f4_d1c7,
    0x0368_c033,
    0x9aaa_2204,
    0x4e6c_d4c3,
    0x4664_82d2,
    0x09aa_9f07,
    0x05d7_c214,
    0xa202_8bd9,
    0xd19c_12b5,
    0xb94e_16de,
    0xe883_d0cb,
    0x4e3c_50a2,
];

#[test]
fn the_block_is_that_of_the_rfc(rt: HostRuntime) {
    let mut key = [0; 32];
    for (number, byte) in (0..32).zip(&mut key) {
        *byte = number;
    }
    expect_eq(
        &rt,
        block(first_state(&key, [1, 0x0900_0000, 0x4a00_0000, 0])),
        RFC_BLOCK,
        "RFC 8439, section 2.3.2",
    );
}

/// Deals a board from a seed: as the shuffle does, and as no board was dealt before.
fn deal_anew(rt: &impl Abort, seen: &mut Vec<[u64; 4]>, seed: &[u8; 32], board: u8) {
    let hands = hands_dealt(seed, board).expect(rt, "a board from 1 to 36");
    let is_due = expected_hands(seed, board) == Some(hands);
    expect_eq(rt, is_due, true, (*seed, board));
    expect_eq(rt, seen.contains(&hands), false, (*seed, board));
    expect_eq(rt, seen.push(hands).is_ok(), true, "memory");
}

#[test]
fn deals_are_those_of_the_shuffle_and_differ(rt: HostRuntime) {
    let mut seen = Vec::new(rt.alloc());
    for board in 1..=BoardNumber::MAX {
        deal_anew(&rt, &mut seen, &seed_of(None), board);
    }
    for bit in 0..=255 {
        let seed = seed_of(Some(bit));
        deal_anew(&rt, &mut seen, &seed, 1);
        deal_anew(&rt, &mut seen, &seed, BoardNumber::MAX);
    }
}
