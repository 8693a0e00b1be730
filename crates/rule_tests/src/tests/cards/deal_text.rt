//! Texts of hands and deals.
use crate::tests::{deal_of, expect_eq};
use arrayvec::ArrayString;
use bridge_cards::{BadDeal, Seat, print_deal, read_deal, read_hands};
use std::alloc::{AllocError, Global};
use std::process::Abort;

/// A suit to each hand, and four cards of one suit and three of each other to each hand.
static DEALS: [&[u8]; 2] = [
    b"N:AKQJT98765432... .AKQJT98765432.. ..AKQJT98765432. ...AKQJT98765432",
    b"N:AKQJ.T98.765.432 T98.765.432.AKQJ 765.432.AKQJ.T98 432.AKQJ.T98.765",
];

/// Where the letter stands among these.
fn place_in(letters: &[u8], wanted: u8) -> Option<u32> {
    let mut place: u32 = 0;
    for letter in letters {
        if *letter == wanted {
            return Some(place);
        }
        place = place.wrapping_add(1);
    }
    None
}

/// A walk over the bytes of four hands: in whose hand and in which suit it is, by the bit of the suit's lowest card, how many
/// hands it has left behind, and the cards so far.
#[derive(Drop)]
struct Walk {
    hand: u32,
    lowest: u64,
    done: u8,
    hands: [u64; 4],
}

impl Walk {
    /// Takes a card of that rank, if there is such a rank and the hand has not the card.
    fn take(&mut self, rank: Option<u32>) -> Option<()> {
        let card = self.lowest.wrapping_shl(rank?);
        let hand = (self.hand % 4) as usize;
        if self.hands[hand] & card != 0 {
            return None;
        }
        self.hands[hand] |= card;
        Some(())
    }

    /// Goes over a byte that may stand there.
    fn step(&mut self, byte: u8) -> Option<()> {
        if byte == b' ' && self.lowest == 1 && self.done < 3 {
            self.done += 1;
            self.hand = (self.hand % 4 + 1) % 4;
            self.lowest = SPADES;
            Some(())
        } else if byte == b'.' && self.lowest > 1 {
            self.lowest >>= 13;
            Some(())
        } else {
            self.take(place_in(b"23456789TJQKA", byte))
        }
    }
}

/// The bit of the lowest spade, with which each hand begins.
const SPADES: u64 = 1 << 39;

/// The hands that a text states, North's first, as sets of bits.
fn hands_of(text: &[u8]) -> Option<[u64; 4]> {
    let hand = place_in(b"NESW", *text.first()?)?;
    if *text.get(1)? != b':' {
        return None;
    }
    let mut walk = Walk {
        hand,
        lowest: SPADES,
        done: 0,
        hands: [0; 4],
    };
    for byte in &text[2..] {
        walk.step(*byte)?;
    }
    (walk.lowest == 1 && walk.done == 3).then_some(walk.hands)
}

/// The text with these bytes in place of the one at that index.
fn with_bytes(
    alloc: Global,
    text: &[u8],
    index: usize,
    bytes: &[u8],
) -> Result<Vec<u8>, AllocError> {
    let mut made = Vec::new(alloc);
    for (at, byte) in text.iter().enumerate() {
        if at == index {
            made.extend_from_slice(bytes)?;
        } else {
            made.push(*byte)?;
        }
    }
    Ok(made)
}

/// What `read_hands` gives, as sets of bits.
fn bits_read(text: &[u8]) -> Option<[u64; 4]> {
    let [north, east, south, west] = read_hands(text)?;
    Some([north.bits(), east.bits(), south.bits(), west.bits()])
}

/// Fails with the text, with these bytes in place of the one at that index, where it is not read as the walk reads it.
fn expect_read(rt: &impl Abort, alloc: Global, deal: &[u8], index: usize, bytes: &[u8]) {
    let text = with_bytes(alloc, deal, index, bytes);
    let text = text.ok().expect(rt, "memory");
    let is_due = bits_read(&text) == hands_of(&text);
    expect_eq(rt, is_due, true, text.as_slice());
}

#[test]
fn texts_are_read_where_they_are_in_form(rt: HostRuntime) {
    for deal in DEALS.as_slice() {
        for (index, old) in deal.iter().enumerate() {
            for new in 0..=255 {
                expect_read(&rt, rt.alloc(), deal, index, &[new]);
            }
            expect_read(&rt, rt.alloc(), deal, index, &[]);
            expect_read(&rt, rt.alloc(), deal, index, &[*old, *old]);
        }
    }
}

#[test]
fn deals_are_printed_from_the_highest_rank_down(rt: HostRuntime) {
    for text in DEALS.as_slice() {
        let deal = deal_of(&rt, text);
        let mut printed = ArrayString::new();
        print_deal(&deal, Seat::North, &mut printed);
        expect_eq(&rt, printed.as_str().as_bytes(), *text, printed.as_str());
    }
}

#[test]
fn ranks_are_read_in_any_order(rt: HostRuntime) {
    let deal = deal_of(&rt, DEALS[0]);
    let north = deal.hand(Seat::North);
    expect_eq(&rt, north.bits(), 0x000f_ff80_0000_0000, "North");
    let other = b"S:..48AKJ76T9Q532. ...AKQJT98765432 23456789TJQKA... .AKQJT98765432..";
    expect_eq(&rt, read_deal(other), Ok(deal), "South first");
}

/// Texts that are no deal, and why.
static FAULTS: [(&[u8], BadDeal); 19] = [
    (b"", BadDeal::Form),
    (b"N", BadDeal::Form),
    (b"N:", BadDeal::Form),
    (b"N:... ... ...", BadDeal::Form),
    (b"N:... ... ... ...", BadDeal::NotThirteen),
    (b"N:... ... ... ... ", BadDeal::Form),
    (b"N:...  ... ... ...", BadDeal::Form),
    (b" N:... ... ... ...", BadDeal::Form),
    (b"N: ... ... ... ...", BadDeal::Form),
    (b"n:... ... ... ...", BadDeal::Form),
    (b"N ... ... ... ...", BadDeal::Form),
    (b"N:... ... ... ....", BadDeal::Form),
    (b"N:... ... ... ... ...", BadDeal::Form),
    (b"N:AA... ... ... ...", BadDeal::Form),
    (b"N:10... ... ... ...", BadDeal::Form),
    (b"N:A... A... ... ...", BadDeal::Twice),
    (b"S:2.3.4.5 ... ... 2...", BadDeal::Twice),
    (
        b"N:AKQJT9876543... 2.AKQJT98765432.. ..AKQJT98765432. ...AKQJT98765432",
        BadDeal::NotThirteen,
    ),
    (
        b"N:A23456789TJQKA... .AKQJT98765432.. ..AKQJT98765432. ...AKQJT98765432",
        BadDeal::Form,
    ),
];

#[test]
fn faults_of_texts_are_named(rt: HostRuntime) {
    for (text, fault) in FAULTS.as_slice() {
        expect_eq(&rt, read_deal(text), Err(*fault), *text);
    }
}
