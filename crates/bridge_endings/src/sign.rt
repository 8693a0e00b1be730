//! Signs of hands, by which a table passes over most of what tells nothing of them. No answer rests on a sign.
use crate::closed::all_cards;
use crate::found::Found;
use bridge_cards::{CardSet, Seat, Suit};

/// The sign that agrees with no hands.
pub const NO_SIGN: u64 = u64::MAX;

/// The four highest cards of each suit among them, side by side in 16 bits.
fn high_cards(cards: CardSet) -> u64 {
    let bits = cards.bits();
    bits >> 9 & 0xf | bits >> 18 & 0xf0 | bits >> 27 & 0xf00 | bits >> 36 & 0xf000
}

/// Who has the four highest cards of each suit, in 32 bits.
pub fn owners_of(hands: &[CardSet; 4]) -> u64 {
    let [_, east, south, west] = hands;
    high_cards(east.union(*west)) | high_cards(south.union(*west)) << 16
}

/// Who has those of these cards that counted, and above it which these are.
pub fn sign_of(found: &Found) -> u64 {
    let counts = high_cards(found.counts);
    let counts = counts | counts << 16;
    counts << 32 | owners_of(&found.hands) & counts
}

/// Whether hands with those owners have the cards of the sign where they are.
pub fn agrees(sign: u64, owners: u64) -> bool {
    (sign ^ owners) & sign >> 32 == 0
}

/// The highest card of each suit that the hands have, where it is the suit's highest of all.
fn tops_of(hands: &[CardSet; 4]) -> CardSet {
    let tops = 1_u64 << 12 | 1 << 25 | 1 << 38 | 1 << 51;
    match CardSet::from_bits(tops) {
        Some(tops) => all_cards(hands).intersection(tops),
        None => CardSet::new(),
    }
}

/// A number for who has the highest card of each suit; not 0 where there is a card.
pub fn top_owners(hands: &[CardSet; 4]) -> u64 {
    let [_, east, south, west] = hands;
    let tops = tops_of(hands);
    let east = east.intersection(tops).bits();
    let south = south.intersection(tops).bits() >> 1;
    let west = west.intersection(tops).bits() >> 2;
    east ^ south ^ west ^ tops.bits() >> 3
}

/// The same of hands of which something was found, if each of these cards counted, and else 0.
pub fn counted_owners(found: &Found) -> u64 {
    if tops_of(&found.hands).difference(found.counts).is_empty() {
        top_owners(&found.hands)
    } else {
        0
    }
}

/// A number for those lengths, where that suit is trumps and that seat leads.
pub fn key_of(lengths: u64, trump: Option<Suit>, leader: Seat) -> u64 {
    let trump = match trump {
        None => 4,
        Some(suit) => u64::from(suit.number()),
    };
    let seat = u64::from(leader.number()) << 3 | trump;
    let mixed = (lengths ^ lengths >> 32 ^ seat << 32).wrapping_mul(SPREAD);
    mixed ^ mixed >> 29
}

/// A number for the key and the owners, whose upper bits spread.
pub fn mixed(key: u64, owners: u64) -> u64 {
    let mixed = (key ^ owners).wrapping_mul(SPREAD);
    (mixed ^ mixed >> 32).wrapping_mul(SPREAD)
}

/// An odd number without a pattern, as the fraction of the golden ratio: the upper bits of the products spread.
const SPREAD: u64 = 0x9e37_79b9_7f4a_7c15;
