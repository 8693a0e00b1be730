//! The hands of a board as a diagram: North at the top, West and East in the middle, South at the bottom.
ghost use Rattle.std.specs.Prelude.{◌≡◌, ◌+◌, ◌<◌, ◌≤◌, ◌++◌, length};
ghost use Rattle.bridge_cards.specs.Rank.{IsRank};
ghost use Rattle.bridge_results.specs.Diagram.{letter_in, rank_in, suit_in, or_dash, suit_cell, middle_row, sides_row, middle_text, sides_text, diagram_text};

use crate::html::cells::shown_letter;
use crate::pages::columns::HAND_COLUMNS;
use arrayvec::ArrayString;
use bridge_cards::{Card, CardSet, Deal, Rank, Seat, Suit};
use page_layout::{Format, PAGE_BYTES, PageText, push_row, push_table_end, push_table_start};

/// The letters of a suit, at most two for each of 13 cards.
type Letters = ArrayString<26>;

/// A suit of a hand: its letter, a blank, and the letters of its cards.
pub type SuitText = ArrayString<28>;

/// Adds the letter of a rank, in HTML with 10 for a ten.
fn push_letter(text: &mut Letters, format: Format, letter: u8)
    requires room { length text.old.bytes + 2 ≤ 26 }
    requires ascii { letter < 128 }
    ensures text { text.new.bytes ≡ text.old.bytes ++ letter_in format letter }
    ensures room { length text.new.bytes ≤ length text.old.bytes + 2 }
{
    match format {
        Format::Plain => text.push(char::from(letter)),
        Format::Html => text.push_str(shown_letter(letter).as_str()),
    }
}

/// The same, where the hand has its card of the suit.
fn push_rank(text: &mut Letters, format: Format, hand: CardSet, suit: Suit, number: u8)
    requires rank { IsRank number }
    requires room { length text.old.bytes + 2 ≤ 26 }
    ensures text { text.new.bytes ≡ text.old.bytes ++ rank_in format hand suit number }
    ensures room { length text.new.bytes ≤ length text.old.bytes + 2 }
{
    let rank = Rank::new(number).unwrap();
    if hand.has(Card::of(suit, rank)) {
        push_letter(text, format, rank.letter());
    }
}

/// The letters of a hand's ranks in a suit, from the highest down.
fn suit_letters(format: Format, hand: CardSet, suit: Suit) -> Letters
    ensures { result.bytes ≡ suit_in format hand suit }
{
    let mut text = Letters::new();
    for index in 0..13 {
        push_rank(&mut text, format, hand, suit, 14 - index);
    }
    text
}

/// The letters, or a dash where there are none.
fn or_dash(letters: &str) -> &str
    requires { length letters.now ≤ 26 }
    ensures text { result.now ≡ or_dash letters.now }
    ensures short { length result.now ≤ 26 }
{
    if letters.is_empty() { "-" } else { letters }
}

/// A suit of a hand, as `S AQ65`.
fn suit_cell(format: Format, hand: CardSet, suit: Suit) -> SuitText
    ensures text { result.bytes ≡ suit_cell format hand suit }
    ensures short { length result.bytes ≤ 28 }
{
    let letters = suit_letters(format, hand, suit);
    let mut text = SuitText::new();
    text.push(char::from(suit.letter()));
    text.push(' ');
    text.push_str(or_dash(letters.as_str()));
    text
}

/// Adds a suit of North's or South's hand.
fn push_middle_row(text: &mut PageText, format: Format, hand: CardSet, suit: Suit)
    requires { length text.old.items + 1043 ≤ PAGE_BYTES }
    ensures text { text.new.items ≡ text.old.items ++ middle_row format hand suit }
    ensures room { length text.new.items ≤ length text.old.items + 1043 }
{
    let cell = suit_cell(format, hand, suit);
    push_row(
        text,
        format,
        &HAND_COLUMNS,
        &[b"", cell.as_str().as_bytes(), b""],
    );
}

/// Adds a suit of West's and of East's hand.
fn push_sides_row(text: &mut PageText, format: Format, west: CardSet, east: CardSet, suit: Suit)
    requires { length text.old.items + 1926 ≤ PAGE_BYTES }
    ensures text { text.new.items ≡ text.old.items ++ sides_row format west east suit }
    ensures room { length text.new.items ≤ length text.old.items + 1926 }
{
    let left = suit_cell(format, west, suit);
    let right = suit_cell(format, east, suit);
    push_row(
        text,
        format,
        &HAND_COLUMNS,
        &[left.as_str().as_bytes(), b"", right.as_str().as_bytes()],
    );
}

/// Adds North's or South's hand.
fn push_middle(text: &mut PageText, format: Format, hand: CardSet)
    requires { length text.old.items + 4172 ≤ PAGE_BYTES }
    ensures text { text.new.items ≡ text.old.items ++ middle_text format hand }
    ensures room { length text.new.items ≤ length text.old.items + 4172 }
{
    push_middle_row(text, format, hand, Suit::Spades);
    push_middle_row(text, format, hand, Suit::Hearts);
    push_middle_row(text, format, hand, Suit::Diamonds);
    push_middle_row(text, format, hand, Suit::Clubs);
}

/// Adds West's and East's hands.
fn push_sides(text: &mut PageText, format: Format, west: CardSet, east: CardSet)
    requires { length text.old.items + 7704 ≤ PAGE_BYTES }
    ensures text { text.new.items ≡ text.old.items ++ sides_text format west east }
    ensures room { length text.new.items ≤ length text.old.items + 7704 }
{
    push_sides_row(text, format, west, east, Suit::Spades);
    push_sides_row(text, format, west, east, Suit::Hearts);
    push_sides_row(text, format, west, east, Suit::Diamonds);
    push_sides_row(text, format, west, east, Suit::Clubs);
}

/// The diagram of a deal.
pub fn diagram_text(format: Format, deal: &Deal) -> PageText
    ensures { result.items ≡ diagram_text format deal.now }
{
    let mut text = PageText::new();
    push_table_start(&mut text, format);
    push_middle(&mut text, format, deal.hand(Seat::North));
    push_sides(
        &mut text,
        format,
        deal.hand(Seat::West),
        deal.hand(Seat::East),
    );
    push_middle(&mut text, format, deal.hand(Seat::South));
    push_table_end(&mut text, format);
    text
}
