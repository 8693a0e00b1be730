//! Hands and deals as texts.
ghost use Rattle.std.specs.Prelude.{◌≡◌, ℕ, ◌+◌, ◌≤◌, ◌++◌, false, length, slice_index, IfSome, IfNone, All};
ghost use Rattle.bridge_cards.specs.declared.suit.Suit.{Suit};
ghost use Rattle.bridge_cards.specs.Seat.{clockwise_from};
ghost use Rattle.bridge_cards.specs.CardSet.{IsCardSet, has_card, is_of_suit};
ghost use Rattle.bridge_cards.specs.Deal.{hand_at, IsDeal};
ghost use Rattle.bridge_cards.specs.DealText.{SpellsSuit, SpellsHand, SpellsFour, SpellsDeal, StatesNone, StatesOnly, StatesOnce, suit_text, hand_text, deal_text};
ghost use Rattle.bridge_cards.specs.BadDeal.{JudgesDealText};

use crate::card::{Card, SUIT_CARDS};
use crate::card_set::CardSet;
use crate::deal::{BadDeal, Deal};
use crate::rank::Rank;
use crate::seat::Seat;
use crate::suit::Suit;
use arrayvec::ArrayString;
use line_text::split_once;
use std::fmt;
use std::str::FromStr;

/// The bytes of the text of a deal.
pub const DEAL_BYTES: usize = 69;

/// The most bytes of a hand's text: a letter for each card of the deck, and three dots.
pub const HAND_BYTES: usize = 55;

/// The hands that the text states, North's first and then clockwise: as
/// `E:AK.QJ.. .T9.8.7 2.3.. ..4.5`, a seat's letter, a colon, and the four hands clockwise from that
/// seat with single spaces between. A hand is its spades, hearts, diamonds and clubs with dots
/// between, each the letters of its ranks in any order. `None` where the text has another form, or a
/// rank twice in one suit of one hand; the hands need be no deal.
pub fn read_hands(text: &[u8]) -> Option<[CardSet; 4]>
    ensures hands { IfSome result (λ hands. SpellsDeal hands text.now) }
    ensures only { IfSome result (StatesOnly text.now) }
    ensures none { IfNone result (StatesNone text.now) }
{
    let [letter, b':', clockwise @ ..] = text else {
        return None;
    };
    let first = Seat::from_letter(*letter)?;
    Some(by_seat(first, read_four(clockwise)?))
}

/// The deal that the text states, in the form that `read_hands` reads. `Form` where the text has not
/// that form, then `Twice` where a card is in two hands, then `NotThirteen` where a hand has another
/// number of cards than 13.
pub fn read_deal(text: &[u8]) -> Result<Deal, BadDeal>
    ensures judged { JudgesDealText text.now result }

    // No text can be read in two ways.
    ensures once { StatesOnce text.now }
{
    Deal::from_hands(read_hands(text).ok_or(BadDeal::Form)?)
}

/// As `read_deal`.
impl FromStr for Deal {
    type Err = BadDeal;

    ghost use Rattle.bridge_cards.specs.BadDeal.{JudgesDealText};

    ghost from_str_gives = { λ text read. JudgesDealText text read };

    fn from_str(text: &str) -> Result<Deal, BadDeal> {
        read_deal(text.as_bytes())
    }
}

/// Writes the deal into the text in place of what stood there: in the form that `read_deal` reads,
/// the hand of `first` first, and each suit's ranks from the highest down. It takes 69 bytes.
pub fn print_deal(deal: &Deal, first: Seat, text: &mut ArrayString<DEAL_BYTES>)
    ensures text { text.new.bytes ≡ deal_text deal.now first }
    ensures length { length text.new.bytes ≡ DEAL_BYTES }

    // The text states the deal, and nothing else.
    ensures states { SpellsDeal deal.now text.new.bytes }
    ensures only { StatesOnly text.new.bytes deal.now }
    ensures deal { IsDeal deal.now }
{
    text.clear();
    text.push(char::from(first.letter()));
    text.push(':');
    print_hand(deal.hand(first), text);
    text.push(' ');
    print_hand(deal.hand(first.clockwise(1)), text);
    text.push(' ');
    print_hand(deal.hand(first.clockwise(2)), text);
    text.push(' ');
    print_hand(deal.hand(first.clockwise(3)), text);
}

/// The hands by seat, North's first, of hands that stand clockwise from a seat.
fn by_seat(first: Seat, clockwise: [CardSet; 4]) -> [CardSet; 4]
    ensures first { hand_at result first ≡ slice_index clockwise 0 }
    ensures second { hand_at result (clockwise_from first 1) ≡ slice_index clockwise 1 }
    ensures third { hand_at result (clockwise_from first 2) ≡ slice_index clockwise 2 }
    ensures fourth { hand_at result (clockwise_from first 3) ≡ slice_index clockwise 3 }
    ensures sets { All IsCardSet clockwise → All IsCardSet result }
{
    let [one, two, three, four] = clockwise;
    match first {
        Seat::North => [one, two, three, four],
        Seat::East => [four, one, two, three],
        Seat::South => [three, four, one, two],
        Seat::West => [two, three, four, one],
    }
}

/// The four hands of a text in which they stand with single spaces between.
fn read_four(text: &[u8]) -> Option<[CardSet; 4]>
    ensures hands { IfSome result
        (λ h. SpellsFour (slice_index h 0) (slice_index h 1) (slice_index h 2) (slice_index h 3) text.now) }
    ensures sets { IfSome result (All IsCardSet) }
    ensures none { IfNone result ((one two three four : ℕ) → ¬ SpellsFour one two three four text.now) }
{
    let (one, rest) = split_once(text, b' ')?;
    let (two, rest) = split_once(rest, b' ')?;
    let (three, four) = split_once(rest, b' ')?;
    Some([
        read_hand(one)?,
        read_hand(two)?,
        read_hand(three)?,
        read_hand(four)?,
    ])
}

/// The hand of a text in which its suits stand with dots between.
fn read_hand(text: &[u8]) -> Option<CardSet>
    ensures hand { IfSome result (λ hand. SpellsHand hand text.now) }
    ensures set { IfSome result IsCardSet }
    ensures none { IfNone result ((hand : ℕ) → ¬ SpellsHand hand text.now) }
{
    let (spades, rest) = split_once(text, b'.')?;
    let (hearts, rest) = split_once(rest, b'.')?;
    let (diamonds, clubs) = split_once(rest, b'.')?;
    let spades = read_suit(spades, Suit::Spades)?;
    let hearts = read_suit(hearts, Suit::Hearts)?;
    let diamonds = read_suit(diamonds, Suit::Diamonds)?;
    let clubs = read_suit(clubs, Suit::Clubs)?;
    Some(spades.union(hearts).union(diamonds.union(clubs)))
}

/// The cards of the suit whose ranks have these letters; `None` where one is no rank's, or stands
/// twice.
fn read_suit(letters: &[u8], suit: Suit) -> Option<CardSet>
    ensures cards { IfSome result (λ cards. SpellsSuit cards suit letters.now) }
    ensures suit { IfSome result
        (λ cards. (card : ℕ) → is_of_suit suit card ≡ false → has_card cards card ≡ false) }
    ensures none { IfNone result ((hand : ℕ) → ¬ SpellsSuit hand suit letters.now) }
{
    let mut cards = CardSet::new();
    for letter in letters {
        let card = Card::of(suit, Rank::from_letter(*letter)?);
        if cards.has(card) {
            return None;
        }
        cards = cards.with(card);
    }
    Some(cards)
}

/// Writes a hand at the text's end: its spades, hearts, diamonds and clubs with dots between, each suit's ranks from the
/// highest down. It takes a byte for each card and three more, 55 at most.
pub fn print_hand<const N: usize>(hand: CardSet, text: &mut ArrayString<N>)
    requires { length text.old.bytes + length (hand_text hand) ≤ N }
    ensures text { text.new.bytes ≡ text.old.bytes ++ hand_text hand }
    ensures short { length (hand_text hand) ≤ HAND_BYTES }
{
    print_suit(hand, Suit::Spades, text);
    text.push('.');
    print_suit(hand, Suit::Hearts, text);
    text.push('.');
    print_suit(hand, Suit::Diamonds, text);
    text.push('.');
    print_suit(hand, Suit::Clubs, text);
}

/// Writes the letters of a hand's ranks in a suit at the text's end, from the highest down.
fn print_suit<const N: usize>(hand: CardSet, suit: Suit, text: &mut ArrayString<N>)
    requires { length text.old.bytes + length (suit_text hand suit) ≤ N }
    ensures { text.new.bytes ≡ text.old.bytes ++ suit_text hand suit }
{
    for index in (0..SUIT_CARDS).rev() {
        let rank = Rank::of_index(index);
        if hand.has(Card::of(suit, rank)) {
            text.push(char::from(rank.letter()));
        }
    }
}

/// The hand's text: its spades, hearts, diamonds and clubs with dots between.
impl fmt::Display for CardSet {
    ghost use Rattle.std.specs.Prelude.{Some};
    ghost use Rattle.bridge_cards.specs.DealText.{hand_text};

    ghost output = { λ hand. Some (hand_text hand) };

    fn fmt<W: fmt::Write>(&self, f: &mut fmt::Formatter<W>) -> fmt::Result {
        let mut text = ArrayString::<HAND_BYTES>::new();
        print_hand(*self, &mut text);
        f.write_str(text.as_str())
    }
}

/// The deal's text from North.
impl fmt::Display for Deal {
    ghost use Rattle.std.specs.Prelude.{Some};
    ghost use Rattle.bridge_cards.specs.declared.seat.Seat.TheVariants.{North};
    ghost use Rattle.bridge_cards.specs.DealText.{deal_text};

    ghost output = { λ deal. Some (deal_text deal North) };

    fn fmt<W: fmt::Write>(&self, f: &mut fmt::Formatter<W>) -> fmt::Result {
        let mut text = ArrayString::new();
        print_deal(self, Seat::North, &mut text);
        f.write_str(text.as_str())
    }
}
