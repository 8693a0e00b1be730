//! Whole random plays: each card of the deck is taken or refused as the hands left say, and the highest card wins.
use super::deals::{CARDS_IN_A_ROW, DIAMOND_VOID, LONG_SPADES, contract_of};
use crate::tests::{deal_of, expect_eq};
use bridge_auction::{Contract, Denomination};
use bridge_cards::{Card, CardSet, Deal, Seat, Side, Suit};
use bridge_play::{CardRefused, Play};
use std::process::Abort;

/// The next of a fixed sequence of numbers.
fn next(state: &mut u32) -> u32 {
    *state = state.wrapping_mul(1_664_525).wrapping_add(1_013_904_223);
    *state >> 16
}

/// How high a card is in a trick to which `led` was led: a trump above all others, then the suit led (Law 44).
fn height(trump: Denomination, led: Card, card: Card) -> u8 {
    if card.suit().number() == trump.number() {
        26 + card.number() % 13
    } else if card.suit() == led.suit() {
        13 + card.number() % 13
    } else {
        0
    }
}

/// Whether a card of the hand is of that suit.
fn holds(hand: CardSet, suit: Suit) -> bool {
    for held in hand.cards().as_slice() {
        if held.suit() == suit {
            return true;
        }
    }
    false
}

/// Whether the card may follow the card led, if one was.
fn follows(hand: CardSet, led: Option<Card>, card: Card) -> bool {
    match led {
        Some(led) => card.suit() == led.suit() || !holds(hand, led.suit()),
        None => true,
    }
}

/// The answer to a card of a hand in turn, after the card led, if one was.
fn answer_due(hand: CardSet, led: Option<Card>, card: Card) -> Result<(), CardRefused> {
    if !hand.has(card) {
        Err(CardRefused::NotHeld)
    } else if !follows(hand, led, card) {
        Err(CardRefused::MustFollow)
    } else {
        Ok(())
    }
}

/// Tries each card that may not be played, and then plays one of the others, which the sequence picks.
fn play_a_card(
    rt: &impl Abort,
    play: &mut Play,
    hand: CardSet,
    led: Option<Card>,
    state: &mut u32,
) -> Option<Card> {
    let actor = play.actor();
    let picked = (next(state) % 52) as u8;
    let mut chosen = None;
    for number in 0..Card::COUNT {
        let card = Card::new((number + picked) % Card::COUNT)?;
        let due = answer_due(hand, led, card);
        if due.is_ok() {
            chosen = Some(card);
            let answer = play.try_card(actor.left(), card);
            expect_eq(rt, answer, Err(CardRefused::NotYourTurn), card);
        } else {
            expect_eq(rt, play.try_card(actor, card), due, card);
        }
    }
    expect_eq(rt, play.try_card(actor, chosen?), Ok(()), chosen);
    chosen
}

/// Plays a trick. The result is the seat of the highest card, and none where a hand has no card left too early.
fn play_trick(
    rt: &impl Abort,
    play: &mut Play,
    hands: &mut [CardSet; 4],
    leader: Seat,
    state: &mut u32,
) -> Option<Seat> {
    let trump = play.contract().bid.denomination;
    let (mut winner, mut led, mut highest) = (leader, None, 0);
    for places in 0..4 {
        let seat = leader.clockwise(places);
        expect_eq(rt, play.turn(), seat, play.cards());
        let index = usize::from(seat.number());
        let card = play_a_card(rt, play, hands[index], led, state)?;
        hands[index] = hands[index].without(card);
        led = led.or(Some(card));
        let reached = height(trump, led?, card);
        if reached > highest {
            (winner, highest) = (seat, reached);
        }
    }
    Some(winner)
}

/// Plays all tricks of the deal. The result is the seat of the last one's highest card.
fn play_all(rt: &impl Abort, deal: &Deal, play: &mut Play, state: &mut u32) -> Option<Seat> {
    let mut hands = deal.hands();
    let mut leader = play.contract().declarer.left();
    let mut won = 0u8;
    for _ in 0..13 {
        leader = play_trick(rt, play, &mut hands, leader, state)?;
        if leader.side() == Side::NorthSouth {
            won = won.wrapping_add(1);
        }
        expect_eq(rt, play.tricks(Side::NorthSouth), won, play.cards());
    }
    Some(leader)
}

/// Plays the deal from that contract to its end, and then tries one more card.
fn expect_played(rt: &impl Abort, deal: &Deal, contract: Contract, state: &mut u32) {
    let mut play = Play::new(deal, contract);
    let last = play_all(rt, deal, &mut play, state);
    let last = last.expect(rt, "a card to play");
    expect_eq(rt, play.is_over(), true, play.cards());
    let over = play.try_card(last, Card::default());
    expect_eq(rt, over, Err(CardRefused::Over), last);
}

static DEALS: [&[u8]; 3] = [CARDS_IN_A_ROW, DIAMOND_VOID, LONG_SPADES];

#[test]
fn random_plays_follow_the_rules(rt: HostRuntime) {
    let mut state = 1;
    for text in &DEALS {
        let deal = deal_of(&rt, text);
        for index in 0..5 {
            let declarer = Seat::North.clockwise(index);
            let contract = contract_of(&rt, 1, Denomination::ALL[index], declarer);
            expect_played(&rt, &deal, contract, &mut state);
        }
    }
}
