//! What cards gave away: two plays worked by hand, and random plays beside the plain search.
use super::deals::HANDS;
use super::random_endings::next;
use super::twin::{Played, may_follow, without, worth};
use crate::tests::{deal_of, expect_eq};
use arrayvec::ArrayVec;
use bridge_cards::{Card, CardSet, DECK, Seat, Side, Suit, read_card};
use bridge_endings::{CardCost, DealSolver};
use std::alloc::AllocError;
use std::process::Abort;

/// South runs eleven clubs. Then North has the ace and queen of spades, behind West's king and jack, or before East's.
const FINESSE_WINS: &[u8] =
    b"N:AQ.AKQJT987654.. T987654.32.32.32 32...AKQJT987654 KJ..AKQJT987654.";

const FINESSE_LOSES: &[u8] =
    b"N:AQ.AKQJT987654.. KJ..AKQJT987654. 32...AKQJT987654 T987654.32.32.32";

/// A deal, its last eight cards, the tricks of North and South before the first card and after the last, and the indexes of
/// the cards that give a trick away.
type Finesse = (&'static [u8], [&'static [u8]; 8], u8, u8, &'static [usize]);

static FINESSES: [Finesse; 2] = [
    // North plays the ace on West's jack.
    (
        FINESSE_WINS,
        [b"S2", b"SJ", b"SA", b"S9", b"SQ", b"ST", b"S3", b"SK"],
        13,
        12,
        &[46],
    ),
    // North throws its last heart and not the queen of spades, and then East does not beat the queen.
    (
        FINESSE_LOSES,
        [b"S2", b"S9", b"SQ", b"SJ", b"SA", b"SK", b"S3", b"ST"],
        13,
        13,
        &[42, 47],
    ),
];

/// A table at which a deal is played.
#[derive(Drop)]
struct Table {
    hands: [CardSet; 4],
    trick: Played,
    /// The tricks of North and South so far.
    won: u8,
    cards: ArrayVec<Card, DECK>,
}

impl Table {
    fn new(hands: [CardSet; 4], trump: Option<Suit>, declarer: Seat) -> Table {
        Table {
            hands,
            trick: Played::new(trump, declarer.left()),
            won: 0,
            cards: ArrayVec::new(),
        }
    }

    /// The cards that the hand in turn may play.
    fn legal(&self) -> CardSet {
        let hand = self.hands[usize::from(self.trick.turn().number())];
        let mut legal = CardSet::new();
        for card in hand.cards().as_slice() {
            if may_follow(hand, self.trick.led(), *card) {
                legal = legal.with(*card);
            }
        }
        legal
    }

    /// One of them, which the sequence of numbers picks.
    fn picked(&self, state: &mut u32) -> Option<Card> {
        let legal = self.legal().cards();
        let choice = next(state) as usize % legal.len().max(1);
        legal.as_slice().get(choice).copied()
    }

    /// One of them that is no spade, or else a spade.
    fn spare(&self) -> Option<Card> {
        let legal = self.legal();
        let others = legal.difference(legal.of_suit(Suit::Spades));
        others.lowest().or(legal.lowest())
    }

    fn play(&mut self, card: Card, trump: Option<Suit>) {
        self.hands = without(self.hands, card);
        let _ = self.cards.try_push(card);
        self.trick = self.trick.with(card);
        if self.trick.len() == 4 {
            let winner = self.trick.winner();
            if winner.side() == Side::NorthSouth {
                self.won = self.won.saturating_add(1);
            }
            self.trick = Played::new(trump, winner);
        }
    }

    /// The tricks of North and South in all by the plain search.
    fn won_in_all(&self) -> u8 {
        let left = (DECK as u8).saturating_sub(self.cards.len() as u8);
        self.won.saturating_add(worth(left, self.hands, self.trick))
    }
}

/// Of thirteen tricks those of East and West.
fn others(won: u8) -> u8 {
    13_u8.saturating_sub(won)
}

/// Plays 44 spare cards and then these, without trumps.
fn play_all(table: &mut Table, last: &[&[u8]]) -> Option<()> {
    for _ in 0..44 {
        table.play(table.spare()?, None);
    }
    for card in last {
        table.play(read_card(card)?, None);
    }
    Some(())
}

/// The cards at these indexes give a trick away, and no others do.
fn expect_given(rt: &impl Abort, costs: &[CardCost], wrong: &[usize], text: &[u8]) {
    for (index, cost) in costs.iter().enumerate() {
        let due = if wrong.contains(&index) { 1 } else { 0 };
        expect_eq(rt, cost.tricks, due, (text, index));
    }
}

/// The solver finds the tricks of East and West before the cards and after them, and what each card costs.
fn expect_finesse(
    rt: &impl Abort,
    solver: &mut DealSolver,
    cards: &[Card],
    finesse: &Finesse,
) -> Option<()> {
    let (text, _, before, after, wrong) = finesse;
    let first = solver.tricks_after(None, Seat::East, &[]);
    expect_eq(rt, first, Some(others(*before)), (*text, "before"));
    let end = solver.tricks_after(None, Seat::East, cards);
    expect_eq(rt, end, Some(others(*after)), (*text, "after"));
    let costs = solver.costs(None, Seat::East, cards)?;
    expect_given(rt, costs.as_slice(), wrong, text);
    Some(())
}

#[test]
fn one_card_gives_a_trick_away(rt: HostRuntime) -> Result<(), AllocError> {
    for finesse in FINESSES.as_slice() {
        let deal = deal_of(&rt, finesse.0);
        let mut solver = DealSolver::new(rt.alloc(), &deal)?;
        let mut table = Table::new(deal.hands(), None, Seat::East);
        let played = play_all(&mut table, finesse.1.as_slice());
        expect_eq(&rt, played.is_some(), true, "a card");
        let found = expect_finesse(&rt, &mut solver, table.cards.as_slice(), finesse);
        expect_eq(&rt, found.is_some(), true, "costs");
    }
    Ok(())
}

/// A deal, what is trumps, and who declares.
type Game = (&'static [u8], Option<Suit>, Seat);

static GAMES: [Game; 2] = [
    (HANDS, Some(Suit::Spades), Seat::West),
    (FINESSE_LOSES, None, Seat::North),
];

/// Of thirteen tricks those of the seat's side, where North and South win so many.
fn tricks_of(seat: Seat, won: u8) -> u8 {
    match seat.side() {
        Side::NorthSouth => won,
        Side::EastWest => others(won),
    }
}

/// Plays all cards as the sequence of numbers picks them; before each of the last twelve the solver finds the tricks of the
/// plain search. The result is the seat of each card, and the tricks of North and South before each of those twelve and after
/// the last.
fn play_at_random(
    rt: &impl Abort,
    solver: &mut DealSolver,
    table: &mut Table,
    game: &Game,
    state: &mut u32,
) -> Option<([Seat; 52], [u8; 53])> {
    let (text, trump, declarer) = *game;
    let mut seats = [Seat::North; 52];
    let mut won = [0_u8; 53];
    for index in 0..DECK {
        if index >= 40 {
            won[index] = table.won_in_all();
            let found = solver.tricks_after(trump, declarer, table.cards.as_slice());
            let due = Some(tricks_of(declarer, won[index]));
            expect_eq(rt, found, due, (text, index));
        }
        seats[index] = table.trick.turn();
        table.play(table.picked(state)?, trump);
    }
    won[DECK] = table.won;
    Some((seats, won))
}

/// Each of the last twelve cards costs its seat what its tricks become fewer by.
fn expect_costs(
    rt: &impl Abort,
    costs: &[CardCost],
    seats: &[Seat; 52],
    won: &[u8; 53],
    text: &[u8],
) -> Option<()> {
    for index in 40..DECK {
        let cost = costs.get(index)?;
        let before = tricks_of(seats[index], won[index]);
        let after = tricks_of(seats[index], won[index + 1]);
        expect_eq(rt, cost.seat, seats[index], (text, index));
        expect_eq(rt, cost.tricks, before.saturating_sub(after), (text, index));
    }
    Some(())
}

/// A play in which a card comes twice has no costs.
fn expect_no_costs(rt: &impl Abort, solver: &mut DealSolver, first: Card, game: &Game) {
    let costs = solver.costs(game.1, game.2, &[first, first]);
    expect_eq(rt, costs, None, "a card twice");
}

/// Plays a game at random. The result is none where a card or a cost is lacking.
fn expect_game(
    rt: &impl Abort,
    solver: &mut DealSolver,
    table: &mut Table,
    game: &Game,
    state: &mut u32,
) -> Option<()> {
    let (seats, won) = play_at_random(rt, solver, table, game, state)?;
    let cards = table.cards.as_slice();
    expect_no_costs(rt, solver, *cards.first()?, game);
    let costs = solver.costs(game.1, game.2, cards)?;
    expect_costs(rt, costs.as_slice(), &seats, &won, game.0)
}

// Random cards; of the last twelve the plain search says what they cost.
#[test]
fn costs_are_those_of_the_plain_search(rt: HostRuntime) -> Result<(), AllocError> {
    let mut state = 5;
    for game in GAMES.as_slice() {
        let deal = deal_of(&rt, game.0);
        let mut solver = DealSolver::new(rt.alloc(), &deal)?;
        let mut table = Table::new(deal.hands(), game.1, game.2);
        let found = expect_game(&rt, &mut solver, &mut table, game, &mut state);
        expect_eq(&rt, found.is_some(), true, "cards and their costs");
    }
    Ok(())
}
