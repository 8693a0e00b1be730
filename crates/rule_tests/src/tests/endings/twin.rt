//! A plain twin of the solver: each legal card is tried, with no bounds. A card's height in its trick says who wins.
use bridge_cards::{Card, CardSet, Seat, Side, Suit};

/// The cards of a trick so far.
#[derive(Clone, Copy)]
pub struct Played {
    trump: Option<Suit>,
    leader: Seat,
    cards: [Option<Card>; 4],
}

impl Played {
    /// Nobody has played.
    pub fn new(trump: Option<Suit>, leader: Seat) -> Played {
        Played {
            trump,
            leader,
            cards: [None; 4],
        }
    }

    /// How many cards were played, four at most.
    pub fn len(&self) -> usize {
        let mut played = 0usize;
        for card in self.cards.as_slice() {
            if card.is_some() {
                played = played.saturating_add(1);
            }
        }
        played
    }

    /// The card led, if one was.
    pub fn led(&self) -> Option<Card> {
        self.cards[0]
    }

    /// The hand to play.
    pub fn turn(&self) -> Seat {
        self.leader.clockwise(self.len())
    }

    /// The trick with the card too.
    pub fn with(self, card: Card) -> Played {
        let mut after = self;
        let index = self.len();
        if index < 4 {
            after.cards[index] = Some(card);
        }
        after
    }

    /// How high the card is: a trump above all others, then the suit led (Law 44).
    fn height(&self, card: Card) -> u8 {
        let index = card.number() % 13;
        if Some(card.suit()) == self.trump {
            return 27 + index;
        }
        match self.led() {
            Some(led) if led.suit() == card.suit() => 14 + index,
            _ => 0,
        }
    }

    /// The seat that played the highest card.
    pub fn winner(&self) -> Seat {
        let mut winner = self.leader;
        let mut highest = 0;
        for (index, card) in self.cards.iter().enumerate() {
            if let Some(card) = card {
                let height = self.height(*card);
                if height > highest {
                    highest = height;
                    winner = self.leader.clockwise(index);
                }
            }
        }
        winner
    }
}

/// The tricks of North and South of the cards left, of which there are so many in all.
pub fn worth(cards_left: u8, hands: [CardSet; 4], trick: Played) -> u8 {
    let index = trick.len();
    if cards_left == 0 || index > 3 {
        return 0;
    }
    let seat = trick.leader.clockwise(index);
    let hand = hands[usize::from(seat.number())];
    let mut best = None;
    for card in hand.cards().as_slice() {
        let mut after = trick;
        after.cards[index] = Some(*card);
        if !may_follow(hand, after.cards[0], *card) {
            continue;
        }
        let left = without(hands, *card);
        let mut tricks = 0;
        if index == 3 {
            let winner = after.winner();
            if winner.side() == Side::NorthSouth {
                tricks = 1;
            }
            after = Played::new(trick.trump, winner);
        }
        tricks = worth(cards_left - 1, left, after).saturating_add(tricks);
        best = Some(better(seat.side(), best, tricks));
    }
    best.unwrap_or(0)
}

/// The hands without the card.
pub fn without(hands: [CardSet; 4], card: Card) -> [CardSet; 4] {
    let [north, east, south, west] = hands;
    [
        north.without(card),
        east.without(card),
        south.without(card),
        west.without(card),
    ]
}

/// Whether the card is of the suit led, or the hand has none of it.
pub fn may_follow(hand: CardSet, led: Option<Card>, card: Card) -> bool {
    let Some(led) = led else {
        return true;
    };
    card.suit() == led.suit() || hand.of_suit(led.suit()).is_empty()
}

/// The better for the side of what it had found, if anything, and the next.
fn better(side: Side, found: Option<u8>, next: u8) -> u8 {
    match (found, side) {
        (None, _) => next,
        (Some(found), Side::NorthSouth) => found.max(next),
        (Some(found), Side::EastWest) => found.min(next),
    }
}
