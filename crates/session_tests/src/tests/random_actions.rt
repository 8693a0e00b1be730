//! Actions that a sequence of numbers picks: most are what the rules ask for at a table, and some are anything.
use super::rows::row_at;
use super::twin::Twin;
use bridge_auction::{Bid, Call, Contract, Denomination, Doubling, Level};
use bridge_cards::{BoardNumber, Card, CardSet, Seat, deal_board};
use bridge_config::Key;
use bridge_movement::Row;
use bridge_session::{
    Action, Average, BoardIndex, MadeCount, PlayId, RoundNumber, TableNumber, TrickCount,
};

/// The next of a fixed sequence of numbers, below a limit; 0 where there is none.
fn next(state: &mut u32, limit: u32) -> u32 {
    *state = state.wrapping_mul(1_664_525).wrapping_add(1_013_904_223);
    (*state >> 16).checked_rem(limit).unwrap_or(0)
}

fn small(state: &mut u32, limit: u8) -> u8 {
    u8::try_from(next(state, u32::from(limit))).unwrap_or(0)
}

/// A player's key, the director's, or one of nobody.
pub fn any_key(state: &mut u32) -> Key {
    match next(state, 16) {
        0 => Key(100),
        1 => Key(13),
        _ => Key(
            next(state, 6)
                .saturating_add(1)
                .saturating_mul(10)
                .saturating_add(next(state, 2))
                .saturating_add(1),
        ),
    }
}

fn any_call(state: &mut u32) -> Option<Call> {
    match next(state, 8) {
        0..=4 => Some(Call::Pass),
        5 => Some(Call::Double),
        6 if next(state, 2) == 0 => Some(Call::Redouble),
        _ => Some(Call::Bid(Bid {
            level: Level::new(small(state, 3).saturating_add(1))?,
            denomination: *Denomination::ALL.get(usize::from(small(state, 5)))?,
        })),
    }
}

fn any_play(state: &mut u32) -> Option<PlayId> {
    Some(PlayId {
        round: RoundNumber::new(small(state, 4).saturating_add(1))?,
        table: TableNumber::new(small(state, 4).saturating_add(1))?,
        index: BoardIndex::new(small(state, 3).saturating_add(1))?,
    })
}

/// A play of that round, which may not be there.
fn play_in(state: &mut u32, round: u8) -> Option<PlayId> {
    let other = any_play(state)?;
    Some(PlayId {
        round: RoundNumber::new(round)?,
        table: other.table,
        index: other.index,
    })
}

/// Four hands: a deal, or one in which North's cards are East's too.
fn any_hands(state: &mut u32, board: BoardNumber) -> [CardSet; 4] {
    let deal = deal_board(&[small(state, 200); 32], board);
    let mut hands = deal.hands();
    if next(state, 8) == 0 {
        hands[1] = hands[0];
    }
    hands
}

fn any_average(state: &mut u32) -> Average {
    match next(state, 3) {
        0 => Average::Minus,
        1 => Average::Even,
        _ => Average::Plus,
    }
}

fn any_contract(state: &mut u32) -> Option<Contract> {
    Some(Contract {
        bid: Bid::from_number(small(state, 35))?,
        doubling: match next(state, 3) {
            0 => Doubling::Undoubled,
            1 => Doubling::Doubled,
            _ => Doubling::Redoubled,
        },
        declarer: Seat::North.clockwise(usize::from(small(state, 4))),
    })
}

fn any_board(state: &mut u32) -> Option<BoardNumber> {
    BoardNumber::new(small(state, 8).saturating_add(1))
}

fn any_tricks(state: &mut u32) -> Option<TrickCount> {
    TrickCount::new(small(state, 14))
}

/// What the director may do.
fn ruling(state: &mut u32, round: u8) -> Option<Action> {
    let key = if next(state, 10) == 0 {
        any_key(state)
    } else {
        Key(100)
    };
    match next(state, 8) {
        7 => Some(Action::Back {
            key,
            play: play_in(state, round)?,
        }),
        5 => Some(Action::Undeal {
            key,
            board: any_board(state)?,
        }),
        3 => Some(Action::NextRound {
            key,
            round: RoundNumber::new(round.saturating_add(small(state, 8) / 7))?,
        }),
        kind => {
            let play = any_play(state)?;
            ruling_on(state, kind, key, play)
        }
    }
}

/// What the director may rule on a play.
fn ruling_on(state: &mut u32, kind: u32, key: Key, play: PlayId) -> Option<Action> {
    match kind {
        6 => Some(Action::Assign {
            key,
            play,
            contract: any_contract(state)?,
            tricks: any_tricks(state)?,
        }),
        4 => Some(Action::Adjust {
            key,
            play,
            ns: any_average(state),
            ew: any_average(state),
        }),
        0 => Some(Action::Tricks {
            key,
            play,
            tricks: any_tricks(state)?,
        }),
        1 => Some(Action::Void { key, play }),
        _ => Some(Action::Restore { key, play }),
    }
}

/// What a player does, who names the numbers of calls, cards and claims.
fn deed(
    state: &mut u32,
    key: Key,
    board: BoardNumber,
    kind: u32,
    made: [u16; 3],
    card: Card,
) -> Option<Action> {
    let [calls, cards, claims] = made;
    let at = MadeCount::new(match kind {
        0 => calls,
        1 => cards,
        _ => claims,
    })?;
    match kind {
        0 => Some(Action::Call {
            key,
            board,
            at,
            call: any_call(state)?,
        }),
        1 => Some(Action::Card {
            key,
            board,
            at,
            card,
        }),
        2 => Some(Action::Claim {
            key,
            board,
            at,
            tricks: any_tricks(state)?,
        }),
        3 => Some(Action::Agree { key, board, at }),
        _ => Some(Action::Refuse { key, board, at }),
    }
}

/// An action of a player that may well be refused.
fn any_deed(state: &mut u32) -> Option<Action> {
    let key = any_key(state);
    let board = any_board(state)?;
    let kind = next(state, 5);
    let calls = u16::from(small(state, 6));
    let cards = u16::from(small(state, 6));
    let claims = u16::from(small(state, 3));
    let card = Card::new(small(state, 52))?;
    deed(state, key, board, kind, [calls, cards, claims], card)
}

/// The key of the player in a seat of a row.
fn key_in(twin: &Twin, row: Row, seat: Seat) -> Option<Key> {
    let (pair, index) = match seat {
        Seat::North => (row.ns, 0),
        Seat::East => (row.ew, 0),
        Seat::South => (row.ns, 1),
        Seat::West => (row.ew, 1),
    };
    let pairs = twin.config.fields().pairs.as_slice();
    let players = pairs.get(usize::from(pair).checked_sub(1)?)?;
    players.keys.get(index).copied()
}

/// A card of the set.
fn pick(state: &mut u32, cards: CardSet) -> Option<Card> {
    let index = usize::from(small(state, 13));
    let held = cards.cards();
    held.as_slice().get(index.checked_rem(held.len())?).copied()
}

/// An action at a table that the rules ask for there, most of the time.
fn good_deed(state: &mut u32, twin: &Twin, table: u8) -> Option<Action> {
    let row = row_at(&twin.config, twin.round(), table)?;
    let story = twin.current(row)?;
    if story.deal.is_none() {
        return Some(Action::Deal {
            key: Key(100),
            board: story.board,
            hands: any_hands(state, story.board),
        });
    }
    let calls = u16::try_from(story.auction.calls().len()).ok()?;
    let Some(play) = &story.play else {
        let key = key_in(twin, row, story.auction.turn())?;
        return deed(state, key, story.board, 0, [calls, 0, 0], Card::new(0)?);
    };
    let cards = u16::try_from(play.cards().len()).ok()?;
    let made = [calls, cards, u16::from(play.claims())];
    let card = pick(state, play.remaining(play.turn()))?;
    let (seat, kind) = if play.claim().is_some() {
        let seat = Seat::North.clockwise(usize::from(small(state, 4)));
        (seat, next(state, 6) / 5 + 3)
    } else {
        (play.actor(), next(state, 6) / 5 + 1)
    };
    let key = key_in(twin, row, seat)?;
    deed(state, key, story.board, kind, made, card)
}

pub fn any_action(state: &mut u32, twin: &Twin) -> Option<Action> {
    match next(state, 10) {
        0 => any_deed(state),
        1 => ruling(state, u8::try_from(twin.round()).ok()?),
        _ => {
            let table = small(state, 3).saturating_add(1);
            good_deed(state, twin, table)
        }
    }
}
