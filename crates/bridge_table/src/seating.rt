//! Who acts by a key, and where a player sits.
ghost use Rattle.std.specs.Prelude.{◌≡◌, ◌==◌, ◌<◌, ◌≤◌, slice_index, length, map, position, IfOk, IfSome, if◌then◌else◌, Some, None};
ghost use Rattle.bridge_config.specs.ConfigValue.{pair_of};
ghost use Rattle.bridge_config.specs.declared.fields.PairFields.{PairFields as PairType};
ghost use Rattle.bridge_movement.specs.Shape.{row_count, index_of_row};
ghost use Rattle.session_rules.specs.State.{has_key, player_in, player_of, is_nobodys, acting_player, director_answer, seat_on, is_closed, seating_of, is_of_set, ranking_asker, is_row_within};
ghost use Rattle.session_rules.specs.Numbers.{IsTableNumber};

use bridge_cards::{BoardNumber, Seat, Side};
use bridge_config::{Config, Key, PairFields};
use bridge_movement::{boards_before, last_board};
use session_rules::{Player, Refused, RoundNumber, Seating, TableNumber};

/// Whether the key is that of the pair's player at that index, from 0.
fn is_key_of(pair: &PairFields, index: usize, key: Key) -> bool
    requires { index < 2 }
    ensures { result ≡ (slice_index (pair_of pair.now).keys index == key.0) }
{
    pair.keys[index].0 == key.0
}

/// The index of the pair whose player's key it is.
fn index_of_key(pairs: &[PairFields], key: Key) -> Option<usize>
    ensures { result ≡ position (λ (pair : PairType). has_key key.0 (pair_of pair)) pairs.now }
{
    pairs
        .iter()
        .position(|pair| is_key_of(pair, 0, key) || is_key_of(pair, 1, key))
}

/// The player of these pairs whose key it is.
fn player_in(pairs: &[PairFields], key: Key) -> Option<Player>
    requires { length pairs.now ≤ 24 }
    ensures { result ≡ player_in (map pair_of pairs.now) key.0 }
{
    let index = index_of_key(pairs, key)?;
    Some(Player {
        pair: index as u8 + 1,
        first: is_key_of(&pairs[index], 0, key),
    })
}

/// The player whose key it is.
fn player_by(config: &Config, key: Key) -> Option<Player>
    ensures { result ≡ player_of config.now key.0 }
{
    player_in(config.fields().pairs.as_slice(), key)
}

/// Whether a key is nobody's: neither the director's nor a player's.
pub fn is_nobodys(config: &Config, key: Key) -> bool
    ensures { result ≡ is_nobodys config.now key.0 }
{
    if key == config.fields().director {
        return false;
    }
    player_by(config, key).is_none()
}

/// The player who may act by the key: `NoKey` where it is nobody's, `NotAllowed` where it is the director's.
pub fn acting_player(config: &Config, key: Key) -> Result<Player, Refused>
    ensures { result ≡ acting_player config.now key.0 }
{
    if key == config.fields().director {
        return Err(Refused::NotAllowed);
    }
    player_by(config, key).ok_or(Refused::NoKey)
}

/// Whether the director may act by the key: `NoKey` where it is nobody's, `NotAllowed` where it is a player's.
pub fn check_director(config: &Config, key: Key) -> Result<(), Refused>
    ensures { result ≡ director_answer config.now key.0 }
{
    if key == config.fields().director {
        return Ok(());
    }
    match player_by(config, key) {
        Some(_) => Err(Refused::NotAllowed),
        None => Err(Refused::NoKey),
    }
}

/// Whether rankings may be seen by the key: `NoKey` where it is nobody's, `NotAllowed` where it is a player's and the session
/// is not closed.
pub fn check_asker(config: &Config, round: u8, key: Key) -> Result<(), Refused>
    ensures { result ≡ ranking_asker config.now round key.0 }
{
    if key == config.fields().director {
        return Ok(());
    }
    match player_by(config, key) {
        Some(_) if is_closed(config, round) => Ok(()),
        Some(_) => Err(Refused::NotAllowed),
        None => Err(Refused::NoKey),
    }
}

fn seat_on(side: Side, first: bool) -> Seat
    ensures { result ≡ seat_on side first }
{
    match (side, first) {
        (Side::NorthSouth, true) => Seat::North,
        (Side::NorthSouth, false) => Seat::South,
        (Side::EastWest, true) => Seat::East,
        (Side::EastWest, false) => Seat::West,
    }
}

/// Whether the session is closed in that round.
pub fn is_closed(config: &Config, round: u8) -> bool
    ensures { result ≡ is_closed config.now round }
{
    round > config.fields().movement.shape().rounds
}

/// Where the player of the key sits in the round: `NoKey`, `NotAllowed`, `Closed` or `SitsOut` where there is no seat.
pub fn seat_by(config: &Config, round: u8, key: Key) -> Result<Seating, Refused>
    ensures seating { result ≡ seating_of config.now round key.0 }
    ensures within { IfOk result (λ seating. seating.row < row_count config.now.movement.shape) }
    ensures table { IfOk result (λ seating. IsTableNumber seating.table) }
    ensures round { IfOk result (λ seating. round ≤ 12) }
{
    let player = acting_player(config, key)?;
    if is_closed(config, round) {
        return Err(Refused::Closed);
    }
    let movement = &config.fields().movement;
    let place = movement.place(round, player.pair).ok_or(Refused::SitsOut)?;
    let before = usize::from(round.saturating_sub(1)) * usize::from(movement.shape().tables);
    Ok(Seating {
        row: before + usize::from(place.table - 1),
        table: place.table,
        seat: seat_on(place.side, player.first),
        set: place.set,
    })
}

/// Whether the board is one of the set's.
pub fn is_of_set(config: &Config, set: u8, board: BoardNumber) -> bool
    ensures { result ≡ is_of_set config.now set board }
{
    let boards = config.fields().boards;
    let board = u16::from(board.number());
    boards_before(boards, set) < board && board <= last_board(boards, set)
}

/// The index of a table's row of a round among the rows of the movement, if it has that round and table.
pub fn row_of(config: &Config, round: RoundNumber, table: TableNumber) -> Option<usize>
    ensures row { result ≡ (if is_row_within config.now.movement.shape round table then Some (index_of_row config.now.movement.shape round table) else None) }
    ensures within { IfSome result (λ index. index < row_count config.now.movement.shape) }
    ensures counted { (1 ≤ round) × (1 ≤ table) }
{
    let shape = config.fields().movement.shape();
    let round = round.number();
    let table = table.number();
    if round <= shape.rounds && table <= shape.tables {
        Some(shape.index_of_row(round, table))
    } else {
        None
    }
}
