//! The configuration and the round, read from the parts before those of the boards.
ghost use Rattle.std.specs.Prelude.{◌≡◌, ◌≢◌, ◌↔◌, ◌+◌, ◌*◌, ◌<◌, ◌≤◌, length, map, take, slice_index, IfSome, IfNone, IsTrue, Any};
ghost use Rattle.bridge_movement.specs.Shape.{IsShape, row_count};
ghost use Rattle.bridge_config.specs.ConfigValue.{pair_of};
ghost use Rattle.session_bytes.specs.Parts.{pair_part};
ghost use Rattle.session_bytes.specs.PartsRead.{numbers_in, row_of_part, rows_of_part, pair_of_part, configuration_in};
ghost use Rattle.session_bytes.specs.Reading.{items_of};
ghost use Rattle.session_bytes.specs.Head.{head_parts, IsPairPart, IsMovementPart, AreHeadParts, HasHeading, IsHead, NoHead, IsRound, AreOfNoHead};

use crate::config_bytes::{write_configuration, write_movement, write_pair};
use crate::heading::{key_of, read_heading, split_text};
use arrayvec::ArrayVec;
use bridge_config::{Config, ConfigFields, PairFields, read_name};
use bridge_movement::{MOST_PAIRS, MOST_ROWS, Movement, Row, Shape};
use session_store::PAYLOAD_BYTES;

/// What the parts before those of the boards state.
#[derive(Drop)]
pub struct Head {
    /// The configuration.
    pub config: Config,
    /// From 1 to one more than the last round.
    pub round: u8,
}

/// The row of an index, whose pairs and set stand there.
fn row_at(shape: Shape, part: &[u8], index: usize) -> Row
    requires shape { IsShape shape }
    requires within { index < row_count shape }
    requires bytes { length part.now ≡ row_count shape * 3 }
    ensures { result ≡ row_of_part shape.tables part.now index }
{
    let tables = usize::from(shape.tables);
    Row {
        round: (index / tables) as u8 + 1,
        table: (index % tables) as u8 + 1,
        ns: part[index * 3],
        ew: part[index * 3 + 1],
        set: part[index * 3 + 2],
    }
}

/// The rows of a movement of that shape, if there are as many bytes as it takes.
fn read_rows(shape: Shape, part: &[u8]) -> Option<ArrayVec<Row, MOST_ROWS>>
    requires { IsShape shape }
    ensures some { IfSome result (λ rows. rows.items ≡ rows_of_part shape part.now) }
    ensures none { IfNone result (length part.now ≢ row_count shape * 3) }
{
    let count = shape.row_count();
    if part.len() != count * 3 {
        return None;
    }
    let mut rows = ArrayVec::new();
    for index in 0..count {
        rows.push(row_at(shape, part, index));
    }
    Some(rows)
}

/// The pair that a part states, if it is in form.
fn read_pair(part: &[u8]) -> Option<PairFields>
    ensures some { IfSome result (λ pair. pair_of pair ≡ pair_of_part part.now) }
    ensures none { IfNone result (¬ IsPairPart part.now) }
{
    let (first, rest) = split_text(part);
    let first = read_name(first)?;
    if rest.len() < 4 {
        return None;
    }
    let (key, rest) = rest.split_at(4);
    let (second, rest) = split_text(rest);
    let second = read_name(second)?;
    if rest.len() != 4 {
        return None;
    }
    Some(PairFields {
        names: [first, second],
        keys: [key_of(key), key_of(rest)],
    })
}

/// The pairs that parts state, if each is in form.
fn read_pairs(parts: &[ArrayVec<u8, PAYLOAD_BYTES>]) -> Option<ArrayVec<PairFields, MOST_PAIRS>>
    requires { length parts.now ≤ 24 }
    ensures some { IfSome result (λ pairs. map pair_of pairs.items ≡ map pair_of_part (map items_of parts.now)) }
    ensures none { IfNone result (Any (λ part. ¬ IsPairPart part.items) parts.now) }
{
    let mut pairs = ArrayVec::new();
    for part in parts {
        pairs.push(read_pair(part.as_slice())?);
    }
    Some(pairs)
}

/// The movement of that shape that a part states, if it is one.
fn movement_of(shape: Shape, part: &[u8]) -> Option<Movement>
    requires { IsShape shape }
    ensures some { IfSome result (λ movement. movement ≡ record { shape = shape; rows = rows_of_part shape part.now }) }
    ensures none { IfNone result (¬ IsMovementPart shape part.now) }
{
    let rows = read_rows(shape, part)?;
    Movement::from_rows(shape, rows.as_slice()).ok()
}

/// The configuration and the round that the first part, the second, and those of the pairs state.
fn read_parts(first: &[u8], second: &[u8], rest: &[ArrayVec<u8, PAYLOAD_BYTES>]) -> Option<Head>
    ensures config { IfSome result (λ head. head.config ≡ configuration_in first.now second.now (map items_of rest.now)) }
    ensures round { IfSome result (λ head. head.round ≡ slice_index (numbers_in first.now) 11) }
    ensures none { IfNone result (¬ AreHeadParts first.now second.now (map items_of rest.now)) }
{
    let heading = read_heading(first)?;
    if !heading.shape.is_within_limits() {
        return None;
    }
    let movement = movement_of(heading.shape, second)?;
    let count = usize::from(heading.shape.pairs);
    if rest.len() < count {
        return None;
    }
    let (pairs, _) = rest.split_at(count);
    let pairs = read_pairs(pairs)?;
    let config = Config::from_fields(ConfigFields {
        event: heading.event,
        site: heading.site,
        date: heading.date,
        scoring: heading.scoring,
        boards: heading.boards,
        movement,
        director: heading.director,
        pairs,
    })?;
    Some(Head {
        config,
        round: heading.round,
    })
}

/// Whether the first part and the second are those of the configuration and the round.
fn has_heading(head: &Head, first: &[u8], second: &[u8]) -> bool
    ensures { IsTrue result ↔ HasHeading head.now.config head.now.round first.now second.now }
{
    let mut part = ArrayVec::new();
    write_configuration(&head.config, head.round, &mut part);
    if part.as_slice() != first {
        return false;
    }
    part.clear();
    write_movement(head.config.fields().movement.rows(), &mut part);
    part.as_slice() == second
}

/// Whether the part is that of the pair.
fn is_part_of(pair: &PairFields, part: &[u8]) -> bool
    ensures { IsTrue result ↔ pair_part (pair_of pair.now) ≡ part.now }
{
    let mut written = ArrayVec::new();
    write_pair(pair, &mut written);
    written.as_slice() == part
}

/// Whether the parts begin with those of the pairs.
fn have_pairs(pairs: &[PairFields], parts: &[ArrayVec<u8, PAYLOAD_BYTES>]) -> bool
    ensures { IsTrue result ↔ map (λ pair. pair_part (pair_of pair)) pairs.now ≡ take (length pairs.now) (map items_of parts.now) }
{
    if parts.len() < pairs.len() {
        return false;
    }
    for (index, pair) in pairs.iter().enumerate() {
        if !is_part_of(pair, parts[index].as_slice()) {
            return false;
        }
    }
    true
}

/// Whether the round is one of the configuration or the one after the last, and the parts begin with those of the head.
fn is_head(head: &Head, first: &[u8], second: &[u8], rest: &[ArrayVec<u8, PAYLOAD_BYTES>]) -> bool
    ensures { IsTrue result ↔ IsHead head.now.config head.now.round first.now second.now (map items_of rest.now) }
{
    let fields = head.config.fields();
    let last = fields.movement.shape().rounds + 1;
    if head.round < 1 || last < head.round {
        return false;
    }
    if !has_heading(head, first, second) {
        return false;
    }
    have_pairs(fields.pairs.as_slice(), rest)
}

/// The same of the first part, the second, and the rest.
fn head_of(first: &[u8], second: &[u8], rest: &[ArrayVec<u8, PAYLOAD_BYTES>]) -> Option<Head>
    ensures written { IfSome result (λ head. IsHead head.config head.round first.now second.now (map items_of rest.now)) }
    ensures other { IfNone result (NoHead first.now second.now (map items_of rest.now)) }
{
    let head = read_parts(first, second, rest)?;
    if is_head(&head, first, second, rest) {
        Some(head)
    } else {
        None
    }
}

/// What the parts before those of the boards state, where these are the parts of a configuration and a round; `None` where
/// they are those of none.
pub fn read_head(parts: &[ArrayVec<u8, PAYLOAD_BYTES>]) -> Option<Head>
    ensures written { IfSome result (λ head. head_parts head.config head.round ≡ take (2 + length head.config.pairs) (map items_of parts.now)) }
    ensures round { IfSome result (λ head. IsRound head.config head.round) }
    ensures other { IfNone result (AreOfNoHead (map items_of parts.now)) }
{
    let (first, rest) = parts.split_first()?;
    let (second, rest) = rest.split_first()?;
    head_of(first.as_slice(), second.as_slice(), rest)
}
