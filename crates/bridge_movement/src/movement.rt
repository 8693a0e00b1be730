//! Movements: who meets whom, where, with which boards.
ghost use Rattle.std.specs.Prelude.{◌≡◌, ◌↔◌, ◌+◌, ◌-◌, ◌*◌, ◌<◌, ◌≤◌, length, slice_get, IsOk, IfOk, IfErr, IfSome, IfNone, Some, All, AllPairs};
ghost use Rattle.bridge_movement.specs.Shape.{IsBetween, IsShape, index_of_row};
ghost use Rattle.bridge_movement.specs.Fair.{IsMovement, HasPairsWithin, HasSetWithin};
ghost use Rattle.bridge_movement.specs.Refused.{IsRefusal};
ghost use Rattle.bridge_movement.specs.Seating.{PlaysAt, PlaysOnlyAt, SitsOut, IsPlaceWithin, place_of};
ghost use Rattle.bridge_movement.specs.Row.{IsLive, MeetAgain};
ghost use Rattle.bridge_movement.specs.Mitchell.{mitchell_shape, FollowsMitchell};
ghost use Rattle.bridge_movement.specs.HalfTable.{SitsOutOnce};
ghost use Rattle.bridge_movement.specs.Named.{without_last};
ghost use Rattle.bridge_movement.specs.Howell.{howell_shape, FollowsHowell, IsHowell};

use crate::checks::{first_fault, first_misplaced};
use crate::place::{Place, place_in};
use crate::refused::MovementRefused;
use crate::row::Row;
use crate::shape::{MOST_ROWS, Shape};
use crate::{half_table, howell, mitchell};
use arrayvec::ArrayVec;
use std::marker::Model;

/// A fair movement: who meets whom, in which round, at which table, with which set of boards. No pair is in two
/// places in a round, and no pair plays a set twice. It has at most 12 rounds of 12 tables.
#[derive(Debug, Drop)]
pub struct Movement {
    /// How large it is.
    shape: Shape,
    /// The rows, by round, then by table.
    rows: ArrayVec<Row, MOST_ROWS>,
}

impl Model for Movement {
    ghost use Rattle.bridge_movement.specs.MovementValue.{MovementValue};
    ghost use Rattle.bridge_movement.specs.Shape.{IsShape};
    ghost use Rattle.bridge_movement.specs.Fair.{IsMovement};

    ghost Value = { MovementValue };

    ghost view = { λ m. record { shape = m.shape; rows = m.rows.items } };

    ghost invariant = { λ m. IsShape m.shape × IsMovement m.shape m.rows.items };
}

/// The rows, inline.
fn inline_rows(rows: &[Row]) -> ArrayVec<Row, MOST_ROWS>
    requires { length rows.now ≤ MOST_ROWS }
    ensures { result.items ≡ rows.now }
{
    let mut inline = ArrayVec::new();
    inline.try_extend_from_slice(rows).unwrap();
    inline
}

impl Movement {
    /// The Mitchell movement of 2 to 12 tables. North and South stay, East and West go to the next higher table after
    /// each round, and the sets go to the next lower. Where the tables are even in number, East and West skip a table
    /// after as many rounds as half the tables, and there is one round less.
    pub fn mitchell(tables: u8) -> Movement
        requires least { 2 ≤ tables }
        requires most { tables ≤ 12 }
        ensures shape { result.shape ≡ mitchell_shape tables }
        ensures rows { FollowsMitchell tables result.rows }
        ensures fair { IsMovement result.shape result.rows }
        ensures meet_once { AllPairs (λ a b. ¬ MeetAgain a b) result.rows }
    {
        let shape = mitchell::shape_of(tables);
        let mut rows = ArrayVec::new();
        for index in 0..shape.rounds * tables {
            rows.push(mitchell::row_of(tables, index / tables, index % tables));
        }
        Movement { shape, rows }
    }

    /// The Howell movement of 2 to 6 tables, a round for each opponent of a pair. The last pair stays, each other one goes
    /// on to where the pair before it in number was, pair 1 following the last of these, and the sets go on likewise. Each
    /// pair meets each other one once and plays each set once. At two and at three tables, all tables play one set in a
    /// round; from four on, each has its own.
    pub fn howell(tables: u8) -> Movement
        requires least { 2 ≤ tables }
        requires most { tables ≤ 6 }
        ensures shape { result.shape ≡ howell_shape tables }
        ensures rows { FollowsHowell tables result.rows }
        ensures fair { IsMovement result.shape result.rows }
        ensures howell { IsHowell result.shape result.rows }
    {
        let shape = howell::shape_of(tables);
        let mut rows = ArrayVec::new();
        for index in 0..shape.rounds * tables {
            rows.push(howell::row_of(tables, index / tables, index % tables));
        }
        Movement { shape, rows }
    }

    /// The movement in which the last pair is lacking: who would meet it sits out.
    pub fn without_last(&self) -> Movement
        requires { 3 ≤ self.now.shape.pairs }
        ensures movement { result ≡ without_last self.now }
        ensures fair { IsMovement result.shape result.rows }
        ensures sits_out_once { All IsLive self.now.rows → AllPairs (λ a b. ¬ MeetAgain a b) self.now.rows
            → SitsOutOnce result.rows }
    {
        let shape = half_table::shape_without_last(self.shape);
        let mut rows = ArrayVec::new();
        for row in self.rows.iter() {
            rows.push(half_table::row_without(self.shape.pairs, *row));
        }
        Movement { shape, rows }
    }

    /// The movement of that shape with those rows, which stand by round, then by table, one for each.
    ///
    /// Refused is the first of these: a row that isn't the one due at its index, or rows lacking or left over
    /// (`MissingRow`); then, row by row, a pair above the number of pairs (`BadPair`), a pair that meets itself
    /// (`SamePair`), a set outside 1 to the number of sets (`BadSet`), a pair that stands in an earlier row of the round
    /// (`PairTwice`), and a pair that has played the set in an earlier row (`SetAgain`).
    pub fn from_rows(shape: Shape, rows: &[Row]) -> Result<Movement, MovementRefused>
        requires { IsShape shape }
        ensures accepted { IsOk result ↔ IsMovement shape rows.now }
        ensures movement { IfOk result (λ m. m ≡ record { shape = shape; rows = rows.now }) }
        ensures refused { IfErr result (IsRefusal shape rows.now) }
    {
        if let Some(index) = first_misplaced(shape, rows) {
            return Err(MovementRefused::MissingRow(index as u16 + 1));
        }
        if let Some(refused) = first_fault(shape, rows) {
            return Err(refused);
        }
        Ok(Movement {
            shape,
            rows: inline_rows(rows),
        })
    }

    /// Where the pair plays in the round, or `None` where it sits out or there is no such round or pair. A pair without
    /// opponents sits out.
    pub fn place(&self, round: u8, pair: u8) -> Option<Place>
        ensures value { result ≡ place_of self.now.rows round pair }
        ensures plays { IfSome result (PlaysAt self.now.rows round pair) }
        ensures only { IfSome result (PlaysOnlyAt self.now.rows round pair) }
        ensures sits_out { IfNone result (SitsOut self.now.rows round pair) }
        ensures within { IfSome result (IsPlaceWithin self.now.shape) }
    {
        place_in(&self.rows, round, pair)
    }

    /// The row of that round and table, both from 1.
    pub fn row(&self, round: u8, table: u8) -> Row
        requires round { IsBetween 1 self.now.shape.rounds round }
        requires table { IsBetween 1 self.now.shape.tables table }
        ensures at { slice_get self.now.rows (index_of_row self.now.shape round table) ≡ Some result }
        ensures pairs { HasPairsWithin self.now.shape result }
        ensures set { HasSetWithin self.now.shape result }
        ensures of { (result.round ≡ round) × (result.table ≡ table) }
    {
        self.rows[self.shape.index_of_row(round, table)]
    }

    /// The rows, by round, then by table: one for each table in each round.
    pub fn rows(&self) -> &[Row]
        ensures rows { result.now ≡ self.now.rows }
        ensures most { length result.now ≤ MOST_ROWS }
        ensures limits { IsShape self.now.shape }
        ensures fair { IsMovement self.now.shape result.now }
    {
        self.rows.as_slice()
    }

    /// The number of tables, rounds, sets and pairs, and the last pair of the first field.
    pub fn shape(&self) -> Shape
        ensures shape { result ≡ self.now.shape }
        ensures limits { IsShape result }
        ensures fair { IsMovement self.now.shape self.now.rows }
    {
        self.shape
    }
}
