//! The movements that have names, for any number of pairs.
ghost use Rattle.std.specs.Prelude.{◌≡◌, ◌↔◌, ◌*◌, IsTrue, All, AllPairs};
ghost use Rattle.bridge_movement.specs.Fair.{IsMovement};
ghost use Rattle.bridge_movement.specs.HalfTable.{SitsOutOnce};
ghost use Rattle.bridge_movement.specs.Named.{IsFor, IsFull, IsNamed};
ghost use Rattle.bridge_movement.specs.Row.{IsLive, MeetAgain};
ghost use Rattle.bridge_movement.specs.Shape.{IsBetween};

use crate::movement::Movement;

/// A movement that has a name.
#[derive(Clone, Copy, Debug, PartialEq, Eq, Hash)]
pub enum NamedMovement {
    /// North and South stay, East and West go to higher tables, the sets to lower ones: for 3 to 24 pairs, in two fields.
    Mitchell,
    /// Each pair meets each other one and plays each set: for 3 to 12 pairs, in one field.
    Howell,
}

impl NamedMovement {
    /// Whether there is such a movement for so many pairs.
    pub fn is_for(self, pairs: u8) -> bool
        ensures { IsTrue result ↔ IsFor self pairs }
    {
        match self {
            NamedMovement::Mitchell => (3..=24).contains(&pairs),
            NamedMovement::Howell => (3..=12).contains(&pairs),
        }
    }

    /// The movement of so many tables, each of them full.
    fn of_tables(self, tables: u8) -> Movement
        requires tables { IsBetween 2 12 tables }
        requires is_for { IsFor self (2 * tables) }
        ensures full { IsFull self tables result }
        ensures meet_once { AllPairs (λ a b. ¬ MeetAgain a b) result.rows }
        ensures live { All IsLive result.rows }
    {
        match self {
            NamedMovement::Mitchell => Movement::mitchell(tables),
            NamedMovement::Howell => Movement::howell(tables),
        }
    }

    /// The movement for so many pairs. Where they are odd in number, one pair is lacking: who would meet it sits out for
    /// that round, and no pair does so twice.
    pub fn of_pairs(self, pairs: u8) -> Movement
        requires { IsFor self pairs }
        ensures named { IsNamed self pairs result }
        ensures pairs { result.shape.pairs ≡ pairs }
        ensures fair { IsMovement result.shape result.rows }
        ensures sits_out_once { SitsOutOnce result.rows }
    {
        let full = self.of_tables(pairs.div_ceil(2));
        if pairs % 2 == 0 {
            full
        } else {
            full.without_last()
        }
    }
}
