//! What is left of a shape and of a row where the last pair is lacking.
ghost use Rattle.std.specs.Prelude.{◌≡◌, ◌≤◌};
ghost use Rattle.bridge_movement.specs.HalfTable.{unless_lacking, row_without, shape_without_last};

use crate::row::Row;
use crate::shape::Shape;

/// The shape with one pair less.
pub(crate) fn shape_without_last(shape: Shape) -> Shape
    requires { 3 ≤ shape.pairs }
    ensures { result ≡ shape_without_last shape }
{
    Shape {
        pairs: shape.pairs - 1,
        split: shape.split.min(shape.pairs - 1),
        ..shape
    }
}

/// The pair, or 0 where it is the one that is lacking.
fn unless_lacking(lacking: u8, pair: u8) -> u8
    ensures { result ≡ unless_lacking lacking pair }
{
    if pair == lacking { 0 } else { pair }
}

/// The row with nobody in the place of the pair that is lacking.
pub(crate) fn row_without(lacking: u8, row: Row) -> Row
    ensures { result ≡ row_without lacking row }
{
    Row {
        ns: unless_lacking(lacking, row.ns),
        ew: unless_lacking(lacking, row.ew),
        ..row
    }
}
