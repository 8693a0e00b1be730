//! How a configuration states its movement.
ghost use Rattle.std.specs.Prelude.{◌≡◌, IsTrue};
ghost use Rattle.evening_draft.specs.ConfigText.{IsFormOf};

use bridge_movement::{Movement, Row};

/// How a configuration states its movement.
#[derive(Clone, Copy, Debug, PartialEq, Eq)]
pub enum MovementForm {
    /// By `MITCHELL` and the number of tables.
    Mitchell,
    /// By its shape and its rows.
    Rows,
}

/// Whether the rows are the same.
fn are_same(ours: &[Row], theirs: &[Row]) -> bool
    ensures { IsTrue result → ours.now ≡ theirs.now }
{
    if ours.len() != theirs.len() {
        return false;
    }
    for (index, row) in ours.iter().enumerate() {
        if *row != theirs[index] {
            return false;
        }
    }
    true
}

/// The form in which a movement is stated: in one line where it is a Mitchell.
pub fn form_of(movement: &Movement) -> MovementForm
    ensures { IsFormOf result movement.now }
{
    let shape = movement.shape();
    let mitchell = Movement::mitchell(shape.tables);
    if mitchell.shape() == shape && are_same(movement.rows(), mitchell.rows()) {
        MovementForm::Mitchell
    } else {
        MovementForm::Rows
    }
}
