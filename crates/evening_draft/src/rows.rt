//! The lines of a movement.
ghost use Rattle.std.specs.Prelude.{◌≡◌, ◌≤◌, ◌∷◌, [], length, map};
ghost use Rattle.std.specs.Fmt.{decimal};
ghost use Rattle.line_text.specs.Words.{spaced};
ghost use Rattle.line_text.specs.Streams.{stream, Written};
ghost use Rattle.bridge_config.specs.Spelling.{mitchell_line, shape_text, row_text};
ghost use Rattle.evening_draft.specs.ConfigText.{ended, text_of, movement_lines};

use crate::form::MovementForm;
use crate::line::{line_of_six, line_of_two};
use bridge_movement::{Movement, Row, Shape};
use line_text::{Five, number_text, write_text};
use page_layout::PageText;
use std::io::{Error, Write};

/// A line of a keyword and five numbers.
fn line_of_numbers(keyword: &[u8], numbers: [u8; 5]) -> PageText
    requires { length keyword.now ≤ 24 }
    ensures { result.items ≡ ended (spaced (keyword.now ∷ map decimal numbers)) }
{
    let [first, second, third, fourth, fifth] = numbers;
    let first = number_text(u32::from(first));
    let second = number_text(u32::from(second));
    let third = number_text(u32::from(third));
    let fourth = number_text(u32::from(fourth));
    let fifth = number_text(u32::from(fifth));
    let words = Five {
        first: first.as_str().as_bytes(),
        second: second.as_str().as_bytes(),
        third: third.as_str().as_bytes(),
        fourth: fourth.as_str().as_bytes(),
        fifth: fifth.as_str().as_bytes(),
    };
    line_of_six(keyword, words)
}

/// The line of a row.
fn row_line(row: Row) -> PageText
    ensures { result.items ≡ ended (row_text row) }
{
    line_of_numbers(b"ROW", [row.round, row.table, row.ns, row.ew, row.set])
}

/// The line of a shape.
fn shape_line(shape: Shape) -> PageText
    ensures { result.items ≡ ended (shape_text shape) }
{
    let numbers = [
        shape.tables,
        shape.rounds,
        shape.sets,
        shape.pairs,
        shape.split,
    ];
    line_of_numbers(b"MOVEMENT", numbers)
}

/// The line of a Mitchell movement.
fn mitchell_line(tables: u8) -> PageText
    ensures { result.items ≡ ended (mitchell_line tables) }
{
    line_of_two(
        b"MITCHELL",
        number_text(u32::from(tables)).as_str().as_bytes(),
    )
}

/// Writes a row.
fn write_row<W: Write>(row: Row, writer: &mut W) -> Result<(), Error>
    ensures { Written (stream W.contents writer.old writer.new) (ended (row_text row)) result }
{
    let line = row_line(row);
    write_text(writer, line.as_slice())
}

/// Writes rows.
fn write_rows<W: Write>(rows: &[Row], writer: &mut W) -> Result<(), Error>
    ensures { Written (stream W.contents writer.old writer.new) (text_of (map row_text rows.now)) result }
{
    for row in rows {
        write_row(*row, writer)?;
    }
    Ok(())
}

/// Writes a shape.
fn write_shape<W: Write>(shape: Shape, writer: &mut W) -> Result<(), Error>
    ensures { Written (stream W.contents writer.old writer.new) (ended (shape_text shape)) result }
{
    let line = shape_line(shape);
    write_text(writer, line.as_slice())
}

/// Writes the number of tables of a Mitchell.
fn write_mitchell<W: Write>(tables: u8, writer: &mut W) -> Result<(), Error>
    ensures { Written (stream W.contents writer.old writer.new) (text_of (mitchell_line tables ∷ [])) result }
{
    let line = mitchell_line(tables);
    write_text(writer, line.as_slice())
}

/// Writes a shape and its rows.
fn write_shape_and_rows<W: Write>(shape: Shape, rows: &[Row], writer: &mut W) -> Result<(), Error>
    ensures { Written (stream W.contents writer.old writer.new)
        (text_of (shape_text shape ∷ map row_text rows.now)) result }
{
    write_shape(shape, writer)?;
    write_rows(rows, writer)
}

/// Writes a movement in that form.
pub fn write_movement<W: Write>(
    form: MovementForm,
    movement: &Movement,
    writer: &mut W,
) -> Result<(), Error>
    ensures { Written (stream W.contents writer.old writer.new) (text_of (movement_lines form movement.now)) result }
{
    match form {
        MovementForm::Mitchell => write_mitchell(movement.shape().tables, writer),
        MovementForm::Rows => write_shape_and_rows(movement.shape(), movement.rows(), writer),
    }
}
