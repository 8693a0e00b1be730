//! Text for a terminal.
use std::fmt;
use std::io::Write;

/// A writer to which text goes with each control character but a line's end spelt out, so that none of them, as a word of
/// the command line may hold it, does anything to a terminal.
#[derive(Drop)]
pub struct Printable<'a, W> {
    /// The writer below.
    pub writer: &'a mut W,
}

impl<W: Write> fmt::Write for Printable<'_, W> {
    fn write_str(&mut self, text: &str) -> fmt::Result {
        for character in text.chars() {
            let written = if character.is_control() && character != '\n' {
                write!(self.writer, "{}", character.escape_default())
            } else {
                write!(self.writer, "{character}")
            };
            written.or(Err(fmt::Error))?;
        }
        Ok(())
    }
}
