//! Why a text is no configuration.
ghost use Rattle.std.specs.Prelude.{◌≡◌, ◌≤◌, length};
ghost use Rattle.bridge_config.specs.Refused.{refusal_name};

use bridge_movement::MovementRefused;
use std::fmt;
use thiserror::Error;

/// What is wrong with a line, or with the whole text.
#[derive(Clone, Copy, Debug, PartialEq, Eq, Hash)]
pub enum ConfigRefused {
    /// The text has more than 16,384 bytes.
    TooLong,
    /// The line is not the one due there: another first word, a word too few or too many, a name, a number or the date
    /// out of form, a scoring other than `MP` and `IMP`, more than 128 bytes, a line that is missing, or one after the
    /// last.
    Form,
    /// A number or the date is outside its limits, or the number of a pair is out of order.
    Range,
    /// A key stands earlier in the text.
    KeyTwice,
    /// The rows are no movement. The fault's line is that of the row at fault.
    Movement(MovementRefused),
}

impl ConfigRefused {
    /// What is wrong, in one word of at most 10 letters.
    pub fn name(self) -> &'static str
        ensures name { result.now ≡ refusal_name self }
        ensures short { length result.now ≤ 10 }
    {
        match self {
            ConfigRefused::TooLong => "TooLong",
            ConfigRefused::Form => "Form",
            ConfigRefused::Range => "Range",
            ConfigRefused::KeyTwice => "KeyTwice",
            ConfigRefused::Movement(refused) => refused.name(),
        }
    }
}

/// The refusal's name.
impl fmt::Display for ConfigRefused {
    ghost use Rattle.std.specs.Prelude.{Some};
    ghost use Rattle.bridge_config.specs.Refused.{refusal_name};

    ghost output = { λ refused. Some (refusal_name refused) };

    fn fmt<W: fmt::Write>(&self, f: &mut fmt::Formatter<W>) -> fmt::Result {
        f.write_str(self.name())
    }
}

impl std::error::Error for ConfigRefused {}

/// The first fault of a text, with its line.
#[derive(Clone, Copy, Debug, PartialEq, Eq, Hash, Error)]
#[error("line {line}: {cause}")]
pub struct ConfigFault {
    /// The number of the line, from 1, or 0 where the text is too long.
    pub line: u32,
    /// What is wrong with it.
    pub cause: ConfigRefused,
}
