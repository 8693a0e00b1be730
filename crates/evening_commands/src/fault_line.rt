//! The line of standard error that a fault has.
ghost use Rattle.std.specs.Prelude.{◌≡◌, ◌≤◌, length};
ghost use Rattle.evening_commands.specs.Fault.{config_line, names_name, names_line, evening_line};

use crate::fault::EveningFault;
use arrayvec::ArrayString;
use bridge_config::ConfigFault;
use evening_draft::{NamesFault, NamesRefused};
use itoa::Buffer;

/// The most bytes of a line.
pub const FAULT_LINE_BYTES: usize = 48;

/// The line of a fault.
pub type FaultLine = ArrayString<FAULT_LINE_BYTES>;

/// A text as a line.
pub fn line_of(text: &str) -> FaultLine
    requires { length text.now ≤ FAULT_LINE_BYTES }
    ensures { result.bytes ≡ text.now }
{
    let mut line = FaultLine::new();
    line.push_str(text);
    line
}

/// The line of a configuration that is refused.
pub fn config_line(fault: ConfigFault) -> FaultLine
    ensures { result.bytes ≡ config_line fault }
{
    let mut line = FaultLine::new();
    line.push_str("config line ");
    line.push_str(Buffer::new().format(fault.line));
    line.push_str(": ");
    line.push_str(fault.cause.name());
    line.push_str("\n");
    line
}

/// The name of what is wrong with a line of names.
fn names_name(cause: NamesRefused) -> &'static str
    ensures name { result.now ≡ names_name cause }
    ensures short { length result.now ≤ 12 }
{
    match cause {
        NamesRefused::OneName => "OneName",
        NamesRefused::NoName => "NoName",
        NamesRefused::NotText => "NotText",
        NamesRefused::Character => "Character",
        NamesRefused::LongName => "LongName",
        NamesRefused::TooManyPairs => "TooManyPairs",
        NamesRefused::TooFewPairs => "TooFewPairs",
        NamesRefused::TooManyLines => "TooManyLines",
    }
}

/// The line of a list of names that is refused.
fn names_line(fault: NamesFault) -> FaultLine
    ensures { result.bytes ≡ names_line fault }
{
    let mut line = FaultLine::new();
    line.push_str("names line ");
    line.push_str(Buffer::new().format(fault.line));
    line.push_str(": ");
    line.push_str(names_name(fault.cause));
    line.push_str("\n");
    line
}

/// The line that names a fault.
pub fn evening_line(fault: EveningFault) -> FaultLine
    ensures { result.bytes ≡ evening_line fault }
{
    match fault {
        EveningFault::Read | EveningFault::Random | EveningFault::Clock => line_of(
            "cannot read input\n",
        ),
        EveningFault::Write => line_of("cannot write output\n"),
        EveningFault::Config(fault) => config_line(fault),
        EveningFault::Names(fault) => names_line(fault),
        EveningFault::LongList => line_of("evening: LongList\n"),
        EveningFault::OtherPairs => line_of("evening: OtherPairs\n"),
        EveningFault::NoMovement => line_of("evening: NoMovement\n"),
        EveningFault::NoScoring => line_of("evening: NoScoring\n"),
        EveningFault::Seed => line_of("evening: Seed\n"),
        EveningFault::Movement => line_of("evening: Movement\n"),
        EveningFault::Keys => line_of("evening: Keys\n"),
        EveningFault::Heading => line_of("evening: Heading\n"),
        EveningFault::Address => line_of("evening: Address\n"),
    }
}
