//! The line of standard error that a fault has.
ghost use Rattle.std.specs.Prelude.{◌≡◌, ◌≤◌, length};
ghost use Rattle.makeable_deals.specs.FaultLine.{refused_name, deals_line, makeable_line};

use crate::file::MakeableFault;
use crate::refused::{DealsFault, DealsRefused};
use arrayvec::ArrayString;
use line_text::number_text;

/// The most bytes of a line.
pub const FAULT_LINE_BYTES: usize = 48;

/// The line of a fault.
pub type FaultLine = ArrayString<FAULT_LINE_BYTES>;

/// The name of what is wrong with a line.
fn refused_name(cause: DealsRefused) -> &'static str
    ensures name { result.now ≡ refused_name cause }
    ensures short { length result.now ≤ 12 }
{
    match cause {
        DealsRefused::Board => "Board",
        DealsRefused::Dealer => "Dealer",
        DealsRefused::Vulnerable => "Vulnerable",
        DealsRefused::Deal => "Deal",
        DealsRefused::NoBoard => "NoBoard",
        DealsRefused::TooManyLines => "TooManyLines",
    }
}

/// The text as a line.
fn line_of(text: &str) -> FaultLine
    requires { length text.now ≤ FAULT_LINE_BYTES }
    ensures { result.bytes ≡ text.now }
{
    let mut line = FaultLine::new();
    line.push_str(text);
    line
}

/// The line of a text of deals that is refused, or of memory.
fn deals_line(fault: DealsFault) -> FaultLine
    ensures { result.bytes ≡ deals_line fault }
{
    match fault {
        DealsFault::Memory => line_of("no memory\n"),
        DealsFault::Line(number, cause) => {
            let mut line = FaultLine::new();
            line.push_str("deals line ");
            line.push_str(number_text(number).as_str());
            line.push_str(": ");
            line.push_str(refused_name(cause));
            line.push_str("\n");
            line
        }
    }
}

/// The line of a fault.
pub fn makeable_line(fault: MakeableFault) -> FaultLine
    ensures { result.bytes ≡ makeable_line fault }
{
    match fault {
        MakeableFault::Read => line_of("cannot read input\n"),
        MakeableFault::Write => line_of("cannot write output\n"),
        MakeableFault::LongText => line_of("deals: LongText\n"),
        MakeableFault::Deals(fault) => deals_line(fault),
    }
}
