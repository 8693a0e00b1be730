//! A list of names, a line a pair.
ghost use Rattle.std.specs.Prelude.{false, ◌≡◌, ◌<◌, All, IfSome, IfNone, MatchBool};
ghost use Rattle.std.specs.Str.Lines.{lines};
ghost use Rattle.evening_draft.specs.Names.{is_separator, IsSplit, ReadsSides, ReadsPair, IsLeftOut, HasPair, fault_at, TakesLine, ReadsEnd, ReadsNames};
ghost use Rattle.evening_draft.specs.NamesView.{names_seen};

use crate::names_refused::{NamesFault, NamesRefused};
use crate::person::read_person;
use crate::wishes::PairNames;
use arrayvec::ArrayVec;
use bridge_movement::MOST_PAIRS;
use line_text::first_line;

/// The fewest pairs that a movement has.
const FEWEST_PAIRS: usize = 3;

/// The pairs of a list.
type Pairs = ArrayVec<PairNames, MOST_PAIRS>;

/// Whether the byte stands between the two names of a line.
fn is_separator(byte: u8) -> bool
    ensures { result ≡ is_separator byte }
{
    byte == b'&' || byte == b'\t'
}

/// The sides of a line before and after its first separator.
fn split_pair(line: &[u8]) -> Option<(&[u8], &[u8])>
    ensures split { IfSome result (λ sides. IsSplit line.now sides.0.now sides.1.now) }
    ensures none { IfNone result (All (λ byte. is_separator byte ≡ false) line.now) }
{
    let index = line.iter().position(|byte| is_separator(*byte))?;
    Some((&line[..index], &line[index + 1..]))
}

/// The names on the two sides of a line.
fn read_sides(first: &[u8], second: &[u8]) -> Result<PairNames, NamesRefused>
    ensures { ReadsSides first.now second.now result }
{
    let first = read_person(first)?;
    let second = read_person(second)?;
    Ok(PairNames { first, second })
}

/// The pair of a line.
fn read_pair(line: &[u8]) -> Result<PairNames, NamesRefused>
    ensures { ReadsPair line.now result }
{
    match split_pair(line) {
        Some((first, second)) => read_sides(first, second),
        None => Err(NamesRefused::OneName),
    }
}

/// Whether the line is empty or begins with `#`.
fn is_left_out(line: &[u8]) -> bool
    ensures { MatchBool result (IsLeftOut line.now) (HasPair line.now) }
{
    let bare = line.trim_ascii();
    bare.is_empty() || bare[0] == b'#'
}

/// The fault of that line.
fn fault_at(line: u32, cause: NamesRefused) -> NamesFault
    ensures { result ≡ fault_at line cause }
{
    NamesFault { line, cause }
}

/// The pairs, where they are enough.
fn enough(number: u32, pairs: Pairs) -> Result<Pairs, NamesFault>
    ensures { ReadsEnd number pairs.items (names_seen result) }
{
    if pairs.len() < FEWEST_PAIRS {
        Err(fault_at(number, NamesRefused::TooFewPairs))
    } else {
        Ok(pairs)
    }
}

/// Adds the pair of a line, where it has one.
fn push_line(number: u32, line: &[u8], pairs: &mut Pairs) -> Result<(), NamesFault>
    ensures { TakesLine number line.now pairs.old.items pairs.new.items result }
{
    if is_left_out(line) {
        return Ok(());
    }
    match read_pair(line) {
        Err(cause) => Err(fault_at(number, cause)),
        Ok(_) if pairs.is_full() => Err(fault_at(number, NamesRefused::TooManyPairs)),
        Ok(pair) => {
            pairs.push(pair);
            Ok(())
        }
    }
}

/// Reads a list of names in UTF-8: a line a pair, two names with `&` or a tab between. Empty lines and lines that begin
/// with `#` are left out, and so is white space at the ends of a name. A name has at most 40 characters of any script.
///
/// There are 3 to 24 pairs, in fewer than 1,000 lines. The fault is that of the first line at fault.
pub fn read_names(text: &[u8]) -> Result<ArrayVec<PairNames, MOST_PAIRS>, NamesFault>
    ensures { ReadsNames (lines text.now) (names_seen result) }
{
    let mut pairs = Pairs::new();
    let mut rest = text;
    for number in 1..1001 {
        let Some((line, after)) = first_line(rest) else {
            return enough(number, pairs);
        };
        push_line(number, line, &mut pairs)?;
        rest = after;
    }
    Err(fault_at(1000, NamesRefused::TooManyLines))
}
