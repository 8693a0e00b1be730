//! Why `draft` or `slips` stops.
use bridge_config::ConfigFault;
use evening_draft::NamesFault;

/// Why no evening is made of a list of names, or no slips.
#[derive(Clone, Copy, Debug, PartialEq, Eq)]
pub enum EveningFault {
    /// A file cannot be read.
    Read,
    /// Standard output cannot be written.
    Write,
    /// There are no random numbers.
    Random,
    /// The clock cannot be read, or it shows a year after 9999.
    Clock,
    /// The configuration is refused.
    Config(ConfigFault),
    /// The list of names is refused.
    Names(NamesFault),
    /// The list is longer than 16,384 bytes.
    LongList,
    /// The list has another number of pairs than the configuration.
    OtherPairs,
    /// The name that is given of the movement is none.
    NoMovement,
    /// The name that is given of the scoring is none.
    NoScoring,
    /// The seed that is given is none.
    Seed,
    /// There is no such movement for so many pairs.
    Movement,
    /// The seed gives too few different keys.
    Keys,
    /// The event or the site is no name, or the date is none.
    Heading,
    /// The address is longer than 100 bytes.
    Address,
}
