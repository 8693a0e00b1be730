//! Numbers that nothing can be made of.
use thiserror::Error;

/// A number outside the range of what was to be made of it.
#[derive(Clone, Copy, Debug, PartialEq, Eq, Hash, Error)]
#[error("{0} is out of range")]
pub struct OutOfRange(pub u8);
