//! What serving lines has done.
/// What was served.
#[derive(Clone, Copy, Debug, PartialEq, Eq)]
pub struct Served {
    /// Complete lines.
    pub lines: u32,
    /// Actions that were accepted.
    pub accepted: u32,
    /// Whether the store has failed.
    pub failed: bool,
}

/// What was served, and how many of the complete lines had a key that is nobody's.
#[derive(Clone, Copy, Debug, PartialEq, Eq)]
pub struct ServedKeys {
    /// What was served.
    pub served: Served,
    /// How many lines had a key that is nobody's.
    pub wrong_keys: u64,
}
