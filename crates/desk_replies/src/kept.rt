//! What is kept on the session's disks.

/// What a disk has of the session: its epoch, and the number of the epoch's records, which are the actions since its snapshot.
#[derive(Clone, Copy, Debug, PartialEq, Eq)]
pub struct KeptOn {
    /// The epoch.
    pub epoch: u64,
    /// The number of its records.
    pub records: u32,
}

/// What one disk or two have of it, in the order in which they are named.
#[derive(Clone, Copy, Debug, PartialEq, Eq)]
pub struct KeptDisks {
    /// The one that is named first.
    pub first: Option<KeptOn>,
    /// The other.
    pub second: Option<KeptOn>,
}
