//! What a worker says of its run.

/// What a worker did. Counts stay at their largest value.
#[derive(Clone, Copy, PartialEq, Eq)]
pub struct Tally {
    /// The copies that it took.
    pub taken: u64,
    /// Those of them that it stored.
    pub stored: u64,
    /// Those that were over the quota.
    pub over: u64,
    /// Those whose turn at the mailbox was missed.
    pub in_use: u64,
    /// Whether the last turn that was had broke.
    pub faulty: bool,
}
