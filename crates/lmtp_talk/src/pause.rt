//! Where a conversation stands as its client is read.

/// Where a conversation stands as its client is read. At rest no line is begun and no transaction is under way, so that
/// a server that is to stop may end it there.
#[derive(Clone, Copy, Debug, PartialEq, Eq)]
pub enum Pause {
    /// In a line, in a transaction or in its data.
    Within,
    /// At rest, before the first LHLO that was taken.
    Before,
    /// At rest, after it.
    Between,
}
