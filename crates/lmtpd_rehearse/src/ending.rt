//! How a rehearsal ends.

use lmtp_house::EndCause;

/// What a rehearsal came to.
#[derive(Clone, Copy, Debug, PartialEq, Eq)]
pub struct Ending {
    pub end: EndCause,
    /// Whether a mailbox's spool failed.
    pub faulty: bool,
    /// Whether a write failed while the mailboxes were written; nothing was written after it.
    pub cut: bool,
}

/// A rehearsal's ending, with its reader and its writer handed back.
#[derive(Drop)]
pub struct Rehearsed<R, W> {
    pub ending: Ending,
    pub reader: R,
    pub writer: W,
}
