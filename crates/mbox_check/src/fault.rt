//! What is wrong with a mailbox, and why nothing was found of it.

use thiserror::Error;

/// What is wrong with a mailbox, and the first byte with which it is: see the definitions `BreaksAt` and `IsInLetter`.
/// Places count from 0 and stay at 2^64 - 1.
#[derive(Clone, Copy, Debug, PartialEq, Eq, Error)]
pub enum BadForm {
    /// It doesn't begin with a From line.
    #[error("no From line at byte {place}")]
    NoFromLine { place: u64 },
    /// A letter has no empty line at its end: the one of that number, from 1, whose From line begins at `start`. The
    /// number stays at 2^64 - 1, and the start at 2^64 - 5.
    #[error("no empty line before byte {place}, in letter {letter}, which begins at byte {start}")]
    NoEmptyLine { place: u64, letter: u64, start: u64 },
}

/// The reader failed, for another cause than `ErrorKind::Interrupted`, or gave no end in 2^64 - 1 reads.
#[derive(Clone, Copy, Debug, PartialEq, Eq, Error)]
#[error("the mailbox can't be read")]
pub struct Unread;
