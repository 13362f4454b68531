//! What is found of a mailbox.

use crate::fault::BadForm;

/// The first NUL that was read: see the definition `IsFirstNul`. Its numbers stay where those of a `BadForm` stay.
#[derive(Clone, Copy, Debug, PartialEq, Eq)]
pub struct NulAt {
    pub place: u64,
    /// The number of the letter that has it, from 1.
    pub letter: u64,
    /// Where that letter's From line begins.
    pub start: u64,
}

/// What is found of a mailbox, which is read up to where its form breaks.
#[derive(Clone, Copy, Debug, PartialEq, Eq)]
pub struct Found {
    /// How many letters it has, a count that stays at 2^64 - 1, or what is wrong with it.
    pub letters: Result<u64, BadForm>,
    pub nul: Option<NulAt>,
}
