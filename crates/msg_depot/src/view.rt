//! What the seats of the table know. No value of these types is made but of `Opening`.

use std::collections::LinkedList;

/// What one generation counts for in the word of a slot. The slot's weight stays below it.
pub const GENERATION_UNIT: u64 = 65_536;

/// What a slot is in use for.
pub enum Phase {
    Free,
    Drafted,
    Sealed,
    Retired,
}

/// The keeper's entry of a slot.
pub struct Entry {
    pub phase: Phase,
    pub generation: u64,
    pub bytes: LinkedList<u8>,
}

/// What a seat has a claim to.
pub enum Kind {
    Nothing,
    Draft,
    Hold,
    Spent,
}

/// A message, and the weight with which it is held.
pub struct Claim {
    pub slot: u64,
    pub generation: u64,
    pub bytes: LinkedList<u8>,
    pub weight: u64,
}

/// What a seat knows. The keeper's seat has the entries of all slots.
pub struct View {
    pub keeps: bool,
    pub book: LinkedList<Entry>,
    pub kind: Kind,
    pub claim: Claim,
}

/// How many slots a table has at its start, and their generation.
#[derive(Clone, Copy)]
pub struct Opening {
    pub slots: u32,
    pub generation: u64,
}
