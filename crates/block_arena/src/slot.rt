//! What the arena knows of a slot.

ghost use Rattle.std.specs.Prelude.{◌≡◌, slice_get};
ghost use Rattle.block_arena.specs.Fields.{content_at, run_of, is_stamp_of};

use crate::key::Key;
use mail_world::limits::SLOT_LIMIT;

/// A chain of blocks, and how many bytes lie in it. Every block but the last is full.
#[derive(Clone, Copy)]
pub struct Run {
    pub first: u32,
    pub last: u32,
    pub blocks: u32,
    pub length: usize,
}

/// To which message a block was handed out, and how many of its blocks stand before it.
#[derive(Clone, Copy)]
pub struct Stamp {
    pub slot: u32,
    pub index: u32,
    pub generation: u64,
}

/// The stamp of a block that was never handed out: no slot has that number.
pub const UNUSED: Stamp = Stamp {
    slot: SLOT_LIMIT,
    index: 0,
    generation: 0,
};

#[derive(Clone, Copy)]
pub enum Content {
    Free,
    Draft(Run),
    Sealed(Run, u32),
    Retired,
}

#[derive(Clone, Copy)]
pub struct Slot {
    pub generation: u64,
    pub content: Content,
}

/// The run of a draft without bytes.
pub const EMPTY: Run = Run {
    first: 0,
    last: 0,
    blocks: 0,
    length: 0,
};

/// The run of what lies in a slot.
pub fn run_in(content: Content) -> Run
    ensures { result ≡ run_of content }
{
    match content {
        Content::Draft(run) => run,
        Content::Sealed(run, _) => run,
        Content::Free | Content::Retired => EMPTY,
    }
}

impl Stamp {
    /// Whether the block was handed out to the key's message, with that many blocks before it.
    pub fn is_of(&self, key: Key, index: u32) -> bool
        ensures { result ≡ is_stamp_of self.now key index }
    {
        self.slot == key.slot && self.generation == key.generation && self.index == index
    }
}

/// What lies under the key: `Free` where its generation has gone.
pub fn content_under(slots: &[Slot], key: Key) -> Content
    ensures { result ≡ content_at (slice_get slots.now key.slot) key.generation }
{
    match slots.get(key.slot as usize) {
        Some(slot) => {
            if slot.generation == key.generation {
                slot.content
            } else {
                Content::Free
            }
        }
        None => Content::Free,
    }
}
