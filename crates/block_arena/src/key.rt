//! Keys of messages.

/// A slot of the arena, and the generation under which its draft was begun.
#[derive(Clone, Copy, PartialEq, Eq)]
pub struct Key {
    pub slot: u32,
    pub generation: u64,
}
