//! Where readers go on.

/// A block of a message, and how many stand before it: where a reader goes on. It is a hint: one that is not of the
/// message that is read costs the walk from its first block.
#[derive(Clone, Copy, Default, PartialEq, Eq)]
pub struct Bookmark {
    pub(crate) index: u32,
    pub(crate) block: u32,
}
