//! A spool, which takes the bytes of a mailbox at its end, in turns, and text that is quoted on its way there.
//!
//! The layer above writes to any `Spool`: by `append_all` what stands as it is, by a `QuotedText` what comes in pieces,
//! with its From lines quoted, and by `mend` what an old mailbox lacks at its end. Or it is a spool itself: lists its
//! `Turns`, tells by a `Tail` how its bytes end, and copies lines by `copy_lines`.
//! What a text is a part of, and what a spool is made of, is never asked here: the one that stands here is in memory,
//! and nobody else changes it.
#![tactic(auto)]

mod append;
mod copying;
mod from_line;
mod lines;
mod memory;
mod mending;
mod pending;
mod quoted;
mod spool;
mod tail;
mod turns;

pub use append::append_all;
pub use copying::{Copied, LINES_ROOM, copy_lines};
pub use memory::MemorySpool;
pub use mending::mend;
pub use quoted::QuotedText;
pub use spool::{InUse, Spool, SpoolFault};
pub use tail::{Tail, tail_after, tail_of, tail_of_last, what_mends};
pub use turns::{Listed, Turns};
