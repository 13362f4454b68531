//! What `lmtpd` writes: bytes to its output, and the lines of its log on standard error.
//!
//! The layers above write bytes by it, all of them or a prefix and a failure, and printable lines with what the journal
//! is to know. What the lines say, and to whom, is never known here.
#![tactic(auto)]

mod bytes;
mod escaped;
mod journal;
mod lines;
mod urgent;

pub use bytes::{WriteFault, hand_on, write_bytes, write_each};
pub use escaped::printable;
pub use journal::{is_journal, names_stream};
pub use lines::{ErrorLines, GOOD_NEWS, priority_in};
pub use urgent::Urgent;
