//! The record of a delivered message in the mboxrd format (RFC 4155).
//!
//! A `RecordHead` is what stands in it before the message of an `Envelope`, a `RecordWriter` writes it to any spool while
//! the message comes, and a `LengthCounter` counts how long its text will be there. The layer above stores by these, and
//! has the names of what reads a mailbox back from here too.
//! In which turn a record is written, and what becomes of it after a fault, is never known here.
#![tactic(auto)]

mod envelope;
mod head;
mod lengths;
mod record;

pub use envelope::Envelope;
pub use head::RecordHead;
pub use lengths::{LengthCounter, Lengths};
pub use mbox_letters::{BadMailbox, Letter, read_mailbox};
pub use record::RecordWriter;
