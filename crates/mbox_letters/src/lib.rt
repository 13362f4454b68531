//! The letters of a mailbox (RFC 4155, mboxrd), as they are read back.
#![tactic(auto)]

mod letter;
mod reading;

pub use letter::Letter;
pub use reading::{BadMailbox, read_mailbox};
