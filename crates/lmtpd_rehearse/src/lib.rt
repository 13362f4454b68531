//! A rehearsal: one conversation from a reader, its replies and then its mailboxes to a writer.
//!
//! The program uses `rehearse_run`: bytes in, replies and mailboxes out. It runs a server of one lane with mailboxes in
//! memory, and never knows of files or sockets.
#![tactic(auto)]

mod client;
mod clock;
mod ending;
mod output;
mod parts;
mod peer;
mod run;

pub use ending::{Ending, Rehearsed};
pub use lmtp_house::{EndCause, HouseFault};
pub use run::rehearse_run;
