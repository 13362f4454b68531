//! The conversation of an LMTP server with one client, over any peer and any delivery (RFC 2033, RFC 5321).
//!
//! A lane uses `serve`: what was read has a complete account, what was written is its replies (a prefix of them after a
//! failed write), and the delivery got its messages. A peer over a stream reads it by a `ReadBuffer`, and lends pieces
//! of that. It never knows what is done with a message, what a peer is and why it says stop, or what a log shows: an
//! `Observer` is told each reply that answers a line or data.
#![tactic(auto)]

mod bad_commands;
mod client;
mod conversation;
mod delivery;
mod dialogue;
mod ending;
mod handling;
mod observer;
mod outbox;
mod pause;
mod peer;
mod read_buffer;
mod retry;
mod telling;

pub use client::{Client, Traffic};
pub use conversation::serve;
pub use delivery::Delivery;
pub use dialogue::Dialogue;
pub use ending::EndCause;
pub use observer::Observer;
pub use outbox::Outbox;
pub use pause::Pause;
pub use peer::{Came, Peer, PeerFault};
pub use read_buffer::ReadBuffer;
pub use retry::{read_some, write_some};
pub use telling::{Arrived, Asked};
