//! A client of an LMTP server over a stream, be it TCP or a Unix socket.
//!
//! A lane uses `TcpPeer`, the peer of one conversation: what it lends is what the stream brought, and it says stop only
//! where no read is left, the client sent too many bad commands, its `Curfew` ends the conversation, or the client was
//! silent. It never knows where clients come from, what a curfew goes by, or what becomes of their lines: those that end
//! the conversation of a client at rest it leaves unread once the server is to stop.
#![tactic(auto)]

mod at_rest;
mod curfew;
mod drain;
mod silence;
mod stream;
mod tcp_peer;

pub use curfew::{Curfew, has_passed};
pub use silence::is_silence;
pub use stream::ClientStream;
pub use tcp_peer::{Bounds, TcpPeer};
