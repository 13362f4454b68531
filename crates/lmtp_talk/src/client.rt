//! Who a client is, and how much came and went over its connection.

use std::fmt;
use std::fmt::{Display, Formatter};
use std::net::IpAddr;
use std::time::Duration;

/// A client, as the log names it.
#[derive(Clone, Copy, Debug, PartialEq, Eq)]
pub enum Client {
    /// One who connected over TCP, from this address.
    Ip(IpAddr),
    /// One who connected to a Unix socket.
    Unix,
}

impl Display for Client {
    fn fmt<W: fmt::Write>(&self, f: &mut Formatter<W>) -> fmt::Result {
        match self {
            Client::Ip(address) => write!(f, "{address}"),
            Client::Unix => f.write_str("unix"),
        }
    }
}

/// A client, when its conversation began, and how many bytes came and went. Each count stays at its largest value.
#[derive(Clone, Copy, PartialEq, Eq)]
pub struct Traffic {
    pub client: Client,
    /// When the conversation began, by a clock that only rises; where there is none it is the largest moment there is.
    pub began: Duration,
    /// The bytes that were read.
    pub read: u64,
    /// The bytes that were written.
    pub written: u64,
}
