//! What the lanes need of what listens, be it TCP or a Unix socket.

ghost use Rattle.std.specs.Prelude.{IfErr};
ghost use Rattle.std.specs.declared.io.Error.{Error};

use lmtp_talk::Client;
use std::io;
use std::net::SocketAddr;

/// Where a server listens.
#[derive(Clone, Copy, Debug, PartialEq, Eq)]
pub enum Endpoint<'a> {
    /// An address and a port of TCP.
    Ip(SocketAddr),
    /// The path of a Unix socket.
    Unix(&'a str),
}

/// What listens, and is shared by lanes.
pub trait Listener {
    type Stream;

    // how an accept of it may fail
    ghost MayFail: { Self → Error → Type 0 };

    /// The next client, and who it is. It waits about a second at most, and fails then (`EAGAIN`); a client that had
    /// gone before it was taken is a failure too (`ECONNABORTED`).
    fn accept(&self) -> io::Result<(Self::Stream, Client)>
        ensures { IfErr result (MayFail self.now) };

    /// Where it listens; it fails where that can't be told.
    fn endpoint(&self) -> io::Result<Endpoint<'_>>;
}
