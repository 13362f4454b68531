//! What the server asks of a client's stream beside its bytes, be it TCP or a Unix socket.

use std::io;
use std::time::Duration;

/// A client's stream. Each call fails where the system refuses it.
pub trait ClientStream {
    /// Ends what is said to the client, who may still send.
    fn shutdown_write(&self) -> io::Result<()>;

    /// Whether a read that would wait fails at once (`WouldBlock`), and so a write.
    fn set_nonblocking(&self, nonblocking: bool) -> io::Result<()>;

    /// How long a read waits at most; it fails then (`WouldBlock` or `TimedOut`). No stream takes a time of 0.
    fn set_read_timeout(&self, time: Duration) -> io::Result<()>;

    /// How long a write waits at most, likewise.
    fn set_write_timeout(&self, time: Duration) -> io::Result<()>;
}
