//! The clients of a listener over TCP or a Unix socket, and the system's clock.

mod clock;
mod failed_accept;
mod listener;
mod share;
mod visits;

pub use clock::SystemClock;
pub use listener::{Endpoint, Listener};
pub use share::tcp_visits;
pub use visits::{TcpVisits, WAIT_MS};
