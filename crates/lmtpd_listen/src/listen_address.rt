//! Where a server is to listen.

ghost use Rattle.std.specs.Prelude.{◌≡◌, ◌≢◌, ◌↔◌, MatchResult, IsTrue};
ghost use Rattle.std.specs.Net.Socket.{socket_port};
ghost use Rattle.std.specs.Net.Grammar.{IsSocketText};
ghost use Rattle.lmtpd_listen.specs.Listening.{IsNoAddress, IsRefused, IsSocketPath, Names};

use crate::fault::ListenFault;
use std::net::SocketAddr;

/// The port of SMTP, on which no LMTP server may listen (RFC 2033, section 5).
pub const SMTP_PORT: u16 = 25;

/// A path of a Unix socket has fewer bytes: the system keeps it in as many, and a byte after it is 0.
const PATH_LIMIT: usize = 108;

/// Where a server is to listen.
#[derive(Clone, Copy, Debug, PartialEq, Eq)]
pub enum ListenAddress<'a> {
    /// An address and a port of TCP.
    Tcp(SocketAddr),
    /// A Unix socket, whose file is made at this path.
    Unix(&'a str),
    /// The socket that the program was started with.
    Inherited,
}

/// What the text names: `inherited`, `unix:PATH`, or a host and a port.
pub fn listen_address_of<'a>(text: &'a str) -> Result<ListenAddress<'a>, ListenFault>
    ensures { MatchResult result (Names text.now) (IsRefused text.now) }
{
    if text == "inherited" {
        return Ok(ListenAddress::Inherited);
    }
    match text.strip_prefix("unix:") {
        Some(path) => {
            if is_socket_path(path) {
                Ok(ListenAddress::Unix(path))
            } else {
                Err(ListenFault::Address)
            }
        }
        None => Ok(ListenAddress::Tcp(address_of(text)?)),
    }
}

// Whether the system takes the path for a socket.
fn is_socket_path(path: &str) -> bool
    ensures { IsTrue result ↔ IsSocketPath path.now }
{
    let bytes = path.as_bytes();
    !bytes.is_empty() && bytes.len() < PATH_LIMIT && !bytes.contains(&0)
}

// The address and port that the text names; an IPv6 address stands in brackets.
fn address_of(text: &str) -> Result<SocketAddr, ListenFault>
    ensures { MatchResult result (λ address. IsSocketText text.now address × (socket_port address ≢ SMTP_PORT))
        (IsNoAddress text.now) }
{
    match text.parse::<SocketAddr>() {
        Ok(address) if address.port() == SMTP_PORT => Err(ListenFault::Port),
        Ok(address) => Ok(address),
        Err(_) => Err(ListenFault::Address),
    }
}
