//! What a server listens on, be it TCP or a Unix socket.

ghost use Rattle.std.specs.Prelude.{◌≡◌, IfOk, IfErr, Some, None, string_bytes};
ghost use Rattle.lmtpd_listen.specs.Opened.{IsClient, IsEndpoint, socket_path};

use crate::client::ClientSocket;
use crate::fault::last_error;
use lmtp_lane::{Endpoint, Listener, WAIT_MS};
use lmtp_talk::Client;
use os::FromRawFd;
use std::io;
use std::net::TcpListener;
use std::os::fd::{AsFd, AsRawFd, BorrowedFd, OwnedFd, RawFd};
use std::os::unix::net::{UnixListener, UnixStream};
use std::time::Duration;

/// What a server listens on. An accept waits `WAIT_MS` at most, and takes no memory. It is closed where it is dropped.
#[derive(Drop)]
pub struct ServerSocket {
    listening: Listening,
}

// The text of a Unix socket is where it listens.
#[derive(Drop)]
enum Listening {
    Tcp(TcpListener),
    Unix(UnixListener, String),
}

impl ServerSocket {
    /// Over a socket of TCP that listens.
    pub(crate) fn of_tcp(listener: TcpListener) -> io::Result<ServerSocket>
        ensures { IfOk result (λ socket. socket_path socket ≡ None) }
    {
        bound_wait(listener.as_raw_fd())?;
        Ok(ServerSocket {
            listening: Listening::Tcp(listener),
        })
    }

    /// Over a Unix socket that listens there, or is to.
    pub(crate) fn of_unix(listener: UnixListener, path: String) -> io::Result<ServerSocket>
        ensures { IfOk result (λ socket. socket_path socket ≡ Some (string_bytes path)) }
    {
        bound_wait(listener.as_raw_fd())?;
        Ok(ServerSocket {
            listening: Listening::Unix(listener, path),
        })
    }
}

impl AsFd for ServerSocket {
    fn as_fd(&self) -> BorrowedFd<'_> {
        match &self.listening {
            Listening::Tcp(listener) => listener.as_fd(),
            Listening::Unix(listener, _) => listener.as_fd(),
        }
    }
}

impl AsRawFd for ServerSocket {
    fn as_raw_fd(&self) -> RawFd {
        self.as_fd().as_raw_fd()
    }
}

impl Listener for ServerSocket {
    type Stream = ClientSocket;

    ghost use Rattle.std.specs.Prelude.{⊤};

    ghost MayFail = { λ _ _. ⊤ };

    fn accept(&self) -> io::Result<(ClientSocket, Client)>
        ensures { IfOk result (λ accepted. IsClient (socket_path self.now) accepted.0 accepted.1) }
    {
        match &self.listening {
            Listening::Tcp(listener) => {
                let (stream, address) = listener.accept()?;
                // what waits to be sent would only be sent later
                let _ = stream.set_nodelay(true);
                Ok((ClientSocket::Tcp(stream), Client::Ip(address.ip())))
            }
            Listening::Unix(listener, _) => {
                let (stream, _) = listener.accept()?;
                Ok((ClientSocket::Unix(stream), Client::Unix))
            }
        }
    }

    fn endpoint(&self) -> io::Result<Endpoint<'_>>
        ensures ok { IfOk result (IsEndpoint (socket_path self.now)) }
        ensures err { IfErr result (λ _. socket_path self.now ≡ None) }
    {
        match &self.listening {
            Listening::Tcp(listener) => Ok(Endpoint::Ip(listener.local_addr()?)),
            Listening::Unix(_, path) => Ok(Endpoint::Unix(path.as_str())),
        }
    }
}

// An accept of the socket fails after that time. The time is the socket's, whichever descriptor it is set by, and std
// sets one by a stream alone.
fn bound_wait(fd: RawFd) -> io::Result<()> {
    let handle = UnixStream::from(duplicate(fd)?);
    handle.set_read_timeout(Some(Duration::from_millis(WAIT_MS)))
}

/// Another descriptor of what is open there, closed when a program is started.
pub(crate) fn duplicate(fd: RawFd) -> io::Result<OwnedFd> {
    let copy = os::duplicate(fd);
    if copy < 0 {
        return Err(last_error());
    }
    // Safe: the system has just made the descriptor, so that nothing else knows its number or closes it.
    Ok(unsafe { OwnedFd::from_raw_fd(copy) })
}
