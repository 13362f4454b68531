//! A client's stream, be it TCP or a Unix socket.

use lmtp_tcp::ClientStream;
use std::io;
use std::io::{Read, Write};
use std::net::{Shutdown, TcpStream};
use std::os::unix::net::UnixStream;
use std::time::Duration;

/// The stream of a client who was accepted. It is closed where it is dropped, and tells contracts nothing of its bytes.
#[derive(Drop)]
pub enum ClientSocket {
    Tcp(TcpStream),
    Unix(UnixStream),
}

impl Read for ClientSocket {
    fn read(&mut self, buffer: &mut [u8]) -> io::Result<usize> {
        match self {
            ClientSocket::Tcp(stream) => stream.read(buffer),
            ClientSocket::Unix(stream) => stream.read(buffer),
        }
    }
}

impl Write for ClientSocket {
    fn write(&mut self, bytes: &[u8]) -> io::Result<usize> {
        match self {
            ClientSocket::Tcp(stream) => stream.write(bytes),
            ClientSocket::Unix(stream) => stream.write(bytes),
        }
    }

    fn flush(&mut self) -> io::Result<()> {
        match self {
            ClientSocket::Tcp(stream) => stream.flush(),
            ClientSocket::Unix(stream) => stream.flush(),
        }
    }
}

impl ClientStream for ClientSocket {
    fn shutdown_write(&self) -> io::Result<()> {
        match self {
            ClientSocket::Tcp(stream) => stream.shutdown(Shutdown::Write),
            ClientSocket::Unix(stream) => stream.shutdown(Shutdown::Write),
        }
    }

    fn set_nonblocking(&self, nonblocking: bool) -> io::Result<()> {
        match self {
            ClientSocket::Tcp(stream) => stream.set_nonblocking(nonblocking),
            ClientSocket::Unix(stream) => stream.set_nonblocking(nonblocking),
        }
    }

    fn set_read_timeout(&self, time: Duration) -> io::Result<()> {
        match self {
            ClientSocket::Tcp(stream) => stream.set_read_timeout(Some(time)),
            ClientSocket::Unix(stream) => stream.set_read_timeout(Some(time)),
        }
    }

    fn set_write_timeout(&self, time: Duration) -> io::Result<()> {
        match self {
            ClientSocket::Tcp(stream) => stream.set_write_timeout(Some(time)),
            ClientSocket::Unix(stream) => stream.set_write_timeout(Some(time)),
        }
    }
}
