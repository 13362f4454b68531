//! The socket that the program was started with, as systemd passes it.

ghost use Rattle.std.specs.Prelude.{◌≡◌, IfErr, None};
ghost use Rattle.lmtpd_listen.specs.Opened.{IsListenFault, IsUnopened, socket_path};
ghost use Rattle.lmtpd_listen.specs.declared.listen_address.ListenAddress.TheVariants as listen_address;

use crate::fault::{ListenFault, Reason, last_fault};
use crate::listen_address::SMTP_PORT;
use crate::server::{ServerSocket, duplicate};
use libc::net::{POLLOUT, poll};
use libc::types::pollfd;
use std::alloc::Global;
use std::env::Env;
use std::io;
use std::net::TcpListener;
use std::os::fd::{OwnedFd, RawFd};
use std::os::unix::net::{SocketAddr, SocketAddrExt, UnixListener};

/// The first descriptor that is passed.
const PASSED: RawFd = 3;

/// More bytes than the number of a process or of descriptors has.
const NUMBER_SIZE: usize = 16;

/// Takes the one socket that was passed to this process.
pub(crate) fn take_inherited<R: Env>(rt: &R, alloc: Global) -> Result<ServerSocket, ListenFault>
    ensures { IfErr result (IsUnopened listen_address.Inherited) }
{
    let is_for_us = number_in(rt, "LISTEN_PID") == u32::try_from(libc::getpid()).ok();
    if !is_for_us || number_in(rt, "LISTEN_FDS") != Some(1) {
        return Err(ListenFault::Listen(Reason::NotPassed));
    }
    if !is_listening(PASSED)? {
        return Err(ListenFault::Listen(Reason::NotListening));
    }
    let server = server_over(alloc, duplicate(PASSED)?)?;
    // the duplicate is closed where a program is started; nobody else knows of this one
    libc::close(PASSED);
    Ok(server)
}

fn number_in<R: Env>(rt: &R, name: &str) -> Option<u32> {
    let mut bytes = [0; NUMBER_SIZE];
    let size = rt.var(name, &mut bytes).ok()?;
    str::from_utf8(&bytes[..size]).ok()?.parse::<u32>().ok()
}

// A socket that listens can't be written to, and has not been hung up; any other one is either, or says that it is no
// socket.
fn is_listening(fd: RawFd) -> Result<bool, ListenFault>
    ensures { IfErr result IsListenFault }
{
    let mut asked = [pollfd {
        fd,
        events: POLLOUT,
        revents: 0,
    }];
    match poll(&mut asked, 0) {
        0 => Ok(true),
        ready if ready > 0 => Ok(false),
        _ => Err(last_fault()),
    }
}

fn server_over(alloc: Global, socket: OwnedFd) -> Result<ServerSocket, ListenFault>
    ensures { IfErr result (IsUnopened listen_address.Inherited) }
{
    let listener = TcpListener::from(socket);
    // a descriptor that doesn't block would never wait
    listener.set_nonblocking(false)?;
    if let Ok(address) = listener.local_addr() {
        if address.port() == SMTP_PORT {
            return Err(ListenFault::Port);
        }
        return Ok(ServerSocket::of_tcp(listener)?);
    }
    let listener = UnixListener::from(OwnedFd::from(listener));
    let address = listener.local_addr()?;
    let name = name_of(alloc, &address)?;
    Ok(ServerSocket::of_unix(listener, name)?)
}

// The path, or a name of the kind that no file has, with `@` before it.
fn name_of(alloc: Global, address: &SocketAddr) -> Result<String, ListenFault>
    ensures { IfErr result (IsUnopened listen_address.Inherited) }
{
    if let Some(path) = address.as_pathname() {
        return Ok(format!(in alloc; "{}", path.as_str())?);
    }
    match address.as_abstract_name() {
        Some(name) => match str::from_utf8(name) {
            Ok(name) => Ok(format!(in alloc; "@{name}")?),
            Err(_) => Err(ListenFault::Listen(Reason::NoText)),
        },
        None => Err(ListenFault::Listen(Reason::NoText)),
    }
}
