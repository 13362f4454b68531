//! A Unix socket at a path.

ghost use Rattle.std.specs.Prelude.{◌≡◌, IfErr, MatchResult, Some, string_bytes};
ghost use Rattle.lmtpd_listen.specs.Opened.{IsListenFault, IsMadeAt, IsOpenedFor, IsUnopened, lock_path, socket_path};
ghost use Rattle.lmtpd_listen.specs.declared.listen_address.ListenAddress.TheVariants as listen_address;

use crate::fault::{ListenFault, Reason, last_fault};
use crate::opened::Opened;
use crate::server::ServerSocket;
use crate::socket_file::{Made, Mark, SocketFile, mark_of, remove_made};
use crate::socket_lock::{lock_at, lock_path};
use libc::net::listen;
use mbox_locks::FileLock;
use std::alloc::Global;
use std::fs;
use std::fs::{Files, Permissions};
use std::io::ErrorKind;
use std::net::Net;
use std::os::fd::{AsFd, AsRawFd};
use std::os::unix::fs::{MetadataExt, PermissionsExt};
use std::os::unix::net::{SocketAddr, UnixListener, UnixStream};
use std::time::Clock;

/// As many clients may wait for an accept as the system allows.
const BACKLOG: i32 = -1;

/// Who may connect: the bits of a file's mode that a socket's file is asked to have.
const MODE_BITS: u32 = 0o777;

/// Makes a Unix socket that listens at the path. Its file has that mode before anybody can connect, and never a wider
/// one.
pub(crate) fn open_unix<'a, R: Files + Net + Clock>(
    rt: &R,
    alloc: Global,
    path: &'a str,
    mode: u32,
) -> Result<Opened<'a>, ListenFault>
where
    R::File: FileLock,
    ensures { MatchResult result (IsOpenedFor (listen_address.Unix path.entry) mode)
        (IsUnopened (listen_address.Unix path.entry)) }
{
    let name = format!(in alloc; "{path}")?;
    let address = SocketAddr::from_pathname(path)?;
    let lock = lock_path(alloc, path)?;
    let _lock = lock_at(rt, lock.as_str())?;
    open_locked(rt, path, lock, name, &address, mode & MODE_BITS)
}

// Makes the socket of that name, which is its path, while it has its lock, which is at that path.
fn open_locked<'a, R: Files + Net>(
    rt: &R,
    path: &'a str,
    lock: String,
    name: String,
    address: &SocketAddr,
    mode: u32,
) -> Result<Opened<'a>, ListenFault>
    requires name { string_bytes name ≡ path.now }
    requires lock { string_bytes lock ≡ lock_path path.now }
    ensures { MatchResult result (IsMadeAt path.now mode)
        (IsUnopened (listen_address.Unix path.entry)) }
{
    make_room(rt, path)?;
    let socket = unbound(rt, name)?;
    let made = make_file(rt, &socket, path, address, mode)?;
    Ok(Opened {
        socket,
        file: SocketFile::of(made, lock),
    })
}

// A Unix socket that is to listen there.
fn unbound<R: Net>(rt: &R, path: String) -> Result<ServerSocket, ListenFault>
    ensures { MatchResult result (λ socket. socket_path socket ≡ Some (string_bytes path)) IsListenFault }
{
    Ok(ServerSocket::of_unix(UnixListener::from(rt.unix_socket()?), path)?)
}

// Removes a socket's file to which nobody listens any more. It fails where there is anything else.
fn make_room<R: Files + Net>(rt: &R, path: &str) -> Result<(), ListenFault>
    ensures { IfErr result IsListenFault }
{
    match fs::symlink_metadata(rt, path) {
        Ok(found) => remove_unused(rt, path, mark_of(&found)?),
        Err(error) if error.kind() == ErrorKind::NotFound => Ok(()),
        Err(error) => Err(error.into()),
    }
}

// Removes that file of a socket, unless somebody listens to it.
fn remove_unused<R: Files + Net>(rt: &R, path: &str, mark: Mark) -> Result<(), ListenFault>
    ensures { IfErr result IsListenFault }
{
    let Err(error) = UnixStream::connect(rt, path) else {
        return Err(ListenFault::Listen(Reason::Answered));
    };
    if error.kind() != ErrorKind::ConnectionRefused {
        return Err(error.into());
    }
    Ok(remove_made(rt, path, mark)?)
}

// Gives the socket its file, and has it listen. Where that fails, the file is removed.
fn make_file<'a, R: Files>(
    rt: &R,
    socket: &ServerSocket,
    path: &'a str,
    address: &SocketAddr,
    mode: u32,
) -> Result<Made<'a>, ListenFault>
    ensures { MatchResult result (λ made. (made.path.now ≡ path.now) × (made.mode ≡ mode)) IsListenFault }
{
    bind(rt, socket, address, mode)?;
    let mark = mark_of(&fs::symlink_metadata(rt, path)?)?;
    match expose(rt, socket, path, mark, mode) {
        Ok(mode) => Ok(Made { path, mark, mode }),
        Err(fault) => {
            let _ = remove_made(rt, path, mark);
            Err(fault)
        }
    }
}

// Gives the socket its file, whose mode is that of the socket, narrowed by the process's umask.
fn bind<R: Files>(
    rt: &R,
    socket: &ServerSocket,
    address: &SocketAddr,
    mode: u32,
) -> Result<(), ListenFault>
    ensures { IfErr result IsListenFault }
{
    if libc::fchmod(socket.as_raw_fd(), mode) < 0 {
        return Err(last_fault());
    }
    Ok(rt.bind_unix(socket.as_fd(), address)?)
}

// Gives the file just that mode, and has the socket listen; it answers the mode that the file has then.
fn expose<R: Files>(
    rt: &R,
    socket: &ServerSocket,
    path: &str,
    mark: Mark,
    mode: u32,
) -> Result<u32, ListenFault>
    ensures { MatchResult result (λ found. found ≡ mode) IsListenFault }
{
    let found = set_mode(rt, path, mark, mode)?;
    if listen(socket.as_raw_fd(), BACKLOG) < 0 {
        return Err(last_fault());
    }
    Ok(found)
}

// Gives the file just that mode, unless it has it, and answers the mode that it has then.
fn set_mode<R: Files>(rt: &R, path: &str, mark: Mark, mode: u32) -> Result<u32, ListenFault>
    ensures { MatchResult result (λ found. found ≡ mode) IsListenFault }
{
    let found = mode_of(rt, path, mark)?;
    if found == mode {
        return Ok(found);
    }
    fs::set_permissions(rt, path, Permissions::from_mode(mode))?;
    let found = mode_of(rt, path, mark)?;
    if found != mode {
        return Err(ListenFault::Listen(Reason::Changed));
    }
    Ok(found)
}

// The mode of the file. It fails where the path names another one.
fn mode_of<R: Files>(rt: &R, path: &str, mark: Mark) -> Result<u32, ListenFault>
    ensures { IfErr result IsListenFault }
{
    let found = fs::symlink_metadata(rt, path)?;
    if mark_of(&found)? != mark {
        return Err(ListenFault::Listen(Reason::Changed));
    }
    Ok(found.mode() & MODE_BITS)
}
