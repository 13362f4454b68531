//! Opening what a server listens on.

ghost use Rattle.std.specs.Prelude.{MatchResult};
ghost use Rattle.lmtpd_listen.specs.Opened.{IsOpenedFor, IsUnopened};

use crate::fault::ListenFault;
use crate::inherited::take_inherited;
use crate::listen_address::ListenAddress;
use crate::server::ServerSocket;
use crate::socket_file::SocketFile;
use crate::unix::open_unix;
use mbox_locks::FileLock;
use std::alloc::Global;
use std::env::Env;
use std::fs::Files;
use std::net::{Net, TcpListener, TcpStream};
use std::time::Clock;

/// What a server listens on, and the file that was made for it, to be removed once the server has ended.
pub struct Opened<'a> {
    pub socket: ServerSocket,
    pub file: SocketFile<'a>,
}

/// Opens what listens at the address. The file of a Unix socket has these permission bits before anybody can connect,
/// and never wider ones.
pub fn open<'a, R>(
    rt: &R,
    alloc: Global,
    listen_address: ListenAddress<'a>,
    mode: u32,
) -> Result<Opened<'a>, ListenFault>
where
    R: Files + Net<Listener = TcpListener, Stream = TcpStream> + Env + Clock,
    R::File: FileLock,
    ensures { MatchResult result (IsOpenedFor listen_address.entry mode) (IsUnopened listen_address.entry) }
{
    let socket = match listen_address {
        ListenAddress::Unix(path) => return open_unix(rt, alloc, path, mode),
        ListenAddress::Tcp(address) => ServerSocket::of_tcp(TcpListener::bind(rt, address)?)?,
        ListenAddress::Inherited => take_inherited(rt, alloc)?,
    };
    Ok(Opened {
        socket,
        file: SocketFile::none(),
    })
}
