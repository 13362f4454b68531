//! Opening what the server listens on, and what the log says where that fails.

ghost use Rattle.std.specs.Prelude.{MatchResult};
ghost use Rattle.lmtpd_listen.specs.Opened.{IsOpenedFor};
ghost use Rattle.lmtpd_setup.specs.Setup.{IsUnopenedAt};

use crate::fault::Fault;
use lmtpd_listen::{ListenAddress, ListenFault, Opened, open};
use log::{Log, error};
use mbox_rd::FileLock;
use std::alloc::Global;
use std::env::Env;
use std::fs::Files;
use std::net::{Net, TcpListener, TcpStream};
use std::time::Clock;

/// Opens what listens at the address; the file of a Unix socket gets that mode. Where nothing can be opened the log
/// says why.
pub fn open_address<'a, R, G>(
    rt: &R,
    alloc: Global,
    listen_address: ListenAddress<'a>,
    mode: u32,
    log: &G,
) -> Result<Opened<'a>, Fault>
where
    R: Files + Net<Listener = TcpListener, Stream = TcpStream> + Env + Clock,
    R::File: FileLock,
    G: Log,
    ensures { MatchResult result (IsOpenedFor listen_address.entry mode) (IsUnopenedAt listen_address.entry) }
{
    match open(rt, alloc, listen_address, mode) {
        Ok(opened) => Ok(opened),
        Err(fault) => {
            if let ListenFault::Listen(reason) = &fault {
                error!(log; target: "lmtpd", reason:%; "cannot listen");
            }
            Err(Fault::from(fault))
        }
    }
}
