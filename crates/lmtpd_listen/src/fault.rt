//! Why a server can't listen where its words say.

ghost use Rattle.std.specs.Prelude.{◌≡◌};
ghost use Rattle.lmtpd_listen.specs.Opened.{IsListenFault};

use std::alloc::AllocError;
use std::io;
use thiserror::Error;

/// Why a server can't listen.
#[derive(Debug, Drop, Error)]
pub enum ListenFault {
    /// The words name no address.
    #[error("bad address")]
    Address,
    /// The port is that of SMTP.
    #[error("port 25")]
    Port,
    #[error("memory")]
    Memory,
    /// The words name an address, and nothing could be opened there.
    #[error("{0}")]
    Listen(Reason),
}

/// Why nothing could be opened at an address, as the log tells it.
#[derive(Debug, Drop, Error)]
pub enum Reason {
    /// What the system said.
    #[error("{0}")]
    System(io::Error),
    #[error("another server listens there")]
    Answered,
    #[error("what is there is no socket")]
    NoSocket,
    #[error("another server has the socket locked")]
    Locked,
    #[error("the socket's lock is no plain file of this user alone")]
    NotOwn,
    #[error("another program changed the socket's file")]
    Changed,
    #[error("no socket was passed, or more than one")]
    NotPassed,
    #[error("what was passed doesn't listen")]
    NotListening,
    #[error("the name of the socket that was passed is no text")]
    NoText,
}

impl From<io::Error> for ListenFault {
    ghost from_gives = { λ _ fault. IsListenFault fault };

    fn from(error: io::Error) -> ListenFault {
        ListenFault::Listen(Reason::System(error))
    }
}

impl From<AllocError> for ListenFault {
    ghost use Rattle.lmtpd_listen.specs.declared.fault.ListenFault.TheVariants as variant;

    ghost from_gives = { λ _ fault. fault ≡ variant.Memory };

    fn from(_error: AllocError) -> ListenFault {
        ListenFault::Memory
    }
}

/// What the system said last, of a call that failed.
pub(crate) fn last_fault() -> ListenFault
    ensures { IsListenFault result }
{
    ListenFault::Listen(Reason::System(last_error()))
}

pub(crate) fn last_error() -> io::Error {
    io::Error::from_raw_os_error(os::errno())
}
