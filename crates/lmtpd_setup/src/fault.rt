//! What the program says on standard error, and the status that it then ends with.

ghost use Rattle.std.specs.Prelude.{◌≡◌};
ghost use Rattle.lmtpd_setup.specs.Faults.{fault_text, listen_refusal, refusal, status_of};

use lmtp_text::SiteFault;
use lmtpd_listen::ListenFault;
use std::alloc::{AllocError, AllocFailed};
use thiserror::Error;

/// Why the program did not do what its words ask for, in the order in which it looks for a cause.
#[derive(Clone, Copy, Debug, PartialEq, Eq, Error)]
#[error("{}", self.text())]
pub enum Fault {
    Address,
    Port,
    NoBox,
    Host,
    Domain,
    Box,
    TooManyBoxes,
    BoxTwice,
    Memory,
    Listen,
    Size,
    NoThread,
    ChannelGone,
    Device,
}

impl Fault {
    /// The status that the program ends with: 2 for words that can't be used, 1 for what the machine lacks.
    pub fn status(self) -> u8
        ensures { result ≡ status_of self }
    {
        match self {
            Fault::Address | Fault::Port | Fault::Host | Fault::Domain => 2,
            Fault::NoBox | Fault::Box | Fault::TooManyBoxes | Fault::BoxTwice => 2,
            Fault::Memory | Fault::Listen | Fault::Size => 1,
            Fault::NoThread | Fault::ChannelGone | Fault::Device => 1,
        }
    }

    /// What standard error says of it.
    pub fn text(self) -> &'static str
        ensures { result.now ≡ fault_text self }
    {
        match self {
            Fault::Address => "bad address",
            Fault::Port => "port 25",
            Fault::NoBox => "no box",
            Fault::Host => "bad host",
            Fault::Domain => "bad domain",
            Fault::Box => "bad box",
            Fault::TooManyBoxes => "too many boxes",
            Fault::BoxTwice => "box named twice",
            Fault::Memory => "memory",
            Fault::Listen => "cannot listen",
            Fault::Size => "size",
            Fault::NoThread => "no thread",
            Fault::ChannelGone => "channel gone",
            Fault::Device => "device fault",
        }
    }
}

impl From<ListenFault> for Fault {
    ghost from_gives = { λ refused fault. fault ≡ listen_refusal refused };

    fn from(refused: ListenFault) -> Fault {
        match refused {
            ListenFault::Address => Fault::Address,
            ListenFault::Port => Fault::Port,
            ListenFault::Memory => Fault::Memory,
            ListenFault::Listen(_) => Fault::Listen,
        }
    }
}

impl From<AllocError> for Fault {
    ghost use Rattle.lmtpd_setup.specs.declared.fault.Fault.TheVariants.{Memory};

    ghost from_gives = { λ _ fault. fault ≡ Memory };

    fn from(_refused: AllocError) -> Fault {
        Fault::Memory
    }
}

impl<T: Drop> From<AllocFailed<T>> for Fault {
    ghost use Rattle.lmtpd_setup.specs.declared.fault.Fault.TheVariants.{Memory};

    ghost from_gives = { λ _ fault. fault ≡ Memory };

    fn from(_refused: AllocFailed<T>) -> Fault {
        Fault::Memory
    }
}

impl From<SiteFault> for Fault {
    ghost from_gives = { λ cause fault. fault ≡ refusal cause };

    fn from(cause: SiteFault) -> Fault {
        match cause {
            SiteFault::Memory => Fault::Memory,
            SiteFault::Host => Fault::Host,
            SiteFault::Domain => Fault::Domain,
            SiteFault::Box => Fault::Box,
            SiteFault::Count => Fault::TooManyBoxes,
            SiteFault::Twice => Fault::BoxTwice,
        }
    }
}
