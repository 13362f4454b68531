//! Why a server didn't run, or not to its end.

use std::alloc::{AllocError, AllocFailed};
use thiserror::Error;

/// Why a server didn't run, or not to its end. What was handed in is dropped.
#[derive(Clone, Copy, Debug, PartialEq, Eq, Error)]
pub enum HouseFault {
    /// A growth of memory was refused; nothing was read or stored.
    #[error("memory")]
    Memory = 1,
    /// A size is out of its limits; nothing was read or stored.
    #[error("size")]
    Size,
    /// A lane or a worker found a channel gone.
    #[error("channel gone")]
    ChannelGone,
    /// A thread was refused; the others ended without a client.
    #[error("no thread")]
    NoThread,
}

impl From<AllocError> for HouseFault {
    ghost use Rattle.std.specs.Prelude.{◌≡◌};
    ghost use Rattle.lmtp_house.specs.declared.house.fault.HouseFault.TheVariants.{Memory};

    ghost from_gives = { λ _ fault. fault ≡ Memory };

    fn from(_refused: AllocError) -> HouseFault {
        HouseFault::Memory
    }
}

impl<T: Drop> From<AllocFailed<T>> for HouseFault {
    ghost use Rattle.std.specs.Prelude.{◌≡◌};
    ghost use Rattle.lmtp_house.specs.declared.house.fault.HouseFault.TheVariants.{Memory};

    ghost from_gives = { λ _ fault. fault ≡ Memory };

    fn from(_refused: AllocFailed<T>) -> HouseFault {
        HouseFault::Memory
    }
}
