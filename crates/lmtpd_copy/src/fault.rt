//! Why a mailbox wasn't copied.
ghost use Rattle.std.specs.Prelude.{◌≡◌};

use std::alloc::AllocError;
use thiserror::Error;

/// Why a mailbox wasn't copied, in the order in which causes are looked for. Nothing is left of the copy then, unless
/// it couldn't be removed.
#[derive(Clone, Copy, Debug, PartialEq, Eq, Error)]
pub enum CopyFault {
    #[error("memory")]
    Memory,
    /// The mailbox can't be opened or read: it is missing, or no plain file.
    #[error("cannot read the mailbox")]
    Unread,
    /// Both locks couldn't be had in time, or another program took the lock file away.
    #[error("in use")]
    InUse,
    /// The copy can't be made: something of its name is there.
    #[error("cannot make the copy")]
    Unmade,
    /// A write or a sync of the copy failed.
    #[error("device fault")]
    Device,
}

impl From<AllocError> for CopyFault {
    ghost use Rattle.lmtpd_copy.specs.declared.fault.CopyFault.TheVariants.{Memory};

    ghost from_gives = { λ _ fault. fault ≡ Memory };

    fn from(_refused: AllocError) -> CopyFault {
        CopyFault::Memory
    }
}
