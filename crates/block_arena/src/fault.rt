//! Why the arena refuses a call.

use thiserror::Error;

/// Why a call changed nothing. The first that applies is told, in the order of stale, sealed, draft, full.
#[derive(Clone, Copy, Debug, PartialEq, Eq, Error)]
pub enum ArenaFault {
    #[error("more blocks are needed than are free")]
    Full = 1,
    #[error("the key's message is gone")]
    Stale = 2,
    #[error("the message is sealed")]
    Sealed = 3,
    #[error("the message is a draft")]
    Draft = 4,
}
