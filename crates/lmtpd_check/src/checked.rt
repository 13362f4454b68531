//! What was found of files.

ghost use Rattle.std.specs.Prelude.{◌≡◌};
ghost use Rattle.lmtpd_check.specs.Checked.{is_letters, nul_of};

use mbox_check::{BadForm, NulAt};

/// What was found of a file.
#[derive(Clone, Copy, Debug, PartialEq, Eq)]
pub enum Finding {
    /// A mailbox of that many letters, a count that stays at 2^64 - 1, and the first NUL in it.
    Letters(u64, Option<NulAt>),
    /// What breaks the form of a mailbox, and the first NUL before that place.
    Form(BadForm, Option<NulAt>),
    /// It is no plain file, can't be opened, or not read to its end.
    Unread,
}

impl Finding {
    /// Whether the file's letters were counted, and so it has the form of a mailbox, with a NUL or without.
    pub fn is_letters(&self) -> bool
        ensures { result ≡ is_letters self.now }
    {
        matches!(self, Finding::Letters(..))
    }

    // The first NUL that was read.
    pub(crate) fn nul(&self) -> Option<NulAt>
        ensures { result ≡ nul_of self.now }
    {
        match *self {
            Finding::Letters(_, nul) | Finding::Form(_, nul) => nul,
            Finding::Unread => None,
        }
    }
}

/// What was found of files, in their order, and the writer that has their lines.
#[derive(Drop)]
pub struct Checked<'a, W> {
    pub writer: W,
    pub findings: Vec<Finding>,
    /// The files that were read without their lock, which other programs had.
    pub unlocked: Vec<&'a str>,
    /// Whether a write failed; nothing was written or read after it.
    pub cut: bool,
}
