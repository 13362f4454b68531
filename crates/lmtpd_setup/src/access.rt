//! Where the mailboxes' files are, and how they are had.

ghost use Rattle.std.specs.Prelude.{◌≡◌, string_bytes, IfOk};
ghost use Rattle.lmtpd_setup.specs.Mailboxes.{path_at};

use lmtpd_output::printable;
use std::alloc::{AllocError, Global};

/// Where mailboxes are, what their files have after their names, how many seconds a turn at one is waited for, the
/// permission bits of a file that is made, and whether a mailbox is had though its file can't be opened.
#[derive(Clone, Copy)]
pub struct Access<'a> {
    pub folder: &'a str,
    pub suffix: &'a str,
    pub wait: u32,
    pub mode: u32,
    pub anyway: bool,
}

/// Where the mailbox of that name is.
pub fn path_of(alloc: Global, access: Access<'_>, name: &[u8]) -> Result<String, AllocError>
    ensures { IfOk result (λ path. string_bytes path ≡ path_at access.entry name.entry) }
{
    let Access { folder, suffix, .. } = access;
    let shown = printable(name);
    format!(in alloc; "{folder}/{shown}{suffix}")
}
