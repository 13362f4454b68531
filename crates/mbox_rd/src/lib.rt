//! Mailboxes in the mboxrd format (RFC 4155) in files: a spool over a file, which it has in turns, since other programs
//! use it too.
//!
//! The program opens it by its path, and has the names of spools and of the files below from here too. A copy of a
//! mailbox takes its locks as a turn does. What is written to it, how a file is locked and what the system says of it is
//! never known here.
#![tactic(auto)]

mod boxed;
mod file;
mod opening;
mod patience;
mod shared_buffer;
mod turn;

pub use boxed::BoxedSpool;
pub use file::FileSpool;
pub use mbox_file::{
    FileEnd, FileLock, LockKind, MailboxFile, MailboxSource, MemoryFile, RangeLock, StdMailboxFile,
    Writeback, remove_open, sync_folder,
};
pub use mbox_spool::{InUse, MemorySpool, Spool, SpoolFault, Tail, mend};
pub use opening::OpenFault;
pub use shared_buffer::SharedBuffer;
pub use turn::{hold_locks, let_go};
