//! The file of a mailbox that other programs use too, with the locks that mail programs take.
//!
//! A `MailboxFile` is locked, looked at, written, kept and cut, one call after the other, and a `MailboxSource` is read
//! under its locks. The layer above makes turns and a spool of them. What is written, and when, is never known here.
#![tactic(auto)]

mod entry;
mod file;
mod lock_file;
mod mailbox_file;
mod mailbox_source;
mod memory_file;
mod open_files;
mod plain;
mod stale;
mod std_file;
mod system_file;
mod thread_files;
mod told;
mod workspace;

pub use file::{FileEnd, OWNER_ONLY, sync_folder};
pub use mailbox_file::MailboxFile;
pub use mailbox_source::MailboxSource;
pub use mbox_locks::{FileLock, LockKind, RangeLock, Writeback};
pub use memory_file::MemoryFile;
pub use open_files::OPEN_FILES;
pub use plain::remove_open;
pub use std_file::StdMailboxFile;
pub use thread_files::{FileLimits, ThreadFiles};
