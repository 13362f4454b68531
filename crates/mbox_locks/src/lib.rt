//! The locks that mail programs take on a mailbox: on an open file, as traits, and by a lock file, which says whose it
//! is. What else an open file is asked beyond std's calls stands beside them.
//!
//! Other crates take the locks, and judge by a lock file's text, age and process whether it is left behind. No file is
//! opened, read or removed here.
#![tactic(auto)]

mod file_lock;
mod holder;
mod process;
mod range_lock;
mod writeback;

pub use file_lock::FileLock;
pub use holder::{Holder, Named, age_at, is_left_behind, is_opened};
pub use process::{holder_of, owner_text, since_boot};
pub use range_lock::{LockKind, RangeLock};
pub use writeback::Writeback;
