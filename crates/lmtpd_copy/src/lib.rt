//! What `lmtpd copy` does: it copies a mailbox's file while both locks are held that mail programs take, so that the
//! copy is what the mailbox was at one moment.
//!
//! The program uses what kept the file from being copied, if anything did. How locks are taken, and the words that name
//! both files, is never known here.
#![tactic(auto)]

mod copying;
mod fault;
mod file;
mod target;
mod target_file;

pub use copying::copy_mailbox;
pub use fault::CopyFault;
pub use file::copy_file;
pub use target::CopyTarget;
pub use target_file::TargetFile;
