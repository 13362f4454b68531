//! What `lmtpd check` does: it reads mailbox files, one after another, and says of each what it found.
//!
//! The program uses what was found of each file, and what was written of it. It never knows of a server, nor the words
//! that name the files.
#![tactic(auto)]

mod checked;
mod files;
mod lines;
mod reader;

pub use checked::{Checked, Finding};
pub use files::check_files;
pub use lines::write_unlocked_lines;
pub use mbox_check::{BadForm, NulAt};
