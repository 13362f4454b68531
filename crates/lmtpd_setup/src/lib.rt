//! What the program makes ready before its work begins: the site that its words name, with the mailboxes of the file
//! that they name, the log, what ends a server, and its mailboxes' files; and what is said on standard error where that
//! fails.
//!
//! The program uses that each is what its words ask for, and why it stops where one can't be had. It never knows of a
//! server's run or of a rehearsal.
#![tactic(auto)]

mod access;
mod boxes;
mod descriptors;
mod ends;
mod fault;
mod folder;
mod hurried;
mod logger;
mod mailboxes;
mod names;
mod opening;
mod room;
mod setup;
mod shares;
mod site;
mod sizes;
mod stop;
mod usable;

pub use boxes::fill;
pub use ends::{Ends, ServerCurfew};
pub use fault::Fault;
pub use hurried::HurriedClock;
pub use logger::ServerLog;
pub use mailboxes::{ServedMailbox, WaitingMailbox};
pub use names::SHOWN_LIMIT;
pub use opening::open_address;
pub use setup::{ServerSetup, set_up};
pub use site::{served_site, site_of};
pub use sizes::tell_of_sizes;
pub use stop::{Exit, Stop, mark, report_fault, status_after, write_fault};
