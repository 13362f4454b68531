//! The worker thread of some mailboxes: it takes copies from the lanes, stores each in its mailbox as a record, and
//! tells the lane what became of it.
//!
//! A server's threads use `thread_run`. To each of its mailboxes (`Kept`) a thread is a worker of the mailbox's own:
//! each copy that it takes for it has one outcome, which a slip tells, and its record where that is Stored. With
//! `patient_run` a copy whose mailbox isn't free is put off, and others go on. A `TurnObserver` is told how each copy's
//! turn ended, and a `Gate` may hold the thread before and after a copy. It never knows of a conversation or of another
//! thread's mailboxes.
#![tactic(auto)]

mod gate;
mod kept;
pub mod laws;
mod limit;
mod mailbox;
mod patient;
mod release;
mod report;
mod store;
mod thread;
mod turn;

pub use gate::{Gate, OpenGate};
pub use kept::Kept;
pub use patient::patient_run;
pub use report::{MailboxReport, ThreadReport};
pub use thread::thread_run;
pub use turn::{TurnEnd, TurnObserver};
