//! Which mailboxes of a server are slow, and which of its lanes wait for one: words that all its threads share. They
//! are there from the start, and no lock is waited for to know them.
//!
//! Lanes say where they have copies and ask whether a mailbox is busy; workers say how their turns begin and end, and
//! ask whether one may be waited for any longer. No clause can say what another thread has written: the tests do. It
//! never knows what a copy, a turn or a reply is.
#![tactic(auto)]

mod boxes;
mod lanes;
mod turns;

pub use boxes::SlowBoxes;
