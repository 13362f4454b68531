//! Where a test may hold a worker, and what a thread asks that puts copies off.

use crate::turn::TurnEnd;
use mail_world::Txn;

/// What a worker calls before it begins a copy's record, and once it has let the copy go. Nothing is promised of it: a
/// gate may wait, and count.
pub trait Gate {
    /// Whether the mailbox may have a turn now. A thread that can put copies off goes on with its others meanwhile.
    fn is_free(&mut self) -> bool {
        true
    }

    /// Others have the mailbox, and its next copy is to be put off, or was: whether it may be any longer.
    fn may_put_off(&mut self) -> bool {
        true
    }

    /// The thread has put off all copies that it has, this mailbox's first of all, and no other has come: it may wait.
    fn pause(&mut self) {}

    /// Nothing of the copy is in the spool yet.
    fn before(&mut self, txn: Txn, place: u32);

    /// The copy is stored, over the quota or lost, as its turn ended, and its lane isn't told yet.
    fn after(&mut self, txn: Txn, place: u32, end: TurnEnd);
}

/// Lets every copy through.
#[derive(Clone, Copy, PartialEq, Eq)]
pub struct OpenGate;

impl Gate for OpenGate {
    fn before(&mut self, txn: Txn, place: u32) {
        let _ = (txn, place);
    }

    fn after(&mut self, txn: Txn, place: u32, end: TurnEnd) {
        let _ = (txn, place, end);
    }
}
