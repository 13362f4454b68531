//! What a thread hands back, and each of its mailboxes.

use crate::gate::Gate;
use crate::kept::Kept;
use crate::turn::TurnObserver;
use mail_post::{Receiver, SlipSender};
use mbox_spool::Spool;
use msg_depot::DepotName;

/// A thread's ends of the channels, and its mailboxes.
#[derive(Drop)]
pub struct ThreadReport<N: DepotName, S: Spool, G: Gate, O: TurnObserver> {
    pub receiver: Receiver<N>,
    pub slips: Vec<SlipSender>,
    /// In the order in which they were handed in.
    pub boxes: Vec<Kept<S, G, O>>,
    /// Whether a channel was found gone: the thread's before its closing marks came, or a lane's that handed a slip
    /// back.
    pub lost: bool,
}

/// What became of a mailbox's copies, and all that it was lent.
#[derive(Drop)]
pub struct MailboxReport<S: Spool, G: Gate, O: TurnObserver> {
    pub spool: S,
    pub gate: G,
    pub observer: O,
    /// The copies that were taken for it, those of them that were stored, those that were over the quota, and those
    /// whose turn was missed. A count stays at its largest value.
    pub taken: u64,
    pub stored: u64,
    pub over: u64,
    pub in_use: u64,
    /// Whether the last turn that was had broke.
    pub faulty: bool,
}
