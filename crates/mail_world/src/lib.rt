//! What delivered mail, replies and mailboxes are: the definitions that all other crates cite (`specs/`), the plain
//! types that contracts speak of, and the limits.
//!
//! Functions with empty bodies state laws of the definitions (`laws`), worked examples (`rows`), and what holds in
//! every run of a server as a model (`runs`, `steps`). Every crate above may name it. It never knows how a value is
//! computed, kept in memory or shared: a thread is a number here, and what it does an event.
#![tactic(auto)]

use std::collections::LinkedList;
use thiserror::Error;

pub mod laws;
pub mod limits;
pub mod listed;
pub mod rows;
pub mod runs;
pub mod steps;

/// A transaction: the lane that ran it, and its number among the lane's accepted DATA commands.
#[derive(Clone, Copy, Debug, PartialEq, Eq)]
pub struct Txn {
    pub lane: u32,
    pub number: u32,
}

/// What a site offers of the extensions that say more than that they are there.
#[derive(Clone, Copy, Debug, PartialEq, Eq)]
pub struct Extensions {
    /// How many bytes a message may have (SIZE, RFC 1870).
    pub message_limit: u32,
    /// Addresses may be in UTF-8 (SMTPUTF8, RFC 6531).
    pub utf8: bool,
}

/// What became of one copy of a message.
#[derive(Clone, Copy, Debug, PartialEq, Eq)]
pub enum Outcome {
    Stored,
    Failed,
    NoRoom,
    TooLarge,
    OverQuota,
    Malformed,
}

/// What one recipient's copy came to, as a worker or the lane itself reports it.
#[derive(Clone, Copy, Debug, PartialEq, Eq)]
pub struct Slip {
    pub txn: Txn,
    pub place: u32,
    pub worker: u32,
    pub outcome: Outcome,
}

/// One copy of a message for one mailbox, as contracts see it.
#[derive(Drop)]
pub struct Note {
    pub txn: Txn,
    pub place: u32,
    pub mailbox: u32,
    pub sender: LinkedList<u8>,
    pub client: LinkedList<u8>,
    /// MAIL had the parameter SMTPUTF8 (RFC 6531).
    pub utf8: bool,
    pub moment: u32,
    pub message: LinkedList<u8>,
}

/// What may happen in a server, one atomic step at a time. A step of a lane or of a worker has its number first; a
/// mailbox has its worker's number.
#[derive(Drop)]
pub enum Event {
    /// The lane opens a draft.
    Begin(u32),
    /// The lane adds bytes to its draft.
    Put(u32, LinkedList<u8>),
    /// The lane drops its draft.
    Cancel(u32),
    /// The lane's draft becomes a message with a hold of that weight.
    Seal(u32, u32),
    /// One of the weight of the lane's hold at that index becomes a hold of its own.
    Split(u32, u32),
    /// The channel of the note's mailbox accepts the lane's copy.
    Offer(u32, Note),
    /// The lane releases its hold at that index, for a copy which the channel of that mailbox handed back.
    HandBack(u32, u32, u32),
    /// The lane's gatherer gets the next slip of its channel.
    Collect(u32),
    /// The worker takes the next copy from its channel.
    Take(u32),
    /// The turn of the worker's copy begins: the mailbox holds these bytes.
    Lock(u32, LinkedList<u8>),
    /// The worker's copy misses its turn.
    Miss(u32),
    /// The mailbox takes bytes.
    Write(u32, LinkedList<u8>),
    /// The mailbox is synced.
    Sync(u32),
    /// What the turn wrote is cut off again.
    Cut(u32),
    /// The turn is over.
    Unlock(u32),
    /// The worker releases the hold of its copy.
    Release(u32),
    /// The worker tells the copy's lane what became of it.
    GiveSlip(u32, Outcome),
    /// The blocks of the message in that slot, of that generation, are given back.
    Reclaim(u32, u64),
    /// The mailbox's channel is closed.
    Close(u32),
}

/// Where a session stands.
#[derive(Clone, Copy, Debug, PartialEq, Eq)]
pub enum State {
    Fresh,
    Greeted,
    Sender,
    Recipients,
    Content,
    Waiting,
    Ended,
}

/// What the lane found once the data of a message has ended.
#[derive(Clone, Copy, Debug, PartialEq, Eq)]
pub enum Verdict {
    Whole,
    TooLarge,
    Malformed,
    NoRoom,
}

/// Why a line is no command.
#[derive(Clone, Copy, Debug, PartialEq, Eq, Error)]
pub enum BadCommand {
    /// No verb of this server, the empty one among them.
    #[error("unknown command")]
    Unknown = 1,
    /// HELO or EHLO: LMTP begins with LHLO (RFC 2033, 4.1).
    #[error("use LHLO")]
    NotHere,
    /// EXPN, which isn't offered.
    #[error("not offered")]
    NotDone,
    /// Text after a command that stands alone, or a wrong parameter.
    #[error("bad arguments")]
    Arguments,
    /// MAIL without a reverse path.
    #[error("bad sender")]
    SenderSyntax,
    /// RCPT without a forward path.
    #[error("bad recipient")]
    RecipientSyntax,
    /// A keyword that isn't known.
    #[error("unknown parameter")]
    Parameter,
    /// MAIL with a SIZE above the limit (RFC 1870, 6.1).
    #[error("message too large")]
    TooLarge,
    /// LHLO without a client's name.
    #[error("bad client name")]
    ClientName,
}

/// A reply, by what it says.
#[derive(Clone, Copy, Debug, PartialEq, Eq)]
pub enum Reply {
    Greeting,
    Offer,
    SenderOk,
    RecipientOk,
    GoAhead,
    ResetOk,
    NoopOk,
    NotChecked,
    HelpText,
    Bye,
    Stopping,
    NoSuchBox,
    TooMany,
    /// The recipient's mailbox is busy; the relay keeps the message for this one.
    Busy,
    OutOfOrder,
    LineTooLong,
    /// The line was no command.
    Refused(BadCommand),
    /// What became of the copy for the mailbox of that number.
    Result(Outcome, u32),
}
