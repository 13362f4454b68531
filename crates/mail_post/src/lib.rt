//! The channels between lanes and worker threads, a thread's copies and a lane's slips, and the gathering of a
//! transaction's slips.
//!
//! Those at the ends use that of each lane what is taken is a prefix of what it was told was accepted, and all of it
//! once the channel is closed. It never knows of threads or spools: of a copy it knows the envelope and the hold.
#![tactic(auto)]

mod channel;
mod gather;
mod kinds;
pub mod laws;
mod post;
mod rule;

pub use channel::{
    ChannelClosed, ChannelReceiver, ChannelSender, Gone, close_channel, open_channel, settle,
};
pub use gather::{Gather, GatherFault};
pub use kinds::{
    Closed, Receiver, SLIP_CAPACITY, Sender, SlipReceiver, SlipSender, SlipsClosed, WORKER_THREADS,
    close, close_slips, mail_line, slip_line,
};
pub use post::{Parts, Post};
pub use rule::{FromSender, Moment};
