//! A lane's ends of the channels: copies go out to the threads of their mailboxes, and slips come back.

ghost use Rattle.std.specs.Prelude.{◌≡◌, ◌≤◌, true};
ghost use Rattle.mail_world.specs.declared.limits.TheConstants.{RECIPIENT_LIMIT};
ghost use Rattle.mail_post.specs.Offered.{HaveNumber, any_gone};

use mail_post::{Gather, Sender, SlipReceiver};
use mail_world::limits::RECIPIENT_LIMIT;
use mbox_record::Lengths;
use msg_depot::DepotName;
use std::alloc::Global;

mod hearing;
mod offering;
mod sending;

/// What a message is known by: its number among the lane's, the moment when its data ended, in seconds since 1970, and
/// how long its text is in a record.
#[derive(Clone, Copy)]
pub struct Postmark {
    pub number: u32,
    pub moment: u32,
    pub lengths: Lengths,
}

/// A lane's ends, and the gatherer of its slips.
#[derive(Drop)]
pub struct Exchange<N: DepotName> {
    alloc: Global,
    pub lane: u32,
    /// One to each worker thread, in their order.
    pub senders: Vec<Sender<N>>,
    pub slips: SlipReceiver,
    pub gather: Gather,
    /// A worker thread's channel handed a copy back, so no more are offered.
    pub thread_gone: bool,
    /// A channel was found gone.
    pub gone: bool,
    ghost of_lane: { HaveNumber lane senders.items },
    ghost room: { RECIPIENT_LIMIT ≤ gather.limit },
    ghost gone_is_told: { thread_gone ≡ any_gone senders.items },
    ghost tells: { thread_gone ≡ true → gone ≡ true },
}
