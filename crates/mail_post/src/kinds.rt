//! The two kinds of channel: a worker thread's, from the lanes to the mailboxes that it owns, and a lane's, from the
//! threads whose mailboxes give it slips.

ghost use Rattle.std.specs.Prelude.{◌≡◌, ◌<◌, [], IfOk};
ghost use Rattle.mail_post.specs.Channel.{new_senders, new_inbox, AreSenders, AreSendersOf, sent_by, sent_at_by};

use crate::channel::{ChannelClosed, ChannelReceiver, ChannelSender, close_channel, open_channel};
use crate::post::Post;
use crate::rule::FromSender;
use mail_world::Slip;
use mail_world::limits::RECIPIENT_LIMIT;
use msg_depot::DepotName;
use std::alloc::{AllocError, Global};
use std::sync::Wait;

/// A copy is of the lane that runs its transaction.
impl<N: DepotName> FromSender for Post<N> {
    ghost sender = { λ post. post.txn.lane };
}

/// The most threads that serve the mailboxes of a server: mailbox b is one of thread b mod 256.
pub const WORKER_THREADS: u32 = 256;

/// A slip is of the thread of the mailbox whose worker gives it.
impl FromSender for Slip {
    ghost use Rattle.mail_post.specs.WorkerThreads.{worker_thread};

    ghost sender = { λ slip. worker_thread slip.worker };
}

/// The slips that wait for a lane: one for each recipient of a message.
pub const SLIP_CAPACITY: usize = RECIPIENT_LIMIT;

/// A lane's end of a worker thread's channel.
pub type Sender<N> = ChannelSender<Post<N>>;

/// The thread's end of it.
pub type Receiver<N> = ChannelReceiver<Post<N>>;

/// All lanes' ends of it, once it is closed.
pub type Closed<N> = ChannelClosed<Post<N>>;

/// A worker thread's end of a lane's channel of slips.
pub type SlipSender = ChannelSender<Slip>;

/// The lane's end of its channel of slips.
pub type SlipReceiver = ChannelReceiver<Slip>;

/// All threads' ends of a lane's channel of slips, once it is closed.
pub type SlipsClosed = ChannelClosed<Slip>;

/// The channel of one worker thread, which has room for that many copies: a sender for each lane, and the receiver.
pub fn mail_line<N: DepotName>(
    alloc: Global,
    capacity: usize,
    lanes: u32,
) -> Result<(Vec<Sender<N>>, Receiver<N>), AllocError>
    requires capacity { 0 < capacity }
    requires lanes { 0 < lanes }
    ensures senders { IfOk result (λ ends. ends.0.items ≡ new_senders ends.1.channel lanes) }
    ensures receiver { IfOk result (λ ends. ends.1 ≡ new_inbox ends.1.channel capacity lanes) }
{
    open_channel(alloc, capacity, lanes)
}

/// Puts one closing mark for each sender, in lane order. Where the receiver is gone it puts no more, and answers the
/// same.
pub fn close<N: DepotName, R: Wait>(senders: Vec<Sender<N>>, rt: &R) -> Closed<N>
    requires { AreSenders senders.items }
    ensures channel { AreSendersOf result.channel senders.items }
    ensures sent { result.sent ≡ sent_by senders.items }
    ensures sent_at { result.sent_at ≡ sent_at_by senders.items }
{
    close_channel::<Post<N>, R>(senders, rt)
}

/// The channel of one lane's slips: a sender for each worker thread, and the receiver.
pub fn slip_line(alloc: Global, threads: u32) -> Result<(Vec<SlipSender>, SlipReceiver), AllocError>
    requires { 0 < threads }
    ensures senders { IfOk result (λ ends. ends.0.items ≡ new_senders ends.1.channel threads) }
    ensures receiver { IfOk result (λ ends. ends.1 ≡ new_inbox ends.1.channel SLIP_CAPACITY threads) }
{
    open_channel(alloc, SLIP_CAPACITY, threads)
}

/// As `close`, for the senders of one lane's slips, in the threads' order.
pub fn close_slips<R: Wait>(senders: Vec<SlipSender>, rt: &R) -> SlipsClosed
    requires { AreSenders senders.items }
    ensures channel { AreSendersOf result.channel senders.items }
    ensures sent { result.sent ≡ sent_by senders.items }
    ensures sent_at { result.sent_at ≡ sent_at_by senders.items }
{
    close_channel::<Slip, R>(senders, rt)
}
