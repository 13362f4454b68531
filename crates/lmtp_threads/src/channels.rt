//! All channels of one kind: opened, closed and settled together.

ghost use Rattle.std.specs.Prelude.{◌≡◌, ◌<◌, ◌≤◌, ℕ, List, [], IfOk, vec_len, vec_capacity, map};
ghost use Rattle.std.specs.List.{All, AllZip};
ghost use Rattle.mail_post.specs.Channel.{Channel, AreSenders};
ghost use Rattle.lmtp_threads.specs.Grid.{lists, IsRoom};
ghost use Rattle.lmtp_threads.specs.Channels.{IsNewChannel, AreRows, AreNewChannels, AreClosedWith, CanSettle};
ghost use Rattle.lmtp_threads.specs.Channels.{IsSettled, IsShut, MayClose, HaveTimes};

use crate::grid::{empty_rows, transpose};
use mail_post::{
    ChannelClosed, ChannelReceiver, ChannelSender, FromSender, close_channel, open_channel, settle,
};
use std::alloc::{AllocError, Global};
use std::marker::Model;
use std::sync::Wait;

/// That many channels of that capacity, each with a sender for each lane. The senders stand lane by lane.
pub fn open_channels<M: FromSender>(
    alloc: Global,
    capacity: usize,
    lanes: u32,
    count: usize,
) -> Result<(Vec<Vec<ChannelSender<M>>>, Vec<ChannelReceiver<M>>), AllocError>
    requires { 0 < capacity }
    ensures { IfOk result (λ ends. AreNewChannels capacity lanes count (lists ends.0.items) ends.1.items) }
{
    let (columns, receivers) = open_columns(alloc, capacity, lanes, count)?;
    let rows = empty_rows(alloc, lanes as usize, count)?;
    Ok((transpose(columns, rows), receivers))
}

// The same with the senders channel by channel.
fn open_columns<M: FromSender>(
    alloc: Global,
    capacity: usize,
    lanes: u32,
    count: usize,
) -> Result<(Vec<Vec<ChannelSender<M>>>, Vec<ChannelReceiver<M>>), AllocError>
    requires { 0 < capacity }
    ensures count { IfOk result (λ ends. vec_len ends.1 ≡ count) }
    ensures channels { IfOk result (λ ends. AllZip (IsNewChannel capacity lanes) (lists ends.0.items) ends.1.items) }
{
    let mut columns = Vec::new(alloc);
    let mut receivers = Vec::new(alloc);
    for _ in 0..count {
        let (senders, receiver) = open_channel(alloc, capacity, lanes)?;
        columns.push(senders)?;
        receivers.push(receiver)?;
    }
    Ok((columns, receivers))
}

/// Memory to close channels in: for their senders, channel by channel, and for the closed ones.
#[derive(Drop)]
pub struct Closing<M: FromSender> {
    lanes: usize,
    count: usize,
    columns: Vec<Vec<ChannelSender<M>>>,
    closed: Vec<ChannelClosed<M>>,
}

impl<M: FromSender> Model for Closing<M> {
    ghost use Rattle.std.specs.Prelude.{◌≡◌, ◌≤◌, [], vec_len, vec_capacity, map};
    ghost use Rattle.std.specs.List.{All};
    ghost use Rattle.lmtp_threads.specs.Grid.{lists, IsRoom};
    ghost use Rattle.lmtp_threads.specs.Channels.{Shape};

    ghost Value = { Shape };

    ghost view = { λ c. record { lanes = c.lanes; count = c.count } };

    ghost invariant = { λ c. (vec_len c.columns ≡ c.count) × All (λ r. r ≡ []) (lists c.columns.items)
        × All (λ n. c.lanes ≤ n) (map vec_capacity c.columns.items) × IsRoom c.count c.closed };
}

impl<M: FromSender> Closing<M> {
    /// The memory for that many channels, each of that many lanes.
    pub fn new(alloc: Global, lanes: usize, count: usize) -> Result<Closing<M>, AllocError>
        ensures { IfOk result (λ c. c ≡ record { lanes = lanes; count = count }) }
    {
        Ok(Closing {
            lanes,
            count,
            columns: empty_rows(alloc, count, lanes)?,
            closed: Vec::with_capacity(alloc, count)?,
        })
    }

    /// Closes each channel. The senders come lane by lane.
    pub fn close<R: Wait>(self, rt: &R, rows: Vec<Vec<ChannelSender<M>>>) -> Vec<ChannelClosed<M>>
        requires { MayClose self (lists rows.items) }
        ensures sent { (channels : List (Channel M)) (sent : ℕ → ℕ → List M)
            → AreRows self.lanes channels sent (lists rows.items)
            → AreClosedWith self.lanes channels sent result.items }
        ensures times { HaveTimes (lists rows.items) result.items }
    {
        let Closing {
            lanes: _,
            count: _,
            columns,
            closed,
        } = self;
        close_columns(rt, transpose(rows, columns), closed)
    }
}

// Closes each channel, whose senders stand together.
fn close_columns<M: FromSender, R: Wait>(
    rt: &R,
    columns: Vec<Vec<ChannelSender<M>>>,
    closed: Vec<ChannelClosed<M>>,
) -> Vec<ChannelClosed<M>>
    requires senders { All AreSenders (lists columns.items) }
    requires room { IsRoom (vec_len columns) closed }
    ensures { AllZip IsShut (lists columns.items) result.items }
{
    let mut closed = closed;
    for senders in columns {
        closed.push_reserved(close_channel::<M, R>(senders, rt));
    }
    closed
}

/// Compares what each receiver took with what its channel was closed with. It costs nothing when it runs.
pub fn settle_all<M: FromSender>(receivers: Vec<ChannelReceiver<M>>, closed: Vec<ChannelClosed<M>>)
    requires { AllZip CanSettle receivers.items closed.items }
    ensures { AllZip (IsSettled M.sender) receivers.items closed.items }
{
    let mut closed = closed.into_iter();
    for receiver in receivers {
        let Some(closed) = closed.next() else {
            unreachable!()
        };
        settle(receiver, closed);
    }
}
