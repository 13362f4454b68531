//! All channels of a server, and what closes them.

ghost use Rattle.std.specs.Prelude.{◌≡◌, ◌<◌, IfOk};
ghost use Rattle.mail_post.specs.declared.kinds.TheConstants.{SLIP_CAPACITY};
ghost use Rattle.lmtp_threads.specs.Channels.{AreNewChannels};
ghost use Rattle.lmtp_threads.specs.Grid.{lists};

use lmtp_threads::{Closing, open_channels};
use mail_post::{Post, Receiver, SLIP_CAPACITY, Sender, SlipReceiver, SlipSender};
use mail_world::Slip;
use msg_depot::DepotName;
use std::alloc::{AllocError, Global};

/// The ends of all channels: of each lane a row of senders of mail and a taker of slips, of each worker thread a
/// receiver of mail and a row of senders of slips.
#[derive(Drop)]
pub struct Channels<N: DepotName> {
    pub rows: Vec<Vec<Sender<N>>>,
    pub receivers: Vec<Receiver<N>>,
    pub slip_rows: Vec<Vec<SlipSender>>,
    pub takers: Vec<SlipReceiver>,
}

impl<N: DepotName> Channels<N> {
    /// New channels between as many lanes and worker threads, those of mail of this capacity.
    pub fn open(
        alloc: Global,
        capacity: usize,
        lanes: u32,
        threads: u32,
    ) -> Result<Channels<N>, AllocError>
        requires { 0 < capacity }
        ensures mail { IfOk result
            (λ ends. AreNewChannels capacity lanes threads (lists ends.rows.items) ends.receivers.items) }
        ensures slips { IfOk result
            (λ ends. AreNewChannels SLIP_CAPACITY threads lanes (lists ends.slip_rows.items) ends.takers.items) }
    {
        let (rows, receivers) = open_channels::<Post<N>>(alloc, capacity, lanes, threads as usize)?;
        let (slip_rows, takers) = open_channels::<Slip>(
            alloc,
            SLIP_CAPACITY,
            threads,
            lanes as usize,
        )?;
        Ok(Channels {
            rows,
            receivers,
            slip_rows,
            takers,
        })
    }
}

/// What closes the channels of mail, and those of slips.
#[derive(Drop)]
pub struct Closings<N: DepotName> {
    pub mail: Closing<Post<N>>,
    pub slips: Closing<Slip>,
}

impl<N: DepotName> Closings<N> {
    /// The memory that the closing of all channels needs.
    pub fn new(alloc: Global, lanes: u32, threads: u32) -> Result<Closings<N>, AllocError>
        ensures mail { IfOk result (λ c. c.mail ≡ record { lanes = lanes; count = threads }) }
        ensures slips { IfOk result (λ c. c.slips ≡ record { lanes = threads; count = lanes }) }
    {
        Ok(Closings {
            mail: Closing::new(alloc, lanes as usize, threads as usize)?,
            slips: Closing::new(alloc, threads as usize, lanes as usize)?,
        })
    }
}
