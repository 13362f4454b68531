//! Where the lanes of a server ask for the time, and for slow mailboxes.

use lmtp_house::{Clock, SlowMailboxes, SystemClock};
use slow_boxes::SlowBoxes;
use std::sync::{Arc, Wait};
use std::time;

/// The system's clock, and the words by which lanes and mailboxes know which of these are slow.
#[derive(Drop)]
pub(crate) struct LaneClock<H: Drop> {
    system: SystemClock<H>,
    clock: H,
    slow: Arc<SlowBoxes>,
}

impl<H: Copy + Drop> LaneClock<H> {
    /// Over the system's clock.
    pub(crate) fn new(clock: H, slow: Arc<SlowBoxes>) -> LaneClock<H> {
        LaneClock {
            system: SystemClock::new(clock),
            clock,
            slow,
        }
    }
}

impl<H: time::Clock + Drop> SlowMailboxes for LaneClock<H> {
    fn posts(&self, lane: u32, mailbox: u32) {
        self.slow.posts(lane, mailbox);
    }

    fn is_busy(&self, lane: u32, mailbox: u32) -> bool {
        self.slow.is_busy(lane, mailbox, &self.clock)
    }

    fn rests(&self, lane: u32) {
        self.slow.rests(lane);
    }
}

impl<H: time::Clock + Drop> Clock for LaneClock<H> {
    ghost use Rattle.std.specs.Prelude.{◌<◌, ◌^◌};

    ghost May = { λ clock moment. moment < 2 ^ 32 };

    fn unix<R: Wait>(&self, rt: &R) -> u32 {
        self.system.unix(rt)
    }
}
