//! A clock that doesn't hold up a server for long whose end was asked for, nor its lanes.

ghost use Rattle.std.specs.Prelude.{◌≡◌};

use crate::ends::ServerCurfew;
use slow_boxes::SlowBoxes;
use std::fs::Files;
use std::io;
use std::sync::Arc;
use std::time::{Clock, Duration};

/// The clock by which a mailbox pauses while other programs have it locked. Once the grace is over that the server has
/// after its end was asked for, or while its turn holds up lanes and is old, a pause takes no time, by which the mailbox
/// knows that it waits no longer.
#[derive(Drop)]
pub struct HurriedClock<R: Drop> {
    clock: R,
    curfew: Arc<ServerCurfew<R>>,
    slow: Arc<SlowBoxes>,
    mailbox: u32,
}

impl<R: Drop> HurriedClock<R> {
    /// Over the clock, until that curfew, for the mailbox of that number.
    pub fn new(
        clock: R,
        curfew: Arc<ServerCurfew<R>>,
        slow: Arc<SlowBoxes>,
        mailbox: u32,
    ) -> HurriedClock<R>
        ensures over { result.clock ≡ clock }
        ensures until { result.curfew ≡ curfew }
        ensures mailbox { result.mailbox ≡ mailbox }
    {
        HurriedClock {
            clock,
            curfew,
            slow,
            mailbox,
        }
    }
}

impl<R: Clock + Files + Drop> Clock for HurriedClock<R> {
    fn monotonic(&self) -> io::Result<Duration> {
        self.clock.monotonic()
    }

    fn since_1970(&self) -> io::Result<Duration> {
        self.clock.since_1970()
    }

    fn sleep(&self, duration: Duration) {
        if !self.curfew.is_grace_over() && self.slow.may_wait(self.mailbox, &self.clock) {
            self.clock.sleep(duration);
        }
    }
}
