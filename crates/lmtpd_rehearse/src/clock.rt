//! The time of a rehearsal.

ghost use Rattle.std.specs.Prelude.{◌≡◌};

use lmtp_house::{Clock, SlowMailboxes};
use std::sync::Wait;

/// A clock that stands still.
#[derive(Clone, Copy, PartialEq, Eq)]
pub struct FixedClock {
    /// The seconds since 1970 that it always answers.
    pub moment: u32,
}

/// No mailbox of a rehearsal is slow.
impl SlowMailboxes for FixedClock {}

impl Clock for FixedClock {
    ghost May = { λ clock moment. moment ≡ clock.moment };

    fn unix<R: Wait>(&self, rt: &R) -> u32 {
        let _ = rt;
        self.moment
    }
}
