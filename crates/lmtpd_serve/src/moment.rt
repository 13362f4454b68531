//! A moment, in half the bytes of a `Duration`: each mailbox keeps three.

use std::io;
use std::time::Clock;

/// A moment by the monotonic clock, in whole milliseconds.
#[derive(Clone, Copy)]
pub(crate) struct Moment {
    milliseconds: u64,
}

impl Moment {
    /// As the clock began.
    pub(crate) const FIRST: Moment = Moment { milliseconds: 0 };

    /// As the clock tells it.
    pub(crate) fn now<C: Clock>(clock: &C) -> io::Result<Moment> {
        let passed = clock.monotonic()?.as_millis();
        Ok(Moment {
            milliseconds: u64::try_from(passed).unwrap_or(u64::MAX),
        })
    }

    /// How many milliseconds have passed since an earlier one; since a later one none have.
    pub(crate) fn since(self, earlier: Moment) -> u64 {
        self.milliseconds.saturating_sub(earlier.milliseconds)
    }
}
