//! The system's time.

ghost use Rattle.std.specs.Prelude.{◌≡◌, ◌<◌, ◌/◌, ◌^◌, ◌-◌, min, IfOk, OnErr};
ghost use Rattle.std.specs.Duration.{as_nanos};

use crate::clock::Clock;
use crate::slow::SlowMailboxes;
use std::sync::Wait;
use std::time::Duration;
use std::{io, time};

/// The system's clock.
#[derive(Drop)]
pub struct SystemClock<T> {
    clock: T,
}

impl<T> SystemClock<T> {
    /// Over the system's clock.
    pub fn new(clock: T) -> SystemClock<T>
        ensures { result.clock ≡ clock }
    {
        SystemClock { clock }
    }
}

/// It knows of no slow mailbox.
impl<T> SlowMailboxes for SystemClock<T> {}

impl<T: time::Clock + Drop> Clock for SystemClock<T> {
    ghost use Rattle.std.specs.Prelude.{◌<◌, ◌^◌};

    ghost May = { λ clock moment. moment < 2 ^ 32 };

    /// Whole seconds; 0 before 1970, and the largest moment where it is later than that.
    fn unix<R: Wait>(&self, _rt: &R) -> u32 {
        seconds_of(self.clock.since_1970())
    }
}

// The moment of a time since 1970; an error is a time before that.
fn seconds_of(since: io::Result<Duration>) -> u32
    ensures ok { IfOk since (λ time. result ≡ min (as_nanos time / 1_000_000_000) (2 ^ 32 - 1)) }
    ensures err { OnErr since (result ≡ 0) }
{
    match since {
        Ok(time) => u32::try_from(time.as_secs()).unwrap_or(u32::MAX),
        Err(_) => 0,
    }
}
