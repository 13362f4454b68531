//! Until when clients are served.

ghost use Rattle.std.specs.Prelude.{◌≡◌, ◌≤◌, ◌-◌, ◌↔◌, IsTrue, IfSome, ℕ};
ghost use Rattle.std.specs.Duration.{as_nanos};

use std::io::Error;
use std::time::Duration;

/// Says when a server is to end though its clients aren't done, and when a conversation is; by its clock lanes wait
/// where no client can be accepted, and it tells of that. It is asked once a second at least while a client is waited
/// for.
pub trait Curfew: Drop {
    // the server's end was asked for
    ghost IsAsked: { Self → Type 0 };

    // a conversation that began at this moment, in nanoseconds, has no more time, or what the server leaves its clients
    // once its end was asked for is over
    ghost IsOver: { Self → ℕ → Type 0 };

    /// Whether the server's end was asked for: then no client is taken any more.
    fn is_asked(&self) -> bool
        ensures { IsTrue result → IsAsked self.now };

    /// When the server's end was asked for, where it was, by the clock of `moment`.
    fn asked_at(&self) -> Option<Duration>
        ensures { IfSome result (λ _. IsAsked self.now) };

    /// This moment, by a clock that only rises; where there is none it is the largest there is.
    fn moment(&self) -> Duration;

    /// Whether a conversation that began at that moment is to stop.
    fn is_over(&self, begun: Duration) -> bool
        ensures { IsTrue result → IsOver self.now (as_nanos begun) };

    /// Waits for that long.
    fn sleep(&self, time: Duration);

    /// Tells, once a minute at most, that accepts fail, and why this one did.
    fn accept_failed(&self, reason: &Error);
}

/// Whether that much time has passed between two moments.
pub fn has_passed(begun: Duration, now: Duration, time: Duration) -> bool
    ensures { IsTrue result ↔ (as_nanos time ≤ as_nanos now - as_nanos begun) }
{
    now.saturating_sub(begun).as_nanos() >= time.as_nanos()
}
