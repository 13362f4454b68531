//! How the turns at a mailbox stand.

ghost use Rattle.std.specs.Prelude.{◌≡◌, ◌↔◌, ◌+◌, ◌≤◌, true};

use std::sync::atomic::{AtomicBool, AtomicU64, Ordering};
use std::time::{Clock, Duration};

/// How old a turn is at least that makes its mailbox slow, in milliseconds.
const OLD_MS: u64 = 500;

/// How long a turn is put off at least that makes its mailbox slow, in milliseconds.
const PUT_OFF_MS: u64 = 2_000;

/// No turn is under way: it begins at the end of time, and is never old.
const NEVER: u64 = u64::MAX;

/// How the turns at one mailbox stand. Its worker alone changes it.
#[derive(Drop)]
pub(crate) struct Turns {
    // by the monotonic clock, in milliseconds
    began: AtomicU64,
    was_missed: AtomicBool,
}

impl Turns {
    /// There was none yet.
    pub(crate) fn new() -> Turns {
        Turns {
            began: AtomicU64::new(NEVER),
            was_missed: AtomicBool::new(false),
        }
    }

    /// One begins.
    pub(crate) fn begin(&self, now: u64) {
        self.began.store(now, Ordering::SeqCst);
    }

    /// One is put off. It counts as old once it was for two seconds.
    pub(crate) fn put_off(&self, now: u64) {
        let counts_from = now.saturating_add(PUT_OFF_MS - OLD_MS);
        self.began.store(counts_from, Ordering::SeqCst);
    }

    /// It was missed, and the mailbox is slow without a gap, until one is had.
    pub(crate) fn miss(&self) {
        self.was_missed.store(true, Ordering::SeqCst);
        self.began.store(NEVER, Ordering::SeqCst);
    }

    /// It was had.
    pub(crate) fn end(&self) {
        self.began.store(NEVER, Ordering::SeqCst);
        self.was_missed.store(false, Ordering::SeqCst);
    }

    /// Whether the turn under way is old.
    pub(crate) fn is_old(&self, now: u64) -> bool {
        is_old(self.began.load(Ordering::SeqCst), now)
    }

    /// Whether the mailbox is slow: the turn under way is old, or the last that ended was missed. The two are read in
    /// this order, since a turn that is missed is marked so before it ends.
    pub(crate) fn is_slow(&self, now: u64) -> bool {
        self.is_old(now) || self.was_missed.load(Ordering::SeqCst)
    }
}

// Whether a turn that began then is old now.
fn is_old(began: u64, now: u64) -> bool
    ensures { result ≡ true ↔ began + OLD_MS ≤ now }
{
    now.saturating_sub(began) >= OLD_MS
}

/// The time of the monotonic clock in milliseconds. Without a clock that tells it no turn is old.
pub(crate) fn milliseconds<C: Clock>(clock: &C) -> u64 {
    let now = clock.monotonic().unwrap_or(Duration::ZERO);
    u64::try_from(now.as_millis()).unwrap_or(u64::MAX)
}
