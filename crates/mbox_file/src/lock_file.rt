//! A server's own lock file, and what it is linked from.
use crate::plain::{Node, OpenNode};
use std::fs::{FileTimes, OpenFile};
use std::io;
use std::time::{Clock, Duration, SystemTime, UNIX_EPOCH};

/// For how many seconds after a try it isn't tried again to make what lock files are linked from.
const TRY_SECONDS: u64 = 60;

/// A server's own lock file, by which file it is.
#[derive(Clone, Copy)]
pub(crate) enum Held {
    No,
    /// It is another name of the source.
    Linked(Node),
    Made(Node),
}

impl Held {
    /// Which file it is.
    pub fn node(self) -> Option<Node> {
        match self {
            Held::No => None,
            Held::Linked(node) => Some(node),
            Held::Made(node) => Some(node),
        }
    }
}

/// The tries to make what lock files are linked from: where another server has left its own there, one succeeds some
/// day.
#[derive(Clone, Copy)]
pub(crate) enum SourceTries {
    /// There is none: lock files are made, and not linked.
    Never,
    NotYet,
    /// The last was at this time.
    Last(Duration),
}

impl SourceTries {
    /// Whether it is to be tried at this time, which is noted then. A clock that tells no time has the first try alone.
    pub fn begin(&mut self, now: io::Result<Duration>) -> bool {
        let now = now.unwrap_or(Duration::ZERO);
        let is_due = match *self {
            SourceTries::Never => false,
            SourceTries::NotYet => true,
            SourceTries::Last(last) => now.saturating_sub(last).as_secs() >= TRY_SECONDS,
        };
        if is_due {
            *self = SourceTries::Last(now);
        }
        is_due
    }
}

/// What lock files are linked from, and with them has one time.
#[derive(Drop)]
pub(crate) struct LockSource<F: Drop> {
    pub made: OpenNode<F>,
    // the seconds since 1970 of the time that it was given last
    seconds: u64,
}

impl<F: OpenFile + Drop> LockSource<F> {
    /// That file, whose time wasn't given yet.
    pub fn of(made: OpenNode<F>) -> LockSource<F> {
        LockSource { made, seconds: 0 }
    }

    /// Gives it the time of now, by which others judge whether a lock file is left behind. They count in seconds, so
    /// within one of these it isn't given again.
    pub fn renew<C: Clock>(&mut self, clock: &C) -> io::Result<()> {
        let now = SystemTime::now(clock)?;
        let seconds = now
            .duration_since(UNIX_EPOCH)
            .map_or(0, |since| since.as_secs());
        if seconds != self.seconds {
            let times = FileTimes::new().set_modified(now);
            self.made.file.set_times(times)?;
            self.seconds = seconds;
        }
        Ok(())
    }
}
