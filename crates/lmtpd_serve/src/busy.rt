//! Leaves a busy mailbox to other programs for a moment, time and again.

use super::moment::Moment;
use box_worker::{Gate, TurnEnd};
use mail_world::Txn;
use std::time::{Clock, Duration};

/// For how long copies may follow one another before their mailbox is left alone, in milliseconds.
const BUSY_MS: u64 = 20_000;

/// mutt, `lockfile` and others look once a second whether a lock is free.
const REST_MS: u64 = 1_100;

/// How long a thread waits that can't go on, before it looks for copies and locks again.
const PAUSE_MS: u64 = 5;

/// A mailbox's gate. Between two copies that follow at once its locks are free for microseconds, which a program that
/// looks once a second would hardly ever meet. So a mailbox that had no rest of 1.1 seconds for 20 gets one, with
/// neither lock held; what comes meanwhile waits.
#[derive(Clone, Copy, Drop)]
pub(crate) struct RestGate<C> {
    clock: C,
    rested: Moment,
    released: Moment,
    is_asked: bool,
}

impl<C> RestGate<C> {
    /// Of a mailbox that had no copy yet.
    pub(crate) fn new(clock: C) -> RestGate<C> {
        RestGate {
            clock,
            rested: Moment::FIRST,
            released: Moment::FIRST,
            is_asked: false,
        }
    }
}

impl<C: Clock> Gate for RestGate<C> {
    /// Not while it is to rest. Who asks goes on with other mailboxes meanwhile, or lets it have no rest: nothing waits
    /// here for that turn.
    fn is_free(&mut self) -> bool {
        self.is_asked = true;
        let Ok(now) = Moment::now(&self.clock) else {
            return true;
        };
        now.since(self.released) >= REST_MS || now.since(self.rested) < BUSY_MS
    }

    /// Waits a little, since all mailboxes of its thread that have a copy are left alone, or others have them.
    fn pause(&mut self) {
        self.clock.sleep(Duration::from_millis(PAUSE_MS));
    }

    /// Without a clock that tells the time there is no rest.
    fn before(&mut self, txn: Txn, place: u32) {
        let _ = (txn, place);
        let was_asked = self.is_asked;
        self.is_asked = false;
        let Ok(now) = Moment::now(&self.clock) else {
            return;
        };
        if now.since(self.released) >= REST_MS {
            self.rested = now;
        } else if now.since(self.rested) >= BUSY_MS {
            if !was_asked {
                self.clock.sleep(Duration::from_millis(REST_MS));
            }
            self.rested = Moment::now(&self.clock).unwrap_or(now);
        }
    }

    fn after(&mut self, txn: Txn, place: u32, end: TurnEnd) {
        let _ = (txn, place, end);
        if let Ok(now) = Moment::now(&self.clock) {
            self.released = now;
        }
    }
}
