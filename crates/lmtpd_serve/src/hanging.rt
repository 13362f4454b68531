//! Says which mailboxes a stop waits for.

use lmtp_tcp::Curfew;
use lmtp_text::Site;
use lmtpd_output::printable;
use log::{Log, error};
use slow_boxes::SlowBoxes;
use std::sync::{Arc, Wait};
use std::thread;
use std::thread::Threads;
use std::time::{Clock, Duration};

/// How long after the end was asked for it is said, in seconds. Conversations, and waits for locks, end before that.
const LATE_SECONDS: u64 = 8;

/// How often it is looked whether the end was asked for.
const LOOK_MS: u64 = 500;

/// Starts a thread that waits for the server's end to be asked for, and eight seconds more, and then says in the log of
/// each mailbox whose turn is still under way that the stop waits for it: it is in a call of the system, which nobody can
/// end. The thread ends with the process. Where none can be made nothing is said.
pub fn watch_stop<R, E, G>(rt: R, curfew: &Arc<E>, slow: &Arc<SlowBoxes>, site: &Arc<Site>, log: G)
where
    R: Threads + Wait + Clock + Copy + Send + 'static,
    E: Curfew + Send + Sync + 'static,
    G: Log + Drop + Send + 'static,
{
    let (Ok(curfew), Ok(slow), Ok(site)) = (
        Arc::try_clone(curfew),
        Arc::try_clone(slow),
        Arc::try_clone(site),
    ) else {
        return;
    };
    let stop = Stop {
        curfew,
        slow,
        site,
        log,
    };
    if let Ok(handle) = thread::spawn(&rt, move || stop.watch(&rt)) {
        drop(handle);
    }
}

/// What a stop may wait for.
#[derive(Drop)]
struct Stop<E: Drop, G: Drop> {
    curfew: Arc<E>,
    slow: Arc<SlowBoxes>,
    site: Arc<Site>,
    log: G,
}

impl<E: Curfew, G: Log + Drop> Stop<E, G> {
    // Waits for the moment, and says it once.
    fn watch<R: Wait + Clock>(&self, rt: &R) {
        for _ in rt.forever() {
            if self.is_late() {
                self.tell(rt);
                return;
            }
            rt.sleep(Duration::from_millis(LOOK_MS));
        }
    }

    // Whether the end was asked for so long ago.
    fn is_late(&self) -> bool {
        match self.curfew.asked_at() {
            Some(asked) => {
                let since = self.curfew.moment().saturating_sub(asked);
                since.as_secs() >= LATE_SECONDS
            }
            None => false,
        }
    }

    // Of each mailbox with a turn under way.
    fn tell<C: Clock>(&self, clock: &C) {
        let log = &self.log;
        for number in 0..self.site.box_count() {
            if self.slow.has_old_turn(number, clock) {
                let mailbox = printable(self.site.box_name(number));
                error!(log; target: "lmtpd", mailbox:%; "the stop waits for a call of the system");
            }
        }
    }
}
