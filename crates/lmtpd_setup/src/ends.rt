//! What ends a server though its clients aren't done: a file that an administrator makes.

ghost use Rattle.std.specs.Prelude.{◌≡◌, IfOk, option_map, string_bytes};
ghost use Rattle.lmtpd_setup.specs.Curfew.{IsCurfewOf};

use crate::logger::ServerLog;
use lmtp_tcp::{Curfew, has_passed};
use lmtpd_listen::{Manager, Told};
use log::error;
use std::alloc::{AllocError, Global};
use std::fs::Files;
use std::sync::atomic::{AtomicU64, Ordering};
use std::time::{Clock, Duration};
use std::{fs, io};

/// How often the stop file is looked for, at most.
const LOOK_MS: u64 = 250;

/// How long conversations, and waits for locks, go on once the server's end was asked for.
const GRACE_MS: u64 = 5_000;

/// How often it is logged at most that no client can be accepted.
const TELL_MS: u64 = 60_000;

/// The end wasn't asked for, or nothing was logged yet.
const NEVER: u64 = u64::MAX;

/// What ends a server, beside the number of its conversations, and what ends each of these.
#[derive(Clone, Copy, PartialEq, Eq)]
pub struct Ends<'a> {
    /// The server ends in order once this file is there.
    pub stop_file: Option<&'a str>,
    /// How many seconds a conversation may last.
    pub session_time: u32,
}

/// The curfew of a server, which its lanes and mailboxes share.
#[derive(Drop)]
pub struct ServerCurfew<R> {
    rt: R,
    log: ServerLog<R>,
    stop_file: Option<String>,
    session: Duration,
    // by the monotonic clock, in milliseconds
    looked: AtomicU64,
    // when it was found that the end was asked for
    asked: AtomicU64,
    // when it was logged last that no client can be accepted
    told: AtomicU64,
    // who is told that the server listens and that it stops, and whether the first was told: 0 or 1
    manager: Option<Manager>,
    listens: AtomicU64,
}

impl<R: Drop> ServerCurfew<R> {
    /// Nothing has ended the server yet, and no lane takes clients; the manager, if there is one, is told of both. From
    /// here on it takes no memory.
    pub fn new(
        rt: R,
        log: ServerLog<R>,
        alloc: Global,
        ends: Ends<'_>,
        manager: Option<Manager>,
    ) -> Result<ServerCurfew<R>, AllocError>
        ensures { IfOk result (IsCurfewOf ends.entry) }
    {
        Ok(ServerCurfew {
            rt,
            log,
            stop_file: kept_path(alloc, ends.stop_file)?,
            session: Duration::from_secs(u64::from(ends.session_time)),
            looked: AtomicU64::new(0),
            asked: AtomicU64::new(NEVER),
            told: AtomicU64::new(NEVER),
            manager,
            listens: AtomicU64::new(0),
        })
    }
}

// The path that is looked at, where there is one.
fn kept_path(alloc: Global, path: Option<&str>) -> Result<Option<String>, AllocError>
    ensures { IfOk result (λ kept. option_map string_bytes kept ≡ option_map (λ p. p.now) path.entry) }
{
    match path {
        Some(path) => Ok(Some(format!(in alloc; "{path}")?)),
        None => Ok(None),
    }
}

impl<R: Clock> ServerCurfew<R> {
    // Without a clock that tells the time nothing is over.
    fn now(&self) -> Duration {
        self.rt.monotonic().unwrap_or(Duration::ZERO)
    }

    fn now_ms(&self) -> u64 {
        u64::try_from(self.now().as_millis()).unwrap_or(u64::MAX)
    }

    // Whether a minute has passed since this was said last, which is said now: of several lanes to one.
    fn may_tell(&self) -> bool {
        let now = self.now_ms();
        let told = self.told.load(Ordering::SeqCst);
        if told != NEVER && now.saturating_sub(told) < TELL_MS {
            return false;
        }
        self.told
            .compare_exchange(told, now, Ordering::SeqCst, Ordering::SeqCst)
            .is_ok()
    }
}

impl<R: Clock + Files> ServerCurfew<R> {
    // Whether the stop file was there when it was looked for last.
    fn is_stop_file_there(&self, now: u64) -> bool {
        let Some(path) = &self.stop_file else {
            return false;
        };
        let looked = self.looked.load(Ordering::SeqCst);
        if looked != 0 && now.saturating_sub(looked) < LOOK_MS {
            return false;
        }
        self.looked.store(now, Ordering::SeqCst);
        fs::symlink_metadata(&self.rt, path.as_str()).is_ok()
    }

    // When it was found that the end was asked for; the first who finds it counts.
    fn asked_ms(&self) -> Option<u64> {
        let asked = self.asked.load(Ordering::SeqCst);
        if asked != NEVER {
            return Some(asked);
        }
        let now = self.now_ms();
        if !self.is_stop_file_there(now) {
            return None;
        }
        let before = self.asked.fetch_min(now, Ordering::SeqCst);
        if before == NEVER {
            self.tell_stopping();
        }
        Some(before.min(now))
    }

    // Where the manager can't be told it finds out as the process ends.
    fn tell_stopping(&self) {
        if let Some(manager) = &self.manager {
            let _ = manager.tell(&self.rt, Told::Stopping);
        }
    }
}

impl<R: Clock + Files + Drop> ServerCurfew<R> {
    fn asked_since(&self) -> Option<Duration> {
        Some(Duration::from_millis(self.asked_ms()?))
    }

    fn time(&self) -> Duration {
        self.rt.monotonic().unwrap_or(Duration::MAX)
    }

    /// Whether the end was asked for so long ago that nothing is waited for any more; without a clock at once.
    pub(crate) fn is_grace_over(&self) -> bool {
        match self.asked_since() {
            Some(asked) => has_passed(asked, self.time(), Duration::from_millis(GRACE_MS)),
            None => false,
        }
    }
}

impl<R: Clock + Eprint> ServerCurfew<R> {
    // One lane tells the manager, once; where that can't be told the log says why.
    fn tell_listening(&self) {
        let Some(manager) = &self.manager else {
            return;
        };
        let is_first = self
            .listens
            .compare_exchange(0, 1, Ordering::SeqCst, Ordering::SeqCst)
            .is_ok();
        if !is_first {
            return;
        }
        if let Err(reason) = manager.tell(&self.rt, Told::Listening) {
            let log = &self.log;
            error!(log; target: "lmtpd", reason:%; "cannot tell the service manager");
        }
    }
}

impl<R: Clock + Files + Eprint + Drop> Curfew for ServerCurfew<R> {
    ghost use Rattle.std.specs.Prelude.{⊤};

    ghost IsAsked = { λ _. ⊤ };

    ghost IsOver = { λ _ _. ⊤ };

    /// Once it was asked for it stays so. A lane asks before it takes a client: at the first time the server listens, and
    /// all that a start may lack it has.
    fn is_asked(&self) -> bool {
        self.tell_listening();
        self.asked_ms().is_some()
    }

    fn asked_at(&self) -> Option<Duration> {
        self.asked_since()
    }

    fn moment(&self) -> Duration {
        self.time()
    }

    fn is_over(&self, begun: Duration) -> bool {
        has_passed(begun, self.now(), self.session) || self.is_grace_over()
    }

    fn sleep(&self, time: Duration) {
        self.rt.sleep(time);
    }

    fn accept_failed(&self, reason: &io::Error) {
        if self.may_tell() {
            let log = &self.log;
            error!(log; target: "lmtpd", reason:%; "cannot accept");
        }
    }
}
