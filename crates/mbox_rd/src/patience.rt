//! How long a mailbox is waited for: so many seconds within a minute, in all of its turns together.
ghost use Rattle.std.specs.Prelude.{◌≡◌, ◌+◌, ◌-◌, ◌*◌, ◌<◌, ◌≤◌, true, false};
ghost use Rattle.mail_world.specs.Counts.{counted};
ghost use Rattle.mbox_rd.specs.Patience.{HasAsked, HasTime, IsPutOff, is_minute_over, ms_between, pause_ms, pauses_ms};
ghost use Rattle.mbox_rd.specs.Patience.{spent_ms, took_none, IsOverByThen, IsTimeOver};

use mail_world::limits::LOCK_WAIT_LIMIT;
use std::time::{Clock, Duration};

/// How long what was waited counts.
const MINUTE_SECONDS: u64 = 60;

/// How many pauses of a turn are short, and how long these and the others are.
const SHORT_PAUSES: u64 = 20;

const SHORT_PAUSE_MS: u64 = 5;

const PAUSE_MS: u64 = 100;

/// What decides how long the next turn is waited for: how long turns were waited for within this minute, which begins
/// with the first that was, and whether one was missed within the last. A wait is all that passes from a turn's first
/// call to its lock, since any of these calls may be held up.
/// Each mailbox has one: flags stand side by side, since fields lie in memory as they stand here.
#[derive(Clone, Copy)]
pub(crate) struct Patience {
    // a turn was missed, and no minute has passed since
    was_missed: bool,
    // the last pause of this turn took no time, by the clock
    paused_none: bool,
    // the turn that was asked for was put off, and the next tries are for that one
    goes_on: bool,
    missed: Duration,
    // how long earlier turns of this minute were waited for
    waited_ms: u64,
    began: Duration,
    // when this turn was asked for, where the clock tells it, how long it may be waited for, and its pauses
    asked: Option<Duration>,
    left_ms: u64,
    pauses: u64,
    paused_ms: u64,
    // how long it had been waited for as the last of them was asked for
    lasted_ms: u64,
    // one that is put off isn't tried again before it was waited for that long
    due_ms: u64,
}

impl Patience {
    /// Nothing was waited for yet.
    pub fn new() -> Patience
        ensures waited { result.waited_ms ≡ 0 }
        ensures missed { result.was_missed ≡ false }
        ensures new { result.goes_on ≡ false }
    {
        Patience {
            was_missed: false,
            paused_none: false,
            goes_on: false,
            missed: Duration::ZERO,
            waited_ms: 0,
            began: Duration::ZERO,
            asked: None,
            left_ms: 0,
            pauses: 0,
            paused_ms: 0,
            lasted_ms: 0,
            due_ms: 0,
        }
    }

    /// How many tries a turn has that is asked for now, with a pause between each two: as many as there is time for where
    /// turns are waited for that many seconds within a minute, LOCK_WAIT_LIMIT at most. For a minute after a missed turn
    /// it is one, and so for one that was put off: its wait lies behind it.
    pub fn tries<C: Clock>(&mut self, clock: &C, seconds: u32) -> u64
        requires goes_on { self.old.goes_on ≡ true → IsPutOff self.old seconds }
        ensures asked { HasAsked self.old self.new seconds }
        ensures since { self.old.goes_on ≡ true → self.new.asked ≡ self.old.asked }
        ensures missed { self.new.was_missed ≡ true → result ≡ 1 }
        ensures put_off { self.old.goes_on ≡ true → result ≡ 1 }
        ensures within { pauses_ms (result - 1) ≤ self.new.left_ms }
        ensures most { self.old.goes_on ≡ false → self.new.was_missed ≡ false
            → self.new.left_ms < pauses_ms result }
    {
        let was_put_off = self.goes_on;
        self.ask(clock, seconds);
        if was_put_off || self.was_missed {
            1
        } else {
            tries_in(self.left_ms)
        }
    }

    // A turn is asked for now, or was before it was put off.
    fn ask<C: Clock>(&mut self, clock: &C, seconds: u32)
        requires goes_on { self.old.goes_on ≡ true → IsPutOff self.old seconds }
        ensures asked { HasAsked self.old self.new seconds }
        ensures since { self.old.goes_on ≡ true → self.new.asked ≡ self.old.asked }
    {
        if self.goes_on {
            self.goes_on = false;
            return;
        }
        let asked = clock.monotonic().ok();
        self.was_missed = self.was_missed && !has_minute_passed(asked, self.missed);
        if has_minute_passed(asked, self.began) {
            self.waited_ms = 0;
        }
        let most = u64::from(seconds.min(LOCK_WAIT_LIMIT)) * 1_000;
        self.left_ms = most.saturating_sub(self.waited_ms);
        self.asked = asked;
        self.pauses = 0;
        self.paused_ms = 0;
        self.lasted_ms = 0;
        self.paused_none = false;
    }

    /// The turn that was asked for is put off: its wait goes on, and it is tried again after as long as a turn that has
    /// waited so long pauses.
    pub fn put_off<C: Clock>(&mut self, clock: &C)
        ensures { self.new ≡ record self.old {
          lasted_ms = 0;
          paused_none = false;
          goes_on = true;
          due_ms = self.new.due_ms;
        } }
    {
        let spent = self.spent_by(clock.monotonic().ok());
        self.due_ms = spent.saturating_add(pause_at(spent));
        self.lasted_ms = 0;
        self.paused_none = false;
        self.goes_on = true;
    }

    /// Whether there is time for this turn yet. For a minute after a missed turn there is none, and none where the clock
    /// doesn't tell the time.
    pub fn has_time<C: Clock>(&self, clock: &C) -> bool
        ensures { result ≡ true → HasTime self.now }
    {
        let now = clock.monotonic().ok();
        let is_known = self.asked.is_some() && now.is_some();
        is_known && !self.was_missed && self.spent_by(now) < self.left_ms
    }

    /// Whether this turn was put off, has time yet and isn't to be tried again before longer.
    pub fn is_early<C: Clock>(&self, clock: &C) -> bool
        ensures { result ≡ true → (self.now.goes_on ≡ true) × HasTime self.now }
    {
        let spent = self.spent_by(clock.monotonic().ok());
        self.goes_on && spent < self.due_ms && self.has_time(clock)
    }

    /// The turn's next pause, after so many. False: the time for this turn is over, and there is none, or it took no
    /// time, since the clock waits for nothing any more.
    pub fn pause<C: Clock>(&mut self, clock: &C, made: u64) -> bool
        ensures paused { result ≡ true → self.new ≡ record self.old {
          pauses = counted (made + 1);
          paused_ms = counted (self.old.paused_ms + pause_ms made);
          lasted_ms = self.new.lasted_ms;
          paused_none = self.new.paused_none;
        } }
        ensures none { result ≡ false → self.new ≡ record self.old {
          lasted_ms = self.new.lasted_ms;
          paused_none = self.new.paused_none;
        } }
        ensures over { result ≡ false → IsTimeOver self.new }
        ensures late { self.old.left_ms ≤ self.old.paused_ms → result ≡ false }
    {
        let asked = clock.monotonic().ok();
        if self.is_over_by(asked) {
            return false;
        }
        let ms = pause_after(made);
        clock.sleep(Duration::from_millis(ms));
        if self.has_paused_none(asked, clock.monotonic().ok()) {
            return false;
        }
        self.pauses = made.saturating_add(1);
        self.paused_ms = self.paused_ms.saturating_add(ms);
        true
    }

    // Whether the time for this turn is over as a pause is asked for then.
    fn is_over_by(&mut self, then: Option<Duration>) -> bool
        ensures new { self.new ≡ record self.old {
          lasted_ms = spent_ms self.old.asked then self.old.paused_ms;
          paused_none = false;
        } }
        ensures over { result ≡ true → IsOverByThen self.new }
        ensures late { self.old.left_ms ≤ self.old.paused_ms → result ≡ true }
    {
        self.lasted_ms = self.spent_by(then);
        self.paused_none = false;
        self.lasted_ms >= self.left_ms
    }

    // Whether the pause that began and was over then took no time.
    fn has_paused_none(&mut self, began: Option<Duration>, woke: Option<Duration>) -> bool
        ensures new { self.new ≡ record self.old { paused_none = took_none began woke } }
        ensures result { result ≡ took_none began woke }
    {
        self.paused_none = has_taken_none(began, woke);
        self.paused_none
    }

    // How long this turn is waited for by then. Where the clock tells no time its pauses count.
    fn spent_by(&self, then: Option<Duration>) -> u64
        ensures exact { result ≡ spent_ms self.now.asked then self.now.paused_ms }
        ensures paused { self.now.paused_ms ≤ result }
    {
        match (self.asked, then) {
            (Some(asked), Some(then)) => self.paused_ms.max(whole_ms(asked, then)),
            _ => self.paused_ms,
        }
    }

    /// The turn is had or missed: how long it was waited for counts within this minute.
    pub fn end_wait<C: Clock>(&mut self, clock: &C)
        ensures same { self.new ≡ record self.old { waited_ms = self.new.waited_ms; began = self.new.began } }
        ensures counted { counted (self.old.waited_ms + self.old.paused_ms) ≤ self.new.waited_ms }
    {
        let spent = self.spent_by(clock.monotonic().ok());
        if self.waited_ms == 0 {
            self.began = self.asked.unwrap_or(Duration::ZERO);
        }
        self.waited_ms = self.waited_ms.saturating_add(spent);
    }

    /// A turn is missed now.
    pub fn miss<C: Clock>(&mut self, clock: &C)
        ensures { self.new ≡ record self.old { was_missed = true; missed = self.new.missed } }
    {
        self.was_missed = true;
        self.missed = clock.monotonic().unwrap_or(Duration::ZERO);
    }
}

// Whether by the clock not even a millisecond passed in a pause. One that tells no time is believed.
fn has_taken_none(began: Option<Duration>, woke: Option<Duration>) -> bool
    ensures { result ≡ took_none began woke }
{
    match (began, woke) {
        (Some(began), Some(woke)) => whole_ms(began, woke) == 0,
        _ => false,
    }
}

// Whether a minute has passed since then. A clock that tells no time ends none.
fn has_minute_passed(now: Option<Duration>, since: Duration) -> bool
    ensures { result ≡ is_minute_over now since }
{
    match now {
        Some(now) => now.saturating_sub(since).as_secs() >= MINUTE_SECONDS,
        None => false,
    }
}

// A wait of less than a millisecond is none.
fn whole_ms(began: Duration, now: Duration) -> u64
    ensures { result ≡ ms_between began now }
{
    let ms = now.saturating_sub(began).as_millis();
    ms.min(u128::from(u64::MAX)) as u64
}

// How many tries take that many milliseconds with a pause between each two.
fn tries_in(ms: u64) -> u64
    requires { ms ≤ 3_600_000 }
    ensures within { pauses_ms (result - 1) ≤ ms }
    ensures most { ms < pauses_ms result }
{
    let short = SHORT_PAUSES * SHORT_PAUSE_MS;
    if ms < short {
        1 + ms / SHORT_PAUSE_MS
    } else {
        1 + SHORT_PAUSES + (ms - short) / PAUSE_MS
    }
}

// How many milliseconds a turn pauses that was waited for so many, in which the short pauses fit or don't.
fn pause_at(spent_ms: u64) -> u64 {
    if spent_ms < SHORT_PAUSES * SHORT_PAUSE_MS {
        SHORT_PAUSE_MS
    } else {
        PAUSE_MS
    }
}

// How many milliseconds the pause takes that comes after so many.
fn pause_after(made: u64) -> u64
    ensures { result ≡ pause_ms made }
{
    if made < SHORT_PAUSES {
        SHORT_PAUSE_MS
    } else {
        PAUSE_MS
    }
}
