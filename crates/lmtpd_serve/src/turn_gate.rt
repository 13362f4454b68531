//! Says when a mailbox's turns begin and end, and how long one is put off.

use super::busy::RestGate;
use super::moment::Moment;
use box_worker::{Gate, TurnEnd};
use lmtp_tcp::Curfew;
use mail_world::Txn;
use slow_boxes::SlowBoxes;
use std::sync::Arc;
use std::time::Clock;

/// A turn that took as many milliseconds was held up by whoever has the mailbox, and no disk: it counts as missed, so
/// that whoever comes finds the mailbox slow in the first moment of its next turn too.
const LATE_MS: u64 = 10_000;

/// How often it is looked at most whether a turn may be put off any longer, in milliseconds.
const LOOK_MS: u64 = 100;

/// What the gates of all mailboxes share: when the server's end was asked for, and which mailboxes hold up lanes.
#[derive(Drop)]
pub(crate) struct GateWords<E: Drop> {
    pub(crate) curfew: Arc<E>,
    pub(crate) slow: Arc<SlowBoxes>,
}

impl<E: Curfew> GateWords<E> {
    // Whether turns at the mailbox may be waited for any longer: what a conversation is left once the server's end was
    // asked for isn't over, and the mailbox doesn't hold up too many lanes.
    fn may_wait<C: Clock>(&self, mailbox: u32, clock: &C) -> bool {
        !self.curfew.is_over(self.curfew.moment()) && self.slow.may_wait(mailbox, clock)
    }
}

/// A mailbox's gate, in words that all threads share: a turn begins once the mailbox has rested, and as it ends its
/// lane's copy is answered. One that broke was had.
#[derive(Drop)]
pub(crate) struct TurnGate<C: Drop, E: Drop> {
    rest: RestGate<C>,
    clock: C,
    began: Moment,
    looked: Moment,
    words: Arc<GateWords<E>>,
    mailbox: u32,
    is_put_off: bool,
}

impl<C: Copy + Drop, E: Drop> TurnGate<C, E> {
    /// Of the mailbox of that number, which had no copy yet.
    pub(crate) fn new(clock: C, words: Arc<GateWords<E>>, mailbox: u32) -> TurnGate<C, E> {
        TurnGate {
            rest: RestGate::new(clock),
            clock,
            began: Moment::FIRST,
            looked: Moment::FIRST,
            words,
            mailbox,
            is_put_off: false,
        }
    }
}

impl<C: Clock + Drop, E: Curfew> TurnGate<C, E> {
    fn now(&self) -> Moment {
        Moment::now(&self.clock).unwrap_or(Moment::FIRST)
    }
}

impl<C: Clock + Drop, E: Curfew> Gate for TurnGate<C, E> {
    fn is_free(&mut self) -> bool {
        let is_free = self.rest.is_free();
        if is_free {
            self.words.slow.looks(self.mailbox, &self.clock);
        }
        is_free
    }

    /// As long as a turn may be waited for that is under way. A mailbox whose turn is put off for two seconds is slow.
    fn may_put_off(&mut self) -> bool {
        let now = self.now();
        self.words.slow.leaves(self.mailbox);
        if !self.is_put_off {
            self.is_put_off = true;
            self.looked = now;
            self.words.slow.puts_off(self.mailbox, &self.clock);
        }
        if now.since(self.looked) < LOOK_MS {
            return true;
        }
        self.looked = now;
        self.words.may_wait(self.mailbox, &self.clock)
    }

    fn pause(&mut self) {
        self.rest.pause();
    }

    fn before(&mut self, txn: Txn, place: u32) {
        self.rest.before(txn, place);
        self.is_put_off = false;
        self.began = self.now();
        self.words.slow.begins(self.mailbox, &self.clock);
    }

    fn after(&mut self, txn: Txn, place: u32, end: TurnEnd) {
        self.rest.after(txn, place, end);
        let is_late = self.now().since(self.began) >= LATE_MS;
        let slow = &self.words.slow;
        slow.ends(self.mailbox, is_late || matches!(end, TurnEnd::Missed(_)));
        slow.answers(txn.lane, self.mailbox);
    }
}
