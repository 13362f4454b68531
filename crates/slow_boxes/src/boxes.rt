//! The words that all threads of a server share.

ghost use Rattle.std.specs.Prelude.{◌≡◌, length, IfOk};

use crate::lanes::{bit_of, share_of};
use crate::turns::{Turns, milliseconds};
use std::alloc::{AllocError, Global};
use std::sync::atomic::{AtomicU32, AtomicU64, Ordering};
use std::time::Clock;

/// Of each mailbox how its turns stand and which lanes have a copy there without an answer, of each thread since when it
/// is at one of its mailboxes, and which lanes count: they had a recipient with a slow mailbox. A lane that is no lane of
/// the server, and a mailbox that is none, change nothing.
#[derive(Drop)]
pub struct SlowBoxes {
    lanes: u32,
    boxes: Vec<BoxWords>,
    threads: Vec<ThreadWords>,
    counting: AtomicU64,
    // the lanes whose message has several copies for one mailbox
    doubled: AtomicU64,
}

/// What is known of a mailbox.
#[derive(Drop)]
struct BoxWords {
    turns: Turns,
    lanes: AtomicU64,
}

/// What is known of a thread: at which of its mailboxes it is, and since when.
#[derive(Drop)]
struct ThreadWords {
    mailbox: AtomicU32,
    turns: Turns,
}

impl SlowBoxes {
    /// For that many lanes and mailboxes, of which each has a thread of its own. From here on it takes no memory.
    pub fn new(alloc: Global, lanes: u32, boxes: usize) -> Result<SlowBoxes, AllocError>
        ensures lanes { IfOk result (λ made. made.lanes ≡ lanes) }
        ensures boxes { IfOk result (λ made. length made.boxes.items ≡ boxes) }
        ensures threads { IfOk result (λ made. length made.threads.items ≡ boxes) }
    {
        SlowBoxes::of_threads(alloc, lanes, boxes, boxes)
    }

    /// For that many lanes, mailboxes and threads, which have the mailboxes by turns: mailbox b is thread b modulo their
    /// number's. From here on it takes no memory.
    pub fn of_threads(
        alloc: Global,
        lanes: u32,
        boxes: usize,
        threads: usize,
    ) -> Result<SlowBoxes, AllocError>
        ensures lanes { IfOk result (λ made. made.lanes ≡ lanes) }
        ensures boxes { IfOk result (λ made. length made.boxes.items ≡ boxes) }
        ensures threads { IfOk result (λ made. length made.threads.items ≡ threads) }
    {
        let mut at = Vec::with_capacity(alloc, threads)?;
        for _ in 0..threads {
            at.push(ThreadWords {
                mailbox: AtomicU32::new(0),
                turns: Turns::new(),
            })?;
        }
        let mut words = Vec::with_capacity(alloc, boxes)?;
        for _ in 0..boxes {
            words.push(BoxWords {
                turns: Turns::new(),
                lanes: AtomicU64::new(0),
            })?;
        }
        Ok(SlowBoxes {
            lanes,
            boxes: words,
            threads: at,
            counting: AtomicU64::new(0),
            doubled: AtomicU64::new(0),
        })
    }

    /// The lane is to give the mailbox a copy.
    pub fn posts(&self, lane: u32, mailbox: u32) {
        let Some(words) = self.boxes.get(mailbox as usize) else {
            return;
        };
        let bit = bit_of(lane);
        if words.lanes.fetch_or(bit, Ordering::SeqCst) & bit != 0 {
            self.doubled.fetch_or(bit, Ordering::SeqCst);
        }
    }

    /// The mailbox's worker answers a copy of the lane. Of several for one mailbox nobody knows which is the last: such a
    /// lane has them until it rests.
    pub fn answers(&self, lane: u32, mailbox: u32) {
        let Some(words) = self.boxes.get(mailbox as usize) else {
            return;
        };
        let bit = bit_of(lane);
        if self.doubled.load(Ordering::SeqCst) & bit == 0 {
            words.lanes.fetch_and(!bit, Ordering::SeqCst);
        }
    }

    /// The lane's transaction has ended: it counts no more, and has no copy anywhere. All mailboxes are gone through only
    /// where one had several copies of it.
    pub fn rests(&self, lane: u32) {
        let bit = bit_of(lane);
        clear(&self.counting, bit);
        if self.doubled.load(Ordering::SeqCst) & bit == 0 {
            return;
        }
        for words in &self.boxes {
            clear(&words.lanes, bit);
        }
        clear(&self.doubled, bit);
    }

    /// A turn begins at the mailbox.
    pub fn begins<C: Clock>(&self, mailbox: u32, clock: &C) {
        self.looks(mailbox, clock);
        if let Some(words) = self.boxes.get(mailbox as usize) {
            words.turns.begin(milliseconds(clock));
        }
    }

    /// The mailbox's thread looks from now on whether a turn can be had there.
    pub fn looks<C: Clock>(&self, mailbox: u32, clock: &C) {
        if let Some(thread) = self.thread_of(mailbox as usize) {
            thread.mailbox.store(mailbox, Ordering::SeqCst);
            thread.turns.begin(milliseconds(clock));
        }
    }

    /// The mailbox's thread goes on with others.
    pub fn leaves(&self, mailbox: u32) {
        if let Some(thread) = self.thread_of(mailbox as usize) {
            thread.turns.end();
        }
    }

    /// The next turn at the mailbox is put off from now on.
    pub fn puts_off<C: Clock>(&self, mailbox: u32, clock: &C) {
        if let Some(words) = self.boxes.get(mailbox as usize) {
            words.turns.put_off(milliseconds(clock));
        }
    }

    /// The turn at the mailbox was missed, or it has ended.
    pub fn ends(&self, mailbox: u32, is_missed: bool) {
        let Some(words) = self.boxes.get(mailbox as usize) else {
            return;
        };
        if is_missed {
            words.turns.miss();
        } else {
            words.turns.end();
        }
        self.leaves(mailbox);
    }

    /// Whether a recipient of the lane is answered that his mailbox is busy: it or its thread is slow, and other lanes that count are
    /// as many as may, or each other one counts or waits at a slow mailbox since before that was known. Else the lane
    /// counts from now on where the mailbox is slow, so that lanes that count are never more than that. A lane that asks
    /// counts meanwhile for the others that ask.
    pub fn is_busy<C: Clock>(&self, lane: u32, mailbox: u32, clock: &C) -> bool {
        let Some(words) = self.boxes.get(mailbox as usize) else {
            return false;
        };
        let now = milliseconds(clock);
        self.is_slow(mailbox as usize, words, now) && !self.counts(lane, now)
    }

    // Whether the mailbox is slow, or its thread is at another one for as long.
    fn is_slow(&self, mailbox: usize, words: &BoxWords, now: u64) -> bool {
        words.turns.is_slow(now)
            || self
                .thread_of(mailbox)
                .is_some_and(|thread| thread.turns.is_old(now))
    }

    fn thread_of(&self, mailbox: usize) -> Option<&ThreadWords> {
        self.threads.get(mailbox.checked_rem(self.threads.len())?)
    }

    // Whether the lane counts from now on, or does already.
    fn counts(&self, lane: u32, now: u64) -> bool {
        let bit = bit_of(lane);
        let counting = self.counting.fetch_or(bit, Ordering::SeqCst);
        if counting & bit != 0 || self.may_count(counting, now) {
            return true;
        }
        self.counting.fetch_and(!bit, Ordering::SeqCst);
        false
    }

    // Whether one more lane may count beside these, and another is left that mailboxes don't hold.
    fn may_count(&self, counting: u64, now: u64) -> bool {
        let others = (counting | self.lanes_held(now)).count_ones();
        let is_last = self.lanes > 1 && others.saturating_add(1) >= self.lanes;
        counting.count_ones() < share_of(self.lanes) && !is_last
    }

    /// Whether the turn under way at the mailbox may be waited for any longer: it isn't old, there is one lane alone, or
    /// fewer lanes than may have a copy without an answer at a slow mailbox.
    pub fn may_wait<C: Clock>(&self, mailbox: u32, clock: &C) -> bool {
        let Some(words) = self.boxes.get(mailbox as usize) else {
            return true;
        };
        let now = milliseconds(clock);
        self.lanes <= 1
            || !words.turns.is_old(now)
            || self.lanes_held(now).count_ones() < share_of(self.lanes)
    }

    /// Whether the turn under way at the mailbox, if there is one, is old, or its thread looks for as long whether one can
    /// be had there.
    pub fn has_old_turn<C: Clock>(&self, mailbox: u32, clock: &C) -> bool {
        let now = milliseconds(clock);
        let is_old = match self.boxes.get(mailbox as usize) {
            Some(words) => words.turns.is_old(now),
            None => false,
        };
        is_old || self.is_looked_at(mailbox, now)
    }

    // Whether the mailbox's thread is there for long.
    fn is_looked_at(&self, mailbox: u32, now: u64) -> bool {
        match self.thread_of(mailbox as usize) {
            Some(thread) => {
                thread.turns.is_old(now) && thread.mailbox.load(Ordering::SeqCst) == mailbox
            }
            None => false,
        }
    }

    // The lanes that have a copy without an answer at a slow mailbox.
    fn lanes_held(&self, now: u64) -> u64 {
        let mut lanes = 0;
        for (mailbox, words) in self.boxes.iter().enumerate() {
            if self.is_slow(mailbox, words, now) {
                lanes |= words.lanes.load(Ordering::SeqCst);
            }
        }
        lanes
    }
}

// Clears the bit, where it is set: a word that is only read stays with those that read it.
fn clear(word: &AtomicU64, bit: u64) {
    if word.load(Ordering::SeqCst) & bit != 0 {
        word.fetch_and(!bit, Ordering::SeqCst);
    }
}
