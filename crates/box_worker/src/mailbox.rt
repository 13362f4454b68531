//! A mailbox: its spool, how many copies it has, and whether its last turn broke.

ghost use Rattle.std.specs.Prelude.{◌≡◌, ◌+◌, ℕ, List, true, false, length, OnOk, IfErr};
ghost use Rattle.mail_writing.specs.Calendar.{civil_at};
ghost use Rattle.mail_world.specs.Counts.{counted};
ghost use Rattle.mail_world.specs.Site.{Site};
ghost use Rattle.mbox_record.specs.Envelope.{Envelope, record_text};
ghost use Rattle.mbox_record.specs.Lengths.{lengths_of};
ghost use Rattle.mbox_record.specs.RecordHead.{head_of};
ghost use Rattle.mbox_spool.specs.TurnState.{knows_end};
ghost use Rattle.box_worker.specs.Limits.{CountsTo};
ghost use Rattle.box_worker.specs.Stored.{mailbox_of, IsMeasured, CountsOutcome};
ghost use Rattle.box_worker.specs.TurnEnds.{outcome_of};
ghost use Rattle.box_worker.specs.Turned.{manner_of, MeasuresAgain, DoesInTurn, EndsInTurn, CountsInTurn, TurnsCopy};

use crate::limit::Limit;
use crate::store::mend_and_store;
use crate::turn::TurnEnd;
use lmtp_text::Site;
use mbox_record::{Envelope, Lengths, RecordHead};
use mbox_spool::{Spool, SpoolFault, Tail};
use msg_depot::{Depot, DepotName, Hold};
use std::marker::Model;
use std::sync::Wait;

/// A spool, the number of records that it took and has kept, that of copies over the quota, that of missed turns, and
/// whether the last turn that was had broke. Each copy has a turn, whatever went before.
#[derive(Drop)]
pub struct Mailbox<S: Spool> {
    pub spool: S,
    pub stored: u64,
    pub over: u64,
    pub in_use: u64,
    pub faulty: bool,
    limit: Option<Limit>,
}

impl<S: Spool> Model for Mailbox<S> {
    ghost use Rattle.box_worker.specs.Stored.{CountedMailbox, mailbox_of};

    ghost Value = { CountedMailbox };

    ghost view = { λ m. record {
      mailbox = mailbox_of (S.state m.spool) m.stored m.over m.faulty;
      limit = m.limit;
      in_use = m.in_use;
    } };
}

impl<S: Spool> Mailbox<S> {
    /// Before the first copy. What the spool holds is looked at in its turns alone.
    pub fn on(spool: S, quota: Option<u64>) -> Mailbox<S>
        ensures mailbox { result.mailbox ≡ mailbox_of (S.state spool) 0 0 false }
        ensures in_use { result.in_use ≡ 0 }
        ensures counts { CountsTo quota 0 result.limit }
    {
        Mailbox {
            spool,
            stored: 0,
            over: 0,
            in_use: 0,
            faulty: false,
            limit: quota.map(|quota| Limit::at(quota, 0, Tail::Empty)),
        }
    }

    /// Stores a copy of the held message, of which these are the lengths, in a turn of its own, or says that it is over
    /// the quota or lost. Where the turn is missed nothing is appended. Where it is missed or breaks, this copy alone
    /// is lost: the next one has a turn again.
    pub fn take<N: DepotName, R: Wait>(
        &mut self,
        rt: &R,
        depot: &Depot<N>,
        site: &Site,
        envelope: &Envelope,
        lengths: &Lengths,
        hold: &mut Hold<N>,
    ) -> TurnEnd
        requires lengths { lengths.now ≡ lengths_of hold.old.bytes }
        ensures tallied { CountsOutcome (outcome_of result) self.old.mailbox self.new.mailbox }
        ensures turns { TurnsCopy (manner_of S.MayFind S.MayRefuse)
            (record_text civil_at site.now envelope.now hold.old.bytes) result self.old self.new }
        ensures hold { hold.new ≡ hold.old }
    {
        match self.spool.lock() {
            Ok(held) => {
                self.faulty = false;
                self.measure(held);
                self.take_in_turn(rt, depot, site, envelope, lengths, hold)
            }
            Err(in_use) => {
                self.in_use = self.in_use.saturating_add(1);
                TurnEnd::Missed(in_use)
            }
        }
    }

    /// Whether others have it, and may still be waited for.
    pub fn is_waited_for(&mut self) -> bool
        ensures { self.new ≡ self.old }
    {
        self.spool.is_waited_for()
    }

    // What became of a record that was let in.
    fn count(&mut self, kept: Result<(), SpoolFault>) -> TurnEnd
        ensures stored { OnOk kept ((result ≡ TurnEnd.Stored) × (self.new ≡ record self.old {
          mailbox = record self.old.mailbox { stored = counted (self.old.mailbox.stored + 1) };
        })) }
        ensures lost { IfErr kept (λ fault. (result ≡ TurnEnd.Broke fault) × (self.new ≡ record self.old {
          mailbox = record self.old.mailbox { faulty = true };
        })) }
    {
        match kept {
            Ok(()) => {
                self.stored = self.stored.saturating_add(1);
                TurnEnd::Stored
            }
            Err(fault) => {
                self.faulty = true;
                TurnEnd::Broke(fault)
            }
        }
    }

    // A copy that isn't let in.
    fn refuse(&mut self) -> TurnEnd
        ensures { (result ≡ TurnEnd.Over) × (self.new ≡ record self.old {
          mailbox = record self.old.mailbox { over = counted (self.old.mailbox.over + 1) };
        }) }
    {
        self.over = self.over.saturating_add(1);
        TurnEnd::Over
    }

    // Counts from what stands in the mailbox at the lock, and what mends it.
    fn measure(&mut self, held: u64)
        ensures same { self.new ≡ record self.old { limit = self.new.limit } }
        ensures counts { knows_end self.old.mailbox.state.turn ≡ true
            → held ≡ counted (length self.old.mailbox.state.bytes)
            → MeasuresAgain self.old.mailbox.state self.old.limit self.new.limit }
    {
        if let Some(limit) = self.limit {
            self.limit = Some(Limit::at(limit.quota, held, self.spool.tail()));
        }
    }

    // The copy in a turn, from the count to the unlock.
    fn take_in_turn<N: DepotName, R: Wait>(
        &mut self,
        rt: &R,
        depot: &Depot<N>,
        site: &Site,
        envelope: &Envelope,
        lengths: &Lengths,
        hold: &mut Hold<N>,
    ) -> TurnEnd
        requires lengths { lengths.now ≡ lengths_of hold.old.bytes }
        requires sound { self.old.mailbox.faulty ≡ false }
        requires turn { self.old.mailbox.state.turn.in_turn ≡ true }
        ensures tallied { CountsOutcome (outcome_of result) self.old.mailbox self.new.mailbox }
        ensures ends { CountsInTurn (λ quota.
            EndsInTurn quota (record_text civil_at site.now envelope.now hold.old.bytes) result
            self.old.mailbox self.new.mailbox) self.old self.new }
        ensures in_use { self.new.in_use ≡ self.old.in_use }
        ensures hold { hold.new ≡ hold.old }
    {
        let taken = self.settle_in_turn(rt, depot, site, envelope, lengths, hold);
        self.spool.unlock();
        taken
    }

    fn settle_in_turn<N: DepotName, R: Wait>(
        &mut self,
        rt: &R,
        depot: &Depot<N>,
        site: &Site,
        envelope: &Envelope,
        lengths: &Lengths,
        hold: &mut Hold<N>,
    ) -> TurnEnd
        requires lengths { lengths.now ≡ lengths_of hold.old.bytes }
        requires sound { self.old.mailbox.faulty ≡ false }
        ensures tallied { CountsOutcome (outcome_of result) self.old.mailbox self.new.mailbox }
        ensures turn { self.new.mailbox.state.turn.in_turn ≡ self.old.mailbox.state.turn.in_turn }
        ensures does { CountsInTurn (λ quota.
            DoesInTurn quota (record_text civil_at site.now envelope.now hold.old.bytes) result
            self.old.mailbox self.new.mailbox) self.old self.new }
        ensures in_use { self.new.in_use ≡ self.old.in_use }
        ensures hold { hold.new ≡ hold.old }
    {
        let head = RecordHead::of(site, envelope);
        let fits = self.lets_in(&head, lengths);
        if !fits {
            return self.refuse();
        }
        let kept = mend_and_store(rt, &mut self.spool, depot, &head, hold);
        self.count(kept)
    }

    // Whether the record with that head of a message of these lengths may stand after what the mailbox holds. One that
    // may is counted.
    fn lets_in(&mut self, head: &RecordHead, lengths: &Lengths) -> bool
        ensures same { self.new ≡ record self.old { limit = self.new.limit } }
        ensures measured { (site : Site) (envelope : Envelope) (message : List ℕ)
            → head.now ≡ head_of civil_at site envelope → lengths.now ≡ lengths_of message
            → IsMeasured (length (record_text civil_at site envelope message)) result self.old self.new }
    {
        let Some(limit) = self.limit else {
            return true;
        };
        match limit.admit(head.record_size(lengths)) {
            Some(next) => {
                self.limit = Some(next);
                true
            }
            None => false,
        }
    }
}
