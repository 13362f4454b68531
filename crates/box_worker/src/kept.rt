//! One of the mailboxes of a thread.

ghost use Rattle.std.specs.Prelude.{◌≡◌, ◌<◌, length};
ghost use Rattle.mail_post.specs.Offered.{HaveNumber};
ghost use Rattle.mail_post.specs.WorkerThreads.{worker_thread};
ghost use Rattle.mail_world.specs.Site.{Site};
ghost use Rattle.box_worker.specs.Shares.{IsNew, HandlesCopy};
ghost use Rattle.box_worker.specs.Stored.{mailbox_of};
ghost use Rattle.box_worker.specs.Turned.{manner_of};

use crate::gate::Gate;
use crate::mailbox::Mailbox;
use crate::release::{SlipSenders, release};
use crate::report::MailboxReport;
use crate::turn::TurnObserver;
use lmtp_text::Site;
use mail_post::{Parts, Post, Receiver};
use mbox_spool::Spool;
use msg_depot::{Depot, DepotName};
use std::marker::{Brand, Model};
use std::sync::Wait;

/// A mailbox that a thread owns: its number in the site, its spool under a quota, its gate, and who sees its turns.
#[derive(Drop)]
pub struct Kept<S: Spool, G: Gate, O: TurnObserver> {
    pub(crate) number: u32,
    mailbox: Mailbox<S>,
    gate: G,
    observer: O,
    taken: u64,
}

impl<S: Spool, G: Gate, O: TurnObserver> Model for Kept<S, G, O> {
    ghost use Rattle.box_worker.specs.Shares.{KeptState};

    ghost Value = { KeptState };

    ghost view = { λ k. record {
      number = k.number;
      mailbox = k.mailbox;
      taken = k.taken;
      told = O.told k.observer;
    } };
}

impl<S: Spool, G: Gate, O: TurnObserver> Kept<S, G, O> {
    /// The mailbox of that number, before its first copy. A copy whose record would bring it above the quota isn't
    /// stored, and its lane is told so.
    pub fn new(number: u32, spool: S, gate: G, observer: O, quota: Option<u64>) -> Kept<S, G, O>
        ensures number { result.number ≡ number }
        ensures new { (site : Site) → IsNew site (manner_of S.MayFind S.MayRefuse)
            (record { quota = quota; spool = S.state spool; told = O.told observer }) result }
    {
        Kept {
            number,
            mailbox: Mailbox::on(spool, quota),
            gate,
            observer,
            taken: 0,
        }
    }

    /// Whether it may have a turn now that waits for nobody, as far as can be told.
    pub(crate) fn is_free(&mut self) -> bool
        ensures { self.new ≡ self.old }
    {
        self.gate.is_free() && !(self.mailbox.is_waited_for() && self.gate.may_put_off())
    }

    /// Its thread can't go on: none of the copies that wait may have its turn, and its own is the oldest.
    pub(crate) fn pause(&mut self)
        ensures { self.new ≡ self.old }
    {
        self.gate.pause();
    }

    /// One copy, from gate to slip. A slip takes what `release` makes of the hold, so that no lane is told before. In
    /// proofs the receiver says when the copy was taken.
    pub(crate) fn handle<N: DepotName, R: Wait>(
        &mut self,
        rt: &R,
        depot: &Depot<N>,
        site: &Site,
        post: Post<N>,
        slips: &mut SlipSenders,
        receiver: &Receiver<N>,
    )
        requires lane { post.txn.lane < length slips.old }
        requires mine { self.old.number ≡ post.mailbox }
        requires numbered { HaveNumber (worker_thread self.old.number) slips.old }
        ensures { HandlesCopy site.now (manner_of S.MayFind S.MayRefuse) post receiver.now slips.old slips.new self.old
            self.new }
    {
        let Parts {
            txn,
            place,
            mailbox: _,
            envelope,
            lengths,
            mut hold,
        } = post.parts();
        self.gate.before(txn, place);
        let end = self
            .mailbox
            .take(rt, depot, site, &envelope, &lengths, &mut hold);
        let released = release(rt, depot, txn, place, hold);
        self.gate.after(txn, place, end);
        self.observer.turn(end);
        slips.tell::<Brand, N, R>(rt, released, self.number, end.outcome(), receiver);
        self.taken = self.taken.saturating_add(1);
    }

    /// What became of its copies, and all that it was lent.
    pub fn report(self) -> MailboxReport<S, G, O>
        ensures mailbox { mailbox_of (S.state result.spool) result.stored result.over result.faulty
            ≡ self.mailbox.mailbox }
        ensures in_use { result.in_use ≡ self.mailbox.in_use }
        ensures taken { result.taken ≡ self.taken }
        ensures told { O.told result.observer ≡ self.told }
    {
        let Kept {
            number: _,
            mailbox,
            gate,
            observer,
            taken,
        } = self;
        let Mailbox {
            spool,
            stored,
            over,
            in_use,
            faulty,
            ..
        } = mailbox;
        MailboxReport {
            spool,
            gate,
            observer,
            taken,
            stored,
            over,
            in_use,
            faulty,
        }
    }
}
