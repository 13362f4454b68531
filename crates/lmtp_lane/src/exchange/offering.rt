//! A message's copies go out to the threads of their mailboxes, until a channel hands one back.

ghost use Rattle.std.specs.Prelude.{◌≡◌, ◌<◌, [], ◌∷◌, length, slice_index};
ghost use Rattle.mail_world.specs.Slips.{own_slip, txn_of};
ghost use Rattle.mail_world.specs.Lists.{copies_from};
ghost use Rattle.mbox_record.specs.Lengths.{lengths_of};
ghost use Rattle.mail_post.specs.Offered.{HaveNumber, IsOffered};
ghost use Rattle.mail_post.specs.WorkerThreads.{worker_thread, threads_for};
ghost use Rattle.lmtp_lane.specs.LaneExchange.{sending_of, KeepsRoom, Continues, sent_as, copy_at, is_ok};

use super::{Exchange, Postmark};
use lmtp_session::Session;
use mail_post::{Moment, Post, Sender, SlipReceiver, WORKER_THREADS};
use mail_world::Slip;
use mbox_record::Envelope;
use msg_depot::{Depot, DepotName, Hold};
use std::marker::Brand;
use std::sync::Wait;

// Offers the channel of the mailbox's worker thread a copy, after the picked time. The receiver is there for the pick
// alone, which is a time after all that the lane knows.
fn offer_to<N: DepotName, K: Moment, R: Wait>(
    rt: &R,
    senders: &mut Vec<Sender<N>>,
    _slips: &SlipReceiver,
    mailbox: u32,
    post: Post<N>,
) -> Result<(), Post<N>>
    requires thread { worker_thread mailbox < length senders.old.items }
    requires lane { HaveNumber post.txn.lane senders.old.items }
    ensures { IsOffered K.after (worker_thread mailbox) (λ sender. post) (is_ok result) senders.old.items
        senders.new.items }
{
    senders[(mailbox % WORKER_THREADS) as usize].offer::<K, R>(rt, post)
}

impl<N: DepotName> Exchange<N> {
    // Offers a copy, whose answer is still to come where a channel accepts it, and is that slip where none does.
    fn offer<R: Wait>(&mut self, rt: &R, depot: &Depot<N>, post: Post<N>, failed: Slip)
        requires lane { post.txn.lane ≡ self.old.lane }
        requires copy { failed ≡ own_slip self.old.lane post.txn.number post.place post.mailbox }
        requires thread { worker_thread failed.worker < length self.old.senders.items }
        ensures room { KeepsRoom (sending_of self.old) (sending_of self.new) }
        ensures way { Continues post.txn (post ∷ []) (sending_of self.old) (sending_of self.new) }
    {
        if self.thread_gone {
            let_go(rt, depot, post);
            self.answer_failed(failed);
            return;
        }
        match offer_to::<N, Brand, R>(rt, &mut self.senders, &self.slips, failed.worker, post) {
            Ok(()) => {}
            Err(back) => {
                self.thread_gone = true;
                self.gone = true;
                let_go(rt, depot, back);
                self.answer_failed(failed);
            }
        }
    }

    // Offers the recipient at that place its copy.
    fn offer_at<R: Wait>(
        &mut self,
        rt: &R,
        depot: &Depot<N>,
        session: &Session,
        mark: Postmark,
        place: u32,
        hold: Hold<N>,
    )
        requires place { place < length session.now.session.recipients }
        requires weight { hold.weight ≡ 1 }
        requires lengths { mark.lengths ≡ lengths_of hold.bytes }
        requires threads { length self.old.senders.items ≡ threads_for (length session.now.site.boxes) }
        ensures room { KeepsRoom (sending_of self.old) (sending_of self.new) }
        ensures way { Continues (txn_of self.old.lane mark.number)
            (copy_at self.old.lane (sent_as mark.number session.now.session mark.moment hold.bytes) place
            (slice_index session.now.session.recipients place) ∷ [])
            (sending_of self.old) (sending_of self.new) }
    {
        let txn = self.txn(mark.number);
        let envelope = Envelope::new(
            self.alloc,
            session.sender(),
            session.client(),
            session.utf8(),
            txn,
            mark.moment,
        );
        let mailbox = session.recipient(place);
        let post = Post::new(txn, place, mailbox, envelope, mark.lengths, hold);
        let slip = self.failed(mark.number, place, mailbox);
        self.offer(rt, depot, post, slip);
    }

    /// Offers each recipient its copy, in their order.
    pub fn offer_all<R: Wait>(
        &mut self,
        rt: &R,
        depot: &Depot<N>,
        session: &Session,
        mark: Postmark,
        hold: Hold<N>,
    )
        requires some { 0 < length session.now.session.recipients }
        requires weight { hold.weight ≡ length session.now.session.recipients }
        requires lengths { mark.lengths ≡ lengths_of hold.bytes }
        requires threads { length self.old.senders.items ≡ threads_for (length session.now.site.boxes) }
        ensures room { KeepsRoom (sending_of self.old) (sending_of self.new) }
        ensures way { Continues (txn_of self.old.lane mark.number)
            (copies_from self.old.lane (sent_as mark.number session.now.session mark.moment hold.bytes) 0
            session.now.session.recipients)
            (sending_of self.old) (sending_of self.new) }
    {
        let mut hold = hold;
        let last = session.recipient_count() - 1;
        for place in 0..last {
            let one = depot.split_one(&mut hold);
            self.offer_at(rt, depot, session, mark, place, one);
        }
        self.offer_at(rt, depot, session, mark, last, hold);
    }
}

// Gives the hold of a copy up that no channel accepted, and the blocks of a message that nobody holds any more.
fn let_go<N: DepotName, R: Wait>(rt: &R, depot: &Depot<N>, post: Post<N>) {
    if let Some(spent) = depot.release(post.parts().hold) {
        depot.reclaim(rt, spent);
    }
}
