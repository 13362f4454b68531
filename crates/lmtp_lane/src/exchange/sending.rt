//! A message from its first offer to its last answer.

ghost use Rattle.std.specs.Prelude.{◌≡◌, ◌≤◌, ◌<◌, length};
ghost use Rattle.mail_world.specs.declared.limits.TheConstants.{RECIPIENT_LIMIT};
ghost use Rattle.mail_world.specs.Slips.{own_slip, txn_of};
ghost use Rattle.mbox_record.specs.Lengths.{lengths_of};
ghost use Rattle.mail_post.specs.Gathering.{IsDone};
ghost use Rattle.mail_post.specs.Offered.{HaveNumber, any_gone};
ghost use Rattle.mail_post.specs.WorkerThreads.{threads_for};
ghost use Rattle.lmtp_lane.specs.LaneExchange.{ends_of, sending_of, sent_as, Sends};

use super::{Exchange, Postmark};
use lmtp_session::Session;
use mail_post::{Gather, Sender, SlipReceiver};
use mail_world::{Outcome, Slip, Txn};
use msg_depot::{Depot, DepotName, Hold};
use std::alloc::Global;
use std::sync::Wait;

impl<N: DepotName> Exchange<N> {
    /// The ends of the lane of that number.
    pub fn new(
        alloc: Global,
        lane: u32,
        senders: Vec<Sender<N>>,
        slips: SlipReceiver,
        gather: Gather,
    ) -> Exchange<N>
        requires lane { HaveNumber lane senders.items }
        requires room { RECIPIENT_LIMIT ≤ gather.limit }
        ensures ends { ends_of result ≡ record {
          lane = lane;
          senders = senders.items;
          inbox = slips;
          gone = any_gone senders.items;
        } }
        ensures gather { result.gather ≡ gather }
    {
        let thread_gone = any_sender_gone(&senders);
        Exchange {
            alloc,
            lane,
            senders,
            slips,
            gather,
            thread_gone,
            gone: thread_gone,
        }
    }

    /// The lane's transaction of that number.
    pub fn txn(&self, number: u32) -> Txn
        ensures { result ≡ txn_of self.now.lane number }
    {
        Txn {
            lane: self.lane,
            number,
        }
    }

    /// The slip that the lane gives itself of a copy which it can't answer otherwise.
    pub fn failed(&self, number: u32, place: u32, mailbox: u32) -> Slip
        ensures { result ≡ own_slip self.now.lane number place mailbox }
    {
        Slip {
            txn: self.txn(number),
            place,
            worker: mailbox,
            outcome: Outcome::Failed,
        }
    }

    /// Gives the thread of each recipient's mailbox a copy of a sealed message, and waits until each copy is answered.
    pub fn send<R: Wait>(
        &mut self,
        rt: &R,
        depot: &Depot<N>,
        session: &Session,
        mark: Postmark,
        hold: Hold<N>,
    )
        requires some { 0 < length session.now.session.recipients }
        requires weight { hold.weight ≡ length session.now.session.recipients }
        requires lengths { mark.lengths ≡ lengths_of hold.bytes }
        requires threads { length self.old.senders.items ≡ threads_for (length session.now.site.boxes) }
        ensures lane { self.new.lane ≡ self.old.lane }
        ensures senders { length self.new.senders.items ≡ length self.old.senders.items }
        ensures places { length self.new.gather.gather.places ≡ length session.now.session.recipients }
        ensures way { Sends (sent_as mark.number session.now.session mark.moment hold.bytes) (ends_of self.old)
            (sending_of self.new) }
        ensures done { IsDone self.new.gather.gather }
    {
        let txn = self.txn(mark.number);
        self.gather.begin(txn, session.recipient_count());
        self.offer_all(rt, depot, session, mark, hold);
        self.collect(rt, session, mark.number);
    }
}

// Whether one of the senders had a copy handed back.
fn any_sender_gone<N: DepotName>(senders: &[Sender<N>]) -> bool
    ensures { result ≡ any_gone senders.now }
{
    senders.iter().any(|sender| sender.is_gone())
}
