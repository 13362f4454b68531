//! The end of a worker's hold on a copy, and the slip that may follow it. What is handed from one to the other has
//! fields that are private to this module, so that no slip goes out for a copy that is still held.

ghost use Rattle.std.specs.Prelude.{◌≡◌, ◌<◌, Bool, length};
ghost use Rattle.mail_post.specs.Offered.{IsOffered, HaveNumber, any_gone};
ghost use Rattle.mail_post.specs.WorkerThreads.{worker_thread};

use mail_post::{Moment, Receiver, SlipSender};
use mail_world::{Outcome, Slip, Txn};
use msg_depot::{Depot, DepotName, Hold};
use std::marker::Model;
use std::sync::Wait;

/// A copy whose hold was given back, and whose lane isn't told yet. It comes from `release` alone, which takes the
/// hold; and nothing drops it.
pub(crate) struct Released {
    txn: Txn,
    place: u32,
}

/// Gives the copy's hold up, and the blocks of a message that nobody holds any more.
pub(crate) fn release<N: DepotName, R: Wait>(
    rt: &R,
    depot: &Depot<N>,
    txn: Txn,
    place: u32,
    hold: Hold<N>,
) -> Released
    requires { hold.weight ≡ 1 }
    ensures { (result.txn ≡ txn) × (result.place ≡ place) }
{
    let_go(rt, depot, hold);
    Released { txn, place }
}

/// The same of a copy that no lane is told of.
pub(crate) fn let_go<N: DepotName, R: Wait>(rt: &R, depot: &Depot<N>, hold: Hold<N>)
    requires { hold.weight ≡ 1 }
{
    if let Some(spent) = depot.release(hold) {
        depot.reclaim(rt, spent);
    }
}

/// A thread's senders of slips, one for each lane. What they send is for a copy that was released. Contracts see the
/// list of them.
#[derive(Drop)]
pub(crate) struct SlipSenders {
    senders: Vec<SlipSender>,
}

impl Model for SlipSenders {
    ghost use Rattle.std.specs.Prelude.{List};
    ghost use Rattle.mail_world.specs.declared.Slip.{Slip};
    ghost use Rattle.mail_post.specs.Channel.{Sender};

    ghost Value = { List (Sender Slip) };

    ghost view = { λ s. s.senders.items };
}

impl SlipSenders {
    pub(crate) fn new(senders: Vec<SlipSender>) -> SlipSenders
        ensures { result ≡ senders.items }
    {
        SlipSenders { senders }
    }

    /// Gives the copy's lane a slip of the mailbox of that number, after the picked time, which may be the receiver's.
    /// One that comes back is dropped, and its sender says that it did.
    pub(crate) fn tell<K: Moment, N: DepotName, R: Wait>(
        &mut self,
        rt: &R,
        copy: Released,
        worker: u32,
        outcome: Outcome,
        _receiver: &Receiver<N>,
    )
        requires lane { copy.txn.lane < length self.old }
        requires thread { HaveNumber (worker_thread worker) self.old }
        ensures { (accepted : Bool) × IsOffered K.after copy.txn.lane
            (λ sender. record { txn = copy.txn; place = copy.place; worker = worker; outcome = outcome }) accepted
            self.old self.new }
    {
        let Released { txn, place } = copy;
        let sender = &mut self.senders[txn.lane as usize];
        let slip = Slip {
            txn,
            place,
            worker,
            outcome,
        };
        let _ = sender.offer::<K, R>(rt, slip);
    }

    /// Whether a slip of one of them came back.
    pub(crate) fn any_gone(&self) -> bool
        ensures { result ≡ any_gone self.now }
    {
        self.senders.iter().any(|sender| sender.is_gone())
    }

    /// The senders, once no copy is left.
    pub(crate) fn into_senders(self) -> Vec<SlipSender>
        ensures { result.items ≡ self }
    {
        self.senders
    }
}
