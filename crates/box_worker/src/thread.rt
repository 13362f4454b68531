//! A worker thread: several mailboxes, each served as if it had a thread of its own.

ghost use Rattle.std.specs.Prelude.{◌≡◌, ◌<◌, ◌||◌, ℕ, [], ◌∷◌, ◌++◌, length, MatchOption, IfOk, IfErr, OnOk, OnErr};
ghost use Rattle.mail_post.specs.Channel.{taken, IsTimed, HasSameTimes};
ghost use Rattle.mail_post.specs.Offered.{any_gone};
ghost use Rattle.box_worker.specs.Turned.{manner_of};
ghost use Rattle.box_worker.specs.Worked.{is_lost};
ghost use Rattle.box_worker.specs.Shares.{Start, AreInPlace, AreOfThread, AreFresh, AreNew, HaveWorked};
ghost use Rattle.box_worker.specs.Shares.{numbers_of, IsHandledOrNot, IsAt, IsNone, GaveForItsOwn};

use crate::gate::Gate;
use crate::kept::Kept;
use crate::release::{SlipSenders, let_go};
use crate::report::ThreadReport;
use crate::turn::TurnObserver;
use lmtp_text::Site;
use mail_post::{Gone, Moment, Post, Receiver, SlipSender, WORKER_THREADS};
use mbox_spool::Spool;
use msg_depot::{Depot, DepotName};
use std::marker::Brand;
use std::sync::Wait;

/// Stores the copies that come for the thread's mailboxes, one after another, and gives each lane a slip for each of
/// its own, until the channel is closed or lost. Each copy has a turn at its mailbox, from a lock to an unlock; one
/// whose turn is missed or breaks is told Failed, and the next has a turn again. The mailbox's observer is told how
/// each turn ended. Each mailbox does just what it would with a worker of its own. It takes no memory.
pub fn thread_run<N: DepotName, S: Spool, G: Gate, O: TurnObserver, R: Wait>(
    rt: &R,
    receiver: Receiver<N>,
    slips: Vec<SlipSender>,
    boxes: Vec<Kept<S, G, O>>,
    depot: &Depot<N>,
    site: &Site,
) -> ThreadReport<N, S, G, O>
    requires fresh { AreFresh slips.items receiver }
    requires lanes { length slips.items ≡ receiver.lanes }
    requires places { AreInPlace boxes.items }
    requires numbered { AreOfThread boxes.items slips.items }
    ensures worked { (starts : ℕ → Start) → AreNew site.now (manner_of S.MayFind S.MayRefuse) starts boxes.items
        → HaveWorked site.now (manner_of S.MayFind S.MayRefuse) starts
        (record { senders = slips.items; inbox = receiver })
        (record { senders = result.slips.items; inbox = result.receiver }) result.lost result.boxes.items }
    ensures numbered { AreOfThread result.boxes.items result.slips.items }
    ensures only { GaveForItsOwn result.boxes.items result.slips.items }
    ensures numbers { numbers_of result.boxes.items ≡ numbers_of boxes.items }
    ensures channel { (result.receiver.channel ≡ receiver.channel) × (result.receiver.lanes ≡ receiver.lanes)
        × (result.receiver.capacity ≡ receiver.capacity) }
    ensures lost { result.lost ≡ (any_gone result.slips.items || is_lost result.receiver.gone) }
{
    let mut receiver = receiver;
    let mut boxes = boxes;
    let mut slips = SlipSenders::new(slips);
    for _ in rt.forever() {
        match take_next::<Brand, N, R>(rt, &slips, &mut receiver) {
            Ok(post) => handle_copy(rt, depot, site, post, &mut boxes, &mut slips, &receiver),
            Err(Gone::Closed) => return report(receiver, slips, boxes, false),
            Err(Gone::Lost) => return report(receiver, slips, boxes, true),
        }
    }
    unreachable!()
}

// The next copy, taken after the picked time, which may be that of the slips' senders.
fn take_next<K: Moment, N: DepotName, R: Wait>(
    rt: &R,
    _slips: &SlipSenders,
    receiver: &mut Receiver<N>,
) -> Result<Post<N>, Gone>
    ensures same { (receiver.new.channel ≡ receiver.old.channel) × (receiver.new.lanes ≡ receiver.old.lanes)
        × (receiver.new.capacity ≡ receiver.old.capacity) }
    ensures post { IfOk result (λ post. taken receiver.new ≡ taken receiver.old ++ post ∷ []) }
    ensures lane { IfOk result (λ post. post.txn.lane < receiver.old.lanes) }
    ensures timed { OnOk result (IsTimed K.after receiver.old receiver.new) }
    ensures open_still { OnOk result ((receiver.old.gone ≡ None) × (receiver.new.gone ≡ None)) }
    ensures nothing { OnErr result (taken receiver.new ≡ taken receiver.old) }
    ensures no_time { OnErr result (HasSameTimes receiver.old receiver.new) }
    ensures gone { IfErr result (λ why. receiver.new.gone ≡ Some why) }
{
    receiver.take::<K, R>(rt)
}

/// One copy, by its own mailbox. A copy of another thread's mailbox is let go; no lane offers one.
pub(crate) fn handle_copy<N: DepotName, S: Spool, G: Gate, O: TurnObserver, R: Wait>(
    rt: &R,
    depot: &Depot<N>,
    site: &Site,
    post: Post<N>,
    boxes: &mut Vec<Kept<S, G, O>>,
    slips: &mut SlipSenders,
    receiver: &Receiver<N>,
)
    requires lane { post.txn.lane < length slips.old }
    requires places { AreInPlace boxes.old.items }
    requires numbered { AreOfThread boxes.old.items slips.old }
    ensures { IsHandledOrNot site.now (manner_of S.MayFind S.MayRefuse) post receiver.now slips.old slips.new
        boxes.old.items boxes.new.items }
{
    match place_of(boxes, post.mailbox()) {
        Some(place) => {
            let kept = &mut boxes[place];
            kept.handle(rt, depot, site, post, slips, receiver);
        }
        None => let_go(rt, depot, post.parts().hold),
    }
}

/// Where the mailbox of that number stands among a thread's, if it is one of them.
pub(crate) fn place_of<S: Spool, G: Gate, O: TurnObserver>(
    boxes: &[Kept<S, G, O>],
    number: u32,
) -> Option<usize>
    requires { AreInPlace boxes.now }
    ensures { MatchOption result (IsNone boxes.now number) (IsAt boxes.now number) }
{
    let place = (number / WORKER_THREADS) as usize;
    match boxes.get(place) {
        Some(kept) if kept.number == number => Some(place),
        _ => None,
    }
}

/// What a thread hands back once nothing more comes.
pub(crate) fn report<N: DepotName, S: Spool, G: Gate, O: TurnObserver>(
    receiver: Receiver<N>,
    slips: SlipSenders,
    boxes: Vec<Kept<S, G, O>>,
    is_lost: bool,
) -> ThreadReport<N, S, G, O>
    ensures same { (result.receiver ≡ receiver) × (result.slips.items ≡ slips) × (result.boxes.items ≡ boxes.items) }
    ensures lost { result.lost ≡ (any_gone slips || is_lost) }
{
    ThreadReport {
        lost: slips.any_gone() || is_lost,
        receiver,
        slips: slips.into_senders(),
        boxes,
    }
}
