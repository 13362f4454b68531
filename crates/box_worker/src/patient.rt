//! A worker thread that puts a copy off whose mailbox isn't free, and goes on with its other mailboxes.

ghost use Rattle.std.specs.Prelude.{◌≡◌, ◌<◌, ◌||◌, ℕ, [], length, take, slice_get, true, false, None};
ghost use Rattle.std.specs.Prelude.{IfSome, IfNone, vec_capacity};
ghost use Rattle.mail_world.specs.declared.Note.{Note};
ghost use Rattle.mail_post.specs.Channel.{IsNext};
ghost use Rattle.mail_post.specs.Offered.{any_gone};
ghost use Rattle.mail_post.specs.Parcels.{of};
ghost use Rattle.box_worker.specs.Turned.{manner_of};
ghost use Rattle.box_worker.specs.Worked.{is_lost};
ghost use Rattle.box_worker.specs.Shares.{for_box, Start, AreInPlace, AreOfThread, AreFresh, AreNew};
ghost use Rattle.box_worker.specs.Shares.{numbers_of, GaveForItsOwn};
ghost use Rattle.box_worker.specs.PutOff.{HaveWorkedPatiently};

use crate::gate::Gate;
use crate::kept::Kept;
use crate::release::SlipSenders;
use crate::report::ThreadReport;
use crate::thread::{handle_copy, place_of, report};
use crate::turn::TurnObserver;
use lmtp_text::Site;
use mail_post::{Gone, Moment, Post, Receiver, SlipSender};
use mbox_spool::Spool;
use msg_depot::{Depot, DepotName};
use std::marker::Brand;
use std::sync::Wait;

/// As `thread_run`, but a copy whose mailbox isn't free waits in `waits`, which has room for as many as its capacity,
/// while the thread's other mailboxes go on. The copies of one mailbox stay in their order. Once no further copy has
/// room, or none comes, the oldest that waits has its turn, or misses it, whatever its mailbox. Where nothing can go on
/// and no copy has come, the gate of the oldest's mailbox may wait. Where no slip comes back each mailbox does just what
/// it would with a worker of its own, over a channel with room for as many copies more as may wait. It takes no memory.
pub fn patient_run<N: DepotName, S: Spool, G: Gate, O: TurnObserver, R: Wait>(
    rt: &R,
    receiver: Receiver<N>,
    slips: Vec<SlipSender>,
    boxes: Vec<Kept<S, G, O>>,
    depot: &Depot<N>,
    site: &Site,
    waits: Vec<Post<N>>,
) -> ThreadReport<N, S, G, O>
    requires fresh { AreFresh slips.items receiver }
    requires open { receiver.gone ≡ None }
    requires lanes { length slips.items ≡ receiver.lanes }
    requires places { AreInPlace boxes.items }
    requires numbered { AreOfThread boxes.items slips.items }
    requires none { waits.items ≡ [] }
    requires some { 0 < vec_capacity waits }
    ensures worked { any_gone result.slips.items ≡ false → (starts : ℕ → Start)
        → AreNew site.now (manner_of S.MayFind S.MayRefuse) starts boxes.items
        → HaveWorkedPatiently (vec_capacity waits) site.now (manner_of S.MayFind S.MayRefuse) starts
        (record { senders = slips.items; inbox = receiver })
        (record { senders = result.slips.items; inbox = result.receiver }) result.lost result.boxes.items }
    ensures numbered { AreOfThread result.boxes.items result.slips.items }
    ensures only { GaveForItsOwn result.boxes.items result.slips.items }
    ensures numbers { numbers_of result.boxes.items ≡ numbers_of boxes.items }
    ensures channel { (result.receiver.channel ≡ receiver.channel) × (result.receiver.lanes ≡ receiver.lanes)
        × (result.receiver.capacity ≡ receiver.capacity) }
    ensures lost { result.lost ≡ (any_gone result.slips.items || is_lost result.receiver.gone) }
{
    let room = waits.capacity();
    let mut waits = waits;
    let mut receiver = receiver;
    let mut boxes = boxes;
    let mut slips = SlipSenders::new(slips);
    let mut ended = None;
    for _ in rt.forever() {
        let must = must_go_on(waits.len(), room, ended);
        if let Some(place) = next_turn(&mut boxes, &waits, must) {
            let post = waits.remove(place);
            handle_copy(rt, depot, site, post, &mut boxes, &mut slips, &receiver);
        } else if let Some(why) = ended {
            return report(receiver, slips, boxes, is_lost(why));
        } else {
            match next_copy::<Brand, N, R>(rt, &slips, &mut receiver, !waits.is_empty()) {
                Some(Ok(post)) => waits.push_reserved(post),
                Some(Err(why)) => ended = Some(why),
                None => pause(&mut boxes, &waits),
            }
        }
    }
    unreachable!()
}

// Whether one of the copies that wait must go on, whatever its mailbox: no further one has room, or none comes.
fn must_go_on(count: usize, room: usize, ended: Option<Gone>) -> bool
    ensures room { result ≡ false → count < room }
    ensures ended { result ≡ false → ended ≡ None }
{
    if ended.is_some() {
        return true;
    }
    count >= room
}

// The first copy that waits, is the next of its mailbox and may have its turn now; where one must go on, and none may,
// the oldest.
fn next_turn<N: DepotName, S: Spool, G: Gate, O: TurnObserver>(
    boxes: &mut Vec<Kept<S, G, O>>,
    waits: &[Post<N>],
    must: bool,
) -> Option<usize>
    requires { AreInPlace boxes.old.items }
    ensures same { boxes.new.items ≡ boxes.old.items }
    ensures within { IfSome result (λ at. at < length waits.now) }
    ensures next { IfSome result (λ at. (note : Note) → slice_get waits.now at ≡ Some note
        → of for_box note.mailbox (take at waits.now) ≡ []) }
    ensures must { must ≡ true → IfNone result (waits.now ≡ []) }
{
    for at in 0..waits.len() {
        if is_next(waits, at) && is_free(boxes, waits[at].mailbox()) {
            return Some(at);
        }
    }
    if must && !waits.is_empty() {
        return Some(0);
    }
    None
}

// Whether no earlier one of the copies that wait is for the same mailbox.
fn is_next<N: DepotName>(waits: &[Post<N>], at: usize) -> bool
    requires { at < length waits.now }
    ensures { result ≡ true → (note : Note) → slice_get waits.now at ≡ Some note
        → of for_box note.mailbox (take at waits.now) ≡ [] }
{
    let number = waits[at].mailbox();
    !waits[..at].iter().any(|post| post.mailbox() == number)
}

// Whether the mailbox of that number may have a turn now. One of another thread needs none.
fn is_free<S: Spool, G: Gate, O: TurnObserver>(boxes: &mut Vec<Kept<S, G, O>>, number: u32) -> bool
    requires { AreInPlace boxes.old.items }
    ensures { boxes.new.items ≡ boxes.old.items }
{
    match place_of(boxes, number) {
        Some(place) => {
            let kept = &mut boxes[place];
            kept.is_free()
        }
        None => true,
    }
}

// Nothing can go on, and the gate of the mailbox whose copy waits longest may wait.
fn pause<N: DepotName, S: Spool, G: Gate, O: TurnObserver>(
    boxes: &mut Vec<Kept<S, G, O>>,
    waits: &[Post<N>],
)
    requires { AreInPlace boxes.old.items }
    ensures { boxes.new.items ≡ boxes.old.items }
{
    let Some(oldest) = waits.first() else {
        return;
    };
    if let Some(place) = place_of(boxes, oldest.mailbox()) {
        let kept = &mut boxes[place];
        kept.pause();
    }
}

// The next copy, taken after the picked time, which may be that of the slips' senders. Where others wait it isn't
// waited for.
fn next_copy<K: Moment, N: DepotName, R: Wait>(
    rt: &R,
    _slips: &SlipSenders,
    receiver: &mut Receiver<N>,
    others_wait: bool,
) -> Option<Result<Post<N>, Gone>>
    requires { receiver.old.gone ≡ None }
    ensures same { (receiver.new.channel ≡ receiver.old.channel) × (receiver.new.lanes ≡ receiver.old.lanes)
        × (receiver.new.capacity ≡ receiver.old.capacity) }
    ensures next { IsNext (λ note. note.txn.lane) K.after receiver.old receiver.new result }
{
    if others_wait {
        receiver.try_take::<K, R>(rt)
    } else {
        Some(receiver.take::<K, R>(rt))
    }
}

fn is_lost(why: Gone) -> bool
    ensures { result ≡ is_lost (Some why) }
{
    match why {
        Gone::Lost => true,
        Gone::Closed => false,
    }
}
