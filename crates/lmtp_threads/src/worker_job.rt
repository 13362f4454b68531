//! What each worker thread is given, and that it runs.

ghost use Rattle.std.specs.Prelude.{◌≡◌, ◌≤◌, IfOk, vec_len};
ghost use Rattle.std.specs.Arc.{arc_value};
ghost use Rattle.mail_post.specs.declared.kinds.TheConstants.{WORKER_THREADS};
ghost use Rattle.lmtp_threads.specs.Works.{share_of, spools_view};
ghost use Rattle.lmtp_threads.specs.Grid.{lists};
ghost use Rattle.lmtp_threads.specs.OwnChannel.{IsWaitingRoom};
ghost use Rattle.lmtp_threads.specs.Reports.{thread_back};
ghost use Rattle.lmtp_threads.specs.Tasks.{IsThreadReady};
ghost use Rattle.lmtp_threads.specs.ByThread.{tasks_with, IsOwner};
ghost use Rattle.lmtp_threads.specs.ThreadWork.{IsThreadWork};

use crate::by_thread::{OwnedBox, keep_all};
use crate::crew::Task;
use crate::quotas::Quotas;
use crate::shared::Shared;
use box_worker::{Gate, Kept, ThreadReport, TurnObserver, patient_run, thread_run};
use lmtp_text::Site;
use mail_post::{Post, Receiver, SlipSender};
use mbox_spool::Spool;
use msg_depot::{Depot, DepotName};
use std::alloc::{AllocError, Global};
use std::marker::Model;
use std::sync::{Arc, Wait};

// What a worker thread holds of what all share, and how many copies may wait beside its channel.
#[derive(Drop)]
struct WorkerBase<N: DepotName> {
    site: Arc<Site>,
    depot: Arc<Depot<N>>,
    quotas: Arc<Quotas>,
    room: usize,
}

impl<N: DepotName> WorkerBase<N> {
    // The memory for it.
    fn new<C: Drop>(
        shared: &Shared<N, C>,
        quotas: &Arc<Quotas>,
        room: usize,
    ) -> Result<WorkerBase<N>, AllocError>
        ensures site { IfOk result (λ base. arc_value base.site ≡ arc_value shared.now.site) }
        ensures quotas { IfOk result (λ base. arc_value base.quotas ≡ arc_value quotas.now) }
        ensures room { IfOk result (λ base. base.room ≡ room) }
    {
        Ok(WorkerBase {
            site: Arc::try_clone(&shared.site)?,
            depot: Arc::try_clone(&shared.depot)?,
            quotas: Arc::try_clone(quotas)?,
            room,
        })
    }
}

/// What a worker thread is given.
#[derive(Drop)]
pub struct WorkerJob<N: DepotName, S: Spool + Drop, T: TurnObserver, G: Gate + Drop> {
    base: WorkerBase<N>,
    thread: u32,
    receiver: Receiver<N>,
    slips: Vec<SlipSender>,
    boxes: Vec<OwnedBox<S, T, G>>,
    // room for what the thread keeps of them
    kept: Vec<Kept<S, G, T>>,
    // where it has several mailboxes, room for the copies that wait beside its channel
    waits: Vec<Post<N>>,
}

impl<N: DepotName, S: Spool + Drop, T: TurnObserver, G: Gate + Drop> Model
    for WorkerJob<N, S, T, G> {
    ghost use Rattle.std.specs.Prelude.{vec_len};
    ghost use Rattle.std.specs.Arc.{arc_value};
    ghost use Rattle.lmtp_threads.specs.Grid.{IsRoom};
    ghost use Rattle.lmtp_threads.specs.OwnChannel.{IsWaitingRoom};
    ghost use Rattle.lmtp_threads.specs.Works.{share_of};
    ghost use Rattle.lmtp_threads.specs.Tasks.{ThreadTask};
    ghost use Rattle.lmtp_threads.specs.declared.watched.Watched.{Watched};

    ghost Value = { ThreadTask (Watched S T) };

    ghost view = { λ j. record {
      share = share_of (arc_value j.base.site) (arc_value j.base.quotas);
      room = j.base.room;
      thread = j.thread;
      receiver = j.receiver;
      slips = j.slips.items;
      boxes = j.boxes.items;
    } };

    ghost invariant = { λ j. IsRoom (vec_len j.boxes) j.kept × IsWaitingRoom j.base.room j.waits };
}

impl<N: DepotName, S: Spool + Drop, T: TurnObserver, G: Gate + Drop> WorkerJob<N, S, T, G> {
    // The memory for it. No copy waits beside the channel of a single mailbox, which is served in order.
    fn new(
        alloc: Global,
        base: WorkerBase<N>,
        thread: u32,
        receiver: Receiver<N>,
        slips: Vec<SlipSender>,
        boxes: Vec<OwnedBox<S, T, G>>,
    ) -> Result<WorkerJob<N, S, T, G>, AllocError>
        ensures { IfOk result (λ job. job ≡ record {
          share = share_of (arc_value base.site) (arc_value base.quotas);
          room = base.room;
          thread = thread;
          receiver = receiver;
          slips = slips.items;
          boxes = boxes.items;
        }) }
    {
        let kept = Vec::with_capacity(alloc, boxes.len())?;
        let waits = waiting_room(alloc, base.room, boxes.len())?;
        Ok(WorkerJob {
            base,
            thread,
            receiver,
            slips,
            boxes,
            kept,
            waits,
        })
    }
}

impl<N, S, T, G> Task for WorkerJob<N, S, T, G>
where
    N: DepotName + Send + Sync + 'static,
    S: Spool + Drop + Send + 'static,
    T: TurnObserver + Send + 'static,
    G: Gate + Drop + Send + 'static,
{
    type Output = ThreadReport<N, S, G, T>;

    ghost ready = { λ job. IsThreadReady job × IsOwner job };

    ghost done = { λ job r. IsThreadWork (spools_view S.state S.MayFind S.MayRefuse T.told) job (thread_back r) };

    fn run<R: Wait>(self, rt: &R) -> ThreadReport<N, S, G, T> {
        let WorkerJob {
            base,
            thread: _,
            receiver,
            slips,
            boxes,
            kept,
            waits,
        } = self;
        let WorkerBase {
            site,
            depot,
            quotas,
            room: _,
        } = base;
        let kept = keep_all(boxes, kept, &quotas);
        if waits.capacity() == 0 {
            thread_run(rt, receiver, slips, kept, &depot, &site)
        } else {
            patient_run(rt, receiver, slips, kept, &depot, &site, waits)
        }
    }
}

// Room for the copies that wait beside the channel of a thread with so many mailboxes. A single one takes no memory: its
// copies have nothing to make way for.
fn waiting_room<N: DepotName>(
    alloc: Global,
    room: usize,
    boxes: usize,
) -> Result<Vec<Post<N>>, AllocError>
    ensures { IfOk result (λ waits. IsWaitingRoom room waits) }
{
    if boxes > 1 {
        Vec::with_capacity(alloc, room)
    } else {
        Ok(Vec::new(alloc))
    }
}

/// The jobs of all worker threads, in their order.
pub fn worker_jobs<N: DepotName, S: Spool + Drop, T: TurnObserver, G: Gate + Drop, C: Drop>(
    shared: &Shared<N, C>,
    receivers: Vec<Receiver<N>>,
    rows: Vec<Vec<SlipSender>>,
    boxes: Vec<Vec<OwnedBox<S, T, G>>>,
    quotas: &Arc<Quotas>,
    room: usize,
) -> Result<Vec<WorkerJob<N, S, T, G>>, AllocError>
    requires few { vec_len receivers ≤ WORKER_THREADS }
    requires rows { vec_len rows ≡ vec_len receivers }
    requires boxes { vec_len boxes ≡ vec_len receivers }
    ensures { IfOk result (λ jobs. jobs.items
        ≡ tasks_with (share_of (arc_value shared.now.site) (arc_value quotas.now)) room 0 receivers.items
        (lists rows.items) (lists boxes.items)) }
{
    let mut rows = rows.into_iter();
    let mut boxes = boxes.into_iter();
    let mut jobs = Vec::new(shared.alloc);
    let mut thread = 0;
    for receiver in receivers {
        let Some(slips) = rows.next() else {
            unreachable!()
        };
        let Some(own) = boxes.next() else {
            unreachable!()
        };
        let base = WorkerBase::new(shared, quotas, room)?;
        jobs.push(WorkerJob::new(shared.alloc, base, thread, receiver, slips, own)?)?;
        thread += 1;
    }
    Ok(jobs)
}
