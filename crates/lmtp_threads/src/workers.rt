//! The worker threads of a server.

ghost use Rattle.std.specs.Prelude.{◌≡◌, ◌<◌, ◌^◌, false, IfOk, length, vec_len};
ghost use Rattle.std.specs.List.{AllByRecursion};
ghost use Rattle.std.specs.Arc.{arc_value};
ghost use Rattle.mail_post.specs.WorkerThreads.{threads_for};
ghost use Rattle.lmtp_threads.specs.Works.{share_of, spools_view};
ghost use Rattle.lmtp_threads.specs.Grid.{lists};
ghost use Rattle.lmtp_threads.specs.Tasks.{thread_tasks, IsThreadReady, HaveWorkedAll};

use crate::brought_back::{BoxColumns, ThreadColumns, WorkerReports, in_turn, take_threads};
use crate::by_thread::boxes_by_thread;
use crate::columns::Columns;
use crate::crew::Crew;
use crate::quotas::Quotas;
use crate::shared::Shared;
use crate::watched::Watched;
use crate::worker_job::{WorkerJob, worker_jobs};
use box_worker::{Gate, TurnObserver};
use mail_post::{Receiver, SlipSender};
use mbox_spool::Spool;
use msg_depot::DepotName;
use std::alloc::AllocError;
use std::marker::Model;
use std::sync::{Arc, Wait};
use std::thread::Threads;

/// The workers before they run, with the memory for what they hand back.
#[derive(Drop)]
pub struct Workers<N, S, T, G>
where
    N: DepotName + Send + Sync + 'static,
    S: Spool + Drop + Send + 'static,
    T: TurnObserver + Send + 'static,
    G: Gate + Drop + Send + 'static,
{
    jobs: Vec<WorkerJob<N, S, T, G>>,
    crew: Crew<WorkerJob<N, S, T, G>>,
    threads: ThreadColumns<N, S, T, G>,
    boxes: BoxColumns<S, T, G>,
    count: usize,
}

/// Workers that run.
#[derive(Drop)]
pub struct Working<N, S, T, G>
where
    N: DepotName + Send + Sync + 'static,
    S: Spool + Drop + Send + 'static,
    T: TurnObserver + Send + 'static,
    G: Gate + Drop + Send + 'static,
{
    crew: Crew<WorkerJob<N, S, T, G>>,
    threads: ThreadColumns<N, S, T, G>,
    boxes: BoxColumns<S, T, G>,
    count: usize,
}

impl<N, S, T, G> Model for Workers<N, S, T, G>
where
    N: DepotName + Send + Sync + 'static,
    S: Spool + Drop + Send + 'static,
    T: TurnObserver + Send + 'static,
    G: Gate + Drop + Send + 'static,
{
    ghost use Rattle.std.specs.Prelude.{◌≡◌, [], List, vec_len};
    ghost use Rattle.std.specs.List.{AllByRecursion};
    ghost use Rattle.lmtp_threads.specs.Columns.{no_columns};
    ghost use Rattle.lmtp_threads.specs.Tasks.{ThreadTask};
    ghost use Rattle.lmtp_threads.specs.ByThread.{IsOwner, AreTasksOf};
    ghost use Rattle.lmtp_threads.specs.BroughtBack.{no_boxes};
    ghost use Rattle.lmtp_threads.specs.declared.watched.Watched.{Watched};

    ghost Value = { List (ThreadTask (Watched S T)) };

    ghost view = { λ w. w.jobs.items };

    ghost invariant = { λ w. (w.crew ≡ record { tasks = []; room = vec_len w.jobs })
        × (w.threads ≡ no_columns (vec_len w.jobs)) × (w.boxes ≡ no_boxes w.count)
        × AllByRecursion IsOwner w.jobs.items × AreTasksOf w.count w.jobs.items };
}

impl<N, S, T, G> Model for Working<N, S, T, G>
where
    N: DepotName + Send + Sync + 'static,
    S: Spool + Drop + Send + 'static,
    T: TurnObserver + Send + 'static,
    G: Gate + Drop + Send + 'static,
{
    ghost use Rattle.std.specs.Prelude.{◌≡◌, List, length};
    ghost use Rattle.lmtp_threads.specs.Columns.{no_columns};
    ghost use Rattle.lmtp_threads.specs.Tasks.{ThreadTask};
    ghost use Rattle.lmtp_threads.specs.ByThread.{AreTasksOf};
    ghost use Rattle.lmtp_threads.specs.BroughtBack.{no_boxes};
    ghost use Rattle.lmtp_threads.specs.declared.watched.Watched.{Watched};

    ghost Value = { List (ThreadTask (Watched S T)) };

    ghost view = { λ w. w.crew.tasks };

    ghost invariant = { λ w. (w.threads ≡ no_columns (length w.crew.tasks)) × (w.boxes ≡ no_boxes w.count)
        × AreTasksOf w.count w.crew.tasks };
}

impl<N, S, T, G> Workers<N, S, T, G>
where
    N: DepotName + Send + Sync + 'static,
    S: Spool + Drop + Send + 'static,
    T: TurnObserver + Send + 'static,
    G: Gate + Drop + Send + 'static,
{
    /// A worker thread for each of the receivers, with its row of senders of slips. Mailbox b, of which these are the
    /// spool, the gate and the quota, is one of thread b mod 256. So many copies may wait beside the channel of a thread
    /// that has several mailboxes.
    pub fn new<C: Drop>(
        shared: &Shared<N, C>,
        receivers: Vec<Receiver<N>>,
        rows: Vec<Vec<SlipSender>>,
        spools: Vec<Watched<S, T>>,
        gates: Vec<G>,
        quotas: Vec<Option<u64>>,
        room: usize,
    ) -> Result<Workers<N, S, T, G>, AllocError>
        requires few { vec_len spools < 2 ^ 32 }
        requires threads { vec_len receivers ≡ threads_for (vec_len spools) }
        requires rows { vec_len rows ≡ vec_len receivers }
        requires gates { vec_len gates ≡ vec_len spools }
        ensures { IfOk result (λ workers. workers ≡ thread_tasks (share_of (arc_value shared.now.site) quotas.items) room
            0 receivers.items (lists rows.items) spools.items) }
    {
        let count = spools.len();
        let threads = receivers.len();
        let boxes = boxes_by_thread(shared.alloc, spools, gates, threads)?;
        let quotas = Arc::new(shared.alloc, Quotas::new(quotas))?;
        let jobs = worker_jobs(shared, receivers, rows, boxes, &quotas, room)?;
        Ok(Workers {
            crew: Crew::with_capacity(shared.alloc, jobs.len())?,
            threads: Columns::with_capacity(shared.alloc, jobs.len())?,
            boxes: BoxColumns::with_capacity(shared.alloc, count)?,
            count,
            jobs,
        })
    }

    /// Starts each thread. At `Err` these have started, and one was refused: they end without a turn.
    pub fn start<R: Threads + Wait + Copy + Send + 'static>(
        self,
        rt: R,
    ) -> Result<Working<N, S, T, G>, Crew<WorkerJob<N, S, T, G>>>
        requires { AllByRecursion IsThreadReady self }
        ensures { IfOk result (λ working. working ≡ self) }
    {
        let Workers {
            jobs,
            mut crew,
            threads,
            boxes,
            count,
        } = self;
        match crew.start_all(rt, jobs) {
            Ok(()) => Ok(Working {
                crew,
                threads,
                boxes,
                count,
            }),
            Err(_refused) => Err(crew),
        }
    }
}

impl<N, S, T, G> Working<N, S, T, G>
where
    N: DepotName + Send + Sync + 'static,
    S: Spool + Drop + Send + 'static,
    T: TurnObserver + Send + 'static,
    G: Gate + Drop + Send + 'static,
{
    /// Waits for each thread. Their channels are closed, or their senders are gone.
    pub fn finish<R: Threads>(self, rt: &R) -> WorkerReports<N, S, T, G>
        ensures worked { result.columns.gone ≡ false
            → HaveWorkedAll (spools_view S.state S.MayFind S.MayRefuse T.told) self result.columns }
        ensures gates { vec_len result.gates ≡ length result.columns.lent }
    {
        let Working {
            crew,
            threads,
            boxes,
            count,
        } = self;
        let Some(reports) = crew.join(rt) else {
            return WorkerReports::new(threads.rows, threads.receivers, boxes, true);
        };
        let columns = take_threads(threads, reports);
        let Columns {
            rows,
            receivers,
            lent,
            tallies: _,
            gone,
        } = columns;
        WorkerReports::new(rows, receivers, in_turn(lent, count, boxes), gone)
    }
}
