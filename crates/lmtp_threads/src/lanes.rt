//! The lanes of a server.

ghost use Rattle.std.specs.Prelude.{◌≡◌, ◌<◌, ◌≤◌, [], false, IfOk, length, vec_len};
ghost use Rattle.std.specs.List.{AllByRecursion};
ghost use Rattle.std.specs.Arc.{arc_value};
ghost use Rattle.lmtp_threads.specs.Grid.{lists};
ghost use Rattle.lmtp_threads.specs.Columns.{no_columns, TakesReport, HoldReports};
ghost use Rattle.lmtp_threads.specs.Reports.{lane_parts};
ghost use Rattle.lmtp_threads.specs.Works.{visits_view, is_out};
ghost use Rattle.lmtp_threads.specs.Tasks.{lane_tasks, lane_before, IsLaneReady, HaveServedAll};
ghost use Rattle.mail_world.specs.declared.limits.TheConstants.{LANE_LIMIT};
ghost use Rattle.mail_world.specs.declared.limits.TheConstants.{READ_LIMIT};
ghost use Rattle.lmtp_talk.specs.Served.{terms};
ghost use Rattle.lmtp_lane.specs.LaneRun.{lane_end, HasServed};

use crate::columns::Columns;
use crate::crew::{Crew, Refused, Task};
use crate::shared::Shared;
use crate::watched::Watched;
use lmtp_lane::{Clock, Desk, LaneReport, Visits, lane_run};
use lmtp_talk::Observer;
use lmtp_text::Site;
use mail_post::{Sender, SlipReceiver};
use msg_depot::{Depot, DepotName};
use std::alloc::AllocError;
use std::marker::Model;
use std::sync::{Arc, Wait};
use std::thread::Threads;

// What a lane holds of what all share, and a desk of its own.
#[derive(Drop)]
struct LaneBase<N: DepotName, C: Clock> {
    site: Arc<Site>,
    desk: Desk,
    depot: Arc<Depot<N>>,
    clock: Arc<C>,
}

impl<N: DepotName, C: Clock> LaneBase<N, C> {
    // The memory for it.
    fn new(shared: &Shared<N, C>) -> Result<LaneBase<N, C>, AllocError>
        ensures site { IfOk result (λ base. arc_value base.site ≡ arc_value shared.now.site) }
        ensures desk { IfOk result (λ base. base.desk.dialogue.session.site ≡ arc_value shared.now.site) }
        ensures clock { IfOk result (λ base. arc_value base.clock ≡ arc_value shared.now.clock) }
    {
        Ok(LaneBase {
            site: Arc::try_clone(&shared.site)?,
            desk: Desk::new(shared.alloc, Arc::try_clone(&shared.site)?)?,
            depot: Arc::try_clone(&shared.depot)?,
            clock: Arc::try_clone(&shared.clock)?,
        })
    }
}

/// What a lane is given.
#[derive(Drop)]
pub struct LaneJob<N: DepotName, V: Visits, O: Observer, C: Clock> {
    lane: u32,
    base: LaneBase<N, C>,
    visits: Watched<V, O>,
    senders: Vec<Sender<N>>,
    slips: SlipReceiver,
}

impl<N: DepotName, V: Visits, O: Observer, C: Clock> Model for LaneJob<N, V, O, C> {
    ghost use Rattle.std.specs.Arc.{arc_value};
    ghost use Rattle.lmtp_threads.specs.Tasks.{LaneTask};
    ghost use Rattle.lmtp_threads.specs.declared.watched.Watched.{Watched};

    ghost Value = { LaneTask (Watched V O) C };

    ghost view = { λ j. record {
      lane = j.lane;
      site = arc_value j.base.site;
      desk_site = j.base.desk.dialogue.session.site;
      clock = arc_value j.base.clock;
      visits = j.visits;
      senders = j.senders.items;
      slips = j.slips;
    } };
}

impl<N, V, O, C> Task for LaneJob<N, V, O, C>
where
    N: DepotName + Send + Sync + 'static,
    V: Visits + Send + 'static,
    V::P: Send + 'static,
    O: Observer + Send + 'static,
    C: Clock + Send + Sync + 'static,
{
    type Output = LaneReport<N, V, O>;

    ghost ready = { λ job. IsLaneReady (is_out V.out) job };

    ghost done = { λ job r. HasServed (terms job.site READ_LIMIT) (C.May job.clock) (V.MayGive job.visits.inner)
        (lane_before (visits_view V.MayGive V.finished V.over O.told) job) (lane_end job.lane r) };

    fn run<R: Wait>(self, rt: &R) -> LaneReport<N, V, O> {
        let LaneJob {
            lane,
            base,
            visits,
            senders,
            slips,
        } = self;
        let LaneBase {
            site,
            desk,
            depot,
            clock,
        } = base;
        let Watched { inner, observer } = visits;
        let clock: &C = &clock;
        lane_run(
            rt, lane, &site, desk, inner, &depot, senders, slips, clock, observer,
        )
    }
}

// The jobs of all lanes, in their order.
fn lane_jobs<N: DepotName, V: Visits, O: Observer, C: Clock>(
    shared: &Shared<N, C>,
    visits: Vec<Watched<V, O>>,
    rows: Vec<Vec<Sender<N>>>,
    takers: Vec<SlipReceiver>,
) -> Result<Vec<LaneJob<N, V, O, C>>, AllocError>
    requires few { vec_len visits ≤ LANE_LIMIT }
    requires rows { vec_len rows ≡ vec_len visits }
    requires takers { vec_len takers ≡ vec_len visits }
    ensures { IfOk result (λ jobs. jobs.items ≡ lane_tasks (arc_value shared.now.site) (arc_value shared.now.clock) 0
        visits.items (lists rows.items) takers.items) }
{
    let mut rows = rows.into_iter();
    let mut takers = takers.into_iter();
    let mut jobs = Vec::new(shared.alloc);
    let mut lane = 0;
    for visits in visits {
        let base = LaneBase::new(shared)?;
        let Some(senders) = rows.next() else {
            unreachable!()
        };
        let Some(slips) = takers.next() else {
            unreachable!()
        };
        jobs.push(LaneJob {
            lane,
            base,
            visits,
            senders,
            slips,
        })?;
        lane += 1;
    }
    Ok(jobs)
}

/// What the lanes hand back: their ends of the channels, their visits and observers, and how many conversations each
/// held.
pub type LaneColumns<N, V, O> = Columns<Sender<N>, SlipReceiver, Watched<V, O>, u64>;

// One more lane's report.
fn take_lane<N: DepotName, V: Visits, O: Observer>(
    columns: &mut LaneColumns<N, V, O>,
    report: LaneReport<N, V, O>,
)
    requires { length columns.old.rows < columns.old.room }
    ensures { TakesReport (lane_parts (visits_view V.MayGive V.finished V.over O.told)) report columns.old
        columns.new }
{
    let LaneReport {
        visits,
        observer,
        senders,
        slips,
        conversations,
        gone,
    } = report;
    let watched = Watched {
        inner: visits,
        observer,
    };
    columns.push(senders, slips, watched, conversations, gone);
}

// Takes the reports apart. There is just enough room.
fn take_lanes<N: DepotName, V: Visits, O: Observer>(
    columns: LaneColumns<N, V, O>,
    reports: Vec<LaneReport<N, V, O>>,
) -> LaneColumns<N, V, O>
    requires { columns ≡ no_columns (vec_len reports) }
    ensures { HoldReports (lane_parts (visits_view V.MayGive V.finished V.over O.told)) reports.items result }
{
    let mut columns = columns;
    for report in reports {
        take_lane(&mut columns, report);
    }
    columns
}

/// The lanes before they run, with the memory for what they hand back.
#[derive(Drop)]
pub struct Lanes<N, V, O, C>
where
    N: DepotName + Send + Sync + 'static,
    V: Visits + Send + 'static,
    V::P: Send + 'static,
    O: Observer + Send + 'static,
    C: Clock + Send + Sync + 'static,
{
    jobs: Vec<LaneJob<N, V, O, C>>,
    crew: Crew<LaneJob<N, V, O, C>>,
    columns: LaneColumns<N, V, O>,
}

impl<N, V, O, C> Model for Lanes<N, V, O, C>
where
    N: DepotName + Send + Sync + 'static,
    V: Visits + Send + 'static,
    V::P: Send + 'static,
    O: Observer + Send + 'static,
    C: Clock + Send + Sync + 'static,
{
    ghost use Rattle.std.specs.Prelude.{◌≡◌, [], List, vec_len};
    ghost use Rattle.lmtp_threads.specs.Columns.{no_columns};
    ghost use Rattle.lmtp_threads.specs.Tasks.{LaneTask};
    ghost use Rattle.lmtp_threads.specs.declared.watched.Watched.{Watched};

    ghost Value = { List (LaneTask (Watched V O) C) };

    ghost view = { λ l. l.jobs.items };

    ghost invariant = { λ l. (l.crew ≡ record { tasks = []; room = vec_len l.jobs })
        × (l.columns ≡ no_columns (vec_len l.jobs)) };
}

impl<N, V, O, C> Lanes<N, V, O, C>
where
    N: DepotName + Send + Sync + 'static,
    V: Visits + Send + 'static,
    V::P: Send + 'static,
    O: Observer + Send + 'static,
    C: Clock + Send + Sync + 'static,
{
    /// A lane for each of the visits, in their order, with its row of senders and its receiver of slips.
    pub fn new(
        shared: &Shared<N, C>,
        visits: Vec<Watched<V, O>>,
        rows: Vec<Vec<Sender<N>>>,
        takers: Vec<SlipReceiver>,
    ) -> Result<Lanes<N, V, O, C>, AllocError>
        requires few { vec_len visits ≤ LANE_LIMIT }
        requires rows { vec_len rows ≡ vec_len visits }
        requires takers { vec_len takers ≡ vec_len visits }
        ensures { IfOk result (λ lanes. lanes ≡ lane_tasks (arc_value shared.now.site) (arc_value shared.now.clock) 0
            visits.items (lists rows.items) takers.items) }
    {
        let jobs = lane_jobs(shared, visits, rows, takers)?;
        Ok(Lanes {
            crew: Crew::with_capacity(shared.alloc, jobs.len())?,
            columns: Columns::with_capacity(shared.alloc, jobs.len())?,
            jobs,
        })
    }

    /// Runs each lane in a thread, to its end, once all threads have started. At `Err` one was refused: those that had
    /// started have ended without a client, and their senders are gone.
    pub fn run<R: Threads + Wait + Copy + Send + 'static>(
        self,
        rt: R,
    ) -> Result<LaneColumns<N, V, O>, Refused>
        requires { AllByRecursion (IsLaneReady (is_out V.out)) self }
        ensures { IfOk result (λ columns. columns.gone ≡ false → HaveServedAll C.May
            (visits_view V.MayGive V.finished V.over O.told) self columns) }
    {
        let Lanes {
            jobs,
            mut crew,
            columns,
        } = self;
        let started = crew.start_all(rt, jobs);
        let reports = crew.join(&rt);
        started?;
        match reports {
            Some(reports) => Ok(take_lanes(columns, reports)),
            None => Err(Refused),
        }
    }
}
