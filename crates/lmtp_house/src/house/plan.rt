//! A server with all its memory, before its threads start.

ghost use Rattle.std.specs.Prelude.{◌≡◌, ◌≢◌, ◌<◌, ◌≤◌, length, IfOk, Err};
ghost use Rattle.std.specs.Arc.{arc_value};
ghost use Rattle.mail_world.specs.declared.limits.TheConstants.{LANE_LIMIT};
ghost use Rattle.lmtp_threads.specs.Works.{visits_view, spools_view, is_out};
ghost use Rattle.lmtp_house.specs.HousePlan.{IsPlanned, MayRun, HasRunAll};

use crate::house::channels::{Channels, Closings};
use crate::house::fault::HouseFault;
use crate::house::handed::HandedIn;
use crate::house::report::{HouseReport, Room};
use crate::house::serving::{Ended, serve_all};
use box_worker::{Gate, TurnObserver};
use lmtp_lane::{Clock, Visits};
use lmtp_talk::Observer;
use lmtp_threads::{Lanes, Shared, WorkerReports, Workers, room_beside, settle_all};
use mail_post::WORKER_THREADS;
use mbox_spool::Spool;
use msg_depot::{Depot, DepotName};
use std::alloc::AllocError;
use std::marker::Model;
use std::sync::{Arc, Wait};
use std::thread::Threads;

/// The lanes and worker threads of a server, and what closes their channels.
#[derive(Drop)]
pub struct Plan<N, V, O, S, T, G, C>
where
    N: DepotName + Send + Sync + 'static,
    V: Visits + Send + 'static,
    V::P: Send + 'static,
    O: Observer + Send + 'static,
    S: Spool + Drop + Send + 'static,
    T: TurnObserver + Send + 'static,
    G: Gate + Drop + Send + 'static,
    C: Clock + Send + Sync + 'static,
{
    lanes: Lanes<N, V, O, C>,
    workers: Workers<N, S, T, G>,
    closings: Closings<N>,
}

impl<N, V, O, S, T, G, C> Model for Plan<N, V, O, S, T, G, C>
where
    N: DepotName + Send + Sync + 'static,
    V: Visits + Send + 'static,
    V::P: Send + 'static,
    O: Observer + Send + 'static,
    S: Spool + Drop + Send + 'static,
    T: TurnObserver + Send + 'static,
    G: Gate + Drop + Send + 'static,
    C: Clock + Send + Sync + 'static,
{
    ghost use Rattle.lmtp_threads.specs.declared.watched.Watched.{Watched};
    ghost use Rattle.lmtp_house.specs.HousePlan.{PlanState, plan_state};

    ghost Value = { PlanState (Watched V O) (Watched S T) C };

    ghost view = { λ plan. plan_state plan.lanes plan.workers plan.closings.mail plan.closings.slips };
}

impl<N, V, O, S, T, G, C> Plan<N, V, O, S, T, G, C>
where
    N: DepotName + Send + Sync + 'static,
    V: Visits + Send + 'static,
    V::P: Send + 'static,
    O: Observer + Send + 'static,
    S: Spool + Drop + Send + 'static,
    T: TurnObserver + Send + 'static,
    G: Gate + Drop + Send + 'static,
    C: Clock + Send + Sync + 'static,
{
    /// Takes all the memory that lanes and worker threads need.
    pub fn new(
        shared: &Shared<N, C>,
        handed: HandedIn<V, O, S, T, G>,
    ) -> Result<Plan<N, V, O, S, T, G, C>, AllocError>
        requires capacity { 0 < handed.capacity }
        requires lanes { (0 < length handed.visits) × (length handed.visits ≤ LANE_LIMIT) }
        requires spools { (0 < length handed.spools)
            × (length handed.spools ≡ length (arc_value shared.now.site).boxes) }
        ensures { IfOk result (IsPlanned (arc_value shared.now.site) (arc_value shared.now.clock) handed) }
    {
        let lanes = handed.visits.len() as u32;
        let threads = shared.site.box_count().min(WORKER_THREADS);
        let closings = Closings::new(shared.alloc, lanes, threads)?;
        let channels = Channels::open(shared.alloc, handed.capacity, lanes, threads)?;
        let room = room_beside(handed.spools.len(), lanes);
        let Channels {
            rows,
            receivers,
            slip_rows,
            takers,
        } = channels;
        let HandedIn {
            visits,
            spools,
            gates,
            quotas,
            capacity: _,
        } = handed;
        let lanes = Lanes::new(shared, visits, rows, takers)?;
        let workers = Workers::new(shared, receivers, slip_rows, spools, gates, quotas, room)?;
        Ok(Plan {
            lanes,
            workers,
            closings,
        })
    }

    /// Runs the worker threads and the lanes, until the lanes have no more clients. The depot has that room.
    pub fn run<R: Threads + Wait + Copy + Send + 'static>(
        self,
        rt: R,
        depot: &Depot<N>,
        room: Room,
    ) -> Result<HouseReport<V, O, S, T, G>, HouseFault>
        requires { MayRun (is_out V.out) self }
        ensures ran { IfOk result (HasRunAll C.May (visits_view V.MayGive V.finished V.over O.told)
            (spools_view S.state S.MayFind S.MayRefuse T.told) self) }
        ensures room { IfOk result (λ report. (report.blocks ≡ room.blocks) × (report.slots ≡ room.slots)) }
        ensures not_size { result ≢ Err HouseFault.Size }
    {
        let Plan {
            lanes,
            workers,
            closings,
        } = self;
        let Ended {
            lanes: ends,
            workers: working,
        } = serve_all(rt, lanes, workers)?;
        let Closings { mail, slips } = closings;
        let closed = mail.close(&rt, ends.rows);
        let WorkerReports {
            columns: done,
            gates,
        } = working.finish(&rt);
        if done.gone {
            return Err(HouseFault::ChannelGone);
        }
        let slips_closed = slips.close(&rt, done.rows);
        settle_all(done.receivers, closed);
        settle_all(ends.receivers, slips_closed);
        Ok(HouseReport {
            visits: ends.lent,
            spools: done.lent,
            gates,
            conversations: ends.tallies,
            tallies: done.tallies,
            room,
            free_blocks: depot.free_blocks(&rt),
        })
    }
}
