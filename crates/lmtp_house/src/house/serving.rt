//! Lanes that serve all their clients, beside the worker threads that take what they offer.

ghost use Rattle.std.specs.Prelude.{◌≡◌, ◌≢◌, IfOk, Err};
ghost use Rattle.std.specs.List.{AllByRecursion};
ghost use Rattle.lmtp_threads.specs.Works.{visits_view, is_out};
ghost use Rattle.lmtp_threads.specs.Tasks.{IsLaneReady, IsThreadReady, HaveServedAll};

use crate::house::fault::HouseFault;
use box_worker::{Gate, TurnObserver};
use lmtp_lane::{Clock, Visits};
use lmtp_talk::Observer;
use lmtp_threads::{LaneColumns, Lanes, Workers, Working};
use mbox_spool::Spool;
use msg_depot::DepotName;
use std::sync::Wait;
use std::thread::Threads;

/// What lanes that have ended handed back, and the worker threads, which still run.
#[derive(Drop)]
pub struct Ended<N, V, O, S, T, G>
where
    N: DepotName + Send + Sync + 'static,
    V: Visits,
    O: Observer,
    S: Spool + Drop + Send + 'static,
    T: TurnObserver + Send + 'static,
    G: Gate + Drop + Send + 'static,
{
    pub lanes: LaneColumns<N, V, O>,
    pub workers: Working<N, S, T, G>,
}

/// Starts the worker threads and then the lanes, and waits until the lanes have no more clients. At `Err` all that had
/// started have ended.
pub fn serve_all<R, N, V, O, S, T, G, C>(
    rt: R,
    lanes: Lanes<N, V, O, C>,
    workers: Workers<N, S, T, G>,
) -> Result<Ended<N, V, O, S, T, G>, HouseFault>
where
    R: Threads + Wait + Copy + Send + 'static,
    N: DepotName + Send + Sync + 'static,
    V: Visits + Send + 'static,
    V::P: Send + 'static,
    O: Observer + Send + 'static,
    S: Spool + Drop + Send + 'static,
    T: TurnObserver + Send + 'static,
    G: Gate + Drop + Send + 'static,
    C: Clock + Send + Sync + 'static,
    requires lanes { AllByRecursion (IsLaneReady (is_out V.out)) lanes }
    requires workers { AllByRecursion IsThreadReady workers }
    ensures served { IfOk result (λ ended. HaveServedAll C.May
        (visits_view V.MayGive V.finished V.over O.told) lanes ended.lanes) }
    ensures working { IfOk result (λ ended. ended.workers ≡ workers) }
    ensures not_size { result ≢ Err HouseFault.Size }
{
    let workers = match workers.start(rt) {
        Ok(working) => working,
        Err(started) => {
            drop(lanes);
            drop(started.join(&rt));
            return Err(HouseFault::NoThread);
        }
    };
    let Ok(lanes) = lanes.run(rt) else {
        drop(workers.finish(&rt));
        return Err(HouseFault::NoThread);
    };
    if lanes.gone {
        drop(lanes);
        drop(workers.finish(&rt));
        return Err(HouseFault::ChannelGone);
    }
    Ok(Ended { lanes, workers })
}
