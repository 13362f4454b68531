//! A server's run, from its parts to its report.

ghost use Rattle.std.specs.Prelude.{◌≡◌, ◌≢◌, ◌<◌, ◌≤◌, ◌↔◌, length, IfOk, Err, false};
ghost use Rattle.std.specs.List.{AllByRecursion};
ghost use Rattle.std.specs.Arc.{arc_value};
ghost use Rattle.mail_world.specs.declared.limits.TheConstants.{LANE_LIMIT};
ghost use Rattle.lmtp_threads.specs.Works.{visits_view, spools_view};
ghost use Rattle.lmtp_house.specs.Handed.{handed_in};
ghost use Rattle.lmtp_house.specs.House.{HasRun, IsSize};

use crate::house::fault::HouseFault;
use crate::house::handed::HandedIn;
use crate::house::memory::Memory;
use crate::house::plan::Plan;
use crate::house::report::{HouseReport, Room};
use crate::house::sizes::{Sizes, is_size};
use box_worker::{Gate, TurnObserver};
use lmtp_lane::{Clock, Visits};
use lmtp_talk::Observer;
use lmtp_text::Site;
use lmtp_threads::{Shared, Watched};
use mbox_spool::Spool;
use msg_depot::DepotName;
use std::alloc::Global;
use std::marker::Brand;
use std::sync::{Arc, Wait};
use std::thread::Threads;

/// Runs a server until its lanes have no more clients: a lane for each of the visits, in a thread of its own, and for
/// each mailbox of the site a worker with its spool, its gate and its quota, if it has one, in one of at most 256
/// threads, each with its observer. All memory is taken first; the messages have the blocks and slots of the sizes. As
/// many copies wait in a thread's channel as the sizes' capacity says. Above 256 mailboxes, where a thread may have
/// several, 64 more, and one more for each lane, may wait beside it: those of a mailbox that rests, or that others have
/// locked, while the thread's other mailboxes go on.
pub fn run_house<V, O, S, T, G, C, R>(
    rt: R,
    alloc: Global,
    site: Arc<Site>,
    sizes: Sizes,
    visits: Vec<Watched<V, O>>,
    spools: Vec<Watched<S, T>>,
    gates: Vec<G>,
    quotas: Vec<Option<u64>>,
    clock: C,
) -> Result<HouseReport<V, O, S, T, G>, HouseFault>
where
    V: Visits + Send + 'static,
    V::P: Send + 'static,
    O: Observer + Send + 'static,
    S: Spool + Drop + Send + 'static,
    T: TurnObserver + Send + 'static,
    G: Gate + Drop + Send + 'static,
    C: Clock + Send + Sync + 'static,
    R: Threads + Wait + Copy + Send + 'static,
    requires none_out { AllByRecursion (λ watched. V.out watched.inner ≡ false) visits.items }
    ensures ran { IfOk result (HasRun (arc_value site) (C.May clock)
        (visits_view V.MayGive V.finished V.over O.told) (spools_view S.state S.MayFind S.MayRefuse T.told)
        (handed_in visits.items spools.items sizes.capacity quotas.items)) }
    ensures room { IfOk result (λ report. (report.blocks ≡ sizes.blocks) × (report.slots ≡ sizes.slots)) }
    ensures size { result ≡ Err HouseFault.Size
        ↔ ¬ IsSize (arc_value site) sizes (length visits.items) (length spools.items) (length gates.items)
        (length quotas.items) }
{
    if !is_size(
        &site,
        sizes,
        visits.len(),
        spools.len(),
        gates.len(),
        quotas.len(),
    ) {
        return Err(HouseFault::Size);
    }
    let clock = Arc::new(alloc, clock)?;
    let room = Room {
        blocks: sizes.blocks,
        slots: sizes.slots,
    };
    let memory = Memory::new(alloc, room)?;
    let handed = HandedIn {
        visits,
        spools,
        gates,
        quotas,
        capacity: sizes.capacity as usize,
    };
    run_at::<Brand, V, O, S, T, G, C, R>(rt, alloc, memory, site, clock, handed)
}

// Runs a server over the depot of this name, in that memory.
fn run_at<N, V, O, S, T, G, C, R>(
    rt: R,
    alloc: Global,
    memory: Memory,
    site: Arc<Site>,
    clock: Arc<C>,
    handed: HandedIn<V, O, S, T, G>,
) -> Result<HouseReport<V, O, S, T, G>, HouseFault>
where
    N: DepotName + Send + Sync + 'static,
    V: Visits + Send + 'static,
    V::P: Send + 'static,
    O: Observer + Send + 'static,
    S: Spool + Drop + Send + 'static,
    T: TurnObserver + Send + 'static,
    G: Gate + Drop + Send + 'static,
    C: Clock + Send + Sync + 'static,
    R: Threads + Wait + Copy + Send + 'static,
    requires name { memory.blank.table ≡ N.table }
    requires capacity { 0 < handed.capacity }
    requires lanes { (0 < length handed.visits) × (length handed.visits ≤ LANE_LIMIT) }
    requires spools { (0 < length handed.spools) × (length handed.spools ≡ length (arc_value site).boxes) }
    requires none_out { AllByRecursion (λ watched. V.out watched.inner ≡ false) handed.visits }
    ensures ran { IfOk result (HasRun (arc_value site) (C.May (arc_value clock))
        (visits_view V.MayGive V.finished V.over O.told) (spools_view S.state S.MayFind S.MayRefuse T.told) handed) }
    ensures room { IfOk result
        (λ report. (report.blocks ≡ memory.room.blocks) × (report.slots ≡ memory.room.slots)) }
    ensures not_size { result ≢ Err HouseFault.Size }
{
    let Memory { blank, room } = memory;
    let shared = Shared {
        alloc,
        site,
        clock,
        depot: Arc::new(alloc, blank.open::<N>())?,
    };
    let plan = Plan::new(&shared, handed)?;
    plan.run(rt, &shared.depot, room)
}
