//! A server's run, from the line that says where it listens to the lines that say what was stored.

ghost use Rattle.std.specs.Prelude.{◌≡◌, ◌↔◌, ◌⊎◌, ◌||◌, IfOk, Err, length, false};
ghost use Rattle.std.specs.List.{AllByRecursion, list_any};
ghost use Rattle.std.specs.Arc.{arc_value};
ghost use Rattle.lmtp_lane.specs.TcpVisits.{conversations_ended, has_failed, is_out, was_stopped};
ghost use Rattle.lmtp_threads.specs.Works.{spools_view};
ghost use Rattle.lmtp_house.specs.House.{IsSize};
ghost use Rattle.lmtpd_serve.specs.Served.{AreLanesFor, HaveLogs, IsAnnounced, IsServerRun, ListsOn, counts_text};

use super::conversations::Conversations;
use super::lane_clock::LaneClock;
use super::saying::{Announced, announce, is_cut};
use super::served::{Served, ServerEnding};
use super::turn_gate::{GateWords, TurnGate};
use super::watching::watched;
use box_worker::TurnObserver;
use lmtp_house::{
    HouseFault, HouseReport, Listener, Sizes, TcpVisits, Watched, has_failed, is_size, run_house,
    tcp_visits,
};
use lmtp_tcp::{ClientStream, Curfew};
use lmtp_text::Site;
use lmtpd_log::{LaneLogs, lane_logs};
use mbox_spool::Spool;
use slow_boxes::SlowBoxes;
use std::alloc::{AllocError, Global};
use std::io::{Read, Write};
use std::sync::{Arc, Wait};
use std::thread::Threads;
use std::time::Clock;

/// Says where the server listens, runs it for that many conversations, which the lanes share, and says for each mailbox
/// how many copies it stored, where there are many for those alone that took one. Each mailbox has its own quota, if it has one. Each lane's log is told of its
/// conversations, and each mailbox's observer of its turns. Nothing more is said once a write failed; the server runs
/// all the same, as it does where the listener can't tell its address. What each mailbox's worker did is handed back.
pub fn serve_run<L, E, S, T, G, W, H>(
    rt: H,
    alloc: Global,
    site: Arc<Site>,
    sizes: Sizes,
    quotas: Vec<Option<u64>>,
    conversations: Conversations<E>,
    listener: L,
    spools: Vec<Watched<S, T>>,
    logs: G,
    writer: &mut W,
) -> Result<Served, HouseFault>
where
    L: Listener + Drop + Send + Sync + 'static,
    L::Stream: Read + Write + ClientStream + Drop + Send + 'static,
    E: Curfew + Send + Sync + 'static,
    S: Spool + Drop + Send + 'static,
    T: TurnObserver + Send + 'static,
    G: LaneLogs + Drop,
    G::Log: Send + 'static,
    W: Write,
    H: Threads + Wait + Clock + Copy + Drop + Send + Sync + 'static,
    ensures size { let count = length spools.items in
        result ≡ Err HouseFault.Size
        ↔ ¬ IsSize (arc_value site) sizes conversations.lanes count count (length quotas.items) }
    ensures sized { let count = length spools.items in
        (result ≡ Err HouseFault.Size)
        ⊎ IsSize (arc_value site) sizes conversations.lanes count count (length quotas.items) }
    ensures ran { IfOk result (IsServerRun (arc_value site) (spools_view S.state S.MayFind S.MayRefuse T.told)
        G.Log.told G.Log.lines
        (record {
          sizes = sizes;
          quotas = quotas.items;
          conversations = conversations;
          listener = listener;
          addresses = G.addresses logs;
        })
        spools.items (W.contents writer.old) (W.contents writer.new)) }
{
    let lanes = conversations.lanes as usize;
    let boxes = spools.len();
    if !is_size(&site, sizes, lanes, boxes, boxes, quotas.len()) {
        return Err(HouseFault::Size);
    }
    let house = ServedHouse {
        site,
        sizes,
        quotas,
        spools,
    };
    let clients = Clients {
        conversations,
        listener,
    };
    run_sized(rt, alloc, house, clients, &logs, writer)
}

/// The site that is served, its sizes, and of each mailbox its quota, and its spool with its observer.
#[derive(Drop)]
struct ServedHouse<S: Drop, T: Drop> {
    site: Arc<Site>,
    sizes: Sizes,
    quotas: Vec<Option<u64>>,
    spools: Vec<Watched<S, T>>,
}

/// The conversations to be held, and where their clients come from.
#[derive(Drop)]
struct Clients<L: Drop, E: Drop> {
    conversations: Conversations<E>,
    listener: L,
}

/// A lane's clients, and its log beside them.
type LoggedVisits<L, E, O> = Watched<TcpVisits<L, E>, O>;

/// A gate for each mailbox, what came of saying where the server listens, and the clients of each lane.
#[derive(Drop)]
struct Prepared<V: Drop, H: Drop, E: Drop> {
    gates: Vec<TurnGate<H, E>>,
    announced: Announced,
    visits: Vec<V>,
}

// The run of a server, once its sizes were looked at.
fn run_sized<L, E, S, T, G, W, H>(
    rt: H,
    alloc: Global,
    house: ServedHouse<S, T>,
    clients: Clients<L, E>,
    logs: &G,
    writer: &mut W,
) -> Result<Served, HouseFault>
where
    L: Listener + Drop + Send + Sync + 'static,
    L::Stream: Read + Write + ClientStream + Drop + Send + 'static,
    E: Curfew + Send + Sync + 'static,
    S: Spool + Drop + Send + 'static,
    T: TurnObserver + Send + 'static,
    G: LaneLogs,
    G::Log: Send + 'static,
    W: Write,
    H: Threads + Wait + Clock + Copy + Drop + Send + Sync + 'static,
    requires { let count = length house.spools.items in
        IsSize (arc_value house.site) house.sizes clients.conversations.lanes count count
        (length house.quotas.items) }
    ensures sized { result ≡ Err HouseFault.Size → ⊥ }
    ensures ran { IfOk result (IsServerRun (arc_value house.site)
        (spools_view S.state S.MayFind S.MayRefuse T.told) G.Log.told G.Log.lines
        (record {
          sizes = house.sizes;
          quotas = house.quotas.items;
          conversations = clients.conversations;
          listener = clients.listener;
          addresses = G.addresses logs.now;
        })
        house.spools.items (W.contents writer.old) (W.contents writer.new)) }
{
    let ServedHouse {
        site,
        sizes,
        quotas,
        spools,
    } = house;
    let served_site = Arc::try_clone(&site)?;
    let slow = Arc::try_clone(&clients.conversations.slow)?;
    let Prepared {
        gates,
        announced,
        visits,
    } = prepare(rt, alloc, spools.len(), clients, logs, writer)?;
    let clock = LaneClock::new(rt, slow);
    let report = match run_house(rt, alloc, site, sizes, visits, spools, gates, quotas, clock) {
        Ok(report) => report,
        Err(fault) => return Err(fault),
    };
    Ok(served_by(served_site, announced, report, writer))
}

// Says where the server listens, and makes the mailboxes' gates before that and the lanes' clients after it.
fn prepare<L, E, G, W, H>(
    rt: H,
    alloc: Global,
    boxes: usize,
    clients: Clients<L, E>,
    logs: &G,
    writer: &mut W,
) -> Result<Prepared<LoggedVisits<L, E, G::Log>, H, E>, AllocError>
where
    L: Listener + Drop,
    E: Drop,
    G: LaneLogs,
    W: Write,
    H: Clock + Copy + Drop,
    ensures gates { IfOk result (λ prepared. length prepared.gates.items ≡ boxes) }
    ensures lanes { IfOk result
        (λ prepared. AreLanesFor clients.listener clients.conversations prepared.visits.items) }
    ensures none_ended { IfOk result
        (λ prepared. AllByRecursion (λ v. conversations_ended v.inner ≡ 0) prepared.visits.items) }
    ensures none_out { IfOk result
        (λ prepared. AllByRecursion (λ v. is_out v.inner ≡ false) prepared.visits.items) }
    ensures logs { IfOk result
        (λ prepared. HaveLogs G.Log.told G.Log.lines (G.addresses logs.now) prepared.visits.items) }
    ensures announced { IfOk result
        (λ prepared. IsAnnounced prepared.announced.is_unknown (W.contents writer.old) (W.contents writer.new)
        prepared.announced.is_cut) }
{
    let gates = gates_of(rt, alloc, boxes, &clients.conversations)?;
    let announced = announce(alloc, &clients.listener, writer)?;
    let Clients {
        conversations,
        listener,
    } = clients;
    let visits = visits_of(alloc, conversations, listener, logs)?;
    Ok(Prepared {
        gates,
        announced,
        visits,
    })
}

// The gates of that many mailboxes.
fn gates_of<H: Copy + Drop, E: Drop>(
    rt: H,
    alloc: Global,
    boxes: usize,
    conversations: &Conversations<E>,
) -> Result<Vec<TurnGate<H, E>>, AllocError>
    ensures { IfOk result (λ gates. length gates.items ≡ boxes) }
{
    let words = GateWords {
        curfew: Arc::try_clone(&conversations.curfew)?,
        slow: Arc::try_clone(&conversations.slow)?,
    };
    let words = Arc::new(alloc, words)?;
    let mut gates = Vec::with_capacity(alloc, boxes)?;
    for place in 0..boxes {
        let mailbox = u32::try_from(place).unwrap_or(u32::MAX);
        gates.push(TurnGate::new(rt, Arc::try_clone(&words)?, mailbox))?;
    }
    Ok(gates)
}

// What the run of the house comes to, once it is said what was stored.
fn served_by<L: Drop, E: Drop, O: Drop, S: Drop, T: Drop, H: Drop, W: Write>(
    site: Arc<Site>,
    announced: Announced,
    report: HouseReport<TcpVisits<L, E>, O, S, T, TurnGate<H, E>>,
    writer: &mut W,
) -> Served
    requires { length report.tallies ≡ length (arc_value site).boxes }
    ensures site { arc_value result.site ≡ arc_value site }
    ensures tallies { result.tallies.items ≡ report.tallies }
    ensures faulty { result.ending.faulty ≡ list_any (λ tally. tally.faulty) report.tallies }
    ensures failed { result.ending.failed
        ≡ announced.is_unknown || list_any (λ v. has_failed v.inner) report.visits }
    ensures stopped { result.ending.stopped ≡ list_any (λ v. was_stopped v.inner) report.visits }
    ensures said { ListsOn announced.is_cut (counts_text (arc_value site).boxes report.tallies)
        (W.contents writer.old) (W.contents writer.new) result.ending.cut }
{
    let ending = ServerEnding {
        faulty: has_failed(&report.tallies),
        failed: announced.is_unknown | has_one_failed(&report.visits),
        stopped: is_one_stopped(&report.visits),
        cut: is_cut(announced.is_cut, &site, &report.tallies, writer),
    };
    Served {
        ending,
        site,
        tallies: report.tallies,
    }
}

// Whether what listens broke for a lane.
fn has_one_failed<L: Drop, E: Drop, O: Drop>(visits: &[LoggedVisits<L, E, O>]) -> bool
    ensures { result ≡ list_any (λ v. has_failed v.inner) visits.now }
{
    visits.iter().any(|visits| visits.inner.failed())
}

// Whether a lane found that the server's end was asked for.
fn is_one_stopped<L: Drop, E: Drop, O: Drop>(visits: &[LoggedVisits<L, E, O>]) -> bool
    ensures { result ≡ list_any (λ v. was_stopped v.inner) visits.now }
{
    visits.iter().any(|visits| visits.inner.stopped())
}

// The clients of all lanes, each with its log.
fn visits_of<L: Drop, E: Drop, G: LaneLogs>(
    alloc: Global,
    conversations: Conversations<E>,
    listener: L,
    logs: &G,
) -> Result<Vec<LoggedVisits<L, E, G::Log>>, AllocError>
    ensures lanes { IfOk result (λ visits. AreLanesFor listener conversations visits.items) }
    ensures none_ended { IfOk result
        (λ visits. AllByRecursion (λ v. conversations_ended v.inner ≡ 0) visits.items) }
    ensures none_out { IfOk result (λ visits. AllByRecursion (λ v. is_out v.inner ≡ false) visits.items) }
    ensures logs { IfOk result (λ visits. HaveLogs G.Log.told G.Log.lines (G.addresses logs.now) visits.items) }
{
    let Conversations {
        lanes,
        count,
        bounds,
        curfew,
        ..
    } = conversations;
    let visits = tcp_visits(alloc, listener, lanes, count, bounds, curfew)?;
    let logs = lane_logs(alloc, logs, lanes)?;
    let logged = watched(alloc, visits, logs)?;
    Ok(logged)
}
