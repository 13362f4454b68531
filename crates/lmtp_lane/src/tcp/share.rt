//! The clients of one listener, shared out among lanes.

ghost use Rattle.std.specs.Prelude.{◌≡◌, ◌<◌, false, IfOk, length, map, sum};
ghost use Rattle.std.specs.List.{AllByRecursion};
ghost use Rattle.std.specs.Arc.{arc_value};
ghost use Rattle.lmtp_lane.specs.TcpVisits.{IsLaneOf, connections_left, conversations_ended, is_out, share, shares};

use crate::tcp::visits::TcpVisits;
use lmtp_tcp::Bounds;
use std::alloc::{AllocError, Global};
use std::sync::Arc;

/// The visits of as many lanes: the connections are shared out among them, the first lanes have one more
/// where they don't go out even, and each conversation has these bounds. No client takes memory.
pub fn tcp_visits<L: Drop, E: Drop>(
    alloc: Global,
    listener: L,
    lanes: u32,
    connections: u64,
    bounds: Bounds,
    curfew: Arc<E>,
) -> Result<Vec<TcpVisits<L, E>>, AllocError>
    ensures count { IfOk result (λ visits. length visits.items ≡ lanes) }
    ensures none_out { IfOk result (λ visits. AllByRecursion (λ v. is_out v ≡ false) visits.items) }
    ensures none_ended { IfOk result (λ visits. AllByRecursion (λ v. conversations_ended v ≡ 0) visits.items) }
    ensures shares { IfOk result (λ visits. map connections_left visits.items ≡ shares connections lanes) }
    ensures all { IfOk result (λ visits. 0 < lanes → sum (map connections_left visits.items) ≡ connections) }
    ensures each { IfOk result (λ visits. AllByRecursion (IsLaneOf listener bounds (arc_value curfew)) visits.items) }
{
    let listener = Arc::new(alloc, listener)?;
    let mut visits = Vec::new(alloc);
    for lane in 0..lanes {
        let shared = Arc::try_clone(&listener)?;
        let until = Arc::try_clone(&curfew)?;
        let connections = share_of(connections, lanes, lane);
        visits.push(TcpVisits::new(shared, connections, bounds, until))?;
    }
    Ok(visits)
}

// How many conversations a lane may hold.
fn share_of(connections: u64, lanes: u32, lane: u32) -> u64
    requires { 0 < lanes }
    ensures { result ≡ share connections lanes lane }
{
    let lanes = lanes as u64;
    let each = connections / lanes;
    if (lane as u64) < connections % lanes {
        each + 1
    } else {
        each
    }
}
