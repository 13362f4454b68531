//! The observers of lanes that are logs.

ghost use Rattle.std.specs.Prelude.{◌≡◌, [], Bool, IfOk, IfSome, length, map};
ghost use Rattle.std.specs.List.{AllByRecursion};
ghost use Rattle.lmtpd_log.specs.LaneLogs.{LogLines, lines_from};

use lmtp_talk::Observer;
use std::alloc::{AllocError, Global};

/// The log of a lane, an observer of its conversations.
pub trait LaneLog: Observer {
    // which lane its lines name, and whether they show addresses
    ghost lines: { Self → LogLines };
}

/// Makes the logs of lanes.
pub trait LaneLogs {
    /// A lane's log.
    type Log: LaneLog;

    // whether the lines of these logs show addresses
    ghost addresses: { Self → Bool };

    /// The log of that lane, counted from 0. It takes no memory after that.
    fn log(&self, alloc: Global, lane: u32) -> Result<Self::Log, AllocError>
        ensures lines { IfOk result (λ log. Self.Log.lines log
            ≡ record { lane = lane; addresses = addresses self.now }) }
        ensures untold { IfOk result (λ log. IfSome (Self.Log.told log) (λ entries. entries ≡ [])) };
}

/// The logs of the lanes from 0 on.
pub fn lane_logs<M: LaneLogs>(
    alloc: Global,
    logs: &M,
    lanes: u32,
) -> Result<Vec<M::Log>, AllocError>
    ensures count { IfOk result (λ made. length made.items ≡ lanes) }
    ensures lines { IfOk result
        (λ made. map (λ log. M.Log.lines log) made.items ≡ lines_from (M.addresses logs.now) 0 lanes) }
    ensures untold { IfOk result
        (λ made. AllByRecursion (λ log. IfSome (M.Log.told log) (λ entries. entries ≡ [])) made.items) }
{
    let mut made = Vec::with_capacity(alloc, lanes as usize)?;
    for lane in 0..lanes {
        made.push(logs.log(alloc, lane)?)?;
    }
    Ok(made)
}
