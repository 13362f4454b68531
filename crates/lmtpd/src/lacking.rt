//! What the program's work lacked, once it is done.

ghost use Rattle.std.specs.Prelude.{◌≡◌};
ghost use Rattle.lmtpd.specs.Lacking.{check_fault, house_refusal, rehearsal_fault, server_fault};

use lmtpd_rehearse::{EndCause, Ending, HouseFault};
use lmtpd_serve::ServerEnding;
use lmtpd_setup::Fault;

/// The fault for a server that didn't run.
pub fn house_fault(cause: HouseFault) -> Fault
    ensures { result ≡ house_refusal cause }
{
    match cause {
        HouseFault::Memory => Fault::Memory,
        HouseFault::Size => Fault::Size,
        HouseFault::ChannelGone => Fault::ChannelGone,
        HouseFault::NoThread => Fault::NoThread,
    }
}

/// What a rehearsal that ended so lacks: a spool, a reader or a writer that failed is a fault of a device.
pub fn rehearsal_fault(ending: Ending) -> Option<Fault>
    ensures { result ≡ rehearsal_fault ending }
{
    let is_broken = matches!(ending.end, EndCause::ReadFault | EndCause::WriteFault);
    if ending.faulty || ending.cut || is_broken {
        Some(Fault::Device)
    } else {
        None
    }
}

/// What a server that ran lacks: a mailbox whose last turn broke, or a write that failed, is a fault of a device, and
/// comes before a listener that failed.
pub fn server_fault(ending: ServerEnding) -> Option<Fault>
    ensures { result ≡ server_fault ending }
{
    if ending.faulty || ending.cut {
        Some(Fault::Device)
    } else if ending.failed {
        Some(Fault::Listen)
    } else {
        None
    }
}

/// What a check of files lacks: a write that failed is a fault of a device.
pub fn check_fault(cut: bool) -> Option<Fault>
    ensures { result ≡ check_fault cut }
{
    if cut { Some(Fault::Device) } else { None }
}
