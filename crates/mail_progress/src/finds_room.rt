//! No slip ever waits.

ghost use Rattle.mail_progress.specs.OrderlyRuns.{InEveryOrderlyRun, SlipsFindRoom};

/// In each house of each orderly run the slip of a released copy finds room in its lane's channel.
pub fn no_slip_waits()
    ensures { InEveryOrderlyRun (λ room h. SlipsFindRoom room h) }
{}
