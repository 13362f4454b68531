//! What the lines of all lanes have in common, and the log of a lane over the crate `log`.

ghost use Rattle.std.specs.Prelude.{◌≡◌, [], IfOk, IfSome, codes};
ghost use Rattle.std.specs.Arc.{arc_value};
ghost use Rattle.log.specs.declared.level.Level.TheVariants.{Info};
ghost use Rattle.lmtpd_log.specs.Lines.{heard_by, lines_in, rules_in};

use crate::lane_log::LaneLogs;
use crate::line_log::LineLog;
use crate::log_sink::LogSink;
use crate::setting::LaneSetting;
use lmtp_text::Site;
use log::{Level, Log, log_enabled};
use std::alloc::{AllocError, Global};
use std::sync::Arc;
use std::time::Clock;

/// What the lines of all lanes have in common.
#[derive(Drop)]
pub struct LineSetting<G, C> {
    pub log: G,
    pub clock: C,
    /// The site whose mailboxes are named.
    pub site: Arc<Site>,
    /// When the server began, in microseconds since 1970.
    pub start: u64,
    /// The lines show the addresses of senders and recipients.
    pub addresses: bool,
}

impl<G: Log + Copy + Drop, C: Clock + Copy + Drop> LaneLogs for LineSetting<G, C> {
    type Log = LineLog<LogSink<G>, C>;

    ghost addresses = { λ setting. setting.addresses };

    /// It has lines where the log shows any at `info`.
    fn log(&self, alloc: Global, lane: u32) -> Result<LineLog<LogSink<G>, C>, AllocError>
        ensures lines { IfOk result (λ log. lines_in log ≡ record { lane = lane; addresses = self.now.addresses }) }
        ensures untold { IfOk result (λ log. heard_by log ≡ []) }
        ensures rules { IfOk result (λ log. rules_in log ≡ record {
          site = arc_value self.now.site;
          start = self.now.start;
          lane = lane;
          addresses = self.now.addresses;
          is_on = (rules_in log).is_on;
        }) }
        ensures on { IfOk result (λ log. IfSome (G.enables self.now.log Info (codes "lmtpd"))
            (λ on. (rules_in log).is_on ≡ on)) }
    {
        let setting = LaneSetting {
            site: Arc::try_clone(&self.site)?,
            start: self.start,
            lane,
            addresses: self.addresses,
            is_on: log_enabled!(self.log; target: "lmtpd", Level::Info),
        };
        LineLog::new(alloc, LogSink::new(self.log), self.clock, setting)
    }
}
