//! The crate `log`, where the lines of lanes and of mailboxes are shown.

ghost use Rattle.std.specs.Prelude.{◌≡◌, []};

use crate::history::{Event, History};
use crate::line_sink::LineSink;
use crate::mailbox_line::{MailboxLine, Named};
use crate::mailbox_sink::MailboxSink;
use crate::pairs::{Line, UnservedLine};
use lmtpd_output::GOOD_NEWS;
use log::{Level, Log, Metadata, Record};

/// The crate `log`: a lane's lines are at the level `info`, but for domains that aren't served; these and a mailbox's are
/// at `error`.
#[derive(Drop)]
pub struct LogSink<G: Drop> {
    log: G,
    history: History,
}

impl<G: Drop> LogSink<G> {
    ghost use Rattle.lmtpd_log.specs.Sink.{named_by, shown_by};

    /// Nothing is shown yet.
    pub fn new(log: G) -> LogSink<G>
        ensures lanes { shown_by result ≡ [] }
        ensures mailboxes { named_by result ≡ [] }
    {
        LogSink {
            log,
            history: History::new(),
        }
    }
}

impl<G: Log + Drop> LineSink for LogSink<G> {
    ghost use Rattle.lmtpd_log.specs.Sink.{shown_by};

    ghost shown = { λ sink. shown_by sink };

    fn show(&mut self, line: Line) {
        let metadata = Metadata::new(Level::Info, "lmtpd");
        self.log
            .log(&Record::new(metadata, line.message(), &line, ()));
        self.history.add(Event::Shown(line));
    }

    fn show_unserved(&mut self, domain: &[u8]) {
        let metadata = Metadata::new(Level::Error, "lmtpd");
        let line = UnservedLine(domain);
        self.log
            .log(&Record::new(metadata, "domain not served", &line, ()));
    }
}

impl<G: Log + Drop> MailboxSink for LogSink<G> {
    ghost use Rattle.lmtpd_log.specs.Sink.{named_by};

    ghost shown = { λ sink. named_by sink };

    fn show(&mut self, mailbox: &str, line: MailboxLine) {
        let target = if line.is_good_news() {
            GOOD_NEWS
        } else {
            "lmtpd"
        };
        let metadata = Metadata::new(Level::Error, target);
        let named = Named { mailbox, line };
        self.log
            .log(&Record::new(metadata, line.message(), &named, ()));
        self.history.add(Event::Named(mailbox, line));
    }
}
