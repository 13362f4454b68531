//! The lines of a log on standard error.

ghost use Rattle.std.specs.Prelude.{◌≡◌, Some};
ghost use Rattle.std.specs.Fmt.{◌++?◌};
ghost use Rattle.lmtpd_output.specs.Journal.{notice_in, priority_in, priority_text};

use crate::escaped::Escaped;
use log::kv::Source;
use log::span::Spans;
use log::{Level, Line, Log, Metadata, Record};
use std::fmt;
use std::fmt::{Display, Formatter};

/// The target of a record that tells good news at `error`, so that whoever is told of the trouble is told of its end too:
/// its line is as any other one, and the journal has it as a notice.
pub const GOOD_NEWS: &str = "lmtpd good news";

/// What lines name as their target.
const TARGET: &str = "lmtpd";

/// Writes each record to the standard error of a runtime, as a line of printable ASCII; with its priority before it
/// where that is the journal.
#[derive(Clone, Copy, Drop)]
pub struct ErrorLines<R> {
    rt: R,
    is_journal: bool,
}

impl<R> ErrorLines<R> {
    /// To the standard error of `rt`, which may be the journal.
    pub fn new(rt: R, is_journal: bool) -> ErrorLines<R>
        ensures over { result.rt ≡ rt }
        ensures journal { result.is_journal ≡ is_journal }
    {
        ErrorLines { rt, is_journal }
    }
}

impl<R: Eprint> Log for ErrorLines<R> {
    ghost use Rattle.std.specs.Prelude.{[], true};

    ghost enables = { λ _ _ _. Some true };

    ghost target_of = { λ _. Some [] };

    fn enabled(&self, _metadata: &Metadata<'_>) -> bool {
        true
    }

    /// A line that can't be written is dropped.
    fn log<D: Display, K: Source, S: Spans>(&self, record: &Record<'_, D, K, S>) {
        let is_good = record.target() == GOOD_NEWS;
        let target = if is_good { TARGET } else { record.target() };
        let metadata = Metadata::new(record.level(), target);
        let shown = Record::new(metadata, record.args(), record.key_values(), record.spans());
        let priority = if is_good {
            notice_in(self.is_journal)
        } else {
            priority_in(self.is_journal, record.level())
        };
        let line = Escaped(Line::new(&shown));
        let _ = self.rt.eprintln(Prioritized { priority, line });
    }

    fn flush(&self) {}

    fn target(&self) -> &str {
        ""
    }
}

/// What stands before a line of that level: in the journal its priority, and nothing elsewhere.
pub fn priority_in(is_journal: bool, level: Level) -> &'static str
    ensures { result.now ≡ priority_in is_journal level }
{
    if is_journal { priority_of(level) } else { "" }
}

// The same of a line that is a notice, whatever its level.
fn notice_in(is_journal: bool) -> &'static str
    ensures { result.now ≡ notice_in is_journal }
{
    if is_journal { "<5>" } else { "" }
}

/// How the journal is told a line's priority, of those of syslog: before the line, in angle brackets.
fn priority_of(level: Level) -> &'static str
    ensures { result.now ≡ priority_text level }
{
    match level {
        Level::Error => "<3>",
        Level::Warn => "<4>",
        Level::Info => "<6>",
        Level::Debug | Level::Trace => "<7>",
    }
}

// A line after its priority.
#[derive(Clone, Copy, Drop)]
struct Prioritized<L> {
    priority: &'static str,
    line: L,
}

impl<L: Display> Display for Prioritized<L> {
    ghost output = { λ shown. Some shown.priority.now ++? L.output shown.line };

    fn fmt<W: fmt::Write>(&self, f: &mut Formatter<W>) -> fmt::Result {
        f.write_str(self.priority)?;
        f.write(&self.line)
    }
}
