//! Lines that wait, and lines that are shown.

ghost use Rattle.std.specs.Prelude.{◌≡◌, ◌++◌, ◌<◌, vec_capacity, vec_len};
ghost use Rattle.lmtpd_log.specs.Rules.{lines_in, lines_of};

use crate::line_sink::LineSink;
use crate::pairs::Line;

/// Has the line wait behind the others, if there is one.
pub(crate) fn keep(waiting: &mut Vec<Line>, line: Option<Line>)
    requires room { vec_len waiting.old < vec_capacity waiting.old }
    ensures lines { lines_of waiting.new.items ≡ lines_of waiting.old.items ++ lines_in line }
    ensures capacity { vec_capacity waiting.new ≡ vec_capacity waiting.old }
{
    if let Some(line) = line {
        waiting.push_reserved(line);
    }
}

/// Shows the line, if there is one.
pub(crate) fn show_one<E: LineSink>(sink: &mut E, line: Option<Line>)
    ensures { E.shown sink.new ≡ E.shown sink.old ++ lines_in line }
{
    if let Some(line) = line {
        sink.show(line);
    }
}

/// Shows the lines in their order.
pub(crate) fn show_all<E: LineSink>(sink: &mut E, waiting: &[Line])
    ensures { E.shown sink.new ≡ E.shown sink.old ++ lines_of waiting.now }
{
    for line in waiting {
        sink.show(*line);
    }
}
