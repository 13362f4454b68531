//! A mailbox's log in lines: one as its turns begin to be missed, one as they begin to break, and one as each of these
//! is over.

ghost use Rattle.std.specs.Prelude.{◌≡◌, ◌++◌, string_bytes};
ghost use Rattle.lmtpd_log.specs.TurnLines.{condition_after, lines_in, turn_lines, with_name};

use crate::condition::Condition;
use crate::history::{Event, History};
use crate::mailbox_line::MailboxLine;
use crate::mailbox_sink::MailboxSink;
use box_worker::{TurnEnd, TurnObserver};

/// Sees the turns at a mailbox. Of those in a row that were missed it shows the first, by the mailbox's name, and then
/// the next that was had; of those that broke the first, and then the next that stored.
#[derive(Drop)]
pub struct MailboxLog<E: MailboxSink> {
    sink: E,
    name: String,
    condition: Condition,
    history: History,
    // what was shown is what is owed for the turns that it was told
    ghost owes: { E.shown sink ≡ with_name (string_bytes name) (turn_lines history.list.turns) },
    // what it knows of the mailbox
    ghost knows: { condition ≡ condition_after history.list.turns },
}

impl<E: MailboxSink> MailboxLog<E> {
    ghost use Rattle.std.specs.Prelude.{[]};
    ghost use Rattle.lmtpd_log.specs.MailboxLogs.{name_in, owed_by, sink_in, turns_told};

    /// Of the mailbox of that name, told of no turn yet, over what has shown nothing.
    pub fn new(sink: E, name: String) -> MailboxLog<E>
        requires { E.shown sink ≡ [] }
        ensures untold { turns_told result ≡ [] }
        ensures name { name_in result ≡ string_bytes name }
    {
        MailboxLog {
            sink,
            name,
            condition: Condition::default(),
            history: History::new(),
        }
    }

    /// It has shown just what is owed for all turns that it was told.
    pub fn has_shown_what_is_owed(&self)
        ensures { E.shown (sink_in self.now) ≡ owed_by self.now }
    {}
}

impl<E: MailboxSink> TurnObserver for MailboxLog<E> {
    ghost use Rattle.std.specs.Prelude.{[], ◌∷◌, Some};
    ghost use Rattle.box_worker.specs.TurnEnds.{with_ends};
    ghost use Rattle.lmtpd_log.specs.MailboxLogs.{name_in, turns_told};

    ghost told = { λ log. Some (turns_told log) };

    /// It shows the lines that the turn owes.
    fn turn(&mut self, end: TurnEnd)
        ensures told { Some (turns_told self.new) ≡ with_ends (Some (turns_told self.old)) (end ∷ []) }
        ensures name { name_in self.new ≡ name_in self.old }
    {
        let condition = self.condition;
        let name = self.name.as_str();
        show_line(&mut self.sink, name, condition.use_line(end));
        show_line(&mut self.sink, name, condition.store_line(end));
        self.condition = condition.after(end);
        self.history.add(Event::Turn(end));
    }
}

// Shows the line, if there is one.
fn show_line<E: MailboxSink>(sink: &mut E, mailbox: &str, line: Option<MailboxLine>)
    ensures { E.shown sink.new ≡ E.shown sink.old ++ with_name mailbox.now (lines_in line) }
{
    if let Some(line) = line {
        sink.show(mailbox, line);
    }
}
