//! Where a mailbox's log shows its lines.

ghost use Rattle.std.specs.Prelude.{◌≡◌, [], ◌∷◌, ◌++◌, List};
ghost use Rattle.lmtpd_log.specs.TurnLines.{NamedLine};

use crate::mailbox_line::MailboxLine;

/// What shows lines of mailboxes.
pub trait MailboxSink: Drop {
    // the lines that it has shown, each with the name of its mailbox
    ghost shown: { Self → List NamedLine };

    /// Shows one line of the mailbox of that name.
    fn show(&mut self, mailbox: &str, line: MailboxLine)
        ensures { shown self.new ≡ shown self.old ++ (mailbox.now, line) ∷ [] };
}
