//! What a mailbox's log knows of its mailbox, and which lines a turn owes by that.

ghost use Rattle.std.specs.Prelude.{◌≡◌};
ghost use Rattle.lmtpd_log.specs.TurnLines.{after_turn, store_line, use_line};

use crate::mailbox_line::MailboxLine;
use box_worker::TurnEnd;

/// How a turn finds the mailbox, by the ends of those before it.
#[derive(Clone, Copy, Default)]
pub(crate) struct Condition {
    // the last one was missed
    is_in_use: bool,
    // one broke, and none has stored since
    has_failed: bool,
}

impl Condition {
    /// As the next turn finds it, after one that ended so.
    pub(crate) fn after(self, end: TurnEnd) -> Condition
        ensures { result ≡ after_turn self end }
    {
        Condition {
            is_in_use: matches!(end, TurnEnd::Missed(_)),
            has_failed: match end {
                TurnEnd::Missed(_) | TurnEnd::Over => self.has_failed,
                TurnEnd::Stored => false,
                TurnEnd::Broke(_) => true,
            },
        }
    }

    /// The line on the mailbox's use that a turn owes.
    pub(crate) fn use_line(self, end: TurnEnd) -> Option<MailboxLine>
        ensures { result ≡ use_line self end }
    {
        match end {
            TurnEnd::Missed(reason) => (!self.is_in_use).then_some(MailboxLine::InUse(reason)),
            TurnEnd::Over | TurnEnd::Stored | TurnEnd::Broke(_) => {
                self.is_in_use.then_some(MailboxLine::FreeAgain)
            }
        }
    }

    /// The line on what it stores that a turn owes.
    pub(crate) fn store_line(self, end: TurnEnd) -> Option<MailboxLine>
        ensures { result ≡ store_line self end }
    {
        match end {
            TurnEnd::Missed(_) | TurnEnd::Over => None,
            TurnEnd::Stored => self.has_failed.then_some(MailboxLine::StoresAgain),
            TurnEnd::Broke(reason) => (!self.has_failed).then_some(MailboxLine::Failed(reason)),
        }
    }
}
