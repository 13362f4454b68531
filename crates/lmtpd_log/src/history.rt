//! What a log was told and what was shown, in proofs alone: a value of no bytes lists it.
ghost use Rattle.std.specs.Prelude.{◌≡◌};
ghost use Rattle.std.specs.Borrow.{ftrue};
ghost use Rattle.lmtpd_log.specs.History.{LogHistory};

use crate::mailbox_line::MailboxLine;
use crate::pairs::Line;
use box_worker::TurnEnd;
use lmtp_talk::{Arrived, EndCause, Traffic};
use lmtp_text::Reading;
use mail_world::Reply;
use std::marker::{Brand, Model, PhantomData};

/// What the log of a lane or of a mailbox is told, or shows.
#[derive(Clone, Copy)]
pub(crate) enum Event<'a> {
    Line(Reading<'a>, Reply),
    Copy(Arrived, &'a [u8], Reply),
    End(EndCause, Traffic),
    Shown(Line),
    Turn(TurnEnd),
    Named(&'a str, MailboxLine),
}

// What is listed. A caller that passes `Brand` picks it.
trait Listed {
    ghost list: { LogHistory };
}

impl Listed for Brand {
    ghost use Rattle.lmtpd_log.specs.History.{no_history};

    ghost list = { no_history };
}

/// Nothing ties it to what the log does: each event and its entry here stand side by side.
#[derive(Drop)]
pub(crate) struct History {
    marker: PhantomData<()>,
    pub ghost list: { LogHistory },
}

impl Model for History {
    ghost also_owns = { λ _. ftrue };
}

// It owns nothing.
unsafe impl Send for History {}

impl History {
    ghost use Rattle.lmtpd_log.specs.Events.{after};
    ghost use Rattle.lmtpd_log.specs.History.{no_history};

    /// Nothing yet.
    pub fn new() -> History
        ensures { result.list ≡ no_history }
    {
        History::listing::<Brand>()
    }

    /// One event more.
    pub fn add(&mut self, event: Event<'_>)
        ensures { self.new.list ≡ after self.old.list event.entry }
    {
        let next = History::then::<Brand>(self, event);
        *self = next;
    }

    // What is picked may speak of what was listed before, and of an event.
    fn then<L: Listed>(_old: &History, _event: Event<'_>) -> History
        ensures { result.list ≡ L.list }
    {
        History::listing::<L>()
    }

    // Only who picks what is listed says what that is. Its proof is written by hand.
    fn listing<L: Listed>() -> History
        ensures { result.list ≡ L.list }
    {
        History {
            marker: PhantomData,
        }
    }
}
