//! The lines of a mailbox's log: what each begins with, and its pairs in their order.

use log::kv::{Error, Source, ToValue, Value, VisitSource};
use mbox_spool::{InUse, SpoolFault};
use std::io;

/// A line of a mailbox's log.
#[derive(Clone, Copy, PartialEq, Eq)]
pub enum MailboxLine {
    /// A turn was missed for that reason, and the one before wasn't.
    InUse(InUse),
    /// A turn was had, and the one before was missed.
    FreeAgain,
    /// A turn broke for that reason, the first since one stored.
    Failed(SpoolFault),
    /// A turn stored, the first since one broke.
    StoresAgain,
}

impl MailboxLine {
    // Whether it ends a trouble that was told.
    pub(crate) fn is_good_news(self) -> bool {
        matches!(self, MailboxLine::FreeAgain | MailboxLine::StoresAgain)
    }

    // What it begins with.
    pub(crate) fn message(self) -> &'static str {
        match self {
            MailboxLine::InUse(_) => "mailbox in use",
            MailboxLine::FreeAgain => "mailbox free again",
            MailboxLine::Failed(_) => "mailbox failed",
            MailboxLine::StoresAgain => "mailbox stores again",
        }
    }
}

/// A line and its mailbox.
#[derive(Clone, Copy)]
pub(crate) struct Named<'a> {
    pub mailbox: &'a str,
    pub line: MailboxLine,
}

impl Source for Named<'_> {
    fn visit<V: VisitSource>(&self, visitor: &mut V) -> Result<(), Error> {
        visitor.visit_pair("mailbox", self.mailbox.to_value())?;
        match self.line {
            MailboxLine::InUse(in_use) => visit_in_use(in_use, visitor),
            MailboxLine::Failed(fault) => visit_fault(fault, visitor),
            MailboxLine::FreeAgain | MailboxLine::StoresAgain => Ok(()),
        }
    }
}

// Why a turn was missed, as the system says it where it does.
fn visit_in_use<V: VisitSource>(in_use: InUse, visitor: &mut V) -> Result<(), Error> {
    match in_use {
        InUse::System(code) => visit_error(io::Error::from_raw_os_error(code), visitor),
        InUse::Locked | InUse::Failed | InUse::NotPlain => {
            visitor.visit_pair("reason", Value::Display(&in_use))
        }
    }
}

// Why a turn broke, as the system or std says it where they do.
fn visit_fault<V: VisitSource>(fault: SpoolFault, visitor: &mut V) -> Result<(), Error> {
    match fault {
        SpoolFault::System(code) => visit_error(io::Error::from_raw_os_error(code), visitor),
        SpoolFault::Other(kind) => visit_error(io::Error::from(kind), visitor),
        SpoolFault::NoTurn => visitor.visit_pair("reason", Value::Display(&fault)),
    }
}

fn visit_error<V: VisitSource>(error: io::Error, visitor: &mut V) -> Result<(), Error> {
    visitor.visit_pair("reason", Value::Display(&error))
}
