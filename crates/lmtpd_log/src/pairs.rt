//! The lines of a lane's log: what each begins with, and its pairs in their order.

use crate::naming::{Address, Escaped, Shown};
use crate::words::{cause_text, outcome_word, unknown_word};
use lmtp_talk::{Client, EndCause};
use log::kv::{Error, Source, ToValue, Value, VisitSource};
use mail_head::{MessageId, Text};
use mail_world::Outcome;
use mail_world::limits::{BOX_NAME_LIMIT, NAME_LIMIT};
use std::fmt;
use std::fmt::{Display, Formatter};
use std::time::Duration;

/// A line of a lane's log.
#[derive(Clone, Copy, Drop)]
pub enum Line {
    /// A command was refused.
    Refused(RefusedLine),
    /// A copy was answered.
    Answered(CopyLine),
    /// A conversation ended.
    Ended(EndLine),
}

impl Line {
    // What it begins with.
    pub(crate) fn message(&self) -> &'static str {
        match self {
            Line::Refused(_) => "command refused",
            Line::Answered(_) => "copy answered",
            Line::Ended(_) => "conversation ended",
        }
    }
}

impl Source for Line {
    fn visit<V: VisitSource>(&self, visitor: &mut V) -> Result<(), Error> {
        match self {
            Line::Refused(line) => line.visit(visitor),
            Line::Answered(line) => line.visit(visitor),
            Line::Ended(line) => line.visit(visitor),
        }
    }
}

/// A copy that was answered.
#[derive(Clone, Copy, Drop)]
pub struct CopyLine {
    pub id: Id,
    pub mailbox: Text<BOX_NAME_LIMIT>,
    pub outcome: Outcome,
    pub code: Text<3>,
    pub bytes: u64,
    pub seconds: Seconds,
    pub client: Text<NAME_LIMIT>,
    /// Where the message's head has one.
    pub message_id: Option<MessageId>,
    /// Where the lines show addresses.
    pub envelope: Option<Envelope>,
}

/// Who a copy is from and to.
#[derive(Clone, Copy, Drop)]
pub struct Envelope {
    pub sender: Address,
    pub recipient: Address,
}

impl CopyLine {
    // What became of it, and in which mailbox.
    fn visit_outcome<V: VisitSource>(&self, visitor: &mut V) -> Result<(), Error> {
        visitor.visit_pair("mailbox", shown(&self.mailbox).to_value())?;
        visitor.visit_pair("outcome", outcome_word(self.outcome).to_value())?;
        visitor.visit_pair("code", shown(&self.code).to_value())
    }

    // The message's id, where its head has one.
    fn visit_id<V: VisitSource>(&self, visitor: &mut V) -> Result<(), Error> {
        match &self.message_id {
            Some(id) => visitor.visit_pair("message-id", Value::Display(&Escaped(id.text()))),
            None => Ok(()),
        }
    }
}

impl Source for CopyLine {
    fn visit<V: VisitSource>(&self, visitor: &mut V) -> Result<(), Error> {
        visitor.visit_pair("id", Value::Display(&self.id))?;
        self.visit_outcome(visitor)?;
        visitor.visit_pair("bytes", self.bytes.to_value())?;
        visitor.visit_pair("seconds", Value::Display(&self.seconds))?;
        visitor.visit_pair("client", Value::Display(&Escaped(self.client.text())))?;
        self.visit_id(visitor)?;
        self.envelope.visit(visitor)
    }
}

impl Source for Envelope {
    fn visit<V: VisitSource>(&self, visitor: &mut V) -> Result<(), Error> {
        visitor.visit_pair("sender", Value::Display(&Shown(self.sender.text())))?;
        visitor.visit_pair("recipient", Value::Display(&Shown(self.recipient.text())))
    }
}

/// A command that was refused.
#[derive(Clone, Copy, Drop)]
pub struct RefusedLine {
    pub lane: u32,
    pub verb: Text<5>,
    pub code: Text<3>,
    /// Of a recipient that isn't known.
    pub reason: Option<Unknown>,
    /// The address that it named, where the lines show it.
    pub address: Option<Address>,
}

/// Why a recipient isn't known.
#[derive(Clone, Copy, PartialEq, Eq)]
pub enum Unknown {
    /// Its domain isn't served.
    Domain,
    /// No mailbox has its name.
    Mailbox,
}

impl RefusedLine {
    // Why, of a recipient that isn't known.
    fn visit_reason<V: VisitSource>(&self, visitor: &mut V) -> Result<(), Error> {
        match self.reason {
            Some(reason) => visitor.visit_pair("reason", unknown_word(reason).to_value()),
            None => Ok(()),
        }
    }
}

/// A domain that isn't served.
#[derive(Clone, Copy)]
pub(crate) struct UnservedLine<'a>(pub &'a [u8]);

impl Source for UnservedLine<'_> {
    fn visit<V: VisitSource>(&self, visitor: &mut V) -> Result<(), Error> {
        visitor.visit_pair("domain", Value::Display(&Escaped(self.0)))
    }
}

impl Source for RefusedLine {
    fn visit<V: VisitSource>(&self, visitor: &mut V) -> Result<(), Error> {
        visitor.visit_pair("lane", self.lane.to_value())?;
        visitor.visit_pair("verb", shown(&self.verb).to_value())?;
        visitor.visit_pair("code", shown(&self.code).to_value())?;
        self.visit_reason(visitor)?;
        let key = if self.verb.text() == b"RCPT".as_slice() {
            "recipient"
        } else {
            "sender"
        };
        match &self.address {
            Some(address) => visitor.visit_pair(key, Value::Display(&Shown(address.text()))),
            None => Ok(()),
        }
    }
}

/// A conversation that ended.
#[derive(Clone, Copy, Drop)]
pub struct EndLine {
    pub lane: u32,
    pub client: Client,
    pub cause: EndCause,
    /// The bytes that were read, and those that were written.
    pub read: u64,
    pub written: u64,
    pub seconds: Seconds,
}

impl Source for EndLine {
    fn visit<V: VisitSource>(&self, visitor: &mut V) -> Result<(), Error> {
        visitor.visit_pair("lane", self.lane.to_value())?;
        visitor.visit_pair("client", Value::Display(&self.client))?;
        visitor.visit_pair("cause", cause_text(self.cause).to_value())?;
        visitor.visit_pair("read", self.read.to_value())?;
        visitor.visit_pair("written", self.written.to_value())?;
        visitor.visit_pair("seconds", Value::Display(&self.seconds))
    }
}

/// A message by the server's start, the lane and its number there, as its `Received` line has the latter two.
#[derive(Clone, Copy, Drop)]
pub struct Id {
    pub start: u64,
    pub lane: u32,
    pub number: u64,
}

impl Display for Id {
    fn fmt<W: fmt::Write>(&self, f: &mut Formatter<W>) -> fmt::Result {
        write!(f, "{}-{}-{}", self.start, self.lane, self.number)
    }
}

/// A time in seconds, with three digits after the point.
#[derive(Clone, Copy, Drop)]
pub struct Seconds(pub Duration);

impl Display for Seconds {
    fn fmt<W: fmt::Write>(&self, f: &mut Formatter<W>) -> fmt::Result {
        write!(f, "{}.{:03}", self.0.as_secs(), self.0.subsec_millis())
    }
}

// The text as it is shown, empty where it is none.
fn shown<const N: usize>(text: &Text<N>) -> &str {
    str::from_utf8(text.text()).unwrap_or("")
}
