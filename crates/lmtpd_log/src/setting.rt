//! What all lines of a lane have in common, and the lines that are made with it.

use crate::naming::{Address, address_in, target_in};
use crate::pairs::{CopyLine, EndLine, Envelope, Id, Line, RefusedLine, Seconds, Unknown};
use crate::verb::verb_of;
use crate::words::is_refusal;
use lmtp_talk::{Arrived, EndCause, Traffic};
use lmtp_text::{Reading, Site};
use mail_head::Text;
use mail_world::Reply;
use mail_writing::reply_code;
use std::sync::Arc;

/// What the lines of a lane's log depend on.
#[derive(Drop)]
pub(crate) struct LaneSetting {
    /// The site whose mailboxes are named.
    pub site: Arc<Site>,
    /// When the server began, in microseconds since 1970.
    pub start: u64,
    /// The lane's number, from 0.
    pub lane: u32,
    /// The lines show the addresses of senders and recipients.
    pub addresses: bool,
    /// There are lines at all.
    pub is_on: bool,
}

impl LaneSetting {
    ghost use Rattle.std.specs.Prelude.{◌≡◌, [], if◌then◌else◌, None, option_map};
    ghost use Rattle.lmtp_text.specs.Readings.{line_read};
    ghost use Rattle.lmtpd_log.specs.Letters.{address_in};
    ghost use Rattle.lmtpd_log.specs.Owed.{code_of, copy_lines, end_lines, refused_lines, unknown_reason};
    ghost use Rattle.lmtpd_log.specs.Words.{unknown_word};
    ghost use Rattle.lmtpd_log.specs.Rules.{lines_in, rules_of};
    ghost use Rattle.lmtpd_log.specs.Texts.{envelope_texts};
    ghost use Rattle.mail_head.specs.Texts.{text_of};

    /// The line for a reply to a command line, where it refuses one.
    pub(crate) fn refused(&self, said: Reading<'_>, reply: Reply) -> Option<Line>
        ensures { lines_in result
            ≡ (if self.now.is_on then refused_lines (rules_of self.now) (line_read said.entry) reply else []) }
    {
        if !self.is_on {
            return None;
        }
        if !is_refusal(reply) {
            return None;
        }
        let reason = self.unknown(said, reply);
        let address = self.address(said);
        Some(Line::Refused(RefusedLine {
            lane: self.lane,
            verb: Text::of(verb_of(said.line()).as_bytes()),
            code: self.code(reply),
            reason,
            address,
        }))
    }

    /// The line for the reply for a copy.
    pub(crate) fn answered(
        &self,
        arrived: Arrived,
        client: &[u8],
        reply: Reply,
        seconds: Seconds,
        envelope: Option<Envelope>,
    ) -> Option<Line>
        ensures { lines_in result ≡ (if self.now.is_on then copy_lines (rules_of self.now) arrived.number arrived.size
            (option_map (λ id. text_of id) arrived.message_id) client.now reply (option_map envelope_texts envelope)
            else []) }
    {
        if !self.is_on {
            return None;
        }
        match reply {
            Reply::Result(outcome, mailbox) => Some(Line::Answered(CopyLine {
                id: Id {
                    start: self.start,
                    lane: self.lane,
                    number: arrived.number,
                },
                mailbox: Text::of(self.site.box_name(mailbox)),
                outcome,
                code: self.code(reply),
                bytes: arrived.size,
                seconds,
                client: Text::of(client),
                message_id: arrived.message_id,
                envelope,
            })),
            _ => None,
        }
    }

    /// The line of a conversation that ended.
    pub(crate) fn ended(&self, cause: EndCause, traffic: Traffic, seconds: Seconds) -> Option<Line>
        ensures { lines_in result ≡ (if self.now.is_on then end_lines (rules_of self.now) cause traffic else []) }
    {
        if !self.is_on {
            return None;
        }
        Some(Line::Ended(EndLine {
            lane: self.lane,
            client: traffic.client,
            cause,
            read: traffic.read,
            written: traffic.written,
            seconds,
        }))
    }

    // Why the recipient isn't known for whom that is the reply.
    fn unknown(&self, said: Reading<'_>, reply: Reply) -> Option<Unknown>
        ensures { option_map unknown_word result
            ≡ unknown_reason (rules_of self.now).site (line_read said.entry) reply }
    {
        if !matches!(reply, Reply::NoSuchBox) {
            return None;
        }
        let target = target_in(said, self.site.utf8())?;
        if self.site.knows(target.domain) {
            Some(Unknown::Mailbox)
        } else {
            Some(Unknown::Domain)
        }
    }

    /// The domain that a recipient's command names where that is the reply and the site doesn't know the domain.
    pub(crate) fn unserved<'a>(&self, said: Reading<'a>, reply: Reply) -> Option<&'a [u8]> {
        if !matches!(reply, Reply::NoSuchBox) {
            return None;
        }
        let target = target_in(said, self.site.utf8())?;
        if self.site.knows(target.domain) {
            return None;
        }
        target.domain
    }

    // The address that a command line names, where lines show it.
    fn address(&self, said: Reading<'_>) -> Option<Address>
        ensures { let rules = rules_of self.now in
            option_map (λ a. text_of a) result
            ≡ (if rules.addresses then address_in rules.site.utf8 (line_read said.entry) else None) }
    {
        if !self.addresses {
            return None;
        }
        address_in(said, self.site.utf8())
    }

    // The code of a reply.
    fn code(&self, reply: Reply) -> Text<3>
        ensures { text_of result ≡ code_of (rules_of self.now).site reply }
    {
        Text::of(reply_code(reply, &self.site))
    }
}
