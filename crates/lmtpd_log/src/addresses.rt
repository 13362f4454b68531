//! The addresses of the letter under way, in memory that is taken once.

ghost use Rattle.std.specs.Prelude.{◌≤◌};
ghost use Rattle.std.specs.VecDeque.{deque_capacity};
ghost use Rattle.mail_world.specs.declared.limits.TheConstants.{RECIPIENT_LIMIT};

use crate::naming::{Address, named_by};
use crate::pairs::Envelope;
use lmtp_text::Reading;
use mail_head::Text;
use mail_world::Reply;
use mail_world::limits::RECIPIENT_LIMIT;
use std::alloc::{AllocError, Global};
use std::collections::VecDeque;

/// Who the letter under way is from and to.
#[derive(Drop)]
pub(crate) struct Addresses {
    sender: Address,
    // those of whose copies the log wasn't told yet
    recipients: VecDeque<Address>,
    ghost recipient_room: { RECIPIENT_LIMIT ≤ deque_capacity recipients },
}

impl Addresses {
    ghost use Rattle.std.specs.Prelude.{◌≡◌, [], IfOk, option_map};
    ghost use Rattle.lmtp_text.specs.Readings.{line_read};
    ghost use Rattle.lmtpd_log.specs.Letters.{after_copy, after_line, next_envelope, no_letter, with_recipient};
    ghost use Rattle.lmtpd_log.specs.Texts.{envelope_texts, logged_letter};
    ghost use Rattle.mail_head.specs.Texts.{text_of};

    /// Of no letter. No other call takes memory.
    pub(crate) fn new(alloc: Global) -> Result<Addresses, AllocError>
        ensures { IfOk result (λ a. logged_letter a ≡ no_letter) }
    {
        Ok(Addresses {
            sender: Text::empty(),
            recipients: VecDeque::with_capacity(alloc, RECIPIENT_LIMIT)?,
        })
    }

    /// Takes note of the reply to a line.
    pub(crate) fn line(&mut self, said: Reading<'_>, reply: Reply)
        ensures { logged_letter self.new ≡ after_line (logged_letter self.old) (line_read said.entry) reply }
    {
        match reply {
            Reply::SenderOk => self.begin(named_by(said)),
            Reply::RecipientOk => self.add(named_by(said)),
            _ => {}
        }
    }

    // Begins a letter.
    fn begin(&mut self, sender: Address)
        ensures { logged_letter self.new ≡ record { sender = text_of sender; recipients = [] } }
    {
        self.sender = sender;
        self.recipients.clear();
    }

    // One more recipient, as many as a message may have.
    fn add(&mut self, recipient: Address)
        ensures { logged_letter self.new ≡ with_recipient (logged_letter self.old) (text_of recipient) }
    {
        if self.recipients.len() < RECIPIENT_LIMIT {
            self.recipients.push_back_reserved(recipient);
        }
    }

    /// Takes note of the reply for a copy: its sender and its recipient, where one is known.
    pub(crate) fn copy(&mut self) -> Option<Envelope>
        ensures letter { logged_letter self.new ≡ after_copy (logged_letter self.old) }
        ensures envelope { option_map envelope_texts result ≡ next_envelope (logged_letter self.old) }
    {
        let recipient = self.recipients.pop_front()?;
        Some(Envelope {
            sender: self.sender,
            recipient,
        })
    }
}
