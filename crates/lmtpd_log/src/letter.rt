//! What a lane's log knows of the letter under way, where its lines show addresses.

use crate::addresses::Addresses;
use crate::pairs::Envelope;
use lmtp_text::Reading;
use mail_world::Reply;
use std::alloc::{AllocError, Global};

/// The addresses of the letter under way, where lines show any.
#[derive(Drop)]
pub(crate) struct Letter {
    addresses: Option<Addresses>,
}

impl Letter {
    ghost use Rattle.std.specs.Prelude.{◌≡◌, IfOk, option_map};
    ghost use Rattle.std.specs.Option.{option_and_then};
    ghost use Rattle.lmtp_text.specs.Readings.{line_read};
    ghost use Rattle.lmtpd_log.specs.Letters.{after_copy, after_line, first_letter, next_envelope};
    ghost use Rattle.lmtpd_log.specs.Texts.{envelope_texts, letter_of};

    /// Of no letter; with that, lines show addresses. No other call takes memory.
    pub(crate) fn new(alloc: Global, addresses: bool) -> Result<Letter, AllocError>
        ensures { IfOk result (λ l. letter_of l ≡ first_letter addresses) }
    {
        let addresses = if addresses {
            Some(Addresses::new(alloc)?)
        } else {
            None
        };
        Ok(Letter { addresses })
    }

    /// Takes note of the reply to a line.
    pub(crate) fn line(&mut self, said: Reading<'_>, reply: Reply)
        ensures { letter_of self.new
            ≡ option_map (λ l. after_line l (line_read said.entry) reply) (letter_of self.old) }
    {
        match &mut self.addresses {
            Some(addresses) => addresses.line(said, reply),
            None => {}
        }
    }

    /// Takes note of the reply for a copy: its sender and its recipient, where they are known.
    pub(crate) fn copy(&mut self) -> Option<Envelope>
        ensures letter { letter_of self.new ≡ option_map after_copy (letter_of self.old) }
        ensures envelope { option_map envelope_texts result ≡ option_and_then next_envelope (letter_of self.old) }
    {
        match &mut self.addresses {
            Some(addresses) => addresses.copy(),
            None => None,
        }
    }
}
