//! What a conversation is served with.

ghost use Rattle.std.specs.Prelude.{◌≡◌, ℕ, List, nat_lt, length, IfOk};
ghost use Rattle.std.specs.Arc.{arc_value};
ghost use Rattle.lmtp_wire.specs.Wire.{IsAfter};
ghost use Rattle.lmtp_talk.specs.Pause.{pause_of};

use crate::outbox::Outbox;
use crate::pause::Pause;
use lmtp_session::Session;
use lmtp_text::Site;
use lmtp_wire::{Dot, Wire};
use mail_world::State;
use std::alloc::{AllocError, Global};
use std::sync::Arc;

/// The parts that serve conversations, one after the other, in memory that is taken once.
#[derive(Drop)]
pub struct Dialogue {
    pub wire: Wire,
    pub dot: Dot,
    pub session: Session,
    pub outbox: Outbox,
    /// How many replies to bad commands were said since the last data that ended; it stays at its largest value.
    pub bad_commands: u32,
}

impl Dialogue {
    /// A dialogue at that site, before its first conversation.
    pub fn new(alloc: Global, site: Arc<Site>) -> Result<Dialogue, AllocError>
        ensures { IfOk result (λ dialogue. dialogue.session.site ≡ arc_value site) }
    {
        Ok(Dialogue {
            wire: Wire::new(alloc)?,
            dot: Dot::new(),
            session: Session::new(alloc, site)?,
            outbox: Outbox::new(alloc)?,
            bad_commands: 0,
        })
    }

    /// Where the conversation stands, which its peer is told before each read.
    pub fn pause(&self) -> Pause
        ensures { (taken : List ℕ) → IsAfter self.now.wire taken
            → result ≡ pause_of self.now.session.session.state (nat_lt 0 (length taken)) }
    {
        if self.wire.is_within_line() {
            return Pause::Within;
        }
        match self.session.state() {
            State::Fresh => Pause::Before,
            State::Greeted => Pause::Between,
            State::Sender | State::Recipients | State::Content | State::Waiting | State::Ended => {
                Pause::Within
            }
        }
    }
}
