//! What a lane works with.

ghost use Rattle.std.specs.Prelude.{◌≡◌, ◌≤◌, IfOk};
ghost use Rattle.std.specs.Arc.{arc_value};
ghost use Rattle.mail_world.specs.declared.limits.TheConstants.{RECIPIENT_LIMIT};
ghost use Rattle.mail_post.specs.Gathering.{IsDone};

use lmtp_talk::{Dialogue, ReadBuffer};
use lmtp_text::Site;
use mail_post::Gather;
use mail_world::limits::RECIPIENT_LIMIT;
use std::alloc::{AllocError, Global};
use std::sync::Arc;

/// The parts of a lane, in memory that is taken once.
#[derive(Drop)]
pub struct Desk {
    pub dialogue: Dialogue,
    pub buffer: ReadBuffer,
    pub gather: Gather,
    ghost room: { RECIPIENT_LIMIT ≤ gather.limit },
    ghost none_missing: { IsDone gather.gather },
}

impl Desk {
    /// A desk at that site, before its lane's first conversation.
    pub fn new(alloc: Global, site: Arc<Site>) -> Result<Desk, AllocError>
        ensures { IfOk result (λ desk. desk.dialogue.session.site ≡ arc_value site) }
    {
        Ok(Desk {
            dialogue: Dialogue::new(alloc, site)?,
            buffer: ReadBuffer::new(alloc)?,
            gather: Gather::new(alloc, RECIPIENT_LIMIT)?,
        })
    }
}
