//! What a rehearsal hands to the server that it runs.

ghost use Rattle.std.specs.Prelude.{◌≡◌, length, replicate, IfOk};
ghost use Rattle.lmtpd_rehearse.specs.Mailboxes.{empty_mailbox, mailbox_room};

use box_worker::OpenGate;
use lmtp_house::{Sizes, Watched};
use lmtp_text::Site;
use lmtpd_words::DEFAULT_CAPACITY;
use mbox_spool::MemorySpool;
use std::alloc::{AllocError, Global};

/// The bytes that a mailbox of a rehearsal has room for at least.
pub const MAILBOX_ROOM: usize = 2_097_152;

/// A rehearsal has one client, and so one lane.
const LANES: u32 = 1;

/// A mailbox in memory, whose turns nobody sees.
pub type Mailbox = Watched<MemorySpool, ()>;

/// The sizes of a rehearsal's server: a slot for each lane, and the usual number of copies in a channel.
pub fn sizes(blocks: u32) -> Sizes
    ensures { result ≡ record { blocks = blocks; slots = LANES; capacity = DEFAULT_CAPACITY } }
{
    Sizes {
        blocks,
        slots: LANES,
        capacity: DEFAULT_CAPACITY,
    }
}

// The bytes that a mailbox has room for, by the limit of a message.
fn mailbox_room(limit: u32) -> usize
    ensures { result ≡ mailbox_room limit }
{
    MAILBOX_ROOM.max(2 * limit as usize)
}

/// As many empty mailboxes of the site.
pub fn empty_mailboxes(alloc: Global, site: &Site, count: u32) -> Result<Vec<Mailbox>, AllocError>
    ensures { IfOk result (λ mailboxes. mailboxes.items ≡ replicate count (empty_mailbox site.now)) }
{
    let room = mailbox_room(site.message_limit());
    let mut mailboxes = Vec::with_capacity(alloc, count as usize)?;
    for _made in 0..count {
        mailboxes.push(Watched {
            inner: MemorySpool::new(alloc, b"", room)?,
            observer: (),
        })?;
    }
    Ok(mailboxes)
}

/// That many open gates.
pub fn open_gates(alloc: Global, count: u32) -> Result<Vec<OpenGate>, AllocError>
    ensures { IfOk result (λ gates. length gates.items ≡ count) }
{
    vec![in alloc; OpenGate; count as usize]
}
