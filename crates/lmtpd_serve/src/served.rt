//! What a server's run came to.

ghost use Rattle.std.specs.Prelude.{◌≡◌, length};
ghost use Rattle.std.specs.Arc.{arc_value};

use lmtp_house::Tally;
use lmtp_text::Site;
use std::sync::Arc;

/// How a server's run ended.
#[derive(Clone, Copy, Debug, PartialEq, Eq)]
pub struct ServerEnding {
    /// Whether the last turn that some mailbox had broke.
    pub faulty: bool,
    /// Whether what listens broke, or the listener didn't tell where it listens.
    pub failed: bool,
    /// Whether the server's end was asked for before all conversations were held.
    pub stopped: bool,
    /// Whether a write failed; nothing was written after it.
    pub cut: bool,
}

/// A server's ending, and what became of each mailbox.
#[derive(Drop)]
pub struct Served {
    pub ending: ServerEnding,
    /// The site that was served.
    pub site: Arc<Site>,
    /// What the worker of each mailbox did, in the order of the site.
    pub tallies: Vec<Tally>,
    ghost each_box: { length tallies.items ≡ length (arc_value site).boxes },
}
