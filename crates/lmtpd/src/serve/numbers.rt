//! The sizes and the conversations that the words of a server ask for.

ghost use Rattle.std.specs.Prelude.{◌≡◌};
ghost use Rattle.lmtpd.specs.Program.{bounds_asked, connections_asked, conversations_asked, sizes_asked};

use lmtp_tcp::Bounds;
use lmtpd_serve::{Conversations, Sizes, WAIT_MS};
use lmtpd_words::ServeWords;
use slow_boxes::SlowBoxes;
use std::sync::Arc;

/// Its sizes, with a slot for each lane.
pub fn sizes_asked(words: &ServeWords<'_>) -> Sizes
    ensures { result ≡ sizes_asked words.now }
{
    Sizes {
        blocks: words.blocks,
        slots: words.lanes,
        capacity: words.capacity,
    }
}

/// The conversations that it holds until that curfew; `slow` has which mailboxes hold up their lanes.
pub fn conversations_asked<E: Drop>(
    words: &ServeWords<'_>,
    curfew: Arc<E>,
    slow: Arc<SlowBoxes>,
) -> Conversations<E>
    ensures { result ≡ conversations_asked words.now curfew slow }
{
    Conversations {
        lanes: words.lanes,
        count: connections_asked(words.connections),
        bounds: bounds_asked(words),
        curfew,
        slow,
    }
}

// How many are held in all. Where no number is named these are more than any server holds.
fn connections_asked(named: Option<u32>) -> u64
    ensures { result ≡ connections_asked named }
{
    match named {
        Some(count) => u64::from(count),
        None => u64::MAX,
    }
}

// What each of them may ask of its client, who may be silent for as many waits as its time has.
fn bounds_asked(words: &ServeWords<'_>) -> Bounds
    ensures { result ≡ bounds_asked words.now }
{
    let waits_a_second = (1_000 / WAIT_MS) as u32;
    Bounds {
        reads: u64::from(words.reads),
        waits: words.timeout.saturating_mul(waits_a_second),
        bad_commands: words.bad_commands,
    }
}
