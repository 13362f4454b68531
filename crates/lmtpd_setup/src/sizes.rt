//! Which size a server may not have, and the line of the log that says it.

ghost use Rattle.std.specs.Prelude.{◌≡◌, ◌<◌, ◌≤◌, ◌⊎◌, ◌↔◌, IfSome, IsTrue};

use lmtpd_words::ServeWords;
use log::{Log, error};
use mail_world::limits::{BLOCK_LIMIT, CAPACITY_LIMIT, LANE_LIMIT};

/// The least that each size may be.
const LEAST: u32 = 1;

/// A size that the words name, and the most that it may be.
#[derive(Clone, Copy)]
struct NamedSize {
    word: &'static str,
    has: u32,
    most: u32,
}

/// Says in the log which of the sizes that the words name a server may not have, what it is and what it may be: the
/// first of several.
pub fn tell_of_sizes<G: Log>(words: &ServeWords<'_>, log: &G) {
    if let Some(NamedSize { word, has, most }) = first_wrong(words) {
        let least = LEAST;
        error!(log; target: "lmtpd", word:%, has, least, most; "a size is out of its limits");
    }
}

fn first_wrong(words: &ServeWords<'_>) -> Option<NamedSize>
    ensures { IfSome result (λ size. (size.has < 1) ⊎ (size.most < size.has)) }
{
    let lanes = NamedSize {
        word: "--lanes",
        has: words.lanes,
        most: LANE_LIMIT,
    };
    let blocks = NamedSize {
        word: "--blocks",
        has: words.blocks,
        most: BLOCK_LIMIT,
    };
    let capacity = NamedSize {
        word: "--capacity",
        has: words.capacity,
        most: CAPACITY_LIMIT,
    };
    if !is_within(lanes) {
        Some(lanes)
    } else if !is_within(blocks) {
        Some(blocks)
    } else if !is_within(capacity) {
        Some(capacity)
    } else {
        None
    }
}

fn is_within(size: NamedSize) -> bool
    ensures { IsTrue result ↔ ((1 ≤ size.has) × (size.has ≤ size.most)) }
{
    (LEAST..=size.most).contains(&size.has)
}
