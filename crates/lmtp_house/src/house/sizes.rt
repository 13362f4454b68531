//! How large a server is made.

ghost use Rattle.std.specs.Prelude.{◌↔◌, ◌<◌, IsTrue};
ghost use Rattle.lmtp_house.specs.House.{IsSize};

use lmtp_text::Site;
use mail_world::limits::{BLOCK_LIMIT, CAPACITY_LIMIT, LANE_LIMIT, SLOT_LIMIT};

/// The sizes that are chosen when a server starts.
#[derive(Clone, Copy, PartialEq, Eq)]
pub struct Sizes {
    /// Blocks of `BLOCK_SIZE` bytes for the messages on their way, 1 to 65,536.
    pub blocks: u32,
    /// Messages on their way, 1 to 64.
    pub slots: u32,
    /// Copies that wait in a worker thread's channel, 1 to 1,024.
    pub capacity: u32,
}

/// Whether a server may be made so.
pub fn is_size(
    site: &Site,
    sizes: Sizes,
    lanes: usize,
    spools: usize,
    gates: usize,
    quotas: usize,
) -> bool
    ensures size { IsTrue result ↔ IsSize site.now sizes lanes spools gates quotas }
    ensures some { IsTrue result → 0 < spools }
{
    let boxes = site.box_count() as usize;
    (1..=BLOCK_LIMIT).contains(&sizes.blocks)
        && (1..=SLOT_LIMIT).contains(&sizes.slots)
        && (1..=CAPACITY_LIMIT).contains(&sizes.capacity)
        && (1..=LANE_LIMIT as usize).contains(&lanes)
        && spools == boxes
        && gates == boxes
        && quotas == boxes
}
