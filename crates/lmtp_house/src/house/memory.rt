//! The memory of the messages on their way.

ghost use Rattle.std.specs.Prelude.{◌≡◌, ◌≤◌, length, IfOk};
ghost use Rattle.mail_world.specs.declared.limits.TheConstants.{BLOCK_LIMIT, SLOT_LIMIT};

use crate::house::report::Room;
use msg_depot::Blank;
use std::alloc::{AllocError, Global};

/// A depot that has no name yet, with just that room.
#[derive(Drop)]
pub struct Memory {
    pub blank: Blank,
    pub room: Room,
    ghost blocks: { length blank.depot.free ≡ room.blocks },
    ghost slots: { length blank.depot.slots ≡ room.slots },
}

impl Memory {
    /// Takes all the memory that messages will ever have.
    pub fn new(alloc: Global, room: Room) -> Result<Memory, AllocError>
        requires blocks { (1 ≤ room.blocks) × (room.blocks ≤ BLOCK_LIMIT) }
        requires slots { (1 ≤ room.slots) × (room.slots ≤ SLOT_LIMIT) }
        ensures { IfOk result (λ memory. memory.room ≡ room) }
    {
        let blank = Blank::new(alloc, room.blocks, room.slots)?;
        Ok(Memory { blank, room })
    }
}
