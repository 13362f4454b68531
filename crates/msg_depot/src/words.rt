//! Where the words of the slots stand in the table, and with what they begin.

ghost use Rattle.std.specs.Prelude.{◌≡◌, ◌*◌, ◌≤◌, replicate, IfOk};
ghost use Rattle.mail_world.specs.Depot.{last_generation};
ghost use Rattle.msg_depot.specs.Rules.{word_of};

use crate::view::GENERATION_UNIT;
use std::alloc::{AllocError, Global};

/// How many words a slot has, of which it uses the first: 64 bytes, so that steps on the words of two slots touch no
/// cache line in common.
pub const WORDS_PER_SLOT: usize = 8;

/// The word of a slot. The words before the first slot's are nobody's, since each seat that is split or joined loads
/// word 0.
pub(crate) fn word_at(slot: u32) -> usize
    ensures { result ≡ word_of slot }
{
    (slot as usize + 1) * WORDS_PER_SLOT
}

/// The words for slots without messages, all of one generation. Those that are no slot's begin alike, and nothing uses
/// them.
pub(crate) fn words_for(alloc: Global, slots: u32, generation: u64) -> Result<Vec<u64>, AllocError>
    requires { generation ≤ last_generation }
    ensures { IfOk result (λ words. words.items ≡ replicate (word_of slots) (generation * GENERATION_UNIT)) }
{
    Ok(vec![in alloc; generation * GENERATION_UNIT; word_at(slots)]?)
}
