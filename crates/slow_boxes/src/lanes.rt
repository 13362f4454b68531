//! Lanes as the bits of a word.

ghost use Rattle.std.specs.Prelude.{◌≡◌, ◌/◌, ◌<◌, ◌^◌, max};

/// How many lanes slow mailboxes may have of that many: half of them, and one at least.
pub(crate) fn share_of(lanes: u32) -> u32
    ensures { result ≡ max 1 (lanes / 2) }
{
    (lanes / 2).max(1)
}

/// The bit of the lane of that number; a lane above those that a server may have has none.
pub(crate) fn bit_of(lane: u32) -> u64
    ensures { lane < 64 → result ≡ 2 ^ lane }
{
    if lane < u64::BITS { 1 << lane } else { 0 }
}
