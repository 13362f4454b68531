//! Lines that are copied without the CRs of their ends by blocks of bytes, where none of them may be a From line.
ghost use Rattle.std.specs.Prelude.{◌≡◌, ◌+◌, ◌<◌, ◌≤◌, length, take, drop, true};
ghost use Rattle.mbox_spool.specs.Lines.{pairs, may_quote, HasLines, CopiesLines};

use crate::lines::{BLOCK, has_from_line, next_lines};

/// The least room for `copy_lines`, in bytes.
pub const LINES_ROOM: usize = BLOCK;

/// How many bytes of text `copy_lines` made, and in place of how many of the first ones of a piece.
#[derive(Clone, Copy)]
pub struct Copied {
    pub made: usize,
    pub taken: usize,
}

/// Copies from inside of a line on what is written of the piece into the room, which has 64 bytes at least, up to a
/// line that may be a From line, and leaves some bytes. Whole blocks of 64 bytes are put there, so that some bytes
/// after the text change too.
pub fn copy_lines(piece: &[u8], room: &mut [u8]) -> Copied
    requires lines { HasLines piece.now }
    requires room { 64 ≤ length room.old }
    ensures made { result.made ≤ length room.new }
    ensures copies { CopiesLines piece.now (take result.made room.new) result.taken }
    ensures some { 0 < result.taken }
{
    let nothing = Copied { made: 0, taken: 0 };
    let mut copied = copy_block(piece, room, nothing);
    while copied.taken + BLOCK + 1 < piece.len() && copied.made + BLOCK <= room.len() {
        let before = copied.taken;
        copied = copy_block(piece, room, copied);
        if copied.taken == before {
            break;
        }
    }
    copied
}

// Copies a block, or what is written of it before the first end of a line; nothing before a line that may be a From
// line.
#[inline(always)]
fn copy_block(piece: &[u8], room: &mut [u8], copied: Copied) -> Copied
    requires more { copied.taken + 65 < length piece.now }
    requires room { copied.made + 64 ≤ length room.old }
    requires plain { pairs may_quote 1 (drop copied.taken piece.now) ≡ 0 }
    requires copies { CopiesLines piece.now (take copied.made room.old) copied.taken }
    ensures size { length room.new ≡ length room.old }
    ensures made { result.made ≤ length room.new }
    ensures copies { CopiesLines piece.now (take result.made room.new) result.taken }
    ensures plain { pairs may_quote 1 (drop result.taken piece.now) ≡ 0 }
    ensures some { pairs may_quote 64 (drop copied.taken piece.now) ≡ 0 → copied.taken < result.taken }
    ensures further { copied.taken ≤ result.taken }
{
    let Copied { made, taken } = copied;
    room[made..made + BLOCK].copy_from_slice(&piece[taken..taken + BLOCK]);
    let next = next_lines(piece, taken);
    Copied {
        made: made + next.len,
        taken: taken + next.taken,
    }
}

// Whether lines are worth a copy: there is a block, and no line that begins in it may be a From line.
#[inline(always)]
pub(crate) fn has_lines(piece: &[u8]) -> bool
    ensures { result ≡ true → HasLines piece.now }
{
    piece.len() > BLOCK + 1 && !has_from_line(piece, 0)
}
