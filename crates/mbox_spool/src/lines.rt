//! Lines that are taken by blocks of bytes, where none of them may be a From line.
ghost use Rattle.std.specs.Prelude.{◌≡◌, ◌+◌, ◌<◌, ◌≤◌, length, take, drop, false};
ghost use Rattle.std.specs.Option.{IfSome};
ghost use Rattle.std.specs.Int.{w64, trailing_zeros};
ghost use Rattle.mbox_spool.specs.Lines.{pairs, ends_line, may_quote, IsFirstEnd, IsWriterLines, CopiesLines};
ghost use Rattle.mbox_spool.specs.declared.pending.Pending.TheVariants.{Inside};

use crate::pending::{Pending, may_begin_from_line};
use std::simd::prelude::*;

// The bytes of a block. Those of one from its second on are looked at, and two after it.
pub(crate) const BLOCK: usize = 64;

// How many bytes are written in place of the first `taken` ones of a piece.
#[derive(Clone, Copy)]
pub(crate) struct Lines {
    pub(crate) len: usize,
    pub(crate) taken: usize,
}

// What stands inside of lines, up to the first that may be a From line.
#[inline(always)]
pub(crate) fn plain_lines(pending: Pending, piece: &[u8]) -> Option<Lines>
    ensures written { IfSome result (λ lines. IsWriterLines pending piece.now lines.len lines.taken) }
    ensures some { IfSome result (λ lines. 0 < lines.taken) }
{
    match pending {
        Pending::Inside => lines_inside(piece),
        Pending::Start | Pending::QuoteMarks | Pending::Word(_) | Pending::Cr => None,
    }
}

#[inline(always)]
fn lines_inside(piece: &[u8]) -> Option<Lines>
    ensures written { IfSome result (λ lines. IsWriterLines Inside piece.now lines.len lines.taken) }
    ensures some { IfSome result (λ lines. 0 < lines.taken) }
{
    if piece.len() <= BLOCK + 1 || piece[0] == b'\n' && may_begin_from_line(piece[1]) {
        return None;
    }
    let lines = blocks(piece);
    if lines.taken == 0 {
        return None;
    }
    Some(lines)
}

// Up to a line that may be a From line, or less than a block and what is looked at after it.
fn blocks(piece: &[u8]) -> Lines
    requires some { 0 < length piece.now }
    requires plain { pairs may_quote 1 piece.now ≡ 0 }
    ensures { IsWriterLines Inside piece.now result.len result.taken }
{
    let mut len = 0;
    let mut taken = 0;
    while taken + BLOCK + 1 < piece.len() {
        let next = next_lines(piece, taken);
        if next.taken == 0 {
            break;
        }
        len += next.len;
        taken += next.taken;
    }
    Lines { len, taken }
}

// The bytes from that one on that are written as they are: a block, or what it has up to the first end of a line after
// its first byte, whose CR isn't written. The LF is left, and what stands before it too where its line may be a From
// line.
#[inline(always)]
pub(crate) fn next_lines(piece: &[u8], at: usize) -> Lines
    requires more { at + 65 < length piece.now }
    requires plain { pairs may_quote 1 (drop at piece.now) ≡ 0 }
    ensures written { CopiesLines (drop at piece.now) (take result.len (drop at piece.now)) result.taken }
    ensures plain { pairs may_quote 1 (drop (at + result.taken) piece.now) ≡ 0 }
    ensures some { pairs may_quote 64 (drop at piece.now) ≡ 0 → 0 < result.taken }
    ensures shorter { result.len ≤ result.taken }
    ensures block { result.taken ≤ 64 }
{
    let ends = line_ends(piece, at);
    if ends == 0 {
        return Lines {
            len: BLOCK,
            taken: BLOCK,
        };
    }
    let first = ends.trailing_zeros() as usize;
    let next = at + first;
    if may_begin_from_line(piece[next + 2]) {
        return Lines {
            len: first,
            taken: first,
        };
    }
    let taken = first + 1;
    if piece[next] == b'\r' {
        return Lines { len: first, taken };
    }
    Lines { len: taken, taken }
}

// The LFs after a byte of the block, as bits.
#[inline(always)]
fn line_ends(piece: &[u8], at: usize) -> u64
    requires { at + 64 < length piece.now }
    ensures none { result ≡ 0 → pairs ends_line 64 (drop at piece.now) ≡ 0 }
    ensures first { 0 < result → IsFirstEnd (drop at piece.now) (trailing_zeros w64 result) }
{
    let next = u8x64::from_slice(&piece[at + 1..]);
    next.simd_eq(u8x64::splat(b'\n')).to_bitmask()
}

// Whether a line that may be a From line begins after an LF of the block.
#[inline(always)]
pub(crate) fn has_from_line(piece: &[u8], at: usize) -> bool
    requires { at + 64 < length piece.now }
    ensures { result ≡ false → pairs may_quote 64 (drop at piece.now) ≡ 0 }
{
    let here = u8x64::from_slice(&piece[at..]);
    let next = u8x64::from_slice(&piece[at + 1..]);
    let first = next.simd_eq(u8x64::splat(b'>')) | next.simd_eq(u8x64::splat(b'F'));
    let found = here.simd_eq(u8x64::splat(b'\n')) & first;
    found.to_bitmask() != 0
}
