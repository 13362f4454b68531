//! Lines that are looked at by blocks of bytes: nothing of them is malformed, and the last one ends.

ghost use Rattle.std.specs.Prelude.{◌≡◌, ◌+◌, ◌<◌, ◌≤◌, length, take, drop, false};
ghost use Rattle.mbox_spool.specs.Lines.{pairs};
ghost use Rattle.mail_form.specs.Forms.{is_break, IsSoundText};

use mail_world::limits::COUNTED_LINE_LIMIT;
use memchr::memrchr;
use std::simd::prelude::*;

// The bytes of a block. One after it is looked at too.
const BLOCK: usize = 64;

/// How many bytes at the front of a text that begins a line are whole lines, too few for any to be too long.
pub(crate) fn sound_lines_len(text: &[u8]) -> usize
    ensures within { result ≤ length text.now }
    ensures sound { IsSoundText (take result text.now) }
{
    let plain = plain_len(text).min(COUNTED_LINE_LIMIT);
    match memrchr(b'\n', &text[..plain]) {
        Some(at) => at + 1,
        None => 0,
    }
}

// How many bytes at the front, in whole blocks, are no NUL and no CR but before an LF.
fn plain_len(text: &[u8]) -> usize
    ensures within { result ≤ length text.now }
    ensures plain { pairs is_break result text.now ≡ 0 }
{
    let mut len = 0;
    while len + BLOCK < text.len() {
        if has_break(text, len) {
            return len;
        }
        len += BLOCK;
    }
    len
}

#[inline(always)]
fn has_break(text: &[u8], at: usize) -> bool
    requires { at + 64 < length text.now }
    ensures { result ≡ false → pairs is_break 64 (drop at text.now) ≡ 0 }
{
    let here = u8x64::from_slice(&text[at..]);
    let next = u8x64::from_slice(&text[at + 1..]);
    let lone_cr = here.simd_eq(u8x64::splat(b'\r')) & next.simd_ne(u8x64::splat(b'\n'));
    let found = here.simd_eq(u8x64::splat(0)) | lone_cr;
    found.to_bitmask() != 0
}
