//! How the bytes of a mailbox end, and what mends them.
ghost use Rattle.std.specs.Prelude.{◌≡◌, ◌≤◌, ℕ, List, [], ◌∷◌, ◌++◌, length, take, false};
ghost use Rattle.mail_world.specs.declared.limits.TheConstants.{TAIL_SIZE};
ghost use Rattle.mail_world.specs.Text.{lf, has_byte};
ghost use Rattle.mail_world.specs.Endings.{in_from_line, next, ending, ending_from, mends};
ghost use Rattle.mbox_spool.specs.Tail.{ending_of, missing_most};

use crate::from_line::{MISSING_FIRST, missing_after};
use mail_world::limits::TAIL_SIZE;
use memchr::memrchr;

/// How the bytes of a mailbox end. Only `Empty` and `TwoLf` need no mending.
#[derive(Clone, Copy, Debug, PartialEq, Eq)]
pub enum Tail {
    /// There are none.
    Empty,
    /// With `F` where a letter may begin: at the start, or after an empty line.
    F,
    /// With `Fr` there.
    Fr,
    /// With `Fro` there.
    Fro,
    /// With `From` there.
    From,
    /// Within a From line, which has room for that many bytes more, and of which that is missing, 38 bytes at most.
    InFromLine { room: usize, missing: &'static [u8] },
    /// Any other last line has no LF.
    NoLf,
    /// The last line has its LF, and no empty line stands after it.
    OneLf,
    /// The last two bytes are LFs.
    TwoLf,
}

/// More than this is missing of no From line.
const MISSING_MOST: usize = 38;

/// A From line that is filled up is among the last TAIL_SIZE bytes, with the two LFs before it. So much of it may
/// follow `From `.
const FROM_LINE_ROOM: usize = TAIL_SIZE - 7;

const TWO_LFS: &[u8] = b"\n\n";

/// How these bytes end.
pub fn tail_of(bytes: &[u8]) -> Tail
    ensures { ending_of result ≡ ending bytes.now }
{
    tail_after(Tail::Empty, bytes)
}

/// How bytes end of which these are the last TAIL_SIZE, whatever stands before them.
#[tactic(auto, using(mail_world::proofs::LastBytes::last_bytes))]
pub fn tail_of_last(last: &[u8]) -> Tail
    ensures { length last.now ≡ TAIL_SIZE → (before : List ℕ) → ending_of result ≡ ending (before ++ last.now) }
{
    tail_after(Tail::NoLf, last)
}

/// How bytes that end so end with the piece after them. It reads the piece's last line alone.
pub fn tail_after(tail: Tail, piece: &[u8]) -> Tail
    ensures { ending_of result ≡ ending_from (ending_of tail) piece.now }
{
    match memrchr(b'\n', piece) {
        None => within_line(tail, piece),
        Some(at) => within_line(after_lf(tail, &piece[..at]), &piece[at + 1..]),
    }
}

/// What mends bytes that end so, in two parts: what is missing of a From line, and LFs.
pub fn what_mends(tail: Tail) -> (&'static [u8], &'static [u8])
    ensures { mends (ending_of tail) ≡ result.0.now ++ result.1.now }
{
    match tail {
        Tail::Empty | Tail::TwoLf => (b"", b""),
        Tail::F => (b"rom MAILER-DAEMON Thu Jan  1 00:00:00 1970", TWO_LFS),
        Tail::Fr => (b"om MAILER-DAEMON Thu Jan  1 00:00:00 1970", TWO_LFS),
        Tail::Fro => (b"m MAILER-DAEMON Thu Jan  1 00:00:00 1970", TWO_LFS),
        Tail::From => (b" MAILER-DAEMON Thu Jan  1 00:00:00 1970", TWO_LFS),
        Tail::InFromLine { room: _, missing } => (first_missing(missing), TWO_LFS),
        Tail::NoLf => (b"", TWO_LFS),
        Tail::OneLf => (b"", b"\n"),
    }
}

// With an LF after the piece: it ends an empty line where an LF is before it.
fn after_lf(tail: Tail, piece: &[u8]) -> Tail
    ensures { ending_of result ≡ ending_from (ending_of tail) (piece.now ++ lf ∷ []) }
{
    if piece.is_empty() {
        next(tail, b'\n')
    } else if piece.ends_with(b"\n") {
        Tail::TwoLf
    } else {
        Tail::OneLf
    }
}

// With a piece that has no LF.
fn within_line(tail: Tail, piece: &[u8]) -> Tail
    requires { has_byte piece.now lf ≡ false }
    ensures { ending_of result ≡ ending_from (ending_of tail) piece.now }
{
    let mut tail = tail;
    let mut rest = piece;
    while let [byte, more @ ..] = rest {
        if let Tail::NoLf = tail {
            return Tail::NoLf;
        }
        tail = next(tail, *byte);
        rest = more;
    }
    tail
}

fn next(tail: Tail, byte: u8) -> Tail
    ensures { ending_of result ≡ next (ending_of tail) byte }
{
    match (tail, byte) {
        (Tail::Empty | Tail::TwoLf, b'F') => Tail::F,
        (Tail::F, b'r') => Tail::Fr,
        (Tail::Fr, b'o') => Tail::Fro,
        (Tail::Fro, b'm') => Tail::From,
        (Tail::From, b' ') => in_from_line(FROM_LINE_ROOM, MISSING_FIRST),
        (Tail::OneLf | Tail::TwoLf, b'\n') => Tail::TwoLf,
        (_, b'\n') => Tail::OneLf,
        (Tail::InFromLine { room, missing }, _) => in_from_line(
            room.saturating_sub(1),
            missing_after(first_missing(missing), byte),
        ),
        _ => Tail::NoLf,
    }
}

fn in_from_line(room: usize, missing: &'static [u8]) -> Tail
    requires { length missing.now ≤ missing_most }
    ensures { ending_of result ≡ in_from_line room missing.now }
{
    if missing.len() <= room {
        Tail::InFromLine { room, missing }
    } else {
        Tail::NoLf
    }
}

// No tail that bytes have has more.
fn first_missing(missing: &'static [u8]) -> &'static [u8]
    ensures { result.now ≡ take missing_most missing.now }
{
    if missing.len() <= MISSING_MOST {
        missing
    } else {
        &missing[..MISSING_MOST]
    }
}
