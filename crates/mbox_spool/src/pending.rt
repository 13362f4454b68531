//! How far a piece of the message is sure to be written: CRLF becomes LF, and a From line gets one more `>`.
ghost use Rattle.std.specs.Prelude.{◌≡◌, ◌≢◌, ◌<◌, ◌≤◌, ◌+◌, [], length, true, false};
ghost use Rattle.std.specs.Option.{IfSome};
ghost use Rattle.std.specs.Str.{byte};
ghost use Rattle.mail_world.specs.Counts.{counted};
ghost use Rattle.mail_world.specs.Text.{begins};
ghost use Rattle.mbox_spool.specs.Quoted.{IsPending};
ghost use Rattle.mbox_spool.specs.Lines.{may_begin};
ghost use Rattle.mbox_spool.specs.Steps.{IsWriterRun, IsWriterStep};
ghost use Rattle.mbox_spool.specs.declared.pending.Pending.TheVariants.{Start, QuoteMarks, Word, Inside, Cr};

use memchr::memchr;

pub(crate) const FROM: &[u8] = b"From ";

// Where in a line of the message a writer stands, and what it holds back.
#[derive(Clone, Copy, Debug, PartialEq, Eq)]
pub(crate) enum Pending {
    // At a line's start.
    Start,
    // After the `>`s at a line's start, one or more. They are written at once: a From line's further `>` is the same
    // after them as before them.
    QuoteMarks,
    // That many bytes of `From ` are held back, which stand at a line's start or after its `>`s.
    Word(usize),
    // Inside a line that isn't a From line, or is one and has its `>`.
    Inside,
    // A CR is held back, which isn't written if LF follows.
    Cr,
}

// What comes of a prefix of a piece: its first `len` bytes as they are, then `extra`, in place of its first `taken`
// bytes.
#[derive(Clone, Copy)]
pub(crate) struct Step {
    pub(crate) len: usize,
    pub(crate) taken: usize,
    pub(crate) extra: &'static [u8],
    pub(crate) next: Pending,
}

impl Step {
    fn unchanged(len: usize, next: Pending) -> Step
        ensures len { result.len ≡ len }
        ensures taken { result.taken ≡ len }
        ensures extra { result.extra.now ≡ [] }
        ensures next { result.next ≡ next }
    {
        Step {
            len,
            taken: len,
            extra: b"",
            next,
        }
    }

    // How many bytes are written.
    pub(crate) fn size(&self) -> u64
        ensures { result ≡ counted (self.now.len + length self.now.extra.now) }
    {
        (self.len as u64).saturating_add(self.extra.len() as u64)
    }

    // All that it takes is written as it is.
    fn is_unchanged(&self) -> bool
        ensures { result ≡ true → (self.now.len ≡ self.now.taken) × (self.now.extra.now ≡ []) }
    {
        self.len == self.taken && self.extra.is_empty()
    }
}

// A line that is written as it is: the first `len` bytes of a piece, in place of its first `taken` bytes.
#[derive(Clone, Copy)]
pub(crate) struct Run {
    pub(crate) len: usize,
    pub(crate) taken: usize,
}

// A line whose first byte tells that it is no From line, where the piece has its LF. Most lines are such, and each
// takes one search and one append, since the LF before a line is written with it.
#[inline(always)]
pub(crate) fn plain_line(pending: Pending, piece: &[u8]) -> Option<Run>
    requires some { 0 < length piece.now }
    ensures { IfSome result (λ run. IsWriterRun pending piece.now run.len run.taken) }
{
    match pending {
        Pending::Start => line_at_start(piece),
        Pending::Inside => line_after_lf(piece),
        Pending::QuoteMarks | Pending::Word(_) | Pending::Cr => None,
    }
}

// With the LF of the line before.
#[inline(always)]
fn line_after_lf(piece: &[u8]) -> Option<Run>
    requires some { 0 < length piece.now }
    ensures { IfSome result (λ run. IsWriterRun Inside piece.now run.len run.taken) }
{
    if piece[0] != b'\n' || piece.len() == 1 {
        return None;
    }
    let run = line_at_start(&piece[1..])?;
    Some(Run {
        len: run.len + 1,
        taken: run.taken + 1,
    })
}

// Up to its LF, which is left, and without the CR before that.
#[inline(always)]
fn line_at_start(piece: &[u8]) -> Option<Run>
    requires some { 0 < length piece.now }
    ensures { IfSome result (λ run. IsWriterRun Start piece.now run.len run.taken) }
{
    if may_begin_from_line(piece[0]) {
        return None;
    }
    let at = memchr(b'\n', piece)?;
    match piece[..at].strip_suffix(b"\r") {
        Some(text) => Some(Run {
            len: text.len(),
            taken: at,
        }),
        None => Some(Run { len: at, taken: at }),
    }
}

// A From line begins with `>` or with its word.
#[inline(always)]
pub(crate) fn may_begin_from_line(first: u8) -> bool
    ensures { result ≡ may_begin first }
{
    first == b'>' || first == b'F'
}

// The longest step: a run of bytes that are written as they are, and what ends it.
pub(crate) fn long_step(pending: Pending, piece: &[u8]) -> Step
    requires some { 0 < length piece.now }
    requires pending { IsPending pending }
    ensures { IsWriterStep pending piece.now result }
{
    let mut step = short_step(pending, piece);
    while step.is_unchanged() && step.taken < piece.len() {
        let more = short_step(step.next, &piece[step.taken..]);
        step = Step {
            len: step.len + more.len,
            taken: step.taken + more.taken,
            ..more
        };
    }
    step
}

// A step within a line.
fn short_step(pending: Pending, piece: &[u8]) -> Step
    requires some { 0 < length piece.now }
    requires pending { IsPending pending }
    ensures { IsWriterStep pending piece.now result }
{
    match pending {
        Pending::Start | Pending::QuoteMarks => prefix_step(piece),
        Pending::Word(n) => word_step(n, piece),
        Pending::Inside => line_step(piece),
        Pending::Cr => cr_step(piece),
    }
}

// At a line's start or after its `>`s.
fn prefix_step(piece: &[u8]) -> Step
    requires some { 0 < length piece.now }
    ensures start { IsWriterStep Start piece.now result }
    ensures marks { IsWriterStep QuoteMarks piece.now result }
{
    if piece[0] == b'>' {
        Step::unchanged(1, Pending::QuoteMarks)
    } else {
        word_step(0, piece)
    }
}

// After n bytes of `From `.
fn word_step(n: usize, piece: &[u8]) -> Step
    requires some { 0 < length piece.now }
    requires within { n ≤ 4 }
    requires first { n ≡ 0 → begins (byte ">") piece.now ≡ false }
    ensures { IsWriterStep (Word n) piece.now result }
{
    let missing = &FROM[n..];
    if piece.starts_with(missing) {
        Step {
            len: 0,
            taken: missing.len(),
            extra: b">From ",
            next: Pending::Inside,
        }
    } else if missing.starts_with(piece) {
        Step {
            len: 0,
            taken: piece.len(),
            extra: b"",
            next: Pending::Word(n + piece.len()),
        }
    } else {
        Step {
            len: 0,
            taken: 0,
            extra: &FROM[..n],
            next: Pending::Inside,
        }
    }
}

// Inside a line: up to its end, or to the CR before it.
fn line_step(piece: &[u8]) -> Step
    requires some { 0 < length piece.now }
    ensures { IsWriterStep Inside piece.now result }
{
    match memchr(b'\n', piece) {
        Some(at) => match piece[..at].strip_suffix(b"\r") {
            Some(text) => Step {
                len: text.len(),
                taken: at,
                extra: b"",
                next: Pending::Inside,
            },
            None => Step::unchanged(at + 1, Pending::Start),
        },
        None => match piece.strip_suffix(b"\r") {
            Some(text) => Step {
                len: text.len(),
                taken: piece.len(),
                extra: b"",
                next: Pending::Cr,
            },
            None => Step::unchanged(piece.len(), Pending::Inside),
        },
    }
}

// After a CR.
fn cr_step(piece: &[u8]) -> Step
    requires some { 0 < length piece.now }
    ensures { IsWriterStep Cr piece.now result }
{
    Step {
        len: 0,
        taken: 0,
        extra: if piece[0] == b'\n' { b"" } else { b"\r" },
        next: Pending::Inside,
    }
}
