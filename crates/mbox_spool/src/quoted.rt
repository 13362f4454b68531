//! A text whose lines end with LF and whose From lines are quoted while it comes.
ghost use Rattle.std.specs.Prelude.{◌≡◌, ◌<◌, ◌≤◌, ℕ, List, [], ◌∷◌, ◌++◌, length, drop, true, IfOk, OnOk, OnErr};
ghost use Rattle.mail_world.specs.Counts.{counted};
ghost use Rattle.mail_world.specs.Records.{quoted_text};
ghost use Rattle.mail_world.specs.Text.{unix, lf};
ghost use Rattle.mbox_spool.specs.declared.pending.Pending.TheVariants.{Inside};
ghost use Rattle.mbox_spool.specs.Writing.{Counts};
ghost use Rattle.mbox_spool.specs.Quoted.{quoted_owed};
ghost use Rattle.mbox_spool.specs.Spool.{SpoolTook, SpoolFailed};
ghost use Rattle.mbox_spool.specs.Steps.{step_text};
ghost use Rattle.mbox_spool.specs.Writing.{Writes, Fails};

use crate::append::{append_all, append_each};
use crate::copying::has_lines;
use crate::lines::plain_lines;
use crate::pending::{FROM, Pending, Step, long_step, plain_line};
use crate::spool::{Spool, SpoolFault};
use std::marker::Model;

/// A text that comes in pieces. A CR is held back, or a prefix of a line's `From `, and no bytes of the text are kept.
#[derive(Clone, Copy)]
pub struct QuotedText {
    pending: Pending,
}

impl Model for QuotedText {
    ghost use Rattle.mbox_spool.specs.Quoted.{Pending, IsPending};

    ghost Value = { Pending };

    ghost view = { λ t. t.pending };

    ghost inverse = { λ p. record { pending = p } };

    ghost invariant = { λ t. IsPending t.pending };
}

impl QuotedText {
    /// At its beginning.
    pub fn new() -> QuotedText
        ensures { (text : List ℕ) → quoted_owed result text ≡ quoted_text (unix text) }
    {
        QuotedText {
            pending: Pending::Start,
        }
    }

    /// Writes what is sure of the text's bytes, with LF for CRLF and one more `>` before a From line. The piece may end
    /// anywhere.
    pub fn piece<S: Spool>(self, spool: &mut S, piece: &[u8]) -> Result<QuotedText, SpoolFault>
        ensures ok { IfOk result (λ after. Writes (S.state spool.old) (S.state spool.new)
            (λ rest. quoted_owed self (piece.now ++ rest)) (quoted_owed after)) }
        ensures err { OnErr result
            (Fails (S.state spool.old) (S.state spool.new) (λ rest. quoted_owed self (piece.now ++ rest))) }
    {
        let mut pending = self.pending;
        let mut rest = piece;
        while !rest.is_empty() {
            let taken = append_lines(pending, spool, rest);
            if taken > 0 {
                rest = &rest[taken..];
            } else if let Some(run) = plain_line(pending, rest) {
                append_all(spool, &rest[..run.len])?;
                pending = Pending::Inside;
                rest = &rest[run.taken..];
            } else {
                let step = long_step(pending, rest);
                write_step(spool, rest, &step)?;
                pending = step.next;
                rest = &rest[step.taken..];
            }
        }
        Ok(QuotedText { pending })
    }

    /// Counts what `piece` writes.
    pub fn count(self, piece: &[u8]) -> (u64, QuotedText)
        ensures { Counts result.0 (λ rest. quoted_owed self (piece.now ++ rest)) (quoted_owed result.1) }
    {
        let mut count = 0u64;
        let mut pending = self.pending;
        let mut rest = piece;
        while !rest.is_empty() {
            if let Some(lines) = plain_lines(pending, rest) {
                count = count.saturating_add(lines.len as u64);
                pending = Pending::Inside;
                rest = &rest[lines.taken..];
            } else if let Some(run) = plain_line(pending, rest) {
                count = count.saturating_add(run.len as u64);
                pending = Pending::Inside;
                rest = &rest[run.taken..];
            } else {
                let step = long_step(pending, rest);
                count = count.saturating_add(step.size());
                pending = step.next;
                rest = &rest[step.taken..];
            }
        }
        (count, QuotedText { pending })
    }

    /// Whether it stands where that one does.
    pub fn is_like(&self, other: &QuotedText) -> bool
        ensures { result ≡ true → self.now ≡ other.now }
    {
        self.pending == other.pending
    }

    /// Writes what is left of the text, with LF after a last line that has none, and an empty line.
    pub fn end<S: Spool>(self, spool: &mut S) -> Result<(), SpoolFault>
        ensures ok { OnOk result (SpoolTook (S.state spool.old) (S.state spool.new) (quoted_owed self [] ++ lf ∷ [])) }
        ensures err { OnErr result
            (SpoolFailed (S.state spool.old) (S.state spool.new) (quoted_owed self [] ++ lf ∷ [])) }
    {
        match self.pending {
            Pending::Start => append_all(spool, b"\n"),
            Pending::QuoteMarks | Pending::Inside => append_all(spool, b"\n\n"),
            Pending::Word(n) => append_each(spool, &[&FROM[..n], b"\n\n"]),
            Pending::Cr => append_all(spool, b"\r\n\n"),
        }
    }

    /// Counts what `end` writes.
    pub fn count_end(self) -> u64
        ensures { result ≡ counted (length (quoted_owed self [] ++ lf ∷ [])) }
    {
        match self.pending {
            Pending::Start => 1,
            Pending::QuoteMarks | Pending::Inside => 2,
            Pending::Word(n) => n as u64 + 2,
            Pending::Cr => 3,
        }
    }
}

// Appends lines from inside of one, if there are some, and says how many bytes of the piece they are.
fn append_lines<S: Spool>(pending: Pending, spool: &mut S, piece: &[u8]) -> usize
    ensures within { result ≤ length piece.now }
    ensures none { result ≡ 0 → S.state spool.new ≡ S.state spool.old }
    ensures inside { 0 < result → pending ≡ Inside }
    ensures some { 0 < result → Writes (S.state spool.old) (S.state spool.new)
        (λ rest. quoted_owed Inside (piece.now ++ rest)) (λ rest. quoted_owed Inside (drop result piece.now ++ rest)) }
{
    if pending == Pending::Inside && has_lines(piece) {
        spool.append_lines(piece)
    } else {
        0
    }
}

fn write_step<S: Spool>(spool: &mut S, piece: &[u8], step: &Step) -> Result<(), SpoolFault>
    requires { step.now.len ≤ length piece.now }
    ensures ok { OnOk result (SpoolTook (S.state spool.old) (S.state spool.new) (step_text step.now piece.now)) }
    ensures err { OnErr result (SpoolFailed (S.state spool.old) (S.state spool.new) (step_text step.now piece.now)) }
{
    append_all(spool, &piece[..step.len])?;
    append_all(spool, step.extra)
}
