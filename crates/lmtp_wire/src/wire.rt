//! Command lines, taken piece by piece.

ghost use Rattle.std.specs.Prelude.{◌≡◌, ◌+◌, ◌≤◌, ℕ, List, [], ◌∷◌, ◌++◌, length, nat_lt, IfOk, IfSome};
ghost use Rattle.std.specs.Prelude.{option_map};
ghost use Rattle.mail_world.specs.Text.{cr, crlf, place_of, ends_in};
ghost use Rattle.lmtp_wire.specs.Wire.{Keeps, IsAfter, EndsIn, Takes, IsLineEnd, first_line};

use mail_world::limits::LINE_LIMIT;
use memchr::memchr;
use std::alloc::{AllocError, Global};
use std::marker::Model;

/// What the bytes of a piece came to.
#[derive(Clone, Copy, Debug, PartialEq, Eq)]
pub enum Got {
    /// The whole piece was taken, and no line has ended.
    More,
    /// A line has ended: `Wire::line` gives it.
    Line,
    /// A line has ended that has more bytes than a command line may have, its CRLF among them.
    TooLong,
}

/// How many bytes of a piece were taken, and what they came to.
#[derive(Clone, Copy, Debug, PartialEq, Eq)]
pub struct Took {
    pub used: usize,
    pub got: Got,
}

/// Where the bytes that came stand in a line.
#[derive(Clone, Copy)]
enum Stage {
    /// Before the first byte of a line: the last line is kept.
    Between,
    /// In a line of which every byte is kept.
    Within,
    /// In a line that is too long to be kept.
    Beyond { ends_in_cr: bool },
}

/// A line as it comes in. It keeps as many bytes as a command line may have and no more; those of a longer line are
/// dropped.
#[derive(Drop)]
pub struct Wire {
    kept: Vec<u8>,
    stage: Stage,
}

impl Model for Wire {
    ghost use Rattle.std.specs.Prelude.{◌≤◌, length, vec_capacity};
    ghost use Rattle.mail_world.specs.declared.limits.TheConstants.{LINE_LIMIT};
    ghost use Rattle.lmtp_wire.specs.Wire.{WireView};

    ghost Value = { WireView };

    ghost view = { λ w. record { line = w.kept.items; stage = w.stage } };

    ghost invariant = { λ w. (length w.kept.items ≤ LINE_LIMIT) × (LINE_LIMIT ≤ vec_capacity w.kept) };
}

impl Wire {
    /// A wire before its first line, with the memory that it ever takes.
    pub fn new(alloc: Global) -> Result<Wire, AllocError>
        ensures after { IfOk result (λ wire. IsAfter wire []) }
        ensures no_line { IfOk result (λ wire. wire.line ≡ []) }
    {
        Ok(Wire {
            kept: Vec::with_capacity(alloc, LINE_LIMIT)?,
            stage: Stage::Between,
        })
    }

    /// Forgets the line that goes on, and stands before a first line again. (A server uses one wire for all its
    /// conversations.)
    pub fn clear(&mut self)
        ensures after { IsAfter self.new [] }
        ensures no_line { self.new.line ≡ [] }
    {
        self.kept.clear();
        self.stage = Stage::Between;
    }

    /// Takes bytes of the piece up to and with the first CRLF that ends a line (RFC 5321, 2.3.8).
    pub fn command(&mut self, piece: &[u8]) -> Took
        ensures within { result.used ≤ length piece.now }
        ensures moves { 1 ≤ length piece.now → 1 ≤ result.used }
        ensures takes { (taken : List ℕ) → IsAfter self.old taken
            → Takes self.new (taken ++ piece.now) (length taken) (length piece.now) result }
    {
        let Some(used) = self.line_end(piece) else {
            self.keep(piece);
            return Took {
                used: piece.len(),
                got: Got::More,
            };
        };
        self.keep(&piece[..used]);
        let got = self.end_line();
        Took { used, got }
    }

    /// The last line, without its CRLF, until the next bytes are taken. Of a line that was too long there are none.
    pub fn line(&self) -> &[u8]
        ensures { result.now ≡ self.now.line }
    {
        self.kept.as_slice()
    }

    /// Whether bytes of a line were taken that hasn't ended.
    pub fn is_within_line(&self) -> bool
        ensures { (taken : List ℕ) → IsAfter self.now taken → result ≡ nat_lt 0 (length taken) }
    {
        match self.stage {
            Stage::Between => false,
            Stage::Within => !self.kept.is_empty(),
            Stage::Beyond { .. } => true,
        }
    }

    // How many bytes of the piece the line has, its CRLF among them, where it ends there.
    fn line_end(&self, piece: &[u8]) -> Option<usize>
        ensures within { IfSome result (λ used. (1 ≤ used) × (used ≤ length piece.now)) }
        ensures place { (taken : List ℕ) → IsAfter self.now taken → EndsIn taken piece.now result }
    {
        if self.ends_in_cr() && piece.starts_with(b"\n") {
            return Some(1);
        }
        let before = place_of_crlf(piece)?;
        Some(before + 2)
    }

    // Whether the last byte of the line is CR.
    fn ends_in_cr(&self) -> bool
        ensures { (taken : List ℕ) → IsAfter self.now taken → result ≡ ends_in (cr ∷ []) taken }
    {
        match self.stage {
            Stage::Between => false,
            Stage::Within => self.kept.ends_with(b"\r"),
            Stage::Beyond { ends_in_cr } => ends_in_cr,
        }
    }

    // Keeps bytes of a line that doesn't end before them, while all fit.
    fn keep(&mut self, bytes: &[u8])
        ensures { (taken : List ℕ) → Keeps self.old.stage self.old.line taken
            → Keeps self.new.stage self.new.line (taken ++ bytes.now) }
    {
        match self.stage {
            Stage::Between => {
                self.clear();
                self.append(bytes);
            }
            Stage::Within => self.append(bytes),
            Stage::Beyond { .. } => {
                if !bytes.is_empty() {
                    self.drop_bytes(bytes);
                }
            }
        }
    }

    fn append(&mut self, bytes: &[u8])
        ensures { Keeps self.new.stage self.new.line (self.old.line ++ bytes.now) }
    {
        if bytes.len() > LINE_LIMIT - self.kept.len() {
            return self.drop_bytes(bytes);
        }
        if self.kept.extend_from_slice(bytes).is_err() {
            unreachable!();
        }
        self.stage = Stage::Within;
    }

    // Keeps nothing of a line but whether these bytes at its end have CR as their last.
    fn drop_bytes(&mut self, bytes: &[u8])
        ensures { self.new ≡ record { line = []; stage = Stage.Beyond (ends_in (cr ∷ []) bytes.now) } }
    {
        self.clear();
        self.stage = Stage::Beyond {
            ends_in_cr: bytes.ends_with(b"\r"),
        };
    }

    // Answers a line that ends with its CRLF.
    fn end_line(&mut self) -> Got
        ensures { (bytes : List ℕ) → Keeps self.old.stage self.old.line bytes → 2 ≤ length bytes
            → IsLineEnd result self.new bytes }
    {
        if !matches!(self.stage, Stage::Within) {
            self.clear();
            return Got::TooLong;
        }
        self.stage = Stage::Between;
        self.kept.truncate(self.kept.len().saturating_sub(2));
        Got::Line
    }
}

/// The line that the text begins with, without its CRLF, where that is there.
pub fn first_line(text: &[u8]) -> Option<&[u8]>
    ensures { option_map (λ line. line.now) result ≡ first_line text.now }
{
    match place_of_crlf(text) {
        Some(end) => Some(&text[..end]),
        None => None,
    }
}

// How many bytes stand before the first CRLF.
fn place_of_crlf(text: &[u8]) -> Option<usize>
    ensures place { result ≡ place_of crlf text.now }
    ensures within { IfSome result (λ n. n + 2 ≤ length text.now) }
{
    let mut seen = 0;
    while let Some(n) = memchr(b'\n', &text[seen..]) {
        let lf = seen + n;
        if lf > 0 && text[lf - 1] == b'\r' {
            return Some(lf - 1);
        }
        seen = lf + 1;
    }
    None
}
