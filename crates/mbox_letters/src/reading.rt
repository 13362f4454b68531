//! The letters of a mailbox (RFC 4155, Appendix A), with the quoting of mboxrd.
ghost use Rattle.std.specs.Prelude.{◌≡◌, ◌↔◌, ◌≤◌, ℕ, List, ◌++◌, length, codes, true, false, Err, IfOk, IfSome};
ghost use Rattle.std.specs.Prelude.{IfNone};
ghost use Rattle.mail_world.specs.Reading as m;
ghost use Rattle.mail_world.specs.Reading.{AreLetters, written};
ghost use Rattle.mail_world.specs.Records.{is_from_line};
ghost use Rattle.mail_world.specs.Text.{lf, has_byte, begins_with};
ghost use Rattle.mbox_letters.specs.Letters.{is_boundary, is_quoted, IsLineCut, IsBodyRead, IsLetterRead};

use crate::letter::Letter;
use memchr::memchr;
use std::alloc::{AllocError, AllocFailed, Global};
use thiserror::Error;

/// Why the letters of a mailbox aren't read.
#[derive(Clone, Copy, Debug, PartialEq, Eq, Error)]
pub enum BadMailbox {
    #[error("the mailbox doesn't begin with a From line")]
    NoFromLine = 1,
    #[error("a letter has no empty line at its end")]
    NoEmptyLine = 2,
    #[error("out of memory")]
    Memory = 3,
}

impl From<AllocError> for BadMailbox {
    ghost use Rattle.mbox_letters.specs.declared.reading.BadMailbox.TheVariants.{Memory};

    ghost from_gives = { λ _ fault. fault ≡ Memory };

    fn from(_refused: AllocError) -> BadMailbox {
        BadMailbox::Memory
    }
}

impl<T: Drop> From<AllocFailed<T>> for BadMailbox {
    ghost use Rattle.mbox_letters.specs.declared.reading.BadMailbox.TheVariants.{Memory};

    ghost from_gives = { λ _ fault. fault ≡ Memory };

    fn from(_refused: AllocFailed<T>) -> BadMailbox {
        BadMailbox::Memory
    }
}

/// Reads the letters, in their order. A mailbox has one reading at most; one of no bytes has no letters. `NoFromLine`
/// comes before all else; `NoEmptyLine` where the line before the next From line or the end isn't empty, or has no LF.
pub fn read_mailbox(alloc: Global, mailbox: &[u8]) -> Result<Vec<Letter>, BadMailbox>
    ensures read { IfOk result (λ letters. AreLetters letters.items × (written letters.items ≡ mailbox.now)) }
    ensures no_from_line { (result ≡ Err BadMailbox.NoFromLine) ↔ (is_boundary mailbox.now ≡ false) }
    ensures no_empty_line { result ≡ Err BadMailbox.NoEmptyLine
        → (letters : List m.Letter) → AreLetters letters → written letters ≡ mailbox.now → ⊥ }
{
    if !is_boundary(mailbox) {
        return Err(BadMailbox::NoFromLine);
    }
    let mut letters = Vec::new(alloc);
    let mut rest = mailbox;
    while !rest.is_empty() {
        let (letter, more) = read_letter(alloc, rest)?;
        letters.push(letter)?;
        rest = more;
    }
    Ok(letters)
}

// Whether a letter may begin here, and the one before it end.
fn is_boundary(text: &[u8]) -> bool
    ensures { result ≡ is_boundary text.now }
{
    text.is_empty() || text.starts_with(b"From ")
}

// Reads the letter at the beginning, and gives what follows it.
fn read_letter(alloc: Global, text: &[u8]) -> Result<(Letter, &[u8]), BadMailbox>
    requires { begins_with (codes "From ") text.now ≡ true }
    ensures read { IfOk result (λ found. IsLetterRead text.now found.0 found.1.now) }
    ensures no_empty_line { result ≡ Err BadMailbox.NoEmptyLine
        → (letter : m.Letter) (rest : List ℕ) → IsLetterRead text.now letter rest → ⊥ }
    ensures from_line { result ≡ Err BadMailbox.NoFromLine → ⊥ }
{
    let Some((head, lines)) = cut_line(&text[5..]) else {
        return Err(BadMailbox::NoEmptyLine);
    };
    let (body, rest) = read_body(alloc, lines)?;
    let head = head.to_vec(alloc)?;
    Ok((Letter::new(head, body), rest))
}

// Reads the lines after a From line, and gives what follows the empty line after them.
fn read_body(alloc: Global, text: &[u8]) -> Result<(Vec<u8>, &[u8]), BadMailbox>
    ensures read { IfOk result (λ found. IsBodyRead text.now found.0.items found.1.now) }
    ensures no_empty_line { result ≡ Err BadMailbox.NoEmptyLine
        → (body rest : List ℕ) → IsBodyRead text.now body rest → ⊥ }
    ensures from_line { result ≡ Err BadMailbox.NoFromLine → ⊥ }
{
    let mut body = Vec::new(alloc);
    // the run's lines before the rest belong to the body and aren't copied yet
    let mut run = text;
    let mut rest = text;
    while let Some((line, more)) = cut_body_line(rest) {
        if line.is_empty() && is_boundary(more) {
            body.extend_from_slice(before(run, rest))?;
            return Ok((body, more));
        }
        if is_quoted(line) {
            body.extend_from_slice(before(run, rest))?;
            run = &rest[1..];
        }
        rest = more;
    }
    Err(BadMailbox::NoEmptyLine)
}

// What stands in the text before the rest, with which it ends.
fn before<'a>(text: &'a [u8], rest: &[u8]) -> &'a [u8]
    requires { length rest.now ≤ length text.now }
    ensures { (prefix : List ℕ) → text.now ≡ prefix ++ rest.now → result.now ≡ prefix }
{
    &text[..text.len() - rest.len()]
}

// Cuts off the line at the beginning, unless that is a From line.
fn cut_body_line(text: &[u8]) -> Option<(&[u8], &[u8])>
    ensures cut { IfSome result (λ parts. IsLineCut text.now parts.0.now parts.1.now) }
    ensures plain { IfSome result (λ _. begins_with (codes "From ") text.now ≡ false) }
    ensures none { IfNone result (begins_with (codes "From ") text.now ≡ false → has_byte text.now lf ≡ false) }
{
    if text.starts_with(b"From ") {
        None
    } else {
        cut_line(text)
    }
}

// The line at the beginning, without its LF, and what follows that LF.
fn cut_line(text: &[u8]) -> Option<(&[u8], &[u8])>
    ensures cut { IfSome result (λ parts. IsLineCut text.now parts.0.now parts.1.now) }
    ensures none { IfNone result (has_byte text.now lf ≡ false) }
{
    match memchr(b'\n', text) {
        Some(at) => Some((&text[..at], &text[at + 1..])),
        None => None,
    }
}

// Whether the line is one or more `>` and then `From `.
fn is_quoted(line: &[u8]) -> bool
    ensures { result ≡ is_quoted line.now }
{
    match line {
        [b'>', text @ ..] => is_from_line(text),
        _ => false,
    }
}

// Whether the line is zero or more `>` and then `From `.
fn is_from_line(line: &[u8]) -> bool
    ensures { result ≡ is_from_line line.now }
{
    for (i, byte) in line.iter().enumerate() {
        if *byte != b'>' {
            return line[i..].starts_with(b"From ");
        }
    }
    false
}
