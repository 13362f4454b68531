//! The file that the program's words name, which lists further mailboxes.

ghost use Rattle.std.specs.Prelude.{IfOk, MatchResult};
ghost use Rattle.lmtpd_setup.specs.Boxes.{IsFilled, IsTextOfFile, IsUnfilled, IsAllOfFile};

use crate::fault::Fault;
use crate::stop::Stop;
use lmtpd_words::{BOXES_FILE_LIMIT, SiteWords};
use std::fs::{File, Files, OpenFile};
use std::io::{ErrorKind, Read};
use std::{fs, io};
use thiserror::Error;

/// Why there is no text of a file.
#[derive(Clone, Copy, Debug, PartialEq, Eq, Error)]
enum TextFault {
    #[error("memory")]
    Memory,
    #[error("cannot read")]
    Unread,
}

impl From<io::Error> for TextFault {
    ghost use Rattle.std.specs.Prelude.{◌≡◌, ◌↔◌};
    ghost use Rattle.std.specs.IoError.{error_kind};

    fn from(refused: io::Error) -> TextFault
        ensures { (result ≡ TextFault.Memory) ↔ (error_kind refused ≡ ErrorKind.OutOfMemory) }
    {
        match refused.kind() {
            ErrorKind::OutOfMemory => TextFault::Memory,
            _ => TextFault::Unread,
        }
    }
}

/// Adds the mailboxes that the words' file lists after those of the words, where they name one. Its text is kept in
/// `room`.
pub fn fill<'a, P: Files>(
    rt: &P,
    words: &mut SiteWords<'a>,
    room: &'a mut Vec<u8>,
) -> Result<(), Stop<'a>>
    ensures { MatchResult result (λ _. IsFilled P.File.remaining words.old words.new) (IsUnfilled words.old) }
{
    let Some(path) = words.boxes_file else {
        return Ok(());
    };
    match text_at(rt, path, room) {
        Ok(text) => match words.add_listed(text) {
            Ok(()) => Ok(()),
            Err(_) => Err(Stop::Fault(Fault::Memory)),
        },
        Err(TextFault::Unread) => Err(Stop::Unread(path)),
        Err(TextFault::Memory) => Err(Stop::Fault(Fault::Memory)),
    }
}

// The text of the file at this path.
fn text_at<'a, P: Files>(rt: &P, path: &str, room: &'a mut Vec<u8>) -> Result<&'a [u8], TextFault>
    ensures { IfOk result (λ text. IsTextOfFile P.File.remaining text.now) }
{
    let file = open_plain(rt, path)?;
    whole_text(file, room)
}

// Opens the file at this path to be read, where it is a plain one: a pipe that nobody writes would be waited for, and a
// device might have no end.
fn open_plain<P: Files>(rt: &P, path: &str) -> Result<P::File, TextFault> {
    let found = fs::metadata(rt, path)?;
    if !found.is_file() {
        return Err(TextFault::Unread);
    }
    let file = File::open(rt, path)?;
    let metadata = file.metadata()?;
    if !metadata.is_file() {
        return Err(TextFault::Unread);
    }
    Ok(file)
}

// All that the file has left, where that is within the limit.
fn whole_text<'a, F: Read + Drop>(file: F, room: &'a mut Vec<u8>) -> Result<&'a [u8], TextFault>
    ensures { IfOk result (λ text. IsAllOfFile (F.remaining file) text.now) }
{
    room.clear();
    let mut file = file.take(BOXES_FILE_LIMIT as u64 + 1);
    file.read_to_end(room)?;
    if room.len() > BOXES_FILE_LIMIT {
        return Err(TextFault::Unread);
    }
    Ok(room)
}
