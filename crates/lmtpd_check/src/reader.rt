//! One file: it is opened where it is a plain one, locked as a reader locks it, and read to its end.

ghost use Rattle.std.specs.Prelude.{◌<◌, length};
ghost use Rattle.lmtpd_check.specs.Checked.{IsFindingOf};

use crate::checked::Finding;
use mbox_check::check_mailbox;
use mbox_locks::{LockKind, RangeLock};
use std::fs;
use std::fs::{File, Files, Metadata, OpenFile};
use std::io::ErrorKind;
use std::os::unix::fs::MetadataExt;
use std::time::{Clock, Duration};

/// How often a lock is tried for again that another program has, and how long the pause before is: a second in all.
const PAUSES: u32 = 20;

const PAUSE_MS: u64 = 50;

/// How often a file is opened in whose place another one was put meanwhile.
const LOOKS: u32 = 3;

/// What was found of a file, and whether it was read without its lock.
#[derive(Clone, Copy)]
pub struct Reading {
    pub finding: Finding,
    pub is_unlocked: bool,
}

/// Reads the file at this path, with its lock where it gets that in time. The lock goes as the file is closed.
pub fn check_file<P: Files, C: Clock>(rt: &P, clock: &C, path: &str, buffer: &mut [u8]) -> Reading
where
    P::File: RangeLock,
    requires { 0 < length buffer.old }
    ensures { IsFindingOf P.File.remaining result.finding }
{
    let Some(mut file) = open_plain(rt, path) else {
        return Reading {
            finding: Finding::Unread,
            is_unlocked: false,
        };
    };
    let is_locked = lock_shared(&file, clock);
    let finding = match check_mailbox(&mut file, buffer) {
        Ok(found) => match found.letters {
            Ok(count) => Finding::Letters(count, found.nul),
            Err(bad) => Finding::Form(bad, found.nul),
        },
        Err(_) => Finding::Unread,
    };
    Reading {
        finding,
        is_unlocked: !is_locked,
    }
}

// Opens the file at this path to be read, where it is a plain one: a FIFO that nobody writes would be waited for, a
// device may have no end, and a link leads to a file of another name. Where it isn't the one that was looked at before,
// what has its place now is looked at.
fn open_plain<P: Files>(rt: &P, path: &str) -> Option<P::File> {
    for _ in 0..LOOKS {
        let found = fs::symlink_metadata(rt, path).ok()?;
        if !found.is_file() {
            return None;
        }
        let file = File::open(rt, path).ok()?;
        if is_same(&found, &file.metadata().ok()?) {
            return Some(file);
        }
    }
    None
}

fn is_same(found: &Metadata, opened: &Metadata) -> bool {
    opened.is_file() && opened.dev() == found.dev() && opened.ino() == found.ino()
}

// Whether it gets the lock: beside other readers, and not while a program writes. A file that can't be locked at all is
// waited for no longer.
fn lock_shared<F: RangeLock, C: Clock>(file: &F, clock: &C) -> bool {
    for _ in 0..PAUSES {
        match file.try_lock_bytes(LockKind::Shared) {
            Ok(()) => return true,
            Err(error) if error.kind() == ErrorKind::WouldBlock => {
                clock.sleep(Duration::from_millis(PAUSE_MS));
            }
            Err(_) => return false,
        }
    }
    file.try_lock_bytes(LockKind::Shared).is_ok()
}
