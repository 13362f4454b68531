//! The file of a Unix socket that was made.

ghost use Rattle.std.specs.Prelude.{◌≡◌, Some, None};
ghost use Rattle.lmtpd_listen.specs.Opened.{IsListenFault, file_lock, file_mode, file_path};
ghost use Rattle.std.specs.Prelude.{IfErr, string_bytes};

use crate::fault::{ListenFault, Reason};
use crate::socket_lock::lock_at;
use mbox_locks::FileLock;
use std::fs::{Files, Metadata};
use std::os::unix::fs::{FileTypeExt, MetadataExt};
use std::time::Clock;
use std::{fs, io};

/// The file of a Unix socket, where one was made. It can't be dropped: whoever opened it removes it.
pub struct SocketFile<'a> {
    made: Option<Made<'a>>,
    // where its lock is
    lock: Option<String>,
}

/// A file that was made, and the permission bits that it had when it was looked at last.
#[derive(Clone, Copy)]
pub(crate) struct Made<'a> {
    pub path: &'a str,
    pub mark: Mark,
    pub mode: u32,
}

/// Which file it is. A file that is made after another was removed may get its number, and is younger.
#[derive(Clone, Copy, PartialEq, Eq)]
pub(crate) struct Mark {
    dev: u64,
    ino: u64,
    mtime: i64,
    mtime_nsec: i64,
}

/// Which socket's file it is.
pub(crate) fn mark_of(found: &Metadata) -> Result<Mark, ListenFault>
    ensures { IfErr result IsListenFault }
{
    if !found.file_type().is_socket() {
        return Err(ListenFault::Listen(Reason::NoSocket));
    }
    Ok(Mark {
        dev: found.dev(),
        ino: found.ino(),
        mtime: found.mtime(),
        mtime_nsec: found.mtime_nsec(),
    })
}

impl<'a> SocketFile<'a> {
    /// Where no file was made.
    pub(crate) fn none() -> SocketFile<'a>
        ensures path { file_path result ≡ None }
        ensures mode { file_mode result ≡ None }
    {
        SocketFile {
            made: None,
            lock: None,
        }
    }

    /// The file that was made, and the path of its lock.
    pub(crate) fn of(made: Made<'a>, lock: String) -> SocketFile<'a>
        ensures path { file_path result ≡ Some made.entry.path.now }
        ensures mode { file_mode result ≡ Some made.entry.mode }
        ensures lock { file_lock result ≡ Some (string_bytes lock) }
    {
        SocketFile {
            made: Some(made),
            lock: Some(lock),
        }
    }

    /// Removes the file, where it is still the one that was made. What can't be looked at or removed stays: a server
    /// that starts there later replaces it.
    pub fn remove<R: Files + Clock>(self, rt: &R)
    where
        R::File: FileLock,
    {
        let SocketFile { made, lock } = self;
        let (Some(made), Some(lock)) = (made, lock) else {
            return;
        };
        if let Ok(_lock) = lock_at(rt, lock.as_str()) {
            let _ = remove_made(rt, made.path, made.mark);
        }
    }
}

/// Removes the file at that path where it is that one, by whoever has its lock.
pub(crate) fn remove_made<R: Files>(rt: &R, path: &str, mark: Mark) -> io::Result<()> {
    match mark_of(&fs::symlink_metadata(rt, path)?) {
        Ok(found) if found == mark => fs::remove_file(rt, path),
        _ => Ok(()),
    }
}
