//! The lock on a socket's file, on a file of its own beside it, which stays: who has it looks at the socket's file,
//! removes and makes it, and nobody else does. A lock on their folder would be anybody's who may read that.

ghost use Rattle.std.specs.Prelude.{◌≡◌, IfErr, IfOk, string_bytes};
ghost use Rattle.lmtpd_listen.specs.Opened.{IsListenFault, lock_path};

use crate::fault::{ListenFault, Reason};
use mbox_locks::FileLock;
use std::alloc::{AllocError, Global};
use std::fs::{Files, Metadata, OpenFile, OpenOptions, Permissions};
use std::io::ErrorKind;
use std::os::unix::fs::{MetadataExt, OpenOptionsExt, PermissionsExt};
use std::time::{Clock, Duration};
use std::{fs, io};

/// How often the lock is tried, and the milliseconds after each time: it is held for a few calls of the system, and
/// whoever has it for longer isn't waited for.
const TRIES: u32 = 20;

const PAUSE_MS: u64 = 50;

/// Its owner alone may open it, and so hold the lock.
const LOCK_MODE: u32 = 0o600;

/// The bits of a file's mode that say who may do what with it.
const ALL_MODE_BITS: u32 = 0o7777;

/// Where the lock of the socket at that path is.
pub(crate) fn lock_path(alloc: Global, path: &str) -> Result<String, AllocError>
    ensures { IfOk result (λ lock. string_bytes lock ≡ lock_path path.now) }
{
    format!(in alloc; "{path}.lock")
}

/// Opens the lock at that path, which is made where there is none, and locks it until it is dropped.
pub(crate) fn lock_at<R: Files + Clock>(rt: &R, path: &str) -> Result<R::File, ListenFault>
where
    R::File: FileLock,
    ensures { IfErr result IsListenFault }
{
    let file = open_lock(rt, path)?;
    wait_for(rt, &file)?;
    let is_it = is_own(&file.metadata()?) && names_it(rt, path, &file)?;
    if !is_it {
        return Err(ListenFault::Listen(Reason::NotOwn));
    }
    Ok(file)
}

// Locks the file, for which is waited for a second.
fn wait_for<R: Clock, F: FileLock>(rt: &R, file: &F) -> Result<(), ListenFault>
    ensures { IfErr result IsListenFault }
{
    for _ in 0..TRIES {
        match file.try_lock() {
            Ok(()) => return Ok(()),
            Err(error) if error.kind() == ErrorKind::WouldBlock => {
                rt.sleep(Duration::from_millis(PAUSE_MS));
            }
            Err(error) => return Err(error.into()),
        }
    }
    Err(ListenFault::Listen(Reason::Locked))
}

// Makes the file, or opens the one that is there.
fn open_lock<R: Files>(rt: &R, path: &str) -> Result<R::File, ListenFault>
    ensures { IfErr result IsListenFault }
{
    match make_lock(rt, path) {
        Ok(made) => Ok(made),
        Err(error) if error.kind() == ErrorKind::AlreadyExists => open_made(rt, path),
        Err(error) => Err(error.into()),
    }
}

// Nothing that is there is opened, nor what a link leads to. The umask may have taken its owner's bits away.
fn make_lock<R: Files>(rt: &R, path: &str) -> io::Result<R::File> {
    let made = OpenOptions::new()
        .write(true)
        .create_new(true)
        .mode(LOCK_MODE)
        .open(rt, path)?;
    made.set_permissions(Permissions::from_mode(LOCK_MODE))?;
    Ok(made)
}

// It is looked at before it is opened: a FIFO is never waited for, and no device is touched.
fn open_made<R: Files>(rt: &R, path: &str) -> Result<R::File, ListenFault>
    ensures { IfErr result IsListenFault }
{
    if !is_own(&fs::symlink_metadata(rt, path)?) {
        return Err(ListenFault::Listen(Reason::NotOwn));
    }
    Ok(OpenOptions::new().write(true).open(rt, path)?)
}

// A plain file with one name, of the server's user, that nobody else may open.
fn is_own(found: &Metadata) -> bool {
    found.is_file()
        && found.nlink() == 1
        && found.uid() == libc::geteuid()
        && found.mode() & ALL_MODE_BITS & !LOCK_MODE == 0
}

// Whether the path names this file.
fn names_it<R: Files>(rt: &R, path: &str, file: &R::File) -> Result<bool, ListenFault>
    ensures { IfErr result IsListenFault }
{
    let open = file.metadata()?;
    let named = fs::symlink_metadata(rt, path)?;
    Ok((open.dev(), open.ino()) == (named.dev(), named.ino()))
}
