//! The lock on the bytes of a mailbox's file that mail programs take by `fcntl`: shared to read, exclusive to write.
use os::RangeLock as Kind;
use std::fs::File;
use std::io;
use std::os::fd::AsRawFd;

/// How a file's bytes are locked: for readers beside other readers, or for one program alone.
#[derive(Clone, Copy, PartialEq, Eq)]
pub enum LockKind {
    Shared,
    Exclusive,
}

/// A lock on all bytes of an open file as a trait, so that a test can stand in for it. Programs that lock by `fcntl`
/// see it, and it sees theirs.
pub trait RangeLock {
    /// Fails at once, with `ErrorKind::WouldBlock`, where another program has some byte locked.
    fn try_lock_bytes(&self, kind: LockKind) -> io::Result<()>;

    fn unlock_bytes(&self) -> io::Result<()>;
}

impl RangeLock for File {
    fn try_lock_bytes(&self, kind: LockKind) -> io::Result<()> {
        match kind {
            LockKind::Shared => set_lock(self.as_raw_fd(), Kind::Shared),
            LockKind::Exclusive => set_lock(self.as_raw_fd(), Kind::Exclusive),
        }
    }

    fn unlock_bytes(&self) -> io::Result<()> {
        set_lock(self.as_raw_fd(), Kind::Unlock)
    }
}

// The lock is the open file's, not the process's: it stays where the process closes another open of the same file.
fn set_lock(fd: i32, kind: Kind) -> io::Result<()> {
    if os::try_lock_range(fd, kind, 0, i64::MAX as u64) < 0 {
        return Err(io::Error::from_raw_os_error(os::errno()));
    }
    Ok(())
}
