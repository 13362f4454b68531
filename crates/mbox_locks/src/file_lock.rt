//! The lock on a whole file that its holders alone look at.
use std::fs::File;
use std::io;

/// The lock on an open file as a trait, so that a test can stand in for it.
pub trait FileLock {
    /// Locks the whole file until it is closed. It fails at once, with `ErrorKind::WouldBlock`, where
    /// another open of the same file has it locked.
    fn try_lock(&self) -> io::Result<()>;
}

impl FileLock for File {
    fn try_lock(&self) -> io::Result<()> {
        Ok(File::try_lock(self)?)
    }
}
