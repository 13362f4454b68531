//! What an open file is asked beyond std's calls, so that its disk works while more is written.
use std::fs::File;
use std::os::fd::AsRawFd;

/// The writeback of an open file as a trait, so that a test can stand in for it.
pub trait Writeback {
    /// Has the system begin to write these bytes of the file to its disk, and waits for nothing. It changes no answer:
    /// what isn't written then is so at the latest where the file is synced.
    fn begin_writeback(&self, at: u64, size: u64);
}

impl Writeback for File {
    fn begin_writeback(&self, at: u64, size: u64) {
        // Linux, told that they aren't read soon, begins to write those that are dirty, and lets go of no such page.
        let _ = libc::posix_fadvise(
            self.as_raw_fd(),
            at.cast_signed(),
            size.cast_signed(),
            libc::POSIX_FADV_DONTNEED,
        );
    }
}
