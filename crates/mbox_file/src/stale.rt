//! Lock files that nobody has: their process is gone, or they are older than any turn.
use crate::plain::node_of;
use mbox_locks::{age_at, holder_of, is_left_behind, is_opened, since_boot};
use std::fs::{Files, Metadata, OpenFile, OpenOptions};
use std::io;
use std::io::Read;
use std::os::unix::fs::MetadataExt;
use std::time::{Clock, Duration};

/// Room for the text of a lock file; one that fills it names nobody.
const TEXT_SIZE: usize = 320;

/// How long opening and reading a lock file may take, in seconds.
const SLOW_SECONDS: u64 = 1;

/// For how many seconds after one that took longer no lock file of another user is looked at.
const CAUTION_SECONDS: u64 = 600;

/// Until when lock files of other users aren't looked at: the owner of a file may have its opening wait.
#[derive(Clone, Copy)]
pub(crate) struct Caution {
    // in seconds of the clock that never goes back; 0: they are looked at
    until: u32,
}

impl Caution {
    /// They are looked at.
    pub fn none() -> Caution {
        Caution { until: 0 }
    }

    // A clock that tells no time ends nothing.
    fn is_on<R: Clock>(&self, rt: &R) -> bool {
        match (self.until, rt.monotonic()) {
            (0, _) => false,
            (until, Ok(now)) => now.as_secs() < u64::from(until),
            (_, Err(_)) => true,
        }
    }

    // After a lock file that was opened and read between these two times.
    fn note(&mut self, began: io::Result<Duration>, ended: io::Result<Duration>) {
        if let (Ok(began), Ok(ended)) = (began, ended) {
            if ended.saturating_sub(began) > Duration::from_secs(SLOW_SECONDS) {
                let until = ended.as_secs().saturating_add(CAUTION_SECONDS);
                self.until = u32::try_from(until).unwrap_or(u32::MAX);
            }
        }
    }
}

/// Whether the lock file that was found at this path is left behind, where the one who asks, of that text, has none.
/// With caution another user's isn't.
pub(crate) fn is_stale<R: Files + Clock>(
    rt: &R,
    lock_path: &str,
    found: &Metadata,
    owner: &str,
    caution: &mut Caution,
) -> bool {
    let is_own_user = found.uid() == libc::geteuid();
    let age = age_of(rt, found);
    let mut bytes = [0; TEXT_SIZE];
    let mut n = 0;
    if is_opened(is_own_user, age) && (is_own_user || !caution.is_on(rt)) {
        let began = rt.monotonic();
        n = read_text(rt, lock_path, found, &mut bytes);
        caution.note(began, rt.monotonic());
    }
    if !is_own_user && caution.is_on(rt) {
        return false;
    }
    let text = if n < TEXT_SIZE { &bytes[..n] } else { &[] };
    let holder = holder_of(str::from_utf8(text).unwrap_or(""), owner, is_own_user);
    is_left_behind(holder, age, since_boot())
}

// How many bytes were read of the lock file, as far as there is room. What is no plain file isn't opened, since that
// could wait.
fn read_text<R: Files>(rt: &R, lock_path: &str, found: &Metadata, bytes: &mut [u8]) -> usize {
    if !found.is_file() {
        return 0;
    }
    match read_found(rt, lock_path, found, bytes) {
        Ok(n) => n,
        Err(_) => 0,
    }
}

// A FIFO that was put there meanwhile is opened at once for reading and writing; for reading alone it would wait for
// somebody who writes.
fn read_found<R: Files>(
    rt: &R,
    lock_path: &str,
    found: &Metadata,
    bytes: &mut [u8],
) -> io::Result<usize> {
    let mut file = OpenOptions::new()
        .read(true)
        .write(true)
        .open(rt, lock_path)?;
    let metadata = file.metadata()?;
    // a number that a file had may be a FIFO's by now
    if !metadata.is_file() || node_of(&metadata) != node_of(found) {
        return Ok(0);
    }
    file.read(bytes)
}

// How many seconds ago the lock file was written or touched; 0 where that isn't known.
fn age_of<R: Clock>(rt: &R, found: &Metadata) -> u64 {
    let Ok(now) = rt.since_1970() else {
        return 0;
    };
    let modified = u64::try_from(found.mtime()).unwrap_or(0);
    let changed = u64::try_from(found.ctime()).unwrap_or(0);
    age_at(now.as_secs(), modified, changed)
}
