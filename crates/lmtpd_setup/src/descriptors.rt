//! How many files stay open, by how many descriptors the process may have.

ghost use Rattle.std.specs.Prelude.{◌≡◌, ◌+◌, ◌*◌, ◌≤◌, ◌<◌, ℕ, length};
ghost use Rattle.mail_post.specs.declared.kinds.TheConstants.{WORKER_THREADS};
ghost use Rattle.lmtpd_setup.specs.Descriptors.{limits_within, needed_for, part_of};

use crate::shares::threads_of;
use libc::RLIMIT_NOFILE;
use libc::types::rlimit;
use lmtpd_words::ServeWords;
use log::{Log, error};
use mail_post::WORKER_THREADS;
use mbox_file::{FileLimits, OPEN_FILES};

/// The server's own but for its lanes: the standard streams and what holds their places, what listens, and what is open
/// for a moment, as the folder while it is synced.
pub const OWN_DESCRIPTORS: u64 = 16;

/// What a thread has in a turn at most: the mailbox's file and its lock file.
pub const OF_A_TURN: u64 = 2;

/// How many files a thread's mailboxes may have open, where the process may have so many descriptors. Where these don't
/// suffice for a turn of each thread at once the log says so, and how many would.
pub fn limits_told<G: Log>(words: &ServeWords<'_>, log: &G) -> FileLimits
    ensures { (limit : ℕ) × (result ≡ limits_within limit words.now.lanes (length words.now.site.boxes.items)) }
{
    let boxes = words.site.boxes.len();
    let limit = descriptor_limit();
    let needed = needed_for(words.lanes, threads_of(boxes));
    if limit < needed {
        error!(log; target: "lmtpd", needed, limit; "too few descriptors");
    }
    limits_within(limit, words.lanes, boxes)
}

// How many descriptors the process may have; where nobody knows none.
fn descriptor_limit() -> u64 {
    let mut limit = rlimit {
        rlim_cur: 0,
        rlim_max: 0,
    };
    let _ = libc::getrlimit(RLIMIT_NOFILE, &mut limit);
    limit.rlim_cur
}

// How many a server needs so that each thread has a turn at once: for each one more, of which lock files are linked.
fn needed_for(lanes: u32, threads: u32) -> u64
    ensures { result ≡ needed_for lanes threads }
{
    OWN_DESCRIPTORS + u64::from(lanes) + (OF_A_TURN + 1) * u64::from(threads)
}

// How many files a thread's mailboxes may have open, where the process may have so many descriptors.
fn limits_within(limit: u64, lanes: u32, boxes: usize) -> FileLimits
    ensures { result ≡ limits_within limit lanes boxes }
{
    let threads = threads_of(boxes);
    match limit.checked_sub(needed_for(lanes, threads)) {
        None => FileLimits {
            open_files: 0,
            has_source: false,
        },
        Some(_) if boxes <= WORKER_THREADS as usize => FileLimits {
            open_files: 1,
            has_source: true,
        },
        Some(spare) => FileLimits {
            open_files: part_of(spare, threads),
            has_source: true,
        },
    }
}

// What each thread keeps open of so many.
fn part_of(spare: u64, threads: u32) -> usize
    ensures { result ≡ part_of spare threads }
{
    (spare / u64::from(threads).max(1)).min(OPEN_FILES as u64) as usize
}
