//! What the mailboxes of a worker thread share, since one of them has a turn at a time.

ghost use Rattle.std.specs.Prelude.{◌≡◌, length, map, take, vec_len, IfOk, IfErr};
ghost use Rattle.mail_post.specs.WorkerThreads.{threads_for};
ghost use Rattle.lmtpd_setup.specs.Mailboxes.{path_at};
ghost use Rattle.lmtpd_setup.specs.Shares.{path_shared};

use crate::access::{Access, path_of};
use crate::fault::Fault;
use mail_post::WORKER_THREADS;
use mbox_file::{FileLimits, ThreadFiles};
use mbox_rd::SharedBuffer;
use std::alloc::Global;
use std::fs::Files;
use std::sync::Arc;
use std::time::Clock;

/// What the mailboxes of a thread share.
#[derive(Drop)]
pub struct ThreadShare<R: Files + Clock + Drop> {
    /// Which of their files are open, and what their lock files are made of.
    pub files: Arc<ThreadFiles<R>>,
    /// Where what a turn takes waits until it is written.
    pub buffer: Arc<SharedBuffer>,
}

/// How many threads serve that many mailboxes.
pub fn threads_of(boxes: usize) -> u32
    ensures { result ≡ threads_for boxes }
{
    boxes.min(WORKER_THREADS as usize) as u32
}

/// One for each thread that serves these mailboxes, of whose files so many stay open.
pub fn share_each<R>(
    rt: R,
    alloc: Global,
    access: Access<'_>,
    names: &[&[u8]],
    limits: FileLimits,
) -> Result<Vec<ThreadShare<R>>, Fault>
where
    R: Files + Clock + Copy + Drop,
    ensures count { IfOk result (λ shares. vec_len shares ≡ threads_for (length names.now)) }
    ensures first { IfOk result (λ shares. map path_shared shares.items
        ≡ map (path_at access.entry) (take (threads_for (length names.now)) names.now)) }
    ensures err { IfErr result (λ fault. fault ≡ Fault.Memory) }
{
    let count = threads_of(names.len()) as usize;
    let mut shares = Vec::with_capacity(alloc, count)?;
    for first in &names[..count] {
        let path = path_of(alloc, access, first)?;
        shares.push_reserved(share_at(rt, alloc, path.as_str(), limits)?);
    }
    Ok(shares)
}

// What the mailboxes share of which the first is at that path.
fn share_at<R>(
    rt: R,
    alloc: Global,
    path: &str,
    limits: FileLimits,
) -> Result<ThreadShare<R>, Fault>
where
    R: Files + Clock + Copy + Drop,
    ensures first { IfOk result (λ share. path_shared share ≡ path.now) }
    ensures err { IfErr result (λ fault. fault ≡ Fault.Memory) }
{
    let files = ThreadFiles::new(rt, alloc, path, limits)?;
    let buffer = SharedBuffer::new(alloc)?;
    Ok(ThreadShare {
        files: Arc::new(alloc, files)?,
        buffer: Arc::new(alloc, buffer)?,
    })
}
