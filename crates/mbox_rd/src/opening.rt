//! A spool over a file of the file system, by its path.
ghost use Rattle.std.specs.Prelude.{◌≡◌, ◌↔◌};
ghost use Rattle.std.specs.IoError.{error_kind};

use crate::file::FileSpool;
use crate::shared_buffer::SharedBuffer;
use mbox_file::{MailboxFile, OWNER_ONLY, RangeLock, StdMailboxFile, Writeback};
use std::alloc::{AllocError, Global};
use std::fs::Files;
use std::io;
use std::io::ErrorKind;
use std::sync::Arc;
use std::time::Clock;
use thiserror::Error;

/// How many seconds of a minute the locks of other programs are waited for, where nobody says otherwise.
const USUAL_WAIT: u32 = 10;

/// Why a mailbox's file can't be used.
#[derive(Clone, Copy, Debug, PartialEq, Eq, Error)]
pub enum OpenFault {
    /// Memory is lacking, the system's or that of the buffer.
    #[error("memory")]
    Memory = 1,
    /// The file can't be made or opened, or it isn't plain.
    #[error("cannot open")]
    Open,
}

impl<R: Files + Clock + Copy + Drop> FileSpool<StdMailboxFile<R>, R>
where
    R::File: RangeLock + Writeback,
{
    ghost use Rattle.std.specs.Prelude.{IfOk, Some};
    ghost use Rattle.mbox_file.specs.StdFile.{file_mode, file_path};
    ghost use Rattle.mbox_file.specs.declared.file.TheConstants.{OWNER_ONLY};
    ghost use Rattle.mbox_rd.specs.FileSpool.{IsOpened};

    /// Opens the plain file at that path, as `at_with` does: its locks wait 10 seconds, and where it is missing it is
    /// made for its owner alone.
    pub fn at(
        rt: R,
        alloc: Global,
        path: &str,
    ) -> Result<FileSpool<StdMailboxFile<R>, R>, OpenFault>
        ensures opened { IfOk result (IsOpened (⟦<StdMailboxFile<R> as MailboxFile>⟧.state)) }
        ensures wait { IfOk result (λ spool. spool.wait ≡ USUAL_WAIT) }
        ensures path { IfOk result (λ spool. file_path spool.file ≡ path.now) }
        ensures mode { IfOk result (λ spool. file_mode spool.file ≡ Some OWNER_ONLY) }
    {
        FileSpool::at_with(rt, alloc, path, USUAL_WAIT, OWNER_ONLY)
    }

    /// Opens the plain file at that path. Where it is missing it is made with these permission bits. A lock file that
    /// was left behind is removed, nothing is written, and no lock is held. Within a minute locks wait that many
    /// seconds for other programs in all, 3,600 at most; 0 is one try each.
    pub fn at_with(
        rt: R,
        alloc: Global,
        path: &str,
        wait: u32,
        mode: u32,
    ) -> Result<FileSpool<StdMailboxFile<R>, R>, OpenFault>
        ensures opened { IfOk result (IsOpened (⟦<StdMailboxFile<R> as MailboxFile>⟧.state)) }
        ensures wait { IfOk result (λ spool. spool.wait ≡ wait) }
        ensures path { IfOk result (λ spool. file_path spool.file ≡ path.now) }
        ensures mode { IfOk result (λ spool. file_mode spool.file ≡ Some mode) }
    {
        let file = StdMailboxFile::open(rt, alloc, path, mode).map_err(fault_of)?;
        let buffer = own_buffer(alloc).map_err(|_| OpenFault::Memory)?;
        FileSpool::new(alloc, file, rt, wait, buffer).map_err(|_| OpenFault::Memory)
    }
}

// A buffer that only one spool has.
fn own_buffer(alloc: Global) -> Result<Arc<SharedBuffer>, AllocError> {
    Ok(Arc::new(alloc, SharedBuffer::new(alloc)?)?)
}

fn fault_of(error: io::Error) -> OpenFault
    ensures { (result ≡ OpenFault.Memory) ↔ (error_kind error ≡ ErrorKind.OutOfMemory) }
{
    match error.kind() {
        ErrorKind::OutOfMemory => OpenFault::Memory,
        _ => OpenFault::Open,
    }
}
