//! A mailbox's file that is copied to a path.
ghost use Rattle.std.specs.Prelude.{◌<◌, OnOk, length};
ghost use Rattle.lmtpd_copy.specs.Copied.{HasCopiedFile};

use crate::copying::copy_mailbox;
use crate::fault::CopyFault;
use crate::target::CopyTarget;
use crate::target_file::TargetFile;
use mbox_rd::{MailboxFile, MailboxSource, RangeLock, StdMailboxFile, Writeback};
use std::alloc::Global;
use std::fs::Files;
use std::io;
use std::io::ErrorKind;
use std::time::Clock;

/// The bytes that are read of a file at once.
const BUFFER_SIZE: usize = 65_536;

/// Copies the mailbox at the path `from`, whosever it is, to a file that is made at the path `to`. All memory is taken
/// before either is looked at.
pub fn copy_file<R: Files + Clock + Copy + Drop>(
    rt: R,
    alloc: Global,
    from: &str,
    to: &str,
) -> Result<(), CopyFault>
where
    R::File: RangeLock + Writeback,
    ensures { OnOk result (HasCopiedFile (⟦<StdMailboxFile<R> as MailboxFile>⟧.state)
        (⟦<StdMailboxFile<R> as MailboxSource>⟧.unread) (⟦<TargetFile<'static, R> as CopyTarget>⟧.state) to.now) }
{
    let mut buffer = vec![in alloc; 0u8; BUFFER_SIZE]?;
    let mut source = StdMailboxFile::existing(rt, alloc, from).map_err(fault_of)?;
    let mut target = TargetFile::new(&rt, to);
    copy_opened(&mut source, &mut target, &rt, &mut buffer)
}

fn copy_opened<F: MailboxSource, T: CopyTarget, C: Clock>(
    source: &mut F,
    target: &mut T,
    clock: &C,
    buffer: &mut [u8],
) -> Result<(), CopyFault>
    requires { 0 < length buffer.old }
    ensures { OnOk result (HasCopiedFile F.state F.unread T.state (T.state target.old).path) }
{
    copy_mailbox(source, target, clock, buffer)
}

fn fault_of(error: io::Error) -> CopyFault {
    match error.kind() {
        ErrorKind::OutOfMemory => CopyFault::Memory,
        _ => CopyFault::Unread,
    }
}
