//! A mailbox's file in memory, which tells all.
ghost use Rattle.std.specs.Prelude.{◌≡◌, ◌≤◌, true, length, IfOk};

use crate::file::FileEnd;
use crate::mailbox_file::MailboxFile;
use crate::mailbox_source::MailboxSource;
use crate::told::{Step, Told};
use mbox_spool::{InUse, tail_of};
use std::alloc::{AllocError, Global};
use std::io;

/// The file of a mailbox that no other program uses. It keeps its bytes as long as it is there itself, and a write
/// fails where memory is lacking.
#[derive(Drop)]
pub struct MemoryFile {
    bytes: Vec<u8>,
    told: Told,
    /// How many of its bytes were read.
    read_to: usize,
    pub ghost holds: { told.state.bytes ≡ bytes.items },
    pub ghost covered: { told.state.kept ≤ length bytes.items },
}

impl MemoryFile {
    ghost use Rattle.mbox_file.specs.Told.{at_start};

    /// Holds these bytes, all of them kept.
    pub fn new(alloc: Global, old: &[u8]) -> Result<MemoryFile, AllocError>
        ensures { IfOk result (λ file. ⟦<MemoryFile as MailboxFile>⟧.state file
            ≡ record at_start { bytes = old.now; kept = length old.now }) }
    {
        let bytes = Vec::from_slice(alloc, old)?;
        let mut told = Told::new();
        told.add(Step::Holds(old));
        Ok(MemoryFile {
            bytes,
            told,
            read_to: 0,
        })
    }
}

impl MailboxFile for MemoryFile {
    ghost state = { λ s. s.told.state };

    fn try_lock_file(&mut self) -> Result<(), InUse> {
        self.told.add(Step::LockFileMade);
        Ok(())
    }

    fn remove_lock_file(&mut self) {
        self.told.add(Step::LockFileRemoved);
    }

    fn try_range_lock(&mut self) -> Result<(), InUse> {
        self.told.add(Step::RangeLocked);
        Ok(())
    }

    fn unlock_range(&mut self) {
        self.told.add(Step::RangeUnlocked);
    }

    fn rest(&mut self) {
        self.told.add(Step::Rested);
    }

    fn is_named(&mut self) -> Result<bool, InUse> {
        self.told.add(Step::Named);
        Ok(true)
    }

    fn reopen(&mut self) -> Result<(), InUse> {
        self.told.add(Step::Reopened);
        Ok(())
    }

    fn keep_entry(&mut self) -> Result<(), InUse> {
        self.told.add(Step::NoFolder);
        Ok(())
    }

    fn end(&mut self) -> Result<FileEnd, InUse> {
        Ok(FileEnd {
            at: self.bytes.len() as u64,
            tail: tail_of(&self.bytes),
        })
    }

    fn write(&mut self, bytes: &[u8]) -> io::Result<()> {
        if let Err(error) = self.bytes.extend_from_slice(bytes) {
            self.told.add(Step::WroteInPart(bytes, 0));
            return Err(io::Error::from(error));
        }
        self.told.add(Step::Wrote(bytes));
        Ok(())
    }

    fn begin_writeback(&mut self, _size: usize) {}

    fn keep(&mut self) -> io::Result<()> {
        self.told.add(Step::Kept);
        Ok(())
    }

    fn cut(&mut self, size: u64) -> io::Result<()> {
        self.bytes.truncate(size as usize);
        self.told.add(Step::Cut(size));
        Ok(())
    }
}

impl MailboxSource for MemoryFile {
    ghost use Rattle.std.specs.Prelude.{Some, drop};

    ghost is_known = { true };

    ghost unread = { λ s. Some (drop s.read_to s.bytes.items) };

    fn rewind(&mut self) -> io::Result<()> {
        self.read_to = 0;
        Ok(())
    }

    fn read(&mut self, buffer: &mut [u8]) -> io::Result<usize> {
        let from = self.read_to.min(self.bytes.len());
        let rest = &self.bytes[from..];
        let size = rest.len().min(buffer.len());
        buffer[..size].copy_from_slice(&rest[..size]);
        self.read_to = from + size;
        Ok(size)
    }

    fn renew_lock_file(&mut self) -> Result<(), InUse> {
        Ok(())
    }
}
