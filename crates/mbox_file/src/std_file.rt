//! The file under a spool in the file system, which tells what it asked of the system and what was answered.
//!
//! Each call of the system and what is told of it stand side by side here, and nowhere else is anything told.
ghost use Rattle.std.specs.Prelude.{◌≡◌, [], None, Some, false, IfOk, OnOk, OnErr};
ghost use Rattle.mbox_file.specs.StdFile.{file_mode, file_path, mode_made};

use crate::entry::Entry;
use crate::file::FileEnd;
use crate::mailbox_file::MailboxFile;
use crate::mailbox_source::MailboxSource;
use crate::plain::{Taken, error_of, system_fault};
use crate::system_file::SystemFile;
use crate::thread_files::{FileLimits, ThreadFiles};
use crate::told::{Step, Told};
use mail_world::limits::TAIL_SIZE;
use mbox_locks::{RangeLock, Writeback};
use mbox_spool::InUse;
use std::alloc::{AllocError, Global};
use std::fs::Files;
use std::io;
use std::sync::Arc;
use std::time::Clock;

/// A mailbox's file that is open, or that could not be opened yet, and its lock file `PATH.lock`.
#[derive(Drop)]
pub struct StdMailboxFile<R: Files + Clock + Drop> {
    system: SystemFile<R>,
    entry: Entry,
    told: Told,
}

impl<R: Files + Clock + Copy + Drop> StdMailboxFile<R>
where
    R::File: RangeLock + Writeback,
{
    ghost use Rattle.mbox_file.specs.Told.{at_start};

    /// Opens the plain file at that path, which shares nothing. Where it is missing it is made with these permission
    /// bits. Neither lock is held, and a lock file that was left behind is gone. An error says why it can't be used, of
    /// `ErrorKind::OutOfMemory` where memory is lacking.
    pub fn open(rt: R, alloc: Global, path: &str, mode: u32) -> io::Result<StdMailboxFile<R>>
        ensures path { IfOk result (λ file. file_path file ≡ path.now) }
        ensures mode { IfOk result (λ file. file_mode file ≡ Some mode) }
        ensures state { IfOk result (λ file. ⟦<StdMailboxFile<R> as MailboxFile>⟧.state file ≡ at_start) }
    {
        let mut file = StdMailboxFile::alone(rt, alloc, path, Taken::Own(mode))?;
        file.open_first()?;
        let _ = file.system.remove_stale_first(&mut file.entry);
        Ok(file)
    }

    /// Opens the plain file at that path, whosever it is and for root too, and makes none. Neither lock is held. Its
    /// lock file is made and not linked, since it is taken once.
    pub fn existing(rt: R, alloc: Global, path: &str) -> io::Result<StdMailboxFile<R>>
        ensures path { IfOk result (λ file. file_path file ≡ path.now) }
        ensures mode { IfOk result (λ file. file_mode file ≡ None) }
        ensures state { IfOk result (λ file. ⟦<StdMailboxFile<R> as MailboxFile>⟧.state file ≡ at_start) }
    {
        let mut file = StdMailboxFile::alone(rt, alloc, path, Taken::Anybodys)?;
        file.open_first()?;
        Ok(file)
    }

    // The file at that path, of which nothing is touched yet.
    fn alone(
        rt: R,
        alloc: Global,
        path: &str,
        taken: Taken,
    ) -> Result<StdMailboxFile<R>, AllocError>
        ensures path { IfOk result (λ file. file_path file ≡ path.now) }
        ensures mode { IfOk result (λ file. file_mode file ≡ mode_made taken) }
        ensures state { IfOk result (λ file. ⟦<StdMailboxFile<R> as MailboxFile>⟧.state file ≡ at_start) }
    {
        let shared = ThreadFiles::new(rt, alloc, path, FileLimits::alone(taken.is_own()))?;
        Ok(StdMailboxFile {
            system: SystemFile::new(rt, alloc, path, taken, Arc::new(alloc, shared)?, 0)?,
            entry: Entry::unknown(),
            told: Told::new(),
        })
    }

    // Opens it before anything is told.
    fn open_first(&mut self) -> io::Result<()>
        ensures path { file_path self.new ≡ file_path self.old }
        ensures mode { file_mode self.new ≡ file_mode self.old }
        ensures told { self.new.told ≡ self.old.told }
    {
        self.system.open_named(&mut self.entry).map_err(error_of)
    }
}

impl<R: Files + Clock + Drop> StdMailboxFile<R>
where
    R::File: RangeLock + Writeback,
{
    ghost use Rattle.mbox_file.specs.declared.told.Step.TheVariants.{LockFileRemoved, LockFileStays};
    ghost use Rattle.mbox_file.specs.Told.{after, at_start};

    /// The file at that path, of which nothing is touched before the first turn: each turn tries to open it, as `open`
    /// does, until one can. Of the mailboxes that share so it has that number.
    pub fn unopened(
        rt: R,
        alloc: Global,
        path: &str,
        mode: u32,
        shared: Arc<ThreadFiles<R>>,
        place: u32,
    ) -> Result<StdMailboxFile<R>, AllocError>
        ensures path { IfOk result (λ file. file_path file ≡ path.now) }
        ensures mode { IfOk result (λ file. file_mode file ≡ Some mode) }
        ensures place { IfOk result (λ file. (file.system.place ≡ place) × (file.system.shared ≡ shared)) }
        ensures state { IfOk result (λ file. ⟦<StdMailboxFile<R> as MailboxFile>⟧.state file ≡ at_start) }
    {
        Ok(StdMailboxFile {
            system: SystemFile::new(rt, alloc, path, Taken::Own(mode), shared, place)?,
            entry: Entry::unknown(),
            told: Told::new(),
        })
    }

    /// Looks at what the path names, which is never opened. An error says why no turn can be had there.
    pub fn look(&self) -> io::Result<()> {
        self.system.look().map_err(error_of)
    }

    // Removes the lock file, if it is its own.
    fn remove_own(&mut self) -> Result<(), InUse>
        ensures ok { OnOk result (self.new.told.state ≡ after self.old.told.state LockFileRemoved) }
        ensures err { OnErr result (self.new.told.state ≡ after self.old.told.state LockFileStays) }
    {
        match self.system.remove_own() {
            Ok(()) => {
                self.told.add(Step::LockFileRemoved);
                Ok(())
            }
            Err(error) => {
                self.told.add(Step::LockFileStays);
                Err(system_fault(error))
            }
        }
    }
}

impl<R: Files + Clock + Drop> MailboxFile for StdMailboxFile<R>
where
    R::File: RangeLock + Writeback,
{
    ghost use Rattle.std.specs.Io.{appended_bytes};
    ghost use Rattle.std.specs.Io.KnownBytes.{Appends};
    ghost use Rattle.mbox_file.specs.MailboxFile.{HasAppended, HasNotAppended, IsHeld};
    ghost use Rattle.mbox_file.specs.SystemFile.{open_of, known_of};

    ghost state = { λ s. s.told.state };

    fn try_lock_file(&mut self) -> Result<(), InUse> {
        if let Err(in_use) = self.remove_own() {
            self.told.add(Step::Refused);
            return Err(in_use);
        }
        match self.system.make_lock_file(&mut self.entry) {
            Ok(()) => {
                self.told.add(Step::LockFileMade);
                Ok(())
            }
            Err(in_use) => {
                self.told.add(Step::LockFileRefused);
                Err(in_use)
            }
        }
    }

    fn remove_lock_file(&mut self) {
        let _ = self.remove_own();
    }

    fn try_range_lock(&mut self) -> Result<(), InUse> {
        match self.system.lock_open() {
            Ok(()) => {
                self.told.add(Step::RangeLocked);
                Ok(())
            }
            Err(in_use) => {
                self.told.add(Step::RangeRefused);
                Err(in_use)
            }
        }
    }

    fn unlock_range(&mut self) {
        self.system.unlock_open();
        self.told.add(Step::RangeUnlocked);
    }

    /// The workspace of its thread isn't at hand any more.
    fn rest(&mut self)
        ensures state { self.new.told.state ≡ record self.old.told.state { has_range_lock = false } }
        ensures workspace { self.new.system.workspace ≡ None }
        ensures lock_file { self.new.system.lock_file ≡ self.old.system.lock_file }
    {
        self.system.rest();
        self.told.add(Step::Rested);
    }

    fn is_named(&mut self) -> Result<bool, InUse> {
        match self.system.names_open() {
            Ok(true) => {
                self.told.add(Step::Named);
                Ok(true)
            }
            Ok(false) => {
                self.told.add(Step::NotNamed);
                Ok(false)
            }
            Err(in_use) => {
                self.told.add(Step::Refused);
                Err(in_use)
            }
        }
    }

    fn reopen(&mut self) -> Result<(), InUse> {
        match self.system.open_named(&mut self.entry) {
            Ok(()) => {
                self.told.add(Step::Reopened);
                Ok(())
            }
            Err(in_use) => {
                self.told.add(Step::NotReopened);
                Err(in_use)
            }
        }
    }

    /// Where the folder was synced since the file was opened it isn't again.
    fn keep_entry(&mut self) -> Result<(), InUse> {
        match self.system.keep_entry(&mut self.entry) {
            Ok(()) => {
                self.told.add(Step::EntrySeen(&self.entry));
                Ok(())
            }
            Err(error) => {
                self.told.add(Step::Refused);
                Err(system_fault(error))
            }
        }
    }

    fn end(&mut self) -> Result<FileEnd, InUse> {
        let mut few = [0; 2];
        let mut many = [0; TAIL_SIZE];
        match self.system.read_end(&mut few, &mut many) {
            Ok((end, last)) => {
                self.told.add(Step::Measured(end.at, last));
                Ok(end)
            }
            Err(error) => {
                self.told.add(Step::Refused);
                Err(system_fault(error))
            }
        }
    }

    /// A write that a signal interrupted is made again. What is told is what the file took, where its bytes are known.
    #[tactic(auto, using(crate::proofs::Written::part_of, crate::proofs::Written::told_all, crate::proofs::Written::told_part))]
    fn write(&mut self, bytes: &[u8]) -> io::Result<()>
        requires held { IsHeld self.old.told.state }
        requires settled { self.old.told.state.cut_off ≡ [] }
        ensures ok { OnOk result (HasAppended self.old.told.state self.new.told.state bytes.now) }
        ensures err { OnErr result (HasNotAppended self.old.told.state self.new.told.state bytes.now) }
        ensures taken { Appends (known_of R.File.contents (open_of self.old.system.workspace))
            (known_of R.File.contents (open_of self.new.system.workspace))
            (appended_bytes self.old.told.state.bytes self.new.told.state.bytes) }
    {
        match self.system.write(bytes) {
            (_, Ok(())) => {
                self.told.add(Step::Wrote(bytes));
                Ok(())
            }
            (count, Err(error)) => {
                self.told.add(Step::WroteInPart(bytes, count));
                Err(error)
            }
        }
    }

    fn begin_writeback(&mut self, size: usize) {
        self.system.begin_writeback(size as u64);
    }

    fn keep(&mut self) -> io::Result<()> {
        match self.system.sync() {
            Ok(()) => {
                self.told.add(Step::Kept);
                Ok(())
            }
            Err(error) => {
                self.told.add(Step::NotKept);
                Err(error)
            }
        }
    }

    /// Only while the lock file is its own: another program that took it for left behind may have written since.
    fn cut(&mut self, size: u64) -> io::Result<()> {
        match self.system.cut(size) {
            Ok(()) => {
                self.told.add(Step::Cut(size));
                Ok(())
            }
            Err(error) => {
                self.told.add(Step::NotCut(size));
                Err(error)
            }
        }
    }
}

impl<R: Files + Clock + Drop> MailboxSource for StdMailboxFile<R>
where
    R::File: RangeLock + Writeback,
{
    ghost use Rattle.std.specs.Prelude.{false};
    ghost use Rattle.mbox_file.specs.SystemFile.{open_of, known_of};

    ghost is_known = { false };

    ghost unread = { λ s. known_of R.File.remaining (open_of s.system.workspace) };

    fn rewind(&mut self) -> io::Result<()> {
        self.system.rewind()
    }

    /// A read that a signal interrupted is made again.
    fn read(&mut self, buffer: &mut [u8]) -> io::Result<usize> {
        self.system.read(buffer)
    }

    fn renew_lock_file(&mut self) -> Result<(), InUse> {
        if let Err(in_use) = self.system.renew_lock_file() {
            self.told.add(Step::Refused);
            return Err(in_use);
        }
        Ok(())
    }
}
