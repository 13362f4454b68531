//! A mailbox's file in the file system, beside its lock file: what the system is asked, and what it answers.
//!
//! From its first call of a turn until it rests it has the workspace of its thread, in which its open file is, and by
//! which its lock file is made and removed. One that couldn't be put back as it rested it has for its own next turn.
ghost use Rattle.std.specs.Prelude.{◌≡◌, ◌≤◌, true, false, IfOk, OnOk, OnErr, length, option_map, take};
ghost use Rattle.std.specs.Io.{ReadsAtMost};
ghost use Rattle.std.specs.Io.KnownBytes.{Appends, ReadConsumes};
ghost use Rattle.std.specs.Prelude.{None, string_bytes};
ghost use Rattle.mbox_file.specs.SystemFile.{open_of, known_of, identity_of_open, IsKeptFor};
ghost use Rattle.mbox_file.specs.Told.{IsEndBy};

use crate::entry::Entry;
use crate::file::{FileEnd, read_end};
use crate::lock_file::Held;
use crate::plain::{Node, OpenNode, Taken, names_plain, node_of, open_plain, system_fault};
use crate::stale::Caution;
use crate::thread_files::{ThreadFiles, Unreturned};
use crate::workspace::{Workspace, none_open};
use mail_world::limits::TAIL_SIZE;
use mbox_locks::{LockKind, RangeLock, Writeback};
use mbox_spool::InUse;
use std::alloc::{AllocError, Global};
use std::fs::{Files, Metadata, OpenFile};
use std::io::{ErrorKind, Read, Seek, SeekFrom, Write};
use std::sync::Arc;
use std::time::Clock;
use std::{fs, io};

/// A mailbox's file that is open, or that could not be opened yet, and its lock file `PATH.lock`.
#[derive(Drop)]
pub(crate) struct SystemFile<R: Files + Clock + Drop> {
    rt: R,
    path: String,
    taken: Taken,
    caution: Caution,
    // which of its thread's mailboxes it is, and what these share
    place: u32,
    shared: Arc<ThreadFiles<R>>,
    workspace: Option<Box<Workspace<R>>>,
    // the workspace where it rests, and couldn't put that back
    unreturned: Option<Unreturned<R>>,
    lock_file: Held,
}

impl<R: Files + Clock + Drop> SystemFile<R>
where
    R::File: RangeLock + Writeback,
{
    /// The file at that path, of which nothing is touched yet: of the mailboxes that share so, the one of that number.
    pub fn new(
        rt: R,
        alloc: Global,
        path: &str,
        taken: Taken,
        shared: Arc<ThreadFiles<R>>,
        place: u32,
    ) -> Result<SystemFile<R>, AllocError>
        ensures path { IfOk result (λ file. string_bytes file.path ≡ path.now) }
        ensures taken { IfOk result (λ file. file.taken ≡ taken) }
        ensures place { IfOk result (λ file. file.place ≡ place) }
        ensures shared { IfOk result (λ file. file.shared ≡ shared) }
    {
        Ok(SystemFile {
            path: format!(in alloc; "{path}")?,
            taken,
            caution: Caution::none(),
            place,
            shared,
            workspace: None,
            unreturned: None,
            lock_file: Held::No,
            rt,
        })
    }

    /// Whether what the path names is a plain file or nothing.
    pub fn look(&self) -> Result<(), InUse> {
        names_plain(&self.rt, self.path.as_str(), self.taken)?;
        Ok(())
    }

    // Takes the workspace, and the file that this mailbox left open on it. Where another one has it this one is locked.
    fn take_workspace(&mut self) -> Result<(), InUse>
        ensures path { string_bytes self.new.path ≡ string_bytes self.old.path }
        ensures taken { self.new.taken ≡ self.old.taken }
    {
        if self.workspace.is_some() {
            return Ok(());
        }
        let Some(mut workspace) = self.lent() else {
            return Err(InUse::Locked);
        };
        if workspace.serve(self.path.as_str()).is_err() {
            self.unreturned = self.shared.put_back(workspace);
            return Err(InUse::System(libc::ENOMEM));
        }
        workspace.fetch_open(self.place);
        self.workspace = Some(workspace);
        Ok(())
    }

    // The workspace that it couldn't put back, or its thread's, unless another mailbox has that.
    fn lent(&mut self) -> Option<Box<Workspace<R>>>
        ensures path { string_bytes self.new.path ≡ string_bytes self.old.path }
        ensures taken { self.new.taken ≡ self.old.taken }
    {
        match self.unreturned.take() {
            Some(unreturned) => Some(unreturned.again()),
            None => self.shared.take(),
        }
    }

    /// Puts the workspace back, with the open file on it. One that can't be put back now is this mailbox's at its next
    /// turn, unless an earlier call puts it back.
    pub fn rest(&mut self)
        ensures path { string_bytes self.new.path ≡ string_bytes self.old.path }
        ensures taken { self.new.taken ≡ self.old.taken }
        ensures workspace { self.new.workspace ≡ None }
        ensures lock_file { self.new.lock_file ≡ self.old.lock_file }
    {
        match self.workspace.take() {
            Some(mut workspace) => {
                workspace.rest(self.place, self.lock_file);
                self.unreturned = self.shared.put_back(workspace);
            }
            None => self.return_again(),
        }
    }

    // Puts back what couldn't be put back before.
    fn return_again(&mut self)
        ensures path { string_bytes self.new.path ≡ string_bytes self.old.path }
        ensures taken { self.new.taken ≡ self.old.taken }
        ensures workspace { self.new.workspace ≡ self.old.workspace }
        ensures lock_file { self.new.lock_file ≡ self.old.lock_file }
    {
        if let Some(unreturned) = self.unreturned.take() {
            self.unreturned = self.shared.put_back(unreturned.again());
        }
    }

    /// Before the first turn, of a mailbox that shares nothing: removes a lock file that was left behind.
    pub fn remove_stale_first(&mut self, entry: &mut Entry) -> Result<bool, InUse>
        ensures path { string_bytes self.new.path ≡ string_bytes self.old.path }
        ensures taken { self.new.taken ≡ self.old.taken }
    {
        self.take_workspace()?;
        self.remove_stale(entry)
    }

    // The workspace, which it has since it asked for the lock file.
    fn at_hand(&self) -> io::Result<&Workspace<R>> {
        match &self.workspace {
            Some(workspace) => Ok(workspace),
            None => Err(none_open()),
        }
    }

    // The open file, which it has no longer than the workspace.
    fn opened(&self) -> Option<&OpenNode<R::File>>
        ensures { option_map (λ file. file.now) result ≡ open_of self.now.workspace }
    {
        match &self.workspace {
            Some(workspace) => workspace.open.as_ref(),
            None => None,
        }
    }

    /// Makes the lock file, where there is none but one that was left behind.
    pub fn make_lock_file(&mut self, entry: &mut Entry) -> Result<(), InUse> {
        self.take_workspace()?;
        if self.make_first()? || self.remove_stale(entry)? && self.make_first()? {
            Ok(())
        } else {
            Err(InUse::Locked)
        }
    }

    // Makes the lock file, unless there is one.
    fn make_first(&mut self) -> Result<bool, InUse> {
        let Some(workspace) = &mut self.workspace else {
            return Err(InUse::Locked);
        };
        self.lock_file = workspace.make_lock_file(&mut self.caution)?;
        Ok(self.lock_file.node().is_some())
    }

    // Whether the lock file is still its own.
    fn owns_lock_file(&self) -> io::Result<bool> {
        match self.at_hand()?.find_lock_file()? {
            Some(found) => Ok(Some(node_of(&found)) == self.lock_file.node()),
            None => Ok(false),
        }
    }

    /// Removes the lock file, if one was made and it is still that one. Where that fails it is tried again later.
    pub fn remove_own(&mut self) -> io::Result<()>
        ensures path { string_bytes self.new.path ≡ string_bytes self.old.path }
        ensures taken { self.new.taken ≡ self.old.taken }
    {
        let Some(node) = self.lock_file.node() else {
            return Ok(());
        };
        if self.take_workspace().is_err() {
            return Err(none_open());
        }
        let Some(workspace) = &mut self.workspace else {
            return Err(none_open());
        };
        workspace.remove_lock_file(node)?;
        self.lock_file = Held::No;
        Ok(())
    }

    /// Has the folder keep its entry for the open file.
    pub fn keep_entry(&self, entry: &mut Entry) -> io::Result<()>
        ensures ok { OnOk result (IsKeptFor entry.new (open_of self.now.workspace)) }
        ensures err { OnErr result (entry.new.is_kept ≡ false) }
    {
        match self.opened() {
            Some(open) => entry.keep(&self.rt, self.path.as_str(), open.identity),
            None => {
                entry.forget();
                Err(none_open())
            }
        }
    }

    /// Whether the path names the open file.
    pub fn names_open(&self) -> Result<bool, InUse> {
        match fs::symlink_metadata(&self.rt, self.path.as_str()) {
            Ok(found) if !self.taken.is_plain(&found) => Err(InUse::NotPlain),
            Ok(found) => match self.opened() {
                Some(open) => Ok(node_of(&found) == open.node()),
                None => Ok(false),
            },
            Err(error) if error.kind() == ErrorKind::NotFound => Ok(false),
            Err(error) => Err(system_fault(error)),
        }
    }

    /// Opens the file that the path names.
    pub fn open_named(&mut self, entry: &mut Entry) -> Result<(), InUse>
        ensures entry { OnOk result (entry.new.is_kept ≡ false) }
        ensures same { OnErr result (entry.new ≡ entry.old) }
        ensures path { string_bytes self.new.path ≡ string_bytes self.old.path }
        ensures taken { self.new.taken ≡ self.old.taken }
    {
        self.take_workspace()?;
        let Some(workspace) = &mut self.workspace else {
            return Err(InUse::Locked);
        };
        let opened = open_plain(&self.rt, self.path.as_str(), self.taken)?;
        entry.see(opened.identity);
        workspace.open = Some(opened);
        Ok(())
    }

    pub fn lock_open(&self) -> Result<(), InUse> {
        let Some(open) = self.opened() else {
            // a look at what the path names is next, which opens it
            return Ok(());
        };
        match open.file.try_lock_bytes(LockKind::Exclusive) {
            Ok(()) => Ok(()),
            Err(error) if error.kind() == ErrorKind::WouldBlock => Err(InUse::Locked),
            Err(error) => Err(system_fault(error)),
        }
    }

    /// Where the system refuses to unlock its bytes the open file is closed, and the lock goes with it.
    pub fn unlock_open(&mut self)
        ensures path { string_bytes self.new.path ≡ string_bytes self.old.path }
        ensures taken { self.new.taken ≡ self.old.taken }
    {
        let Some(workspace) = &mut self.workspace else {
            return;
        };
        let is_unlocked = match &workspace.open {
            Some(open) => open.file.unlock_bytes().is_ok(),
            None => true,
        };
        if !is_unlocked {
            workspace.open = None;
        }
    }

    /// Removes a lock file that was left behind, under the lock on the bytes of what the path names. True: there is
    /// none now.
    pub fn remove_stale(&mut self, entry: &mut Entry) -> Result<bool, InUse>
        ensures path { string_bytes self.new.path ≡ string_bytes self.old.path }
        ensures taken { self.new.taken ≡ self.old.taken }
    {
        let Some(workspace) = &self.workspace else {
            return Err(InUse::Locked);
        };
        let Some(found) = workspace.find_lock_file().map_err(system_fault)? else {
            return Ok(true);
        };
        if !workspace.is_left(&found, &mut self.caution) {
            return Ok(false);
        }
        if !self.names_open()? {
            self.open_named(entry)?;
        }
        self.lock_open()?;
        let removed = self.remove_same(&found);
        self.unlock_open();
        removed
    }

    // Under the lock on the bytes of the file that the path names nobody else removes what was left behind, and what
    // was found is looked at again.
    fn remove_same(&self, found: &Metadata) -> Result<bool, InUse> {
        if !self.names_open()? {
            return Ok(false);
        }
        let workspace = self.at_hand().map_err(system_fault)?;
        workspace.remove_found(found).map_err(system_fault)
    }

    /// Where the open file ends, and by which of its bytes that is known.
    pub fn read_end<'a>(
        &mut self,
        few: &'a mut [u8; 2],
        many: &'a mut [u8; TAIL_SIZE],
    ) -> io::Result<(FileEnd, &'a [u8])>
        ensures end { IfOk result (λ read. IsEndBy read.1.now read.0) }
        ensures stays { identity_of_open (open_of self.new.workspace)
            ≡ identity_of_open (open_of self.old.workspace) }
    {
        let Some(workspace) = &mut self.workspace else {
            return Err(none_open());
        };
        match &mut workspace.open {
            Some(open) => read_end(&mut open.file, few, many),
            None => Err(none_open()),
        }
    }

    /// Writes until all is written or a call fails. The number is of the bytes that the system took.
    pub fn write(&mut self, bytes: &[u8]) -> (usize, io::Result<()>)
        ensures within { result.0 ≤ length bytes.now }
        ensures whole { OnOk result.1 (result.0 ≡ length bytes.now) }
        ensures taken { Appends (known_of R.File.contents (open_of self.old.workspace))
            (known_of R.File.contents (open_of self.new.workspace))
            (take result.0 bytes.now) }
        ensures stays { identity_of_open (open_of self.new.workspace)
            ≡ identity_of_open (open_of self.old.workspace) }
    {
        let Some(workspace) = &mut self.workspace else {
            return (0, Err(none_open()));
        };
        match &mut workspace.open {
            Some(open) => write_on(&mut open.file, bytes),
            None => (0, Err(none_open())),
        }
    }

    /// Has the system begin to write the last bytes, so many, to the disk.
    pub fn begin_writeback(&mut self, size: u64)
        ensures stays { identity_of_open (open_of self.new.workspace)
            ≡ identity_of_open (open_of self.old.workspace) }
    {
        let Some(workspace) = &mut self.workspace else {
            return;
        };
        if let Some(open) = &mut workspace.open {
            // a write leaves the position at the file's end
            if let Ok(end) = open.file.seek(SeekFrom::Current(0)) {
                open.file.begin_writeback(end.saturating_sub(size), size);
            }
        }
    }

    pub fn sync(&mut self) -> io::Result<()>
        ensures stays { identity_of_open (open_of self.new.workspace)
            ≡ identity_of_open (open_of self.old.workspace) }
    {
        match self.opened() {
            Some(open) => open.file.sync_data(),
            None => Err(none_open()),
        }
    }

    /// Only while the lock file is its own.
    pub fn cut(&mut self, size: u64) -> io::Result<()>
        ensures stays { identity_of_open (open_of self.new.workspace)
            ≡ identity_of_open (open_of self.old.workspace) }
    {
        if !self.owns_lock_file()? {
            return Err(io::Error::from(ErrorKind::ResourceBusy));
        }
        match self.opened() {
            Some(open) => open.file.set_len(size),
            None => Err(none_open()),
        }
    }

    pub fn rewind(&mut self) -> io::Result<()> {
        let Some(workspace) = &mut self.workspace else {
            return Err(none_open());
        };
        match &mut workspace.open {
            Some(open) => {
                open.file.seek(SeekFrom::Start(0))?;
                Ok(())
            }
            None => Err(none_open()),
        }
    }

    /// Reads what comes next of the open file.
    pub fn read(&mut self, buffer: &mut [u8]) -> io::Result<usize>
        ensures bound { ReadsAtMost result buffer.new }
        ensures bytes { ReadConsumes (known_of R.File.remaining (open_of self.old.workspace))
            (known_of R.File.remaining (open_of self.new.workspace))
            result buffer.new }
    {
        let Some(workspace) = &mut self.workspace else {
            return Err(none_open());
        };
        match &mut workspace.open {
            Some(open) => read_some(&mut open.file, buffer),
            None => Err(none_open()),
        }
    }

    /// Sets the time of the lock file to now. `InUse::Locked`: it is no longer its own.
    pub fn renew_lock_file(&self) -> Result<(), InUse> {
        let workspace = self.at_hand().map_err(system_fault)?;
        workspace.renew(self.lock_file).map_err(system_fault)?;
        if !self.owns_lock_file().map_err(system_fault)? {
            return Err(InUse::Locked);
        }
        Ok(())
    }
}

// Writes until all is written or a call fails, and again where a signal interrupted it.
fn write_on<F: Write>(file: &mut F, bytes: &[u8]) -> (usize, io::Result<()>)
    ensures within { result.0 ≤ length bytes.now }
    ensures whole { OnOk result.1 (result.0 ≡ length bytes.now) }
    ensures taken { Appends (F.contents file.old) (F.contents file.new) (take result.0 bytes.now) }
{
    let mut count = 0;
    for _ in 0..u64::MAX {
        if count == bytes.len() {
            return (count, Ok(()));
        }
        match file.write(&bytes[count..]) {
            Ok(0) => return (count, Err(io::Error::from(ErrorKind::WriteZero))),
            Ok(size) => count += size,
            Err(error) if error.kind() == ErrorKind::Interrupted => {}
            Err(error) => return (count, Err(error)),
        }
    }
    (count, Err(io::Error::from(ErrorKind::Interrupted)))
}

// One read, made again where a signal interrupted it.
fn read_some<F: Read>(file: &mut F, buffer: &mut [u8]) -> io::Result<usize>
    ensures bound { ReadsAtMost result buffer.new }
    ensures bytes { ReadConsumes (F.remaining file.old) (F.remaining file.new) result buffer.new }
{
    for _ in 0..u64::MAX {
        match file.read(buffer) {
            Ok(size) => return Ok(size),
            Err(error) if error.kind() == ErrorKind::Interrupted => {}
            Err(error) => return Err(error),
        }
    }
    Err(io::Error::from(ErrorKind::Interrupted))
}
