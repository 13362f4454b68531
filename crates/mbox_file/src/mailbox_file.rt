//! The file under a spool, as a trait, so that a test can stand in for it and a proof can speak of it.
ghost use Rattle.std.specs.Prelude.{◌≡◌, [], true, false, IfOk, OnOk, OnErr};
ghost use Rattle.mbox_file.specs.MailboxFile.{FileState, HasMadeLockFile, HasNotMadeLockFile, HasRemovedLockFile};
ghost use Rattle.mbox_file.specs.MailboxFile.{HasLockedRange, HasNotLockedRange, HasReopened, HasNotReopened};
ghost use Rattle.mbox_file.specs.MailboxFile.{HasRefused, HasLooked, HasMeasured, HasAppended, HasNotAppended};
ghost use Rattle.mbox_file.specs.MailboxFile.{KeepsEntry, KeepsFile, FailsToKeep, HasCut, HasNotCut, IsHeld};

use crate::file::FileEnd;
use mbox_spool::InUse;
use std::io;

/// A mailbox's file that other programs read and empty too, open at one file, and beside it the lock file `PATH.lock`.
/// No call waits for another program: what others have locked is `InUse::Locked`.
pub trait MailboxFile {
    // how the file stands
    ghost state: { Self → FileState };

    /// Makes the lock file, where there is none. One of its own that couldn't be removed earlier, and one that a
    /// process left behind, is removed first.
    fn try_lock_file(&mut self) -> Result<(), InUse>
        ensures ok { OnOk result (HasMadeLockFile (state self.old) (state self.new)) }
        ensures err { OnErr result (HasNotMadeLockFile (state self.old) (state self.new)) };

    /// Removes the lock file, if it is still its own.
    fn remove_lock_file(&mut self)
        ensures { HasRemovedLockFile (state self.old) (state self.new) };

    /// Locks all bytes of the open file, so that nobody else reads or writes them.
    fn try_range_lock(&mut self) -> Result<(), InUse>
        requires after { (state self.old).has_lock_file ≡ true }
        ensures ok { OnOk result (HasLockedRange (state self.old) (state self.new)) }
        ensures err { OnErr result (HasNotLockedRange (state self.old) (state self.new)) };

    /// Gives the lock on the bytes back.
    fn unlock_range(&mut self)
        ensures { state self.new ≡ record (state self.old) { has_range_lock = false } };

    /// Hands back what its thread lent it for a turn. It may close the open file, so no lock on its bytes counts any
    /// more.
    fn rest(&mut self)
        ensures { state self.new ≡ record (state self.old) { has_range_lock = false } };

    /// Whether the path names the open file. What isn't plain is `InUse::NotPlain`.
    fn is_named(&mut self) -> Result<bool, InUse>
        ensures ok { IfOk result (HasLooked (state self.old) (state self.new)) }
        ensures err { OnErr result (HasRefused (state self.old) (state self.new)) };

    /// Opens what the path names, or makes it. Where that fails the old file stays open.
    fn reopen(&mut self) -> Result<(), InUse>
        ensures ok { OnOk result (HasReopened (state self.old) (state self.new)) }
        ensures err { OnErr result (HasNotReopened (state self.old) (state self.new)) };

    /// Has the folder keep the entry of the open file through a crash: it may be new there.
    fn keep_entry(&mut self) -> Result<(), InUse>
        requires held { IsHeld (state self.old) }
        ensures ok { OnOk result (KeepsEntry (state self.old) (state self.new)) }
        ensures err { OnErr result (HasRefused (state self.old) (state self.new)) };

    /// How long the open file is, and how it ends.
    fn end(&mut self) -> Result<FileEnd, InUse>
        ensures ok { IfOk result (HasMeasured (state self.old) (state self.new)) }
        ensures err { OnErr result (HasRefused (state self.old) (state self.new)) };

    /// Writes all the bytes at the end of the open file. An error may come after some of them. Over a cut that isn't
    /// kept a crash could leave old bytes and new ones.
    fn write(&mut self, bytes: &[u8]) -> io::Result<()>
        requires held { IsHeld (state self.old) }
        requires settled { (state self.old).cut_off ≡ [] }
        ensures ok { OnOk result (HasAppended (state self.old) (state self.new) bytes.now) }
        ensures err { OnErr result (HasNotAppended (state self.old) (state self.new) bytes.now) };

    /// Has the system begin to write the last bytes that it took, so many, to the disk, and waits for nothing.
    fn begin_writeback(&mut self, size: usize)
        ensures { state self.new ≡ state self.old };

    /// Has all bytes of the open file kept through a crash.
    fn keep(&mut self) -> io::Result<()>
        ensures ok { OnOk result (KeepsFile (state self.old) (state self.new)) }
        ensures err { OnErr result (FailsToKeep (state self.old) (state self.new)) };

    /// Cuts the open file to its first bytes.
    fn cut(&mut self, size: u64) -> io::Result<()>
        requires held { IsHeld (state self.old) }
        ensures ok { OnOk result (HasCut (state self.old) (state self.new) size) }
        ensures err { OnErr result (HasNotCut (state self.old) (state self.new) size) };
}
