//! A mailbox's file that is read while both its locks are held.
ghost use Rattle.std.specs.Prelude.{◌≡◌, ℕ, Bool, List, Option, Some, true, OnOk, OnErr};
ghost use Rattle.std.specs.Io.{ReadsAtMost};
ghost use Rattle.std.specs.Io.KnownBytes.{ReadConsumes};
ghost use Rattle.mbox_file.specs.MailboxFile.{HasRefused, IsHeld};
ghost use Rattle.mbox_file.specs.MailboxSource.{HasNotRead};

use crate::mailbox_file::MailboxFile;
use mbox_spool::InUse;
use std::io;

/// A mailbox's file that is read from its beginning. Nothing is said of what a read gives while a lock isn't held,
/// since others write then.
pub trait MailboxSource: MailboxFile {
    // whether what reads give is what the file tells; of the system's nobody knows
    ghost is_known: { Bool };

    // what reads give from here on, where that is known
    ghost unread: { Self → Option (List ℕ) };

    /// Goes to the beginning of the open file.
    fn rewind(&mut self) -> io::Result<()>
        ensures ok { OnOk result (Self.state self.new ≡ Self.state self.old) }
        ensures all { is_known ≡ true → OnOk result (unread self.new ≡ Some (Self.state self.new).bytes) }
        ensures err { OnErr result (HasNotRead (Self.state self.old) (Self.state self.new)) };

    /// Reads what comes next, as much as there is room for at most; nothing comes where there is room only at the end.
    fn read(&mut self, buffer: &mut [u8]) -> io::Result<usize>
        ensures bound { ReadsAtMost result buffer.new }
        ensures bytes { IsHeld (Self.state self.old)
            → ReadConsumes (unread self.old) (unread self.new) result buffer.new }
        ensures ok { OnOk result (Self.state self.new ≡ Self.state self.old) }
        ensures err { OnErr result (HasNotRead (Self.state self.old) (Self.state self.new)) };

    /// Sets the lock file's time to now, so that nobody takes it for left behind. `InUse::Locked`: it is no longer its
    /// own.
    fn renew_lock_file(&mut self) -> Result<(), InUse>
        ensures same { unread self.new ≡ unread self.old }
        ensures ok { OnOk result (Self.state self.new ≡ Self.state self.old) }
        ensures err { OnErr result (HasRefused (Self.state self.old) (Self.state self.new)) };
}
