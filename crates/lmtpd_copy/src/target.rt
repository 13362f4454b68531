//! Where a copy goes, as a trait, so that a test can stand in for it and a proof can speak of it.
ghost use Rattle.std.specs.Prelude.{◌≡◌, Bool, true, OnOk, OnErr};
ghost use Rattle.std.specs.Io.KnownBytes.{Appends, Keeps};
ghost use Rattle.lmtpd_copy.specs.Target.{TargetState, HasMade, HasNotMade, HasWritten, HasFailed, HasRemoved};
ghost use Rattle.lmtpd_copy.specs.Target.{HasSamePath};

use std::io;

/// A file that is made for a copy.
pub trait CopyTarget {
    // whether such files tell what contracts see of them; std's don't
    ghost tells: { Bool };

    // how the file stands; where it doesn't tell, its path and its bytes alone, if these are known
    ghost state: { Self → TargetState };

    /// Makes the file, empty, where nothing of its name is there.
    fn make(&mut self) -> io::Result<()>
        ensures path { HasSamePath (state self.old) (state self.new) }
        ensures ok { tells ≡ true → OnOk result (HasMade (state self.old) (state self.new)) }
        ensures err { tells ≡ true → OnErr result (HasNotMade (state self.old) (state self.new)) };

    /// Writes all the bytes at the end of the file that was made.
    fn write(&mut self, bytes: &[u8]) -> io::Result<()>
        ensures path { HasSamePath (state self.old) (state self.new) }
        ensures bytes { OnOk result (Appends (state self.old).bytes (state self.new).bytes bytes.now) }
        ensures ok { tells ≡ true → OnOk result (HasWritten (state self.old) (state self.new)) }
        ensures err { tells ≡ true → OnErr result (HasFailed (state self.old) (state self.new)) };

    /// Has all its bytes, and its name, kept through a crash.
    fn keep(&mut self) -> io::Result<()>
        ensures path { HasSamePath (state self.old) (state self.new) }
        ensures bytes { OnOk result (Keeps (state self.old).bytes (state self.new).bytes) }
        ensures ok { tells ≡ true
            → OnOk result (state self.new ≡ record (state self.old) { kept = (state self.old).bytes }) }
        ensures err { tells ≡ true → OnErr result (HasFailed (state self.old) (state self.new)) };

    /// Removes the file that was made, where it is still that one.
    fn remove(&mut self)
        ensures path { HasSamePath (state self.old) (state self.new) }
        ensures removed { tells ≡ true → HasRemoved (state self.old) (state self.new) };
}
