//! Whether a folder keeps its entry for the open file through a crash.
ghost use Rattle.std.specs.Prelude.{◌≡◌, ◌⊎◌, true, false, None, Some, OnOk, OnErr};

use crate::file::sync_folder;
use crate::plain::Identity;
use std::fs::Files;
use std::io;

/// For which file the folder was synced, of all that the path named: another program may have put it there, or it was
/// made.
#[derive(Drop)]
pub(crate) struct Entry {
    // the file for which it was synced last
    kept_for: Option<Identity>,
    // which is the open one
    is_kept: bool,
}

impl Entry {
    /// The folder wasn't synced yet.
    pub fn unknown() -> Entry
        ensures none { result.kept_for ≡ None }
        ensures unknown { result.is_kept ≡ false }
    {
        Entry {
            kept_for: None,
            is_kept: false,
        }
    }

    /// That file was opened. One whose time of birth is unknown may be another one than it was.
    pub fn see(&mut self, file: Identity)
        ensures unknown { self.new.is_kept ≡ false }
        ensures known { (self.new.kept_for ≡ self.old.kept_for) ⊎ (self.new.kept_for ≡ None) }
        ensures unborn { file.born ≡ None → self.new.kept_for ≡ None }
    {
        self.is_kept = false;
        if file.born.is_none() {
            self.kept_for = None;
        }
    }

    /// No file is open.
    pub fn forget(&mut self)
        ensures { self.new ≡ record self.old { is_kept = false } }
    {
        self.is_kept = false;
    }

    /// Has the folder that holds that path keep the open file, which need not be done again for that file.
    pub fn keep<R: Files>(&mut self, rt: &R, path: &str, file: Identity) -> io::Result<()>
        ensures ok { OnOk result ((self.new.is_kept ≡ true) × (self.new.kept_for ≡ Some file)) }
        ensures err { OnErr result (self.new.is_kept ≡ false) }
    {
        self.is_kept = self.kept_for == Some(file);
        if !self.is_kept {
            sync_folder(rt, path)?;
            self.kept_for = Some(file);
            self.is_kept = true;
        }
        Ok(())
    }
}
