//! The file of a copy in the file system.
ghost use Rattle.std.specs.Prelude.{◌≡◌};

use crate::target::CopyTarget;
use mbox_rd::{remove_open, sync_folder};
use std::fs::{Files, OpenFile, OpenOptions};
use std::io;
use std::io::Write;
use std::os::unix::fs::OpenOptionsExt;

/// Its owner reads and writes it, and nobody else.
const MODE: u32 = 0o600;

/// The file at a path, once it was made. It tells contracts its path, and its bytes where its file system's files do.
pub struct TargetFile<'a, R: Files> {
    rt: &'a R,
    path: &'a str,
    made: Option<R::File>,
}

impl<R: Files> Drop for TargetFile<'_, R> {
    fn drop(self) {
        let TargetFile {
            rt: _,
            path: _,
            made: _,
        } = self;
    }
}

impl<'a, R: Files> TargetFile<'a, R> {
    /// At that path, where nothing is made yet.
    pub fn new(rt: &'a R, path: &'a str) -> TargetFile<'a, R>
        ensures { result.path.now ≡ path.now }
    {
        TargetFile {
            rt,
            path,
            made: None,
        }
    }
}

impl<R: Files> CopyTarget for TargetFile<'_, R> {
    ghost use Rattle.std.specs.Prelude.{false};
    ghost use Rattle.lmtpd_copy.specs.Target.{bytes_of, untold};

    ghost tells = { false };

    ghost state = { λ s. untold s.path.now (bytes_of R.File.contents s.made) };

    /// A symbolic link of that name is there, wherever it leads.
    fn make(&mut self) -> io::Result<()> {
        let made = OpenOptions::new()
            .write(true)
            .create_new(true)
            .mode(MODE)
            .open(self.rt, self.path)?;
        self.made = Some(made);
        Ok(())
    }

    fn write(&mut self, bytes: &[u8]) -> io::Result<()> {
        match &mut self.made {
            Some(file) => file.write_all(bytes),
            None => Err(unmade()),
        }
    }

    fn keep(&mut self) -> io::Result<()> {
        match &self.made {
            Some(file) => file.sync_data()?,
            None => return Err(unmade()),
        }
        sync_folder(self.rt, self.path)
    }

    fn remove(&mut self) {
        if let Some(file) = &self.made {
            remove_open(self.rt, self.path, file);
        }
    }
}

// No call asks for a file that wasn't made.
fn unmade() -> io::Error {
    io::Error::from_raw_os_error(libc::EBADF)
}
