//! What one mailbox of a thread has at hand for its turn: its open file, room for the path of its lock file, the files
//! that others of the thread left open, and what lock files are made of.
//!
//! A lock file is linked from one that is made at the first turn and stays, `PATH.source.lock` of the thread's first
//! mailbox: to make a file and write to it for each turn takes ten times as long. Where there is none to link it from
//! it is made.
ghost use Rattle.std.specs.Prelude.{◌≡◌, ◌+◌, ◌-◌, [], ◌∷◌, ◌++◌, codes, drop, length, string_bytes};
ghost use Rattle.std.specs.Prelude.{Contains, IfOk, IfSome, MatchOption, None, OnOk};
ghost use Rattle.mbox_file.specs.OpenFiles.{IsWithoutOne};

use crate::lock_file::{Held, LockSource, SourceTries};
use crate::open_files::OpenFiles;
use crate::plain::{Node, OpenNode, is_same, node_of, remove_node, remove_open, system_fault};
use crate::stale::{Caution, is_stale};
use mbox_locks::owner_text;
use mbox_spool::InUse;
use std::alloc::{AllocError, Global};
use std::fs::{FileTimes, Files, Metadata, OpenFile, OpenOptions};
use std::io::{ErrorKind, Write};
use std::os::unix::fs::{MetadataExt, OpenOptionsExt};
use std::time::{Clock, SystemTime};
use std::{fs, io};

/// Others read in a lock file whose it is, where the umask lets them; the service's doesn't, and they go by its age.
const LOCK_MODE: u32 = 0o644;

/// The longest path that the system takes.
const PATH_SIZE: usize = 4_096;

/// A thread's workspace, which one of its mailboxes has at a time.
pub(crate) struct Workspace<R: Files + Clock + Drop> {
    rt: R,
    // of the mailbox that has it
    pub open: Option<OpenNode<R::File>>,
    lock_path: String,
    // its lock file, where that was made and not linked
    made: Option<R::File>,
    owner: String,
    source_path: String,
    source: Option<LockSource<R::File>>,
    source_tries: SourceTries,
    pub open_files: OpenFiles<R::File>,
}

/// What the lock files were linked from goes with it.
impl<R: Files + Clock + Drop> Drop for Workspace<R> {
    fn drop(self) {
        let Workspace {
            rt,
            open: _,
            lock_path: _,
            made: _,
            owner: _,
            source_path,
            source,
            source_tries: _,
            open_files: _,
        } = self;
        if let Some(source) = source {
            let _ = remove_node(&rt, source_path.as_str(), source.made.node());
        }
    }
}

impl<R: Files + Clock + Drop> Workspace<R> {
    /// For mailboxes of which the first is at that path.
    pub fn new(
        rt: R,
        alloc: Global,
        path: &str,
        source_tries: SourceTries,
        open_files: OpenFiles<R::File>,
    ) -> Result<Workspace<R>, AllocError>
        ensures source { IfOk result (λ made. string_bytes made.source_path ≡ path.now ++ codes ".source.lock") }
        ensures tries { IfOk result (λ made. made.source_tries ≡ source_tries) }
        ensures files { IfOk result (λ made. made.open_files ≡ open_files) }
        ensures closed { IfOk result (λ made. made.open ≡ None) }
    {
        Ok(Workspace {
            rt,
            open: None,
            lock_path: String::with_capacity(alloc, PATH_SIZE)?,
            made: None,
            owner: owner_text(alloc)?,
            source_path: format!(in alloc; "{path}.source.lock")?,
            source: None,
            source_tries,
            open_files,
        })
    }

    /// It is that mailbox's now.
    pub fn serve(&mut self, path: &str) -> Result<(), AllocError>
        ensures lock { OnOk result (string_bytes self.new.lock_path ≡ path.now ++ codes ".lock") }
        ensures files { self.new.open_files ≡ self.old.open_files }
    {
        self.lock_path.clear();
        self.lock_path.push_str(path)?;
        self.lock_path.push_str(".lock")
    }

    /// Its mailbox, of that number, has the file at hand that it left open.
    pub fn fetch_open(&mut self, place: u32)
        ensures own { IfSome self.new.open (λ file. Contains self.old.open_files.files.items
            (record { place = place; file = file })) }
        ensures others { MatchOption self.new.open
            (self.new.open_files.files.items ≡ self.old.open_files.files.items)
            (λ file. IsWithoutOne (record { place = place; file = file })
            self.old.open_files.files.items self.new.open_files.files.items) }
        ensures most { self.new.open_files.most ≡ self.old.open_files.most }
    {
        self.open = self.open_files.take(place);
    }

    /// What its mailbox, of that number, had at hand goes, but for its open file, which is among those that stay open.
    pub fn rest(&mut self, place: u32, lock_file: Held)
        ensures none { self.new.open ≡ None }
        ensures made { self.new.made ≡ None }
        ensures kept { MatchOption self.old.open (self.new.open_files ≡ self.old.open_files)
            (λ file. self.new.open_files.files.items
            ≡ drop (length self.old.open_files.files.items + 1 - self.old.open_files.most)
            (self.old.open_files.files.items ++ record { place = place; file = file } ∷ [])) }
        ensures most { self.new.open_files.most ≡ self.old.open_files.most }
    {
        if lock_file.node().is_some() {
            self.leave_source();
        }
        self.made = None;
        if let Some(open) = self.open.take() {
            self.open_files.keep(place, open);
        }
    }

    // Makes the file that lock files are linked from. One that was left behind goes; where a server has one, or it
    // can't be made, there is none for this one, until a later try.
    fn have_source(&mut self, caution: &mut Caution) {
        if self.source.is_some() {
            return;
        }
        if self.source_tries.begin(self.rt.monotonic())
            && self.remove_left_source(caution).is_ok()
        {
            self.source = self.make_source().ok();
        }
    }

    fn remove_left_source(&self, caution: &mut Caution) -> io::Result<()> {
        let path = self.source_path.as_str();
        let Ok(found) = fs::symlink_metadata(&self.rt, path) else {
            return Ok(());
        };
        if is_stale(&self.rt, path, &found, self.owner.as_str(), caution) {
            remove_node(&self.rt, path, node_of(&found))?;
        }
        Ok(())
    }

    // What it says is kept through a crash before anything is linked from it, since a lock file that says nothing has
    // to grow old.
    fn make_source(&self) -> io::Result<LockSource<R::File>> {
        let made = self.make_file(self.source_path.as_str())?;
        match made.file.sync_data() {
            Ok(()) => Ok(LockSource::of(made)),
            Err(error) => {
                remove_open(&self.rt, self.source_path.as_str(), &made.file);
                Err(error)
            }
        }
    }

    // Makes a file that says whose it is. Where that can't be written there is none afterwards.
    fn make_file(&self, path: &str) -> io::Result<OpenNode<R::File>> {
        let mut file = OpenOptions::new()
            .write(true)
            .create_new(true)
            .mode(LOCK_MODE)
            .open(&self.rt, path)?;
        let made = match file.metadata() {
            Ok(metadata) => match file.write_all(self.owner.as_bytes()) {
                Ok(()) => Ok(metadata),
                Err(error) => Err(error),
            },
            Err(error) => Err(error),
        };
        match made {
            Ok(metadata) => Ok(OpenNode::of(file, &metadata)),
            Err(error) => {
                remove_open(&self.rt, path, &file);
                Err(error)
            }
        }
    }

    // Links the lock file from the source, whose time is that of now.
    fn link_lock_file(&mut self) -> Link {
        let Some(source) = &mut self.source else {
            return Link::None;
        };
        if source.renew(&self.rt).is_err() {
            return Link::None;
        }
        match fs::hard_link(&self.rt, self.source_path.as_str(), self.lock_path.as_str()) {
            Ok(()) if has_two_names(&source.made.file) => Link::Made(source.made.node()),
            Ok(()) => {
                // another server's source stands in the place of this one's
                let _ = self.remove_link();
                Link::None
            }
            Err(error) if error.kind() == ErrorKind::AlreadyExists => Link::Others,
            Err(_) => Link::None,
        }
    }

    // Removes the lock file where it is still what it was linked from: what the path of the source names.
    fn remove_link(&self) -> io::Result<()> {
        let linked = fs::symlink_metadata(&self.rt, self.source_path.as_str())?;
        remove_node(&self.rt, self.lock_path.as_str(), node_of(&linked))
    }

    /// Makes the lock file, unless there is one, which is `Held::No`. What it is linked from is made where the
    /// mailbox's own file is open.
    pub fn make_lock_file(&mut self, caution: &mut Caution) -> Result<Held, InUse> {
        if self.open.is_some() {
            self.have_source(caution);
        }
        match self.link_lock_file() {
            Link::Made(node) => return Ok(Held::Linked(node)),
            Link::Others => return Ok(Held::No),
            Link::None => self.source = None,
        }
        match self.make_file(self.lock_path.as_str()) {
            Ok(made) => {
                let node = made.node();
                self.made = Some(made.file);
                Ok(Held::Made(node))
            }
            Err(error) if error.kind() == ErrorKind::AlreadyExists => Ok(Held::No),
            Err(error) => Err(system_fault(error)),
        }
    }

    /// What the lock file's path names now, where it names something.
    pub fn find_lock_file(&self) -> io::Result<Option<Metadata>> {
        match fs::symlink_metadata(&self.rt, self.lock_path.as_str()) {
            Ok(found) => Ok(Some(found)),
            Err(error) if error.kind() == ErrorKind::NotFound => Ok(None),
            Err(error) => Err(error),
        }
    }

    /// Whether the lock file that was found was left behind.
    pub fn is_left(&self, found: &Metadata, caution: &mut Caution) -> bool {
        let path = self.lock_path.as_str();
        is_stale(&self.rt, path, found, self.owner.as_str(), caution)
    }

    /// Removes the lock file that was found, where it is still that one. True: there is none now.
    pub fn remove_found(&self, found: &Metadata) -> io::Result<bool> {
        match self.find_lock_file()? {
            Some(again) if is_same(&again, found) => {}
            Some(_) => return Ok(false),
            None => return Ok(true),
        }
        match fs::remove_file(&self.rt, self.lock_path.as_str()) {
            Err(error) if error.kind() != ErrorKind::NotFound => Err(error),
            _ => Ok(true),
        }
    }

    /// Removes the lock file, where it is still that one.
    pub fn remove_lock_file(&mut self, node: Node) -> io::Result<()> {
        remove_node(&self.rt, self.lock_path.as_str(), node)?;
        self.made = None;
        Ok(())
    }

    /// Sets the time of the lock file that is its own to now.
    pub fn renew(&self, own: Held) -> io::Result<()> {
        let now = SystemTime::now(&self.rt)?;
        let times = FileTimes::new().set_modified(now);
        match (own, &self.made, &self.source) {
            (Held::Made(_), Some(made), _) => made.set_times(times),
            (Held::Linked(_), _, Some(source)) => source.made.file.set_times(times),
            _ => Err(none_open()),
        }
    }

    // Has the next lock file linked from another source, since this one's time is also that of a lock file which
    // couldn't be removed.
    fn leave_source(&mut self)
        ensures open { self.new.open ≡ self.old.open }
        ensures files { self.new.open_files ≡ self.old.open_files }
    {
        if let Some(source) = self.source.take() {
            let _ = remove_node(&self.rt, self.source_path.as_str(), source.made.node());
            self.source_tries = SourceTries::NotYet;
        }
    }
}

// What came of a link.
enum Link {
    // The lock file is another name of that file.
    Made(Node),
    // There is a lock file already.
    Others,
    // There is no source, or no link is possible.
    None,
}

fn has_two_names<F: OpenFile>(file: &F) -> bool {
    match file.metadata() {
        Ok(metadata) => metadata.nlink() == 2,
        Err(_) => false,
    }
}

/// What a call says for which nothing is open.
pub(crate) fn none_open() -> io::Error {
    io::Error::from_raw_os_error(libc::EBADF)
}
