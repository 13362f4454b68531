//! Which files a mailbox may be: plain ones, so that nobody who may write the folder has letters appended to a file
//! that a link leads to.
ghost use Rattle.std.specs.Prelude.{◌≡◌};

use crate::file::open_or_make;
use mbox_spool::InUse;
use std::fs::{Files, Metadata, OpenFile, OpenOptions};
use std::io::ErrorKind;
use std::os::unix::fs::MetadataExt;
use std::time::UNIX_EPOCH;
use std::{fs, io};

/// Which file it is, of those that exist now.
#[derive(Clone, Copy, PartialEq, Eq)]
pub(crate) struct Node {
    dev: u64,
    ino: u64,
}

pub(crate) fn node_of(metadata: &Metadata) -> Node {
    Node {
        dev: metadata.dev(),
        ino: metadata.ino(),
    }
}

/// Which file it is, of all that there ever were; where no time of birth is known, of those that exist now.
#[derive(Clone, Copy, PartialEq, Eq)]
pub(crate) struct Identity {
    pub node: Node,
    /// Nanoseconds since 1970.
    pub born: Option<u64>,
}

fn identity_of(metadata: &Metadata) -> Identity {
    Identity {
        node: node_of(metadata),
        born: birth_of(metadata),
    }
}

fn birth_of(metadata: &Metadata) -> Option<u64> {
    let born = metadata.created().ok()?.duration_since(UNIX_EPOCH).ok()?;
    u64::try_from(born.as_nanos()).ok()
}

/// A file, and which one it is. Its number isn't given to another file while it is open.
#[derive(Drop)]
pub(crate) struct OpenNode<F: Drop> {
    pub file: F,
    pub identity: Identity,
}

impl<F: Drop> OpenNode<F> {
    /// Of an open file.
    pub fn of(file: F, metadata: &Metadata) -> OpenNode<F> {
        OpenNode {
            file,
            identity: identity_of(metadata),
        }
    }

    pub fn node(&self) -> Node
        ensures { result ≡ self.now.identity.node }
    {
        self.identity.node
    }
}

/// Which plain files are taken, and whether one is made where it is missing.
#[derive(Clone, Copy)]
pub(crate) enum Taken {
    /// One's own, where root asks. It is made with these permission bits.
    Own(u32),
    /// Anybody's. None is made.
    Anybodys,
}

impl Taken {
    /// A regular file with one name, of an owner whose files are taken. Metadata that doesn't follow a symbolic link
    /// tells of the link.
    pub fn is_plain(self, metadata: &Metadata) -> bool {
        metadata.is_file() && metadata.nlink() <= 1 && self.takes_owner(metadata.uid())
    }

    /// One's own: one is made where nothing is there.
    pub fn is_own(self) -> bool {
        match self {
            Taken::Own(_) => true,
            Taken::Anybodys => false,
        }
    }

    fn takes_owner(self, uid: u32) -> bool {
        match self {
            Taken::Own(_) => uid == 0 || libc::geteuid() != 0,
            Taken::Anybodys => true,
        }
    }

    fn open<R: Files>(self, rt: &R, path: &str) -> io::Result<R::File> {
        match self {
            Taken::Own(mode) => open_or_make(rt, path, mode),
            Taken::Anybodys => OpenOptions::new().read(true).append(true).open(rt, path),
        }
    }
}

/// Opens the plain file at that path, or makes it, where that is asked for; else nothing is opened that wasn't seen to
/// be plain. A link that leads elsewhere is seen before it is followed, or, where it was put there meanwhile, by what
/// the path names afterwards: a turn looks at that once more.
pub(crate) fn open_plain<R: Files>(
    rt: &R,
    path: &str,
    taken: Taken,
) -> Result<OpenNode<R::File>, InUse> {
    if !names_plain(rt, path, taken)? && !taken.is_own() {
        return Err(InUse::System(libc::ENOENT));
    }
    let file = taken.open(rt, path).map_err(system_fault)?;
    let metadata = file.metadata().map_err(system_fault)?;
    if !taken.is_plain(&metadata) || !names_plain(rt, path, taken)? {
        return Err(InUse::NotPlain);
    }
    Ok(OpenNode::of(file, &metadata))
}

/// Whether the path names a plain file that is taken. False: it names nothing.
pub(crate) fn names_plain<R: Files>(rt: &R, path: &str, taken: Taken) -> Result<bool, InUse> {
    match fs::symlink_metadata(rt, path) {
        Ok(found) if taken.is_plain(&found) => Ok(true),
        Ok(_) => Err(InUse::NotPlain),
        Err(error) if error.kind() == ErrorKind::NotFound => Ok(false),
        Err(error) => Err(system_fault(error)),
    }
}

/// Removes what the path names, if it is still that file.
pub(crate) fn remove_node<R: Files>(rt: &R, path: &str, node: Node) -> io::Result<()> {
    match fs::symlink_metadata(rt, path) {
        Ok(found) if node_of(&found) == node => fs::remove_file(rt, path),
        Ok(_) => Ok(()),
        Err(error) if error.kind() == ErrorKind::NotFound => Ok(()),
        Err(error) => Err(error),
    }
}

/// Removes what the path names, if it is still the open file.
pub fn remove_open<R: Files>(rt: &R, path: &str, file: &R::File) {
    if let Ok(metadata) = file.metadata() {
        let _ = remove_node(rt, path, node_of(&metadata));
    }
}

/// A number may be given again to a file that is made after another one was removed.
pub(crate) fn is_same(again: &Metadata, found: &Metadata) -> bool {
    node_of(again) == node_of(found)
        && again.mtime() == found.mtime()
        && again.mtime_nsec() == found.mtime_nsec()
}

/// What the system said, by its number.
pub(crate) fn system_fault(error: io::Error) -> InUse {
    match (error.raw_os_error(), error.kind()) {
        (Some(code), _) => InUse::System(code),
        (None, ErrorKind::OutOfMemory) => InUse::System(libc::ENOMEM),
        (None, _) => InUse::System(libc::EIO),
    }
}

/// What a file that can't be opened for a turn is at the start.
pub(crate) fn error_of(in_use: InUse) -> io::Error {
    match in_use {
        InUse::System(code) => io::Error::from_raw_os_error(code),
        InUse::Locked | InUse::Failed => io::Error::from(ErrorKind::WouldBlock),
        InUse::NotPlain => io::Error::new(ErrorKind::PermissionDenied, "not plain"),
    }
}
