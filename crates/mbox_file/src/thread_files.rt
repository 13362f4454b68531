//! What the mailboxes of a thread share for their turns.
ghost use Rattle.std.specs.Prelude.{◌≡◌, string_bytes, IfOk};

use crate::lock_file::SourceTries;
use crate::open_files::OpenFiles;
use crate::workspace::Workspace;
use std::alloc::{AllocError, Global};
use std::fs::Files;
use std::sync::Mutex;
use std::time::Clock;

/// How many files the mailboxes of a thread may have open.
#[derive(Clone, Copy, Debug, PartialEq, Eq)]
pub struct FileLimits {
    /// So many stay open between turns, OPEN_FILES at most.
    pub open_files: usize,
    /// One more does, from which lock files are linked.
    pub has_source: bool,
}

impl FileLimits {
    /// Of a mailbox that shares nothing.
    pub(crate) fn alone(has_source: bool) -> FileLimits
        ensures { result ≡ record { open_files = 1; has_source = has_source } }
    {
        FileLimits {
            open_files: 1,
            has_source,
        }
    }
}

/// What the mailboxes of a thread share: a workspace, which the one has whose turn it is. One that asks for a turn while
/// another one has it finds itself locked.
#[derive(Drop)]
pub struct ThreadFiles<R: Files + Clock + Drop> {
    // the first one's, by which clauses tell what one thread's share from what another's do
    path: String,
    workspace: Mutex<Option<Box<Workspace<R>>>>,
}

impl<R: Files + Clock + Drop> ThreadFiles<R> {
    /// For mailboxes of which the first is at that path: beside it stands what lock files are linked from. From here on
    /// it takes no memory.
    pub fn new(
        rt: R,
        alloc: Global,
        path: &str,
        limits: FileLimits,
    ) -> Result<ThreadFiles<R>, AllocError>
        ensures { IfOk result (λ files. string_bytes files.path ≡ path.now) }
    {
        let source_tries = if limits.has_source {
            SourceTries::NotYet
        } else {
            SourceTries::Never
        };
        let open_files = OpenFiles::new(alloc, limits.open_files)?;
        let workspace = Workspace::new(rt, alloc, path, source_tries, open_files)?;
        Ok(ThreadFiles {
            path: format!(in alloc; "{path}")?,
            workspace: Mutex::new(Some(Box::new(alloc, workspace)?)),
        })
    }

    /// The workspace, unless another mailbox has it.
    pub(crate) fn take(&self) -> Option<Box<Workspace<R>>> {
        self.workspace.try_lock()?.take()
    }

    /// Puts the workspace back, unless it can't be now.
    pub(crate) fn put_back(&self, workspace: Box<Workspace<R>>) -> Option<Unreturned<R>> {
        match self.workspace.try_lock() {
            Some(mut place) => {
                *place = Some(workspace);
                None
            }
            None => Some(Unreturned { workspace }),
        }
    }
}

/// A workspace that couldn't be put back, which only `put_back` says.
#[derive(Drop)]
pub(crate) struct Unreturned<R: Files + Clock + Drop> {
    workspace: Box<Workspace<R>>,
}

impl<R: Files + Clock + Drop> Unreturned<R> {
    /// The workspace, for its mailbox's next turn or to be put back again.
    pub fn again(self) -> Box<Workspace<R>> {
        self.workspace
    }
}
