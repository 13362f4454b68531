//! A spool over a file, on the heap: where lists and threads hand spools about, only a pointer is moved, and room that
//! is kept for one takes that of a pointer.
use crate::file::FileSpool;
use mbox_file::MailboxFile;
use mbox_spool::{InUse, Spool, SpoolFault, Tail};
use std::alloc::{AllocError, Global};
use std::marker::Model;
use std::time::Clock;

/// A spool over a file in a `Box`, which contracts see as the spool itself: each call goes to it.
#[derive(Drop)]
pub struct BoxedSpool<F: MailboxFile + Drop, C: Clock + Drop> {
    inner: Box<FileSpool<F, C>>,
}

impl<F: MailboxFile + Drop, C: Clock + Drop> Model for BoxedSpool<F, C> {
    ghost use Rattle.mbox_rd.specs.FileSpool.{FileSpool as Held};

    ghost Value = { Held F };

    ghost view = { λ s. s.inner.value };
}

impl<F: MailboxFile + Drop, C: Clock + Drop> BoxedSpool<F, C> {
    ghost use Rattle.std.specs.Prelude.{◌≡◌, IfOk};

    /// Moves a spool to the heap. From here on it takes no memory.
    pub fn new(alloc: Global, spool: FileSpool<F, C>) -> Result<BoxedSpool<F, C>, AllocError>
        ensures { IfOk result (λ boxed. boxed ≡ spool) }
    {
        Ok(BoxedSpool {
            inner: Box::new(alloc, spool)?,
        })
    }
}

impl<F: MailboxFile + Drop, C: Clock + Drop> Spool for BoxedSpool<F, C> {
    ghost use Rattle.std.specs.Prelude.{⊤};
    ghost use Rattle.mbox_rd.specs.FileSpool.{state_of};

    ghost state = { λ s. state_of F.state s };

    ghost MayFind = { λ last now. ⊤ };

    ghost MayRefuse = { λ broke refused. ⊤ };

    /// As the spool does.
    fn lock(&mut self) -> Result<u64, InUse> {
        self.inner.as_mut().lock()
    }

    /// As the spool does.
    fn is_waited_for(&mut self) -> bool {
        self.inner.as_mut().is_waited_for()
    }

    /// As the spool does.
    fn unlock(&mut self) {
        self.inner.as_mut().unlock()
    }

    /// As the spool does.
    fn append(&mut self, piece: &[u8]) -> Result<usize, SpoolFault> {
        self.inner.as_mut().append(piece)
    }

    /// As the spool does.
    fn append_lines(&mut self, piece: &[u8]) -> usize {
        self.inner.as_mut().append_lines(piece)
    }

    /// As the spool does.
    fn sync(&mut self) -> Result<(), SpoolFault> {
        self.inner.as_mut().sync()
    }

    /// As the spool's.
    fn tail(&self) -> Tail {
        self.inner.as_ref().tail()
    }
}
