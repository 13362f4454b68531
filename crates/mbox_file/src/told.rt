//! How a file of the system's stands by what it was asked and what was answered. Only clauses read it, and it takes no
//! memory.
ghost use Rattle.std.specs.Prelude.{◌≡◌};
ghost use Rattle.std.specs.Borrow.{ftrue};
ghost use Rattle.mbox_file.specs.MailboxFile.{FileState};

use crate::entry::Entry;
use std::marker::{Brand, Model, PhantomData};

/// What the system was asked, with its answer.
#[derive(Clone, Copy)]
pub(crate) enum Step<'a> {
    LockFileMade,
    /// Another file may have been opened as what was left behind was looked at.
    LockFileRefused,
    LockFileRemoved,
    LockFileStays,
    RangeLocked,
    RangeRefused,
    RangeUnlocked,
    /// What its thread lent was handed back.
    Rested,
    /// The path names the open file.
    Named,
    /// It names another file, or none.
    NotNamed,
    /// Whether the folder keeps the entry of the open file through a crash.
    EntrySeen(&'a Entry),
    /// One in memory has no entry that a crash could take.
    NoFolder,
    /// What was asked for a turn wasn't granted, and nothing changed.
    Refused,
    Reopened,
    NotReopened,
    /// The file has that many bytes, of which these are the last.
    Measured(u64, &'a [u8]),
    /// One in memory has these bytes, all of them kept.
    Holds(&'a [u8]),
    Wrote(&'a [u8]),
    /// A write of these bytes failed after that many.
    WroteInPart(&'a [u8], usize),
    Kept,
    NotKept,
    Cut(u64),
    NotCut(u64),
}

// What is told. A caller that passes `Brand` picks it.
trait Telling {
    ghost state: { FileState };
}

impl Telling for Brand {
    ghost use Rattle.mbox_file.specs.Told.{at_start};

    ghost state = { at_start };
}

/// What a file has told. Nothing ties it to a call of the system: each call and its step stand side by side.
#[derive(Drop)]
pub(crate) struct Told {
    marker: PhantomData<()>,
    pub ghost state: { FileState },
}

impl Model for Told {
    ghost also_owns = { λ _. ftrue };
}

// It owns nothing.
unsafe impl Send for Told {}

impl Told {
    ghost use Rattle.mbox_file.specs.Told.{at_start, after};

    /// Nothing was asked yet.
    pub fn new() -> Told
        ensures { result.state ≡ at_start }
    {
        Told::telling::<Brand>()
    }

    /// One step more.
    pub fn add(&mut self, step: Step<'_>)
        ensures { self.new.state ≡ after self.old.state step.entry }
    {
        let next = Told::then::<Brand>(self, step);
        *self = next;
    }

    // What is picked may speak of what was told before, and of a step.
    fn then<T: Telling>(_old: &Told, _step: Step<'_>) -> Told
        ensures { result.state ≡ T.state }
    {
        Told::telling::<T>()
    }

    // Only who picks what is told says what that is. Its proof is written by hand.
    fn telling<T: Telling>() -> Told
        ensures { result.state ≡ T.state }
    {
        Told {
            marker: PhantomData,
        }
    }
}
