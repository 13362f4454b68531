//! The files of a thread's mailboxes that stay open between turns.
ghost use Rattle.std.specs.Prelude.{◌≡◌, ◌≤◌, ◌+◌, ◌-◌, [], ◌∷◌, ◌++◌, Contains, drop, length, min};
ghost use Rattle.std.specs.Prelude.{vec_capacity, vec_len, IfOk, IfSome, MatchOption, None};
ghost use Rattle.std.specs.List.{AllByRecursion};
ghost use Rattle.mbox_file.specs.OpenFiles.{IsWithoutOne};

use crate::plain::OpenNode;
use std::alloc::{AllocError, Global};

/// How many stay open at most.
pub const OPEN_FILES: usize = 16;

/// An open file, and the number that its mailbox has in its thread.
#[derive(Drop)]
pub(crate) struct Rested<F: Drop> {
    place: u32,
    file: OpenNode<F>,
}

/// Open files, the one that was used last at the end.
#[derive(Drop)]
pub(crate) struct OpenFiles<F: Drop> {
    files: Vec<Rested<F>>,
    most: usize,
    ghost room: { (vec_len files ≤ most) × (most ≤ vec_capacity files) },
}

impl<F: Drop> OpenFiles<F> {
    /// None yet, and so many at most, OPEN_FILES of these.
    pub fn new(alloc: Global, most: usize) -> Result<OpenFiles<F>, AllocError>
        ensures none { IfOk result (λ made. made.files.items ≡ []) }
        ensures most { IfOk result (λ made. made.most ≡ min most OPEN_FILES) }
    {
        let most = most.min(OPEN_FILES);
        Ok(OpenFiles {
            files: Vec::with_capacity(alloc, most)?,
            most,
        })
    }

    /// The file of the mailbox with that number, where it is still open. The others stay open.
    pub fn take(&mut self, place: u32) -> Option<OpenNode<F>>
        ensures own { IfSome result (λ file. Contains self.old.files.items (record { place = place; file = file })) }
        ensures none { result ≡ None → AllByRecursion (λ it. it.place ≡ place → ⊥) self.old.files.items }
        ensures others { MatchOption result (self.new.files.items ≡ self.old.files.items) (λ file. IsWithoutOne
            (record { place = place; file = file }) self.old.files.items self.new.files.items) }
        ensures most { self.new.most ≡ self.old.most }
    {
        let at = self.files.iter().position(|it| it.place == place)?;
        Some(self.files.remove(at).file)
    }

    /// Keeps that mailbox's file open, and closes the one that was used longest ago where there are too many.
    pub fn keep(&mut self, place: u32, file: OpenNode<F>)
        ensures last { self.new.files.items ≡ drop (length self.old.files.items + 1 - self.old.most)
            (self.old.files.items ++ record { place = place; file = file } ∷ []) }
        ensures same { self.new.most ≡ self.old.most }
    {
        if self.most == 0 {
            return;
        }
        if self.files.len() >= self.most {
            self.files.remove(0);
        }
        self.files.push_reserved(Rested { place, file });
    }
}
