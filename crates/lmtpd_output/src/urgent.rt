//! A text of several lines as the journal is told an error.

use crate::lines::priority_in;
use log::Level;
use std::fmt;
use std::fmt::{Display, Formatter, Write};

/// Shows what the value shows, with the priority of an error before each line.
#[derive(Clone, Copy, Drop)]
pub struct Urgent<D>(pub D);

impl<D: Display> Display for Urgent<D> {
    fn fmt<W: Write>(&self, f: &mut Formatter<W>) -> fmt::Result {
        let mut out = Marking {
            out: f,
            is_within: false,
        };
        out.write(&self.0)
    }
}

// Hands on what is written, and before the first text of each line its priority.
struct Marking<'f, W> {
    out: &'f mut Formatter<W>,
    is_within: bool,
}

impl<'f, W> Drop for Marking<'f, W> {
    fn drop(self) {
        let Self {
            out: _,
            is_within: _,
        } = self;
    }
}

impl<'f, W: Write> Write for Marking<'f, W> {
    fn write_str(&mut self, text: &str) -> fmt::Result {
        for piece in text.split_inclusive('\n') {
            if !self.is_within {
                self.out.write_str(priority_in(true, Level::Error))?;
            }
            self.out.write_str(piece)?;
            self.is_within = !piece.ends_with('\n');
        }
        Ok(())
    }
}
