//! What threads hand back, a column for each part.

ghost use Rattle.std.specs.Prelude.{◌≡◌, ◌<◌, length, IfOk};
ghost use Rattle.lmtp_threads.specs.Columns.{no_columns, with_thread};

use std::alloc::{AllocError, Global};
use std::marker::Model;

/// What threads hand back, part by part, in their order. There is room for all of them.
#[derive(Drop)]
pub struct Columns<A, B, L, T> {
    /// The senders of each thread.
    pub rows: Vec<Vec<A>>,
    /// Its receiver.
    pub receivers: Vec<B>,
    /// What it was lent.
    pub lent: Vec<L>,
    /// What it says that it did.
    pub tallies: Vec<T>,
    /// One of them found a channel gone.
    pub gone: bool,
}

impl<A, B, L, T> Model for Columns<A, B, L, T> {
    ghost use Rattle.std.specs.Prelude.{vec_capacity};
    ghost use Rattle.lmtp_threads.specs.Grid.{lists};
    ghost use Rattle.lmtp_threads.specs.Columns.{ColumnsState, IsBeside};

    ghost Value = { ColumnsState A B L T };

    ghost view = { λ c. record {
      rows = lists c.rows.items;
      inboxes = c.receivers.items;
      lent = c.lent.items;
      tallies = c.tallies.items;
      gone = c.gone;
      room = vec_capacity c.rows;
    } };

    ghost invariant = { λ c. IsBeside c.receivers c.rows × IsBeside c.lent c.rows × IsBeside c.tallies c.rows };
}

impl<A: Drop, B: Drop, L: Drop, T: Drop> Columns<A, B, L, T> {
    /// The memory for that many threads.
    pub fn with_capacity(alloc: Global, threads: usize) -> Result<Columns<A, B, L, T>, AllocError>
        ensures { IfOk result (λ columns. columns ≡ no_columns threads) }
    {
        Ok(Columns {
            rows: Vec::with_capacity(alloc, threads)?,
            receivers: Vec::with_capacity(alloc, threads)?,
            lent: Vec::with_capacity(alloc, threads)?,
            tallies: Vec::with_capacity(alloc, threads)?,
            gone: false,
        })
    }

    /// What one more thread handed back.
    pub fn push(&mut self, row: Vec<A>, receiver: B, lent: L, tally: T, gone: bool)
        requires { length self.old.rows < self.old.room }
        ensures { self.new ≡ with_thread self.old row.items receiver lent tally gone }
    {
        self.rows.push_reserved(row);
        self.receivers.push_reserved(receiver);
        self.lent.push_reserved(lent);
        self.tallies.push_reserved(tally);
        self.gone |= gone;
    }
}
