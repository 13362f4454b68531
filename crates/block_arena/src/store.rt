//! The bytes of the blocks.

ghost use Rattle.std.specs.Prelude.{◌≡◌, ◌+◌, ◌-◌, ◌<◌, ◌≤◌, ◌++◌, [], length, get_or, take, drop, replicate};
ghost use Rattle.std.specs.Prelude.{slice_set, vec_capacity, IfOk};
ghost use Rattle.block_arena.specs.Rows.{zeros, with_piece};

use mail_world::limits::BLOCK_SIZE;
use std::alloc::{AllocError, Global};
use std::marker::Model;

static ZEROS: [u8; BLOCK_SIZE] = [0; BLOCK_SIZE];

/// Blocks that are zeros at first. Room for all is reserved, and a block is made when it or one after it is written.
/// Contracts see all blocks.
#[derive(Drop)]
pub struct Store {
    made: Vec<[u8; BLOCK_SIZE]>,
    count: u32,
}

impl Model for Store {
    ghost use Rattle.std.specs.Prelude.{ℕ, List, length, vec_capacity, ◌≤◌};
    ghost use Rattle.block_arena.specs.Rows.{padded};

    ghost Value = { List (List ℕ) };

    ghost view = { λ s. padded s.made.items s.count };

    ghost invariant = { λ s. (length s.made.items ≤ s.count) × (s.count ≤ vec_capacity s.made) };
}

impl Store {
    pub fn new(alloc: Global, count: u32) -> Result<Store, AllocError>
        ensures { IfOk result (λ s. s ≡ replicate count zeros) }
    {
        let made = Vec::with_capacity(alloc, count as usize)?;
        Ok(Store { made, count })
    }

    /// The bytes of a block.
    pub fn row(&self, block: u32) -> &[u8; BLOCK_SIZE]
        requires { block < length self.now }
        ensures { result.now ≡ get_or self.now block [] }
    {
        match self.made.get(block as usize) {
            Some(row) => row,
            None => &ZEROS,
        }
    }

    /// Writes a piece into a block.
    pub fn fill(&mut self, block: u32, at: usize, piece: &[u8])
        requires block { block < length self.old }
        requires fits { at + length piece.now ≤ length (get_or self.old block []) }
        ensures { self.new ≡ slice_set self.old block (with_piece (get_or self.old block []) at piece.now) }
    {
        make(&mut self.made, block as usize + 1);
        fill(&mut self.made[block as usize], at, piece);
    }
}

/// Makes what is missing of the first blocks, up to that count.
fn make(made: &mut Vec<[u8; BLOCK_SIZE]>, count: usize)
    requires { count ≤ vec_capacity made.old }
    ensures items { made.new.items ≡ made.old.items ++ replicate (count - length made.old.items) zeros }
    ensures capacity { vec_capacity made.new ≡ vec_capacity made.old }
{
    for block in made.len()..count {
        made.push_reserved(ZEROS);
    }
}

/// Writes a piece into a block's bytes.
fn fill(row: &mut [u8; BLOCK_SIZE], at: usize, piece: &[u8])
    requires { at + length piece.now ≤ length row.old }
    ensures { row.new ≡ with_piece row.old at piece.now }
{
    row[at..at + piece.len()].copy_from_slice(piece);
}
