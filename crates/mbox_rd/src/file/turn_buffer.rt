//! The bytes that a turn took and the file hasn't, and how many of them may wait.
ghost use Rattle.std.specs.Prelude.{◌≡◌, ◌<◌, ◌≤◌, [], ◌++◌, length, take, IfOk};
ghost use Rattle.mbox_spool.specs.Lines.{HasLines};

use crate::shared_buffer::{BUFFER_SIZE, OWN_SIZE, SharedBuffer};
use mbox_spool::{LINES_ROOM, copy_lines};
use std::alloc::{AllocError, Global};
use std::marker::Model;

/// What waits, in a mailbox's own small buffer or, in a turn, in the one that it shares.
#[derive(Drop)]
pub(super) struct TurnBuffer {
    bytes: Vec<u8>,
    // how many bytes may wait until they are written
    room: usize,
}

impl Model for TurnBuffer {
    ghost use Rattle.std.specs.Prelude.{◌≤◌, ℕ, List, vec_capacity};
    ghost use Rattle.mbox_rd.specs.declared.shared_buffer.TheConstants.{OWN_SIZE};

    ghost Value = { List ℕ };

    ghost view = { λ s. s.bytes.items };

    ghost invariant = { λ s. (1 ≤ s.room) × (s.room ≤ vec_capacity s.bytes) × (OWN_SIZE ≤ vec_capacity s.bytes) };
}

// How many bytes go to the next multiple of the shared buffer's size after that place of a file.
fn room_at(at: u64) -> usize
    ensures { (1 ≤ result) × (result ≤ BUFFER_SIZE) }
{
    BUFFER_SIZE - (at % BUFFER_SIZE as u64) as usize
}

impl TurnBuffer {
    ghost use Rattle.mbox_rd.specs.FileSpool.{AddsLines};

    /// A mailbox's own, in which nothing waits.
    pub fn new(alloc: Global) -> Result<TurnBuffer, AllocError>
        ensures { IfOk result (λ waiting. waiting ≡ []) }
    {
        Ok(TurnBuffer {
            bytes: Vec::with_capacity(alloc, OWN_SIZE)?,
            room: OWN_SIZE,
        })
    }

    /// What waits.
    pub fn as_slice(&self) -> &[u8]
        ensures { result.now ≡ self.now }
    {
        &self.bytes
    }

    /// Has the shared one for a turn, where it is to be had, at a file that is so long.
    pub fn begin(&mut self, shared: &SharedBuffer, at: u64)
        requires { self.old ≡ [] }
        ensures { self.new ≡ [] }
    {
        shared.lend(&mut self.bytes);
        self.room = room_at(at).min(self.bytes.capacity());
    }

    /// Hands it back as a turn ends. What waits is thrown away.
    pub fn end(&mut self, shared: &SharedBuffer)
        ensures { self.new ≡ [] }
    {
        self.clear();
        shared.take_back(&mut self.bytes);
        self.room = OWN_SIZE;
    }

    /// Throws away what waits.
    pub fn clear(&mut self)
        ensures { self.new ≡ [] }
    {
        self.bytes.clear();
    }

    /// All that waited was written, up to where the file is cut into pieces.
    pub fn begin_piece(&mut self)
        ensures { self.new ≡ [] }
    {
        self.bytes.clear();
        self.room = BUFFER_SIZE.min(self.bytes.capacity());
    }

    /// Takes as many bytes as may wait besides; none: it is full.
    pub fn take(&mut self, piece: &[u8]) -> usize
        ensures within { result ≤ length piece.now }
        ensures new { self.new ≡ self.old ++ take result piece.now }
        ensures some { self.old ≡ [] → 0 < length piece.now → 0 < result }
    {
        let free = self.room.saturating_sub(self.bytes.len());
        let n = piece.len().min(free);
        if self.bytes.extend_from_slice(&piece[..n]).is_err() {
            unreachable!();
        }
        n
    }

    /// Takes the lines of a piece as they are written, as far as there is room for them; none: for 64 bytes there is
    /// none.
    pub fn take_lines(&mut self, piece: &[u8]) -> usize
        requires { HasLines piece.now }
        ensures none { result ≡ 0 → self.new ≡ self.old }
        ensures some { 0 < result → AddsLines self.old self.new piece.now result }
    {
        let held = self.bytes.len();
        let free = self.room.saturating_sub(held);
        if free < LINES_ROOM {
            return 0;
        }
        if self
            .bytes
            .resize(held + free.min(LINES_ROOM + piece.len()), 0)
            .is_err()
        {
            unreachable!();
        }
        let copied = copy_lines(piece, &mut self.bytes[held..]);
        self.bytes.truncate(held + copied.made);
        copied.taken
    }
}
