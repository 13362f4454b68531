//! The buffer between a stream and the conversation.

ghost use Rattle.std.specs.Prelude.{◌≡◌, ◌≤◌, ◌<◌, vec_len, length, IfOk};
ghost use Rattle.std.specs.Io.KnownBytes.{ReadConsumes};

use crate::retry::read_some;
use std::alloc::{AllocError, Global};
use std::io;
use std::io::Read;

/// The bytes that one read of the stream asks for.
const BUFFER_SIZE: usize = 65_536;

/// The bytes that a piece has at most.
pub const PIECE_LIMIT: usize = 4_096;

/// Bytes that were read of a stream at once, and are lent in pieces.
#[derive(Drop)]
pub struct ReadBuffer {
    bytes: Vec<u8>,
    // the piece that is lent stands from `lent` to `start`, and what waits from there to the end
    lent: usize,
    start: usize,
    end: usize,
    ghost within: { (lent ≤ start) × (start ≤ end) × (end ≤ vec_len bytes) },
    ghost size: { vec_len bytes ≡ 65_536 },
}

impl ReadBuffer {
    ghost use Rattle.std.specs.Prelude.{[], take, drop, min, IsTrue, ◌≡◌, ◌↔◌, ◌++◌, ◌-◌, Ok, OnErr};
    ghost use Rattle.lmtp_talk.specs.ReadBuffer.{waiting, piece_of, Refills, Lends};

    /// A buffer of 64 KiB.
    pub fn new(alloc: Global) -> Result<ReadBuffer, AllocError>
        ensures { IfOk result (λ buffer. (waiting buffer ≡ []) × (piece_of buffer ≡ [])) }
    {
        Ok(ReadBuffer {
            bytes: vec![in alloc; 0; BUFFER_SIZE]?,
            lent: 0,
            start: 0,
            end: 0,
        })
    }

    /// The piece that is lent.
    pub fn piece(&self) -> &[u8]
        ensures { result.now ≡ piece_of self.now }
    {
        &self.bytes[self.lent..self.start]
    }

    /// Whether nothing waits.
    pub fn is_empty(&self) -> bool
        ensures { IsTrue result ↔ (waiting self.now ≡ []) }
    {
        self.start == self.end
    }

    /// What waits.
    pub fn unread(&self) -> &[u8]
        ensures { result.now ≡ waiting self.now }
    {
        &self.bytes[self.start..self.end]
    }

    /// Lets go of the piece, and of all that waits but so many bytes.
    pub fn keep(&mut self, count: usize)
        ensures kept { waiting self.new ≡ take count (waiting self.old) }
        ensures gone { piece_of self.new ≡ [] }
    {
        self.lent = self.start;
        self.end = self.start + count.min(self.end - self.start);
    }

    /// Reads once; nothing may wait.
    pub fn refill<T: Read>(&mut self, stream: &mut T) -> io::Result<usize>
        requires { waiting self.old ≡ [] }
        ensures fills { Refills (T.remaining stream.old) (T.remaining stream.new) result (waiting self.new) }
    {
        self.lent = 0;
        self.start = 0;
        self.end = 0;
        let size = read_some(stream, &mut self.bytes)?;
        self.end = size;
        Ok(size)
    }

    /// Lends the first piece of what waits, and says how many bytes it has.
    pub fn lend(&mut self) -> usize
        ensures lends { Lends (waiting self.old) (piece_of self.new) (waiting self.new) result }
    {
        let size = PIECE_LIMIT.min(self.end - self.start);
        self.lent = self.start;
        self.start += size;
        size
    }

    /// Reads once, as much as a piece may have, and lends all that comes. What waited is forgotten.
    pub fn take_piece<T: Read>(&mut self, stream: &mut T) -> io::Result<usize>
        ensures takes { Refills (T.remaining stream.old) (T.remaining stream.new) result (piece_of self.new) }
        ensures within { IfOk result (λ n. n ≤ PIECE_LIMIT) }
        ensures none { waiting self.new ≡ [] }
    {
        self.lent = 0;
        self.start = 0;
        self.end = 0;
        let came = read_piece(stream, &mut self.bytes)?;
        self.end = came;
        self.start = came;
        Ok(came)
    }
}

// Reads once into the first bytes, as many as a piece may have.
fn read_piece<T: Read>(stream: &mut T, bytes: &mut [u8]) -> io::Result<usize>
    requires { PIECE_LIMIT ≤ length bytes.old }
    ensures within { IfOk result (λ n. n ≤ PIECE_LIMIT) }
    ensures bytes { ReadConsumes (T.remaining stream.old) (T.remaining stream.new) result bytes.new }
{
    stream.read(&mut bytes[..PIECE_LIMIT])
}
