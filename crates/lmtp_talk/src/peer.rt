//! The other end of a conversation: bytes come from it and go to it, and it may fail.

ghost use Rattle.std.specs.Prelude.{◌≡◌, ◌<◌, length, IfOk, OnErr};
ghost use Rattle.lmtp_talk.specs.ReadBuffer.{piece_of};
ghost use Rattle.lmtp_talk.specs.Peer.{PeerState, WasRead, HasBrought, HasWritten, PeerFailed};

use crate::client::Traffic;
use crate::pause::Pause;
use crate::read_buffer::ReadBuffer;
use thiserror::Error;

/// A read or a write failed, for a reason that the peer keeps to itself.
#[derive(Clone, Copy, Debug, PartialEq, Eq, Error)]
#[error("the peer failed")]
pub struct PeerFault;

/// What a read came to.
#[derive(Clone, Copy, Debug, PartialEq, Eq)]
pub enum Came {
    /// That many bytes came, one at least; the buffer lends them.
    Bytes(usize),
    /// There are no more.
    End,
    /// The server is to stop.
    Stop,
}

/// A client, as the server sees it.
pub trait Peer {
    // what was read of it, what is still to come, what it was given, and how often it was read and failed
    ghost state: { Self → PeerState };

    /// Lets the buffer lend the bytes that come next, where the conversation stands so. What it lent before is gone.
    /// A peer is read with the same buffer each time, which nobody else changes meanwhile. It is told how many replies to
    /// bad commands its client got since its last data that ended, and may say stop for that.
    fn read(
        &mut self,
        buffer: &mut ReadBuffer,
        pause: Pause,
        bad_commands: u32,
    ) -> Result<Came, PeerFault>
        ensures reads { WasRead 1 (state self.old) (state self.new) }
        ensures ok { IfOk result (λ came. HasBrought (state self.old) (state self.new) (piece_of buffer.new) came) }
        ensures err { OnErr result (PeerFailed (state self.old) (state self.new)) };

    /// Writes a prefix of the bytes, one at least, and says how many.
    fn write(&mut self, bytes: &[u8]) -> Result<usize, PeerFault>
        requires { 0 < length bytes.now }
        ensures reads { (state self.new).reads ≡ (state self.old).reads }
        ensures ok { IfOk result (λ n. HasWritten (state self.old) (state self.new) bytes.now n) }
        ensures err { OnErr result (PeerFailed (state self.old) (state self.new)) };

    /// Who the client is, and how many bytes came and went.
    fn traffic(&self) -> Traffic;
}
