//! A reader and a writer as the one peer of a conversation.

ghost use Rattle.std.specs.Prelude.{[], None};

use lmtp_house::{Came, Client, Pause, Peer, PeerFault, ReadBuffer, Traffic};
use std::io::{Read, Write};
use std::time::Duration;

/// A client whose bytes come from a reader, and whose replies go to a writer. It never says that the server is to stop.
#[derive(Drop)]
pub struct StreamPeer<R, W> {
    pub reader: R,
    pub writer: W,
    /// How many reads were made; it stays at its largest value.
    pub reads: u64,
    /// How many reads and writes failed; it stays at its largest value.
    pub failures: u64,
    /// How many bytes the reader brought, and how many the writer took; each count stays at its largest value.
    pub bytes_read: u64,
    pub bytes_written: u64,
}

impl<R: Read, W: Write> Peer for StreamPeer<R, W> {
    ghost state = { λ p. record {
      read = None;
      unread = R.remaining p.reader;
      written = W.contents p.writer;
      reads = p.reads;
      failures = p.failures;
      stops = 0;
      holds = [];
    } };

    fn read(
        &mut self,
        buffer: &mut ReadBuffer,
        _pause: Pause,
        _bad_commands: u32,
    ) -> Result<Came, PeerFault> {
        self.reads = self.reads.saturating_add(1);
        match buffer.take_piece(&mut self.reader) {
            Ok(0) => Ok(Came::End),
            Ok(size) => {
                self.bytes_read = self.bytes_read.saturating_add(size as u64);
                Ok(Came::Bytes(size))
            }
            Err(_) => {
                self.failures = self.failures.saturating_add(1);
                Err(PeerFault)
            }
        }
    }

    /// A write that takes nothing is a failure.
    fn write(&mut self, bytes: &[u8]) -> Result<usize, PeerFault> {
        match self.writer.write(bytes) {
            Ok(0) | Err(_) => {
                self.failures = self.failures.saturating_add(1);
                Err(PeerFault)
            }
            Ok(size) => {
                self.bytes_written = self.bytes_written.saturating_add(size as u64);
                Ok(size)
            }
        }
    }

    /// It has no address, as a client of a Unix socket, and no clock.
    fn traffic(&self) -> Traffic {
        Traffic {
            client: Client::Unix,
            began: Duration::MAX,
            read: self.bytes_read,
            written: self.bytes_written,
        }
    }
}
