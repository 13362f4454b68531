//! The end of a connection whose client may still send: closed at once, it would be reset, and the last reply
//! could be lost with it (RFC 1122, 4.2.2.13).

use crate::curfew::{Curfew, has_passed};
use crate::silence::is_silence;
use crate::stream::ClientStream;
use lmtp_talk::{EndCause, read_some};
use std::io::Read;
use std::time::Duration;

/// How long what the client still sends is read, in milliseconds.
const TIME: u64 = 1_000;

/// Milliseconds that each read of it waits at most.
const WAIT: u64 = 100;

/// How many of these reads may bring nothing.
const SILENT_READS: u32 = 10;

/// How many are made at most, so that they end where the clock stands still.
const READS: u32 = 10_000_000;

/// The bytes that each of them asks for.
const READ_SIZE: usize = 4_096;

/// Before a connection is closed: after a conversation that the server ended, and after QUIT where bytes are unread, it
/// is shut down for writing, and what the client still sends is read and dropped for a second, however much comes.
/// `waits` says that bytes of the stream were read which the conversation didn't ask for.
pub fn close<T: Read + ClientStream, E: Curfew>(
    stream: &mut T,
    waits: bool,
    end: EndCause,
    curfew: &E,
) {
    let mut room = [0; READ_SIZE];
    let is_unread = match end {
        EndCause::Stopped | EndCause::ReadBound => true,
        EndCause::Quit => waits || has_unread(stream, &mut room),
        EndCause::EndOfInput | EndCause::ReadFault | EndCause::WriteFault => false,
    };
    if is_unread {
        let _ = stream.shutdown_write();
        drain(stream, &mut room, curfew);
    }
}

// Reads at once what is unread, and says whether anything was; nothing where that can't be asked without waiting.
fn has_unread<T: Read + ClientStream>(stream: &mut T, room: &mut [u8]) -> bool {
    if stream.set_nonblocking(true).is_err() {
        return false;
    }
    match stream.read(room) {
        Ok(0) | Err(_) => false,
        Ok(_) => stream.set_nonblocking(false).is_ok(),
    }
}

// Reads on until the client has closed its end, the second is over, or the client was silent for as long; a read that
// timed out doesn't end it before, since the bytes of a far client may still be on their way.
fn drain<T: Read + ClientStream, E: Curfew>(stream: &mut T, room: &mut [u8], curfew: &E) {
    if stream
        .set_read_timeout(Duration::from_millis(WAIT))
        .is_err()
    {
        return;
    }
    let begun = curfew.moment();
    let mut silent: u32 = 0;
    for _ in 0..READS {
        match read_some(stream, room) {
            Ok(0) => return,
            Ok(_) => {}
            Err(error) if is_silence(&error) => silent = silent.saturating_add(1),
            Err(_) => return,
        }
        if silent >= SILENT_READS
            || has_passed(begun, curfew.moment(), Duration::from_millis(TIME))
        {
            return;
        }
    }
}
