//! Reads and writes that are made again where a signal interrupted them.

ghost use Rattle.std.specs.Prelude.{◌≡◌, ◌<◌, length, take, IfOk, OnErr, IsTrue, ◌↔◌};
ghost use Rattle.std.specs.Io.{ReadsAtMost, WritesAtMost};
ghost use Rattle.std.specs.Io.KnownBytes.{Keeps, ReadConsumes};

use std::io;
use std::io::{Error, ErrorKind, Read, Write};

// How often a call is made. A socket with a timeout is interrupted too where the process is stopped and goes
// on.
const TRIES: u32 = 1_000;

/// One read; its error is `Interrupted` only where each of a thousand tries was interrupted.
pub fn read_some<T: Read>(stream: &mut T, buffer: &mut [u8]) -> io::Result<usize>
    ensures bound { ReadsAtMost result buffer.new }
    ensures bytes { ReadConsumes (T.remaining stream.old) (T.remaining stream.new) result buffer.new }
{
    for _ in 0..TRIES {
        match stream.read(buffer) {
            Ok(size) => return Ok(size),
            Err(error) if error.kind() == ErrorKind::Interrupted => {}
            Err(error) => return Err(error),
        }
    }
    Err(Error::from(ErrorKind::Interrupted))
}

/// One write, likewise.
pub fn write_some<T: Write>(stream: &mut T, bytes: &[u8]) -> io::Result<usize>
    ensures bound { WritesAtMost result bytes.now }
{
    for _ in 0..TRIES {
        match stream.write(bytes) {
            Ok(size) => return Ok(size),
            Err(error) if error.kind() == ErrorKind::Interrupted => {}
            Err(error) => return Err(error),
        }
    }
    Err(Error::from(ErrorKind::Interrupted))
}
