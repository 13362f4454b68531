//! Mailboxes that a reader gives.
ghost use Rattle.std.specs.Prelude.{◌<◌, length, IfOk};
ghost use Rattle.std.specs.Io.{ReadsAtMost};
ghost use Rattle.std.specs.Io.KnownBytes.{ReadConsumes};
ghost use Rattle.mbox_check.specs.Form.{IsFoundOf};

use crate::fault::Unread;
use crate::form::FormCheck;
use crate::found::Found;
use std::io::{ErrorKind, Read};

/// Counts the letters of the mailbox that the reader has left, in pieces of at most the buffer's length. A broken form
/// ends it before the reader does.
pub fn check_mailbox<R: Read>(reader: &mut R, buffer: &mut [u8]) -> Result<Found, Unread>
    requires { 0 < length buffer.old }
    ensures { IfOk result (IsFoundOf (R.remaining reader.old)) }
{
    let mut form = FormCheck::new();
    for _ in 0..u64::MAX {
        let size = read_some(reader, buffer)?;
        if size == 0 {
            return Ok(form.end());
        }
        if let Err(found) = form.piece(&buffer[..size]) {
            return Ok(found);
        }
    }
    Err(Unread)
}

// One read, made again where a signal interrupted it.
fn read_some<R: Read>(reader: &mut R, buffer: &mut [u8]) -> Result<usize, Unread>
    ensures bound { ReadsAtMost result buffer.new }
    ensures bytes { ReadConsumes (R.remaining reader.old) (R.remaining reader.new) result buffer.new }
{
    for _ in 0..u64::MAX {
        match reader.read(buffer) {
            Ok(size) => return Ok(size),
            Err(error) if error.kind() == ErrorKind::Interrupted => {}
            Err(_) => return Err(Unread),
        }
    }
    Err(Unread)
}
