//! When a stream's error says that nothing happened within its time.

ghost use Rattle.std.specs.Prelude.{IsTrue, ◌↔◌};
ghost use Rattle.std.specs.IoError.{error_kind};
ghost use Rattle.lmtp_tcp.specs.Silence.{IsSilence};

use std::io::{Error, ErrorKind};

/// Whether a call was given up because nothing happened within the stream's time.
pub fn is_silence(error: &Error) -> bool
    ensures { IsTrue result ↔ IsSilence (error_kind error.now) }
{
    matches!(error.kind(), ErrorKind::WouldBlock | ErrorKind::TimedOut)
}
