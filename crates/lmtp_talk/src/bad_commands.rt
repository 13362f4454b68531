//! Replies to bad commands, and how many were said: a client who says nothing else may be sent away.

ghost use Rattle.std.specs.Prelude.{◌≡◌};
ghost use Rattle.lmtp_talk.specs.BadCommands.{is_bad, bad_after};

use lmtp_session::Act;
use mail_world::{BadCommand, Reply};

/// Whether the reply is to a bad command: its code is 500, 501, 502, 503 or 555.
fn is_bad(reply: Reply) -> bool
    ensures { result ≡ is_bad reply }
{
    match reply {
        Reply::Refused(BadCommand::TooLarge) => false,
        Reply::Refused(_) | Reply::OutOfOrder | Reply::LineTooLong => true,
        _ => false,
    }
}

/// How many replies to bad commands were said, with that act's.
pub(crate) fn bad_after(act: Act, before: u32) -> u32
    ensures { result ≡ bad_after act before }
{
    match act {
        Act::Say(reply) if is_bad(reply) => before.saturating_add(1),
        _ => before,
    }
}
