//! What the log calls things.

ghost use Rattle.std.specs.Prelude.{◌≡◌};
ghost use Rattle.lmtpd_log.specs.Words.{cause_text, outcome_word, is_refusal, unknown_word};

use crate::pairs::Unknown;
use lmtp_talk::EndCause;
use mail_world::{Outcome, Reply};

/// What the log calls the cause of a conversation's end.
pub(crate) fn cause_text(end: EndCause) -> &'static str
    ensures { result.now ≡ cause_text end }
{
    match end {
        EndCause::Quit => "quit",
        EndCause::EndOfInput => "end-of-input",
        EndCause::ReadFault => "read-fault",
        EndCause::WriteFault => "write-fault",
        EndCause::Stopped => "stopped",
        EndCause::ReadBound => "read-bound",
    }
}

/// What the log calls what became of a copy.
pub(crate) fn outcome_word(outcome: Outcome) -> &'static str
    ensures { result.now ≡ outcome_word outcome }
{
    match outcome {
        Outcome::Stored => "stored",
        Outcome::Failed => "not-stored",
        Outcome::NoRoom => "no-room",
        Outcome::TooLarge => "too-large",
        Outcome::OverQuota => "over-quota",
        Outcome::Malformed => "malformed",
    }
}

/// What the log calls the reason for which a recipient isn't known.
pub(crate) fn unknown_word(reason: Unknown) -> &'static str
    ensures { result.now ≡ unknown_word reason }
{
    match reason {
        Unknown::Domain => "domain",
        Unknown::Mailbox => "mailbox",
    }
}

/// Whether it refuses a command.
pub(crate) fn is_refusal(reply: Reply) -> bool
    ensures { result ≡ is_refusal reply }
{
    matches!(
        reply,
        Reply::Refused(_)
            | Reply::NoSuchBox
            | Reply::TooMany
            | Reply::Busy
            | Reply::OutOfOrder
            | Reply::LineTooLong
    )
}
