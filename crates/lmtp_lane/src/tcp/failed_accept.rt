//! Why an accept failed, and for how long none is tried then.

ghost use Rattle.std.specs.Prelude.{◌≡◌, ◌*◌, min};
ghost use Rattle.std.specs.IoError.{raw_os_error};
ghost use Rattle.lmtp_lane.specs.Accepts.{first_of, is_broken, is_passing, is_refused, why_failed};

use std::io::Error;

/// Why an accept failed, by when the next one is made.
#[derive(Clone, Copy, PartialEq, Eq)]
pub(super) enum FailedAccept {
    /// What listens doesn't any more: there is no next one.
    Broken,
    /// Nobody came, or who came had gone: at once.
    Passing,
    /// The network or a rule of the machine refused who came: after a moment.
    Refused,
    /// The machine lacks something, as descriptors: after a pause, longer each time.
    Lacking,
}

/// By the number that Linux gives the error; one without a number is the machine's.
pub(super) fn why_failed(error: &Error) -> FailedAccept
    ensures { result ≡ why_failed (raw_os_error error.now) }
{
    first_of(is_broken(error), is_passing(error), is_refused(error))
}

fn first_of(broken: bool, passing: bool, refused: bool) -> FailedAccept
    ensures { result ≡ first_of broken passing refused }
{
    match (broken, passing, refused) {
        (true, _, _) => FailedAccept::Broken,
        (false, true, _) => FailedAccept::Passing,
        (false, false, true) => FailedAccept::Refused,
        (false, false, false) => FailedAccept::Lacking,
    }
}

const EPERM: i32 = 1;

const EINTR: i32 = 4;

const EBADF: i32 = 9;

const EAGAIN: i32 = 11;

const EFAULT: i32 = 14;

const EINVAL: i32 = 22;

const ENONET: i32 = 64;

const EPROTO: i32 = 71;

const ENOTSOCK: i32 = 88;

const ENOPROTOOPT: i32 = 92;

const EOPNOTSUPP: i32 = 95;

const ENETDOWN: i32 = 100;

const ENETUNREACH: i32 = 101;

const ECONNABORTED: i32 = 103;

const EHOSTDOWN: i32 = 112;

const EHOSTUNREACH: i32 = 113;

fn is_broken(error: &Error) -> bool
    ensures { result ≡ is_broken (raw_os_error error.now) }
{
    matches!(
        error.raw_os_error(),
        Some(EBADF | EFAULT | EINVAL | ENOTSOCK)
    )
}

fn is_passing(error: &Error) -> bool
    ensures { result ≡ is_passing (raw_os_error error.now) }
{
    matches!(error.raw_os_error(), Some(EAGAIN | EINTR | ECONNABORTED))
}

fn is_refused(error: &Error) -> bool
    ensures { result ≡ is_refused (raw_os_error error.now) }
{
    matches!(
        error.raw_os_error(),
        Some(
            EPROTO
                | EPERM
                | ENOPROTOOPT
                | EOPNOTSUPP
                | ENETDOWN
                | ENETUNREACH
                | EHOSTDOWN
                | EHOSTUNREACH
                | ENONET
        )
    )
}

/// The longest pause of a machine that lacks something, in tenths of a second.
const LONGEST_PAUSE: u32 = 50;

/// The pause after this one, in tenths of a second.
pub(super) fn next_pause(tenths: u32) -> u32
    ensures { result ≡ min (tenths * 2) 50 }
{
    tenths.saturating_mul(2).min(LONGEST_PAUSE)
}
