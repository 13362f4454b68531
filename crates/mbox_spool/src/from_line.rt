//! What is missing of a From line that breaks off, so that it ends with a date.
ghost use Rattle.std.specs.Prelude.{◌≡◌, ◌≤◌, IfSome, IfNone, Some, None, [], length};
ghost use Rattle.mail_world.specs.FromLines.{missing_else, missing_after, goes_on};
ghost use Rattle.mbox_spool.specs.Tail.{missing_most};

/// What is missing after `From `.
pub(crate) const MISSING_FIRST: &[u8] = b"MAILER-DAEMON Thu Jan  1 00:00:00 1970";

const DATE: &[u8] = b"Thu Jan  1 00:00:00 1970";

const SPACE_DATE: &[u8] = b" Thu Jan  1 00:00:00 1970";

/// What is missing after one byte more.
pub(crate) fn missing_after(missing: &'static [u8], byte: u8) -> &'static [u8]
    requires { length missing.now ≤ missing_most }
    ensures is { result.now ≡ missing_after missing.now byte }
    ensures most { length result.now ≤ missing_most }
{
    match missing {
        [] => date_after(byte),
        [first, rest @ ..] => {
            if byte == *first {
                rest
            } else {
                match date_goes_on(missing.len(), *first, rest, byte) {
                    Some(missing) => missing,
                    None => date_after(byte),
                }
            }
        }
    }
}

// After a word of the address the date may come, and within one it can't.
fn date_after(byte: u8) -> &'static [u8]
    ensures is { result.now ≡ missing_else [] byte }
    ensures most { length result.now ≤ missing_most }
{
    if byte == b' ' { DATE } else { SPACE_DATE }
}

// What is missing where the date has another name or number than the one that is missing, of which the first byte is
// that.
fn date_goes_on(count: usize, first: u8, rest: &'static [u8], byte: u8) -> Option<&'static [u8]>
    requires { length rest.now ≤ missing_most }
    ensures some { IfSome result (λ missing. goes_on count first rest.now byte ≡ Some missing.now) }
    ensures most { IfSome result (λ missing. length missing.now ≤ missing_most) }
    ensures none { IfNone result (goes_on count first rest.now byte ≡ None) }
{
    match (count, first, byte) {
        (24, _, b'M') => Some(b"on Jan  1 00:00:00 1970"),
        (24, _, b'W') => Some(b"ed Jan  1 00:00:00 1970"),
        (24, _, b'F') => Some(b"ri Jan  1 00:00:00 1970"),
        (24, _, b'S') => Some(b"at Jan  1 00:00:00 1970"),
        (24, _, _) => None,
        (23, b'h', b'u') => Some(b"e Jan  1 00:00:00 1970"),
        (23, b'a', b'u') => Some(b"n Jan  1 00:00:00 1970"),
        (23, _, _) => None,
        (20, _, b'F') => Some(b"eb  1 00:00:00 1970"),
        (20, _, b'M') => Some(b"ar  1 00:00:00 1970"),
        (20, _, b'A') => Some(b"pr  1 00:00:00 1970"),
        (20, _, b'S') => Some(b"ep  1 00:00:00 1970"),
        (20, _, b'O') => Some(b"ct  1 00:00:00 1970"),
        (20, _, b'N') => Some(b"ov  1 00:00:00 1970"),
        (20, _, b'D') => Some(b"ec  1 00:00:00 1970"),
        (20, _, _) => None,
        (19, b'a', b'u') => Some(b"n  1 00:00:00 1970"),
        (19, b'p', b'u') => Some(b"g  1 00:00:00 1970"),
        (19, _, _) => None,
        (18, b'n', b'l') | (18, b'r', b'y') => Some(b"  1 00:00:00 1970"),
        (16, _, b'1'..=b'3') => Some(b"0 00:00:00 1970"),
        (0..=15, b'0'..=b'9', b'0'..=b'9') => Some(rest),
        _ => None,
    }
}
