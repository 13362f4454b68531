//! Which lines of a client at rest end the conversation of a server that is to stop.

ghost use Rattle.std.specs.Prelude.{◌≡◌, ◌==◌, ◌≤◌, ◌-◌, ◌↔◌, IsTrue};
ghost use Rattle.std.specs.Duration.{as_nanos};
ghost use Rattle.std.specs.List.{before_first};
ghost use Rattle.mail_world.specs.Commands.{trimmed, is_word};
ghost use Rattle.lmtp_tcp.specs.AtRest.{verb_of, is_idle, is_one_more, is_refused, ends_at_rest, begins_mail};

use crate::curfew::has_passed;
use bstr::ByteSlice;
use lmtp_talk::Pause;
use lmtp_wire::first_line;
use std::time::Duration;

/// How many seconds a client at rest may be silent once the server's end was asked for.
const SILENCE: u64 = 3;

/// Whether a client at rest was silent for so long: both from the moment when the server's end was asked for, and from
/// the one when its last bytes came.
pub(crate) fn has_rested(asked: Duration, heard: Duration, now: Duration) -> bool
    ensures { IsTrue result ↔ ((3_000_000_000 ≤ as_nanos now - as_nanos asked)
        × (3_000_000_000 ≤ as_nanos now - as_nanos heard)) }
{
    let silence = Duration::from_secs(SILENCE);
    has_passed(asked, now, silence) && has_passed(heard, now, silence)
}

/// Whether the first line of what waits ends the conversation. `had_mail` says that MAIL began a transaction since the
/// stop was asked for.
pub(crate) fn ends_at_rest(pause: Pause, had_mail: bool, text: &[u8]) -> bool
    ensures { result ≡ ends_at_rest pause had_mail text.now }
{
    match first_line(text) {
        Some(line) => is_refused(pause, had_mail, verb_of(line)),
        None => false,
    }
}

/// Whether the first line of what waits is MAIL.
pub(crate) fn begins_mail(text: &[u8]) -> bool
    ensures { result ≡ begins_mail text.now }
{
    match first_line(text) {
        Some(line) => is_word(verb_of(line), b"MAIL"),
        None => false,
    }
}

fn is_refused(pause: Pause, had_mail: bool, verb: &[u8]) -> bool
    ensures { result ≡ is_refused pause had_mail verb.now }
{
    match pause {
        Pause::Within => false,
        Pause::Before => is_idle(verb) || is_one_more(had_mail, verb),
        Pause::Between => { is_idle(verb) || is_word(verb, b"LHLO") || is_one_more(had_mail, verb) }
    }
}

fn is_idle(verb: &[u8]) -> bool
    ensures { result ≡ is_idle verb.now }
{
    is_word(verb, b"RSET")
        || is_word(verb, b"NOOP")
        || is_word(verb, b"VRFY")
        || is_word(verb, b"HELP")
}

fn is_one_more(had_mail: bool, verb: &[u8]) -> bool
    ensures { result ≡ is_one_more had_mail verb.now }
{
    had_mail && is_word(verb, b"MAIL")
}

// What stands before the first space; spaces and tabs at the end of a line don't count.
fn verb_of(line: &[u8]) -> &[u8]
    ensures { result.now ≡ verb_of line.now }
{
    before_space(without_blanks_after(line))
}

fn before_space(text: &[u8]) -> &[u8]
    ensures { result.now ≡ before_first (λ b. b == 32) text.now }
{
    match text.find_byte(b' ') {
        Some(at) => &text[..at],
        None => text,
    }
}

fn without_blanks_after(text: &[u8]) -> &[u8]
    ensures { result.now ≡ trimmed text.now }
{
    match text.rfind_not_byteset(b" \t") {
        Some(last) => &text[..last + 1],
        None => b"",
    }
}

// The same word, whatever the case of its letters.
fn is_word(text: &[u8], word: &[u8]) -> bool
    ensures { result ≡ is_word word.now text.now }
{
    text.eq_ignore_ascii_case(word)
}
