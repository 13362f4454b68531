//! What the files of mailboxes have after a mailbox's name.

ghost use Rattle.std.specs.Prelude.{◌≡◌, codes, Some, MatchOption};
ghost use Rattle.std.specs.List.{list_all};
ghost use Rattle.clap.specs.Words.{first_of, found_of, rows_of};
ghost use Rattle.lmtpd_words.specs.Words.{IsNoSuffix, IsSuffixOr, is_of_suffix, is_suffix};

use crate::words::{DEFAULT_SUFFIX, SUFFIX_LIMIT};
use clap::ArgMatches;

/// The suffix that was given, and else the usual one; none where the text is none.
pub fn suffix_of<'a>(matches: &ArgMatches<'a>) -> Option<&'a str>
    ensures { let given = first_of (codes "mailbox-suffix") (rows_of (found_of matches.now)) in
        MatchOption result (IsNoSuffix given) (λ suffix. IsSuffixOr given suffix.now) }
{
    match matches.get_str("mailbox-suffix") {
        Some(text) => suffix_in(text),
        None => Some(DEFAULT_SUFFIX),
    }
}

fn suffix_in(text: &str) -> Option<&str>
    ensures { MatchOption result (IsNoSuffix (Some text.now)) (λ suffix. IsSuffixOr (Some text.now) suffix.now) }
{
    if is_suffix(text) { Some(text) } else { None }
}

fn is_suffix(text: &str) -> bool
    ensures { result ≡ is_suffix text.now }
{
    text.len() <= SUFFIX_LIMIT && are_of_suffix(text.as_bytes())
}

fn are_of_suffix(text: &[u8]) -> bool
    ensures { result ≡ list_all is_of_suffix text.now }
{
    text.iter().all(|b| is_of_suffix(*b))
}

fn is_of_suffix(b: u8) -> bool
    ensures { result ≡ is_of_suffix b }
{
    b.is_ascii_alphanumeric() || matches!(b, b'.' | b'_' | b'-')
}
